// The types that the definitions of a message and the code that reads one both name. The definitions stand in specs/, their laws
// in proofs/; the code stands in crate zvt.

#![tactic(auto)]

ghost use Rattle.std.specs.Prelude.{◌≡◌};
ghost use Rattle.zvt_rules.specs.Reading.{unplaced};

// R31: "A refusal answers its number and, where it names one (R46), its place, and nothing else." A place in a message is counted from 0
// at its start. The number is a number: the second writing says it so, and spent fuel has one that no refusal has (`never-spent`).
#[derive(Clone, Copy)]
pub struct Refusal {
    pub number: u8,
    pub place: Option<usize>,
}

impl Refusal {
    // R1: "the bytes end before a thing that they began"
    pub const ENDS_TOO_SOON: u8 = 1;

    // R2: "a header announces more than 4,096 bytes of body (M3)"
    pub const TOO_LONG: u8 = 2;

    // R3: "bytes are left over behind the one message (M8) or block"
    pub const LEFT_OVER: u8 = 3;

    // R4: "a byte that is no length digit stands where one is due (F3)"
    pub const NO_LENGTH_DIGIT: u8 = 4;

    // R5: "a field id is unknown (F2)"
    pub const UNKNOWN_FIELD: u8 = 5;

    // R6: "a half of a byte is no decimal digit (F5)"
    pub const NOT_DECIMAL: u8 = 6;

    // R7: "a field id stands a second time (F4)"
    pub const FIELD_TWICE: u8 = 7;

    // R8: "a second tag byte has its top bit set (O4)"
    pub const TAG_TOO_LONG: u8 = 8;

    // R9: "an object is at depth 5 (O9)"
    pub const TOO_DEEP: u8 = 9;

    // R10: "an object is the 65th (O10)"
    pub const TOO_MANY_OBJECTS: u8 = 10;

    // R11: "the room lent for what is to be written is too small (R38, T20, T21)"
    pub const NO_ROOM: u8 = 11;

    // R12: "there is no such lane (P1)"
    pub const NO_SUCH_LANE: u8 = 12;

    // R13: "the lane is not idle"
    pub const LANE_NOT_IDLE: u8 = 13;

    // R14: "the lane is idle"
    pub const LANE_IDLE: u8 = 14;

    // R15: "the pair, or a body that is not empty, is not allowed in this phase (P15 to P22)"
    pub const NOT_ALLOWED: u8 = 15;

    // R16: "a number is outside its limits (P4, P5, P6, T8, T20, T21)"
    pub const OUTSIDE_LIMITS: u8 = 16;

    // R17: "there is no sale to reverse (P12)"
    pub const NO_SALE: u8 = 17;

    // R18: "lines and open payments are 64 already (P3)"
    pub const BOOK_FULL: u8 = 18;

    // R19: "a payment is open at closing (P2)"
    pub const PAYMENT_OPEN: u8 = 19;

    // R20: "the check of a block is wrong (T5)"
    pub const WRONG_CHECK: u8 = 20;

    // R21: "number, used count or filling of a block is wrong (T7)"
    pub const WRONG_CONTENTS: u8 = 21;

    // R22: "the first length byte of a container or data object is 80 or 83 to FF (O8)"
    pub const NO_LENGTH: u8 = 22;

    // R23: "a record of the till is neither an opening as the desk records it (T26) nor the reply that is due"
    pub const RECORD_NOT_DUE: u8 = 23;

    // R46: "No other refusal names one"
    pub fn unplaced(number: u8) -> Self
        ensures { result ≡ unplaced number }
    {
        Refusal {
            number,
            place: None,
        }
    }
}

// F2: how a field's value follows its id: so many bytes, that many length digits, a container's length, or no such field.
#[derive(Clone, Copy)]
pub enum Format {
    Unknown,
    Fixed(usize),
    Digits(usize),
    Container,
}

// What a body is: plain bytes (M7), a field list (M5), or a field list after a password (M6).
#[derive(Clone, Copy)]
pub enum Layout {
    Plain,
    List,
    Secured,
}

// What a status information tells. P20: "code (27), amount (04) and receipt (87)"
#[derive(Clone, Copy)]
pub struct Status {
    pub code: Option<u8>,
    pub amount: Option<u64>,
    pub receipt: Option<u16>,
}

// The pair of class and instruction, where the body starts and how long it is.
#[derive(Clone, Copy)]
pub struct Header {
    pub class: u8,
    pub instruction: u8,
    pub start: usize,
    pub length: usize,
}

// An accepted message in outline: beside its header the number of its data objects, and whether every length in it was shortest.
#[derive(Clone, Copy)]
pub struct Outline {
    pub class: u8,
    pub instruction: u8,
    pub start: usize,
    pub length: usize,
    pub objects: u8,
    pub shortest: bool,
}

impl Outline {
    // M3: "A body has at most 4,096 bytes."
    pub const MOST_BODY: usize = 4096;

    // O10: "A message has at most 64 objects, inner ones counted"
    pub const MOST_OBJECTS: u8 = 64;

    // O9: "Objects of the container itself are at depth 1 .. down to depth 4."
    pub const LEVELS: u8 = 4;
}

// The message that bytes begin with and where the next begins, or its refusal; and the number of its fields, whose ids were written down.
#[derive(Clone, Copy)]
pub struct FirstRead {
    pub answer: Result<(Outline, usize), Refusal>,
    pub count: usize,
}

// Where a value lies in a message, from and to.
#[derive(Clone, Copy)]
pub struct Span {
    pub from: usize,
    pub to: usize,
}

// A field of a list: its id, and where its value lies in the message, from and to.
#[derive(Clone, Copy)]
pub struct Listed {
    pub id: u8,
    pub from: usize,
    pub to: usize,
}

// Where a message's password lies, if it has one, and the values of the fields with four ids, if they are there.
#[derive(Clone, Copy)]
pub struct Places {
    pub password: Option<Span>,
    pub fields: [Option<Span>; 4],
}

// What a message tells a desk: the first byte of a plain body, and what a status information tells.
#[derive(Clone, Copy)]
pub struct ToldBody {
    pub first: Option<u8>,
    pub status: Status,
}

// A header, and what the body behind it tells, or its refusal.
#[derive(Clone, Copy)]
pub struct Heard {
    pub class: u8,
    pub instruction: u8,
    pub start: usize,
    pub length: usize,
    pub told: Result<ToldBody, Refusal>,
}
