// What an opening, a lane, a line, the day book and the desk are, with their limits and constructors. The course of a payment stands in
// specs/, its laws in proofs/; the functions of the desk stand in crate desk.

#![tactic(auto)]

ghost use Rattle.std.specs.Prelude.{◌≡◌};
ghost use Rattle.desk_rules.specs.Lanes.{blank_status, blank_line, idle_lane, waiting_lane, running_lane, reported_lane};
ghost use Rattle.desk_rules.specs.Memory.{empty_book, fresh_desk, Valid};
ghost use Rattle.desk_rules.specs.Numbers.{amount_ok, receipt_ok, password_ok};

use zvt_rules::{Refusal, Status};

#[derive(Clone, Copy, PartialEq, Eq)]
pub enum Kind {
    Sale,
    Refund,
    Reversal,
}

// Unclear comes first: an element past the end of a list is read as the first variant with zeros, and so is a blank line. The same
// holds of a phase and an idle lane.
#[derive(Clone, Copy, PartialEq, Eq)]
pub enum Outcome {
    Unclear,
    Declined,
    Approved,
}

#[derive(Clone, Copy, PartialEq, Eq)]
pub enum Phase {
    Idle,
    Waiting,
    Running,
}

// What a till asks a terminal for.
#[derive(Clone, Copy)]
pub enum Opening {
    Sale { amount: u64 },
    Refund { password: u32, amount: u64 },
    Reversal { password: u32, receipt: u16 },
}

// A lane: its phase, what was asked, the receipt that a reversal names (else 0), and the remembered status.
#[derive(Clone, Copy)]
pub struct Lane {
    pub phase: Phase,
    pub kind: Kind,
    pub asked: u64,
    pub named: u16,
    pub status: Status,
}

// A line of the day book.
#[derive(Clone, Copy)]
pub struct Line {
    pub lane: u8,
    pub kind: Kind,
    pub asked: u64,
    pub settled: u64,
    pub receipt: u16,
    pub outcome: Outcome,
    pub code: u8,
}

// What an accepted call does to its lane: nothing; another state; or the payment's end, with outcome, settled amount, code.
#[derive(Clone, Copy)]
pub enum Moved {
    Stays,
    Becomes(Lane),
    Ends(Outcome, u64, u8),
}

// The day book: its lines so far are the first count. No list that grows: a desk is copied, and asks for no memory.
#[derive(Clone, Copy)]
pub struct Book {
    pub lines: [Line; Book::LINES],
    pub count: usize,
}

// Which desks are Valid the contracts say, and not this type: definitions build desks of any lanes and book (`moved_desk`).
#[derive(Clone, Copy)]
pub struct Desk {
    pub lanes: [Lane; Lane::COUNT as usize],
    pub book: Book,
}

// What a call answers, and the desk as it then is: how many bytes were written, or the refusal.
#[derive(Clone, Copy)]
pub struct Answer {
    pub reply: Result<usize, Refusal>,
    pub desk: Desk,
}

impl Opening {
    pub const MOST_COMMAND: usize = 16;
}

impl Lane {
    pub const COUNT: u8 = 8;

    pub const MOST_ASKED: u64 = 999_999_999_999;

    pub const MOST_RECEIPT: u16 = 9_999;

    pub const MOST_PASSWORD: u32 = 999_999;

    pub fn idle() -> Self
        ensures { result ≡ idle_lane }
    {
        Lane {
            phase: Phase::Idle,
            kind: Kind::Sale,
            asked: 0,
            named: 0,
            status: nothing_told(),
        }
    }

    pub fn waiting(kind: Kind, asked: u64, named: u16) -> Self
        ensures { result ≡ waiting_lane kind asked named }
    {
        Lane {
            phase: Phase::Waiting,
            kind,
            asked,
            named,
            status: nothing_told(),
        }
    }

    pub fn running(self) -> Self
        ensures { result ≡ running_lane self }
    {
        Lane {
            phase: Phase::Running,
            ..self
        }
    }

    pub fn reported(self, status: Status) -> Self
        ensures { result ≡ reported_lane self status }
    {
        Lane { status, ..self }
    }

    pub fn amount_ok(amount: u64) -> bool
        ensures { result ≡ amount_ok amount }
    {
        (1..=Lane::MOST_ASKED).contains(&amount)
    }

    pub fn receipt_ok(receipt: u16) -> bool
        ensures { result ≡ receipt_ok receipt }
    {
        (1..=Lane::MOST_RECEIPT).contains(&receipt)
    }

    pub fn password_ok(password: u32) -> bool
        ensures { result ≡ password_ok password }
    {
        password <= Lane::MOST_PASSWORD
    }
}

impl Line {
    pub fn blank() -> Self
        ensures { result ≡ blank_line }
    {
        Line {
            lane: 0,
            kind: Kind::Sale,
            asked: 0,
            settled: 0,
            receipt: 0,
            outcome: Outcome::Unclear,
            code: 0,
        }
    }
}

// A status that no terminal reported.
pub fn nothing_told() -> Status
    ensures { result ≡ blank_status }
{
    Status {
        code: None,
        amount: None,
        receipt: None,
    }
}

impl Book {
    pub const LINES: usize = 64;

    pub fn empty() -> Self
        ensures { result ≡ empty_book }
    {
        let l = Line::blank();
        Book {
            lines: [l; Book::LINES],
            count: 0,
        }
    }
}

impl Desk {
    pub fn fresh() -> Self
        ensures answer { result ≡ fresh_desk }
        ensures valid { Valid result }
    {
        let l = Lane::idle();
        let b = Book::empty();
        Desk {
            lanes: [l; Lane::COUNT as usize],
            book: b,
        }
    }
}
