// The words of a line: what a line asks for, in a script or with the further words of a file of cases.

#![tactic(auto)]

mod notation;
mod shapes;
mod split;

ghost use Rattle.std.specs.Prelude.{◌≡◌, ◌≤◌, length};
ghost use Rattle.std.specs.Option.{option_map, IfSome};
ghost use Rattle.words.specs.Lines.{begun, number_at, first_number, values_of, bytes_at, runs_of, bare, read_as, line_of, Ordered};
ghost use Rattle.words.specs.Steps.{Fits, put, ends, Sized, put_both, Told};

use crate::notation::{id_of, put_bytes, size_of, word_number};
use crate::shapes::{Shape, shape_of};
use crate::split::{following, word};

// Where a script stands, but for its desk: whether the further words are understood, whether it goes on, how many bytes are lent to a
// call that writes, how many lines were played, and how many bytes were added.
#[derive(Clone, Copy)]
pub struct Script {
    pub further: bool,
    pub more: bool,
    pub room: usize,
    pub number: u64,
    pub added: usize,
}

impl Script {
    // The most bytes that can be lent: a message with a body of 4,096 bytes.
    pub const ROOM: usize = 4101;

    pub fn start(further: bool) -> Self
        ensures { result ≡ begun further }
    {
        Script {
            further,
            more: true,
            room: Script::ROOM,
            number: 0,
            added: 0,
        }
    }
}

// The first word of a line. Bad: the line is not understood. Pass: it is blank or begins with #, or the script has ended.
#[derive(Clone, Copy)]
pub enum What {
    Bad,
    Pass,
    Close,
    Sale,
    Refund,
    Reversal,
    Terminal,
    Lost,
    Book,
    Lanes,
    Net,
    Tape,
    Replay,
    Room,
    Read,
    Name,
    Shorten,
    Field,
    Header,
    First,
    Status,
    List,
    Block,
    LastBlock,
    Each,
    Damage,
    DamageLast,
    Write,
    Records,
    Blocks,
    ReplayTape,
    ReplayRecords,
    Amount,
    Password,
    Receipt,
    Add,
}

// A line: its word, its numbers, as far as it has any, and its bytes: a message up to size, and from there the till's own name up to end.
// The id that a message is asked for is the first number.
#[derive(Clone, Copy)]
pub struct Order {
    pub what: What,
    pub first: u64,
    pub second: u64,
    pub third: u64,
    pub size: usize,
    pub end: usize,
}

// The numbers of a line.
#[derive(Clone, Copy)]
struct Values {
    first: u64,
    second: u64,
    third: u64,
}

// Where the message of a line ends, and where the till's own name does behind it.
#[derive(Clone, Copy)]
struct Ends {
    size: usize,
    end: usize,
}

// An order without numbers and bytes.
fn empty(what: What) -> Order
    ensures { result ≡ (bare what).order }
{
    Order {
        what,
        first: 0,
        second: 0,
        third: 0,
        size: 0,
        end: 0,
    }
}

// Number k of a line that has so many; 0 where there is none.
#[tactic(auto, unfolding(crate::specs::Lines::number_at))]
fn number_at(numbers: u8, k: u8, s: &[u8]) -> Option<u64>
    ensures { result ≡ number_at numbers k s.now }
{
    if numbers < k {
        return Some(0);
    }
    word_number(word(s, usize::from(k)))
}

// The first number, which is the id where a field is asked for.
#[tactic(auto, unfolding(crate::specs::Lines::first_number))]
fn first_number(shape: Shape, s: &[u8]) -> Option<u64>
    ensures { result ≡ first_number shape s.now }
{
    if shape.ids == 0 {
        return number_at(shape.numbers, 1, s);
    }
    id_of(word(s, following(s)))
}

// How many bytes run k of a line of that shape has; 0 where there is none.
#[tactic(auto, unfolding(crate::specs::Lines::bytes_at))]
fn size_at(shape: Shape, k: u8, s: &[u8]) -> Option<usize>
    ensures { result ≡ option_map length (bytes_at shape k s.now) }
{
    if shape.runs < k {
        return Some(0);
    }
    size_of(word(s, usize::from(shape.numbers) + usize::from(k)))
}

// Its bytes go to the start of out.
#[tactic(auto, unfolding(crate::specs::Lines::bytes_at))]
fn put_at(shape: Shape, k: u8, s: &[u8], out: &mut [u8])
    requires { Fits (bytes_at shape k s.now) out.old }
    ensures { out.new ≡ put (bytes_at shape k s.now) out.old }
{
    if shape.runs < k {
        return;
    }
    put_bytes(word(s, usize::from(shape.numbers) + usize::from(k)), out);
}

// The numbers of a line of that shape.
#[tactic(auto, unfolding(crate::specs::Lines::values_of, crate::specs::Lines::if_some))]
fn numbers_of(shape: Shape, s: &[u8]) -> Option<Values>
    ensures { result ≡ values_of shape s.now }
{
    let first = first_number(shape, s)?;
    let second = number_at(shape.numbers, 2, s)?;
    let third = number_at(shape.numbers, 3, s)?;
    Some(Values {
        first,
        second,
        third,
    })
}

// Where the runs of bytes of a line of that shape end, in so much room.
#[tactic(auto, unfolding(crate::specs::Lines::runs_of, crate::specs::Lines::if_some))]
fn sizes_of(shape: Shape, room: usize, s: &[u8]) -> Option<Ends>
    ensures runs { result ≡ option_map ends (runs_of shape room s.now) }
    ensures inside { IfSome result (λ e. (e.size ≤ e.end) × (e.end ≤ room)) }
{
    let size = size_at(shape, 1, s)?;
    let end = size.checked_add(size_at(shape, 2, s)?)?;
    (end <= room).then_some(Ends { size, end })
}

// The runs of bytes, of which the first has that size, go to the start of bytes.
#[tactic(auto, unfolding(crate::specs::Lines::runs_of, crate::specs::Lines::if_some))]
fn put_runs(shape: Shape, size: usize, s: &[u8], bytes: &mut [u8])
    requires { Sized (runs_of shape (length bytes.old) s.now) size }
    ensures { bytes.new ≡ put_both (runs_of shape (length bytes.old) s.now) bytes.old }
{
    put_at(shape, 1, s, bytes);
    put_at(shape, 2, s, &mut bytes[size..]);
}

// A line of that shape.
#[tactic(auto, unfolding(crate::specs::Lines::read_as, crate::specs::Lines::if_some))]
fn read_as(shape: Shape, s: &[u8], bytes: &mut [u8]) -> Option<Order>
    ensures told { Told (read_as shape (length bytes.old) s.now) result bytes.old bytes.new }
    ensures inside { IfSome result (λ o. (o.size ≤ o.end) × (o.end ≤ length bytes.new)) }
{
    let count = usize::from(shape.numbers) + usize::from(shape.runs) + usize::from(shape.ids);
    if following(s) != count {
        return None;
    }
    let values = numbers_of(shape, s)?;
    let ends = sizes_of(shape, bytes.len(), s)?;
    put_runs(shape, ends.size, s, bytes);
    Some(Order {
        what: shape.what,
        first: values.first,
        second: values.second,
        third: values.third,
        size: ends.size,
        end: ends.end,
    })
}

// The order of a line; its bytes go to the start of bytes. A line that is not understood leaves them as they were.
#[tactic(auto, unfolding(crate::specs::Lines::line_of, crate::specs::Lines::passed_over))]
pub fn order_of(at: Script, s: &[u8], bytes: &mut [u8]) -> Order
    ensures ordered { Ordered (line_of at (length bytes.old) s.now) result bytes.old bytes.new }
    ensures inside { (result.size ≤ result.end) × (result.end ≤ length bytes.new) }
{
    if !at.more || s.first().is_none_or(|b| *b == b'#') {
        return empty(What::Pass);
    }
    let shape = shape_of(at.further, word(s, 0));
    read_as(shape, s, bytes).unwrap_or(empty(What::Bad))
}
