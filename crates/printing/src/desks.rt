// What a desk and a tape hold: the book, the lanes, the net turnover, the blocks; and what a replay of a tape tells.
ghost use Rattle.std.specs.Prelude.{◌≡◌, ◌∷◌, ◌+◌, ◌*◌, ◌≤◌, ◌<◌, length, nat_abs};
ghost use Rattle.basics.specs.Text.{text, add_all};
ghost use Rattle.desk_rules.specs.Memory.{Valid, lines_of_desk};
ghost use Rattle.printing.specs.Answers.{Printed};
ghost use Rattle.printing.specs.Desks.{kind_text, outcome_text, ending_text, line_text, lines_text, book_text, replayed_text, book_room};
ghost use Rattle.printing.specs.Desks.{code_text, number_or_none, status_text, shown, remembered, payment_text, lane_text};
ghost use Rattle.printing.specs.Desks.{lanes_text, lanes_room, signed_text, net_text, tape_text};

use crate::answers::{add_number, counted};
use buffers::{add, add_all, add_bytes, add_decimal, add_hex};
use desk_rules::{Book, Desk, Kind, Lane, Line, Outcome, Phase};
use tape_rules::Block;
use zvt_rules::{Refusal, Status};

// No book has more text, and no replay, by the contracts of both: 64 lines of at most 76 bytes, and the last line.
pub const BOOK: usize = Book::LINES * 76 + 64;

fn kind_text(kind: Kind) -> &'static [u8]
    ensures { result.now ≡ kind_text kind }
{
    match kind {
        Kind::Sale => b"sale",
        Kind::Refund => b"refund",
        Kind::Reversal => b"reversal",
    }
}

fn outcome_text(outcome: Outcome) -> &'static [u8]
    ensures { result.now ≡ outcome_text outcome }
{
    match outcome {
        Outcome::Unclear => b"unclear",
        Outcome::Declined => b"declined",
        Outcome::Approved => b"approved",
    }
}

// A word with a blank before it.
fn add_word(word: &[u8], at: usize, out: &mut [u8]) -> usize
    ensures { text result out.new ≡ add_all (32 ∷ word.now) (text at out.old) }
{
    let to = add(b' ', at, out);
    add_all(word, to, out)
}

// Outcome and code, and the line's end.
fn add_ending(outcome: Outcome, code: u8, at: usize, out: &mut [u8]) -> usize
    ensures { text result out.new ≡ add_all (32 ∷ ending_text outcome code) (text at out.old) }
{
    let mut to = add_word(outcome_text(outcome), at, out);
    to = add(b' ', to, out);
    to = add_hex(code, to, out);
    add(b'\n', to, out)
}

// A line of the book, with its number.
fn add_line(number: u64, l: Line, at: usize, out: &mut [u8]) -> usize
    requires { number < 100 }
    ensures added { text result out.new ≡ add_all (line_text number l) (text at out.old) }
    ensures long { length (line_text number l) ≤ 76 }
{
    let mut to = add_decimal(number, at, out);
    to = add_number(u64::from(l.lane), to, out);
    to = add_word(kind_text(l.kind), to, out);
    to = add_number(l.asked, to, out);
    to = add_number(l.settled, to, out);
    to = add_number(u64::from(l.receipt), to, out);
    add_ending(l.outcome, l.code, to, out)
}

// The lines of the book, at the start of out.
fn add_lines(desk: Desk, out: &mut [u8]) -> usize
    requires { Valid desk }
    ensures added { text result out.new ≡ add_all (lines_text (lines_of_desk desk)) (text 0 out.old) }
    ensures long { length (lines_text (lines_of_desk desk)) ≤ 64 * 76 }
{
    let mut to: usize = 0;
    for k in 0..Book::LINES {
        let Some(l) = desk::line_at(desk, k) else {
            return to;
        };
        to = add_line(k as u64 + 1, l, to, out);
    }
    to
}

// The lines of the book, and their count.
pub fn book(desk: Desk, out: &mut [u8]) -> usize
    requires { Valid desk }
    ensures { Printed book_room (book_text (lines_of_desk desk)) result out.old out.new }
{
    let to = add_lines(desk, out);
    counted(b"end", desk.book.count as u64, to, out)
}

// What a replay gives: the lines of the desk's book, the place at which it stopped, and how it ended there.
pub fn replayed(desk: Desk, place: usize, ending: Result<(), Refusal>, out: &mut [u8]) -> usize
    requires { Valid desk }
    ensures { Printed book_room (replayed_text (lines_of_desk desk) place ending) result out.old out.new }
{
    let mut to = add_lines(desk, out);
    to = add_all(b"end", to, out);
    to = add_number(place as u64, to, out);
    match ending {
        Ok(()) => add_all(b" ok\n", to, out),
        Err(f) => counted(b" refused", u64::from(f.number), to, out),
    }
}

fn add_code(c: Option<u8>, at: usize, out: &mut [u8]) -> usize
    ensures { text result out.new ≡ add_all (code_text c) (text at out.old) }
{
    match c {
        None => add(b'-', at, out),
        Some(b) => add_hex(b, at, out),
    }
}

// An amount with a blank before it.
fn add_amount(a: Option<u64>, at: usize, out: &mut [u8]) -> usize
    ensures added { text result out.new ≡ add_all (32 ∷ number_or_none a) (text at out.old) }
    ensures long { length (number_or_none a) ≤ 20 }
{
    match a {
        None => add_all(b" -", at, out),
        Some(n) => add_number(n, at, out),
    }
}

// A receipt with a blank before it. It is shorter than an amount, which is known only of a number that is matched at its own type.
fn add_receipt(r: Option<u16>, at: usize, out: &mut [u8]) -> usize
    ensures added { text result out.new ≡ add_all (32 ∷ number_or_none r) (text at out.old) }
    ensures long { length (number_or_none r) ≤ 5 }
{
    match r {
        None => add_all(b" -", at, out),
        Some(n) => add_number(u64::from(n), at, out),
    }
}

// What a status information told, and the line's end.
pub(crate) fn add_status(s: Status, at: usize, out: &mut [u8]) -> usize
    ensures added { text result out.new ≡ add_all (status_text s) (text at out.old) }
    ensures long { length (status_text s) ≤ 30 }
{
    let mut to = add_code(s.code, at, out);
    to = add_amount(s.amount, to, out);
    to = add_receipt(s.receipt, to, out);
    add(b'\n', to, out)
}

// A receipt 0000 from a terminal is shown as none.
fn remembered(s: Status) -> Status
    ensures { result ≡ remembered s }
{
    let receipt = s.receipt.filter(|n| *n != 0);
    Status { receipt, ..s }
}

// Kind, amount asked and receipt named of a lane that is not idle, each with a blank before it.
fn add_payment(l: Lane, at: usize, out: &mut [u8]) -> usize
    ensures added { text result out.new ≡ add_all (payment_text l) (text at out.old) }
    ensures long { length (payment_text l) ≤ 36 }
{
    let mut to = add_word(kind_text(l.kind), at, out);
    to = add_number(l.asked, to, out);
    add_number(u64::from(l.named), to, out)
}

// A lane, with its number.
fn add_lane(lane: u8, l: Lane, at: usize, out: &mut [u8]) -> usize
    requires { lane < 8 }
    ensures added { text result out.new ≡ add_all (lane_text lane l) (text at out.old) }
    ensures long { length (lane_text lane l) ≤ 76 }
{
    let mut to = add_decimal(u64::from(lane), at, out);
    match l.phase {
        Phase::Idle => add_all(b" idle\n", to, out),
        Phase::Waiting => {
            to = add_all(b" waiting", to, out);
            to = add_payment(l, to, out);
            add(b'\n', to, out)
        }
        Phase::Running => {
            to = add_all(b" running", to, out);
            to = add_payment(l, to, out);
            to = add(b' ', to, out);
            add_status(remembered(l.status), to, out)
        }
    }
}

// The eight lanes.
pub fn lanes(desk: Desk, out: &mut [u8]) -> usize
    requires { Valid desk }
    ensures { Printed lanes_room (lanes_text desk.lanes) result out.old out.new }
{
    let mut to: usize = 0;
    for lane in 0..Lane::COUNT {
        let Ok(l) = desk::lane_at(desk, lane) else {
            return to;
        };
        to = add_lane(lane, l, to, out);
    }
    to
}

fn signed(n: i64, out: &mut [u8]) -> usize
    ensures { Printed 64 (signed_text n) result out.old out.new }
{
    let sign = if n < 0 { add(b'-', 0, out) } else { 0 };
    let to = add_decimal(n.unsigned_abs(), sign, out);
    add(b'\n', to, out)
}

// Net turnover in cents.
pub fn net(desk: Desk, out: &mut [u8]) -> usize
    requires { Valid desk }
    ensures { Printed 64 (net_text (lines_of_desk desk)) result out.old out.new }
{
    signed(desk::net(desk), out)
}

// The blocks of a tape, a line of hex for each, and their count.
pub fn blocks(tape: &[u8], out: &mut [u8]) -> usize
    ensures { Printed (64 + 3 * length tape.now) (tape_text tape.now) result out.old out.new }
{
    let mut to: usize = 0;
    for block in tape.chunks_exact(Block::SIZE) {
        to = add_bytes(block, to, out);
        to = add(b'\n', to, out);
    }
    counted(b"end", (tape.len() / Block::SIZE) as u64, to, out)
}
