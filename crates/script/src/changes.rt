// What becomes of bytes that are changed: a message with every value for one of its bytes, a block with every change of a digit.
ghost use Rattle.std.specs.Prelude.{◌≡◌, ◌<◌, length};

use buffers::{add, add_all, add_decimal, add_hex};
use printing::answers;
use tape_rules::Block;
use zvt_rules::Refusal;

// 1,024 digits of a block, each with 15 other values; so many changes of one byte.
const CHANGES: usize = 15360;

const OF_BYTE: usize = 30;

// What reading s comes to with that value for its byte at place: accepted, or the number of its refusal.
fn judged_with(value: u8, place: usize, s: &mut [u8]) -> Result<(), u8>
    requires { place < length s.old }
{
    s[place] = value;
    zvt::read(s).map_err(|f| f.number)?;
    Ok(())
}

fn add_span(first: u8, last: u8, at: usize, out: &mut [u8]) -> usize {
    let to = add_hex(first, at, out);
    if last <= first {
        return to;
    }
    let end = add(b'-', to, out);
    add_hex(last, end, out)
}

// The values from first up to last, which all came to the same.
fn add_range(first: u8, last: u8, v: Result<(), u8>, at: usize, out: &mut [u8]) -> usize {
    let to = add_span(first, last, at, out);
    match v {
        Ok(()) => add_all(b":ok", to, out),
        Err(n) => {
            let end = add(b':', to, out);
            add_decimal(u64::from(n), end, out)
        }
    }
}

// Reads s with each value in turn for its byte at place, and tells the ranges of values that come to the same.
pub(crate) fn each(place: usize, s: &mut [u8], out: &mut [u8]) -> usize {
    if s.len() <= place {
        return add_all(b"no such byte\n", 0, out);
    }
    let mut to: usize = 0;
    let mut first: u8 = 0;
    let mut v = judged_with(0, place, s);
    for value in 1..=u8::MAX {
        let next = judged_with(value, place, s);
        if next != v {
            to = add_range(first, value - 1, v, to, out);
            to = add(b' ', to, out);
            first = value;
            v = next;
        }
    }
    to = add_range(first, u8::MAX, v, to, out);
    add(b'\n', to, out)
}

// A byte with its change number k: the first 15 change its first digit, the others its second.
fn changed(b: u8, k: u8) -> u8
    requires { k < 30 }
{
    let high = b / 16;
    let low = b % 16;
    if k < 15 {
        return (high + k + 1) % 16 * 16 + low;
    }
    high * 16 + (low + k - 14) % 16
}

// Whether reading the block is refused with 20.
fn is_seen(due: Block, s: &[u8]) -> bool {
    tape::read_block(due, s).is_err_and(|f| f.number == Refusal::WRONG_CHECK)
}

// How many changes of one digit of a block are refused with 20. The block is then what it was.
fn seen_of(due: Block, s: &mut [u8]) -> u64
    requires { length s.old ≡ 512 }
{
    let mut seen: u64 = 0;
    for i in 0..CHANGES {
        let at = i / OF_BYTE;
        let was = s[at];
        s[at] = changed(was, (i % OF_BYTE) as u8);
        seen += u64::from(is_seen(due, s));
        s[at] = was;
    }
    seen
}

pub(crate) fn damage(due: Block, s: &mut [u8], out: &mut [u8]) -> usize {
    if s.len() != Block::SIZE {
        return add_all(b"no block\n", 0, out);
    }
    let seen = seen_of(due, s);
    let mut to = add_decimal(CHANGES as u64, 0, out);
    to = add_all(b" changes,", to, out);
    to = answers::add_number(seen, to, out);
    add_all(b" refused 20\n", to, out)
}
