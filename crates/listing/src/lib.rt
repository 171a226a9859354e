// The text of a listing: a line for each message of an input, and a last line.

#![tactic(auto)]

ghost use Rattle.std.specs.Prelude.{◌≡◌, ◌*◌, ◌≤◌, length};
ghost use Rattle.io.specs.Counts.{IsPrefixLen};
ghost use Rattle.zvt_rules.specs.Message.{first_of};
ghost use Rattle.basics.specs.Buffers.{Whole};
ghost use Rattle.basics.specs.Text.{text, add_all};
ghost use Rattle.zvt_rules.specs.Listing.{start_text, size_text, end_text, ok_text, refused_text, ids_of, listing};
ghost use Rattle.listing.specs.Lines.{each_text, read_text, next_of, Within};

use buffers::{add, add_all, add_decimal, add_hex};
use zvt_rules::{Outline, Refusal};

// An input of more bytes is refused before its first message.
pub const LIMIT: usize = 65536;

// No listing is longer, by the law listing-long. The shortest message has the most text for its bytes: three, and a line of at most 19.
pub const TEXT: usize = LIMIT * 7;

// Ids, a blank before each.
fn add_each(ids: &[u8], at: usize, out: &mut [u8]) -> usize
    ensures { text result out.new ≡ add_all (each_text ids.now) (text at out.old) }
{
    let mut to = at;
    for id in ids {
        to = add(b' ', to, out);
        to = add_hex(*id, to, out);
    }
    to
}

// The ids of the list of the message that s begins with.
pub fn add_ids(s: &[u8], at: usize, out: &mut [u8]) -> usize
    ensures { text result out.new ≡ add_all (ids_of (first_of s.now)) (text at out.old) }
{
    let mut ids = [0u8; 256];
    let first = zvt::read_first(s, &mut ids);
    add_each(&ids[..first.count], at, out)
}

// Number and pair.
fn add_start(number: u64, m: Outline, at: usize, out: &mut [u8]) -> usize
    ensures { text result out.new ≡ add_all (start_text number m.class m.instruction) (text at out.old) }
{
    let mut to = add_decimal(number, at, out);
    to = add(b' ', to, out);
    to = add_hex(m.class, to, out);
    add_hex(m.instruction, to, out)
}

// Body length and form.
pub fn add_size(m: Outline, at: usize, out: &mut [u8]) -> usize
    ensures { text result out.new ≡ add_all (size_text m.length m.shortest) (text at out.old) }
{
    let mut to = add(b' ', at, out);
    to = add_decimal(m.length as u64, to, out);
    if m.shortest {
        add_all(b" short", to, out)
    } else {
        add_all(b" long", to, out)
    }
}

// The line of a message whose list has those ids.
fn message_line(ids: &[u8], number: u64, m: Outline, at: usize, out: &mut [u8]) -> usize
    ensures { text result out.new ≡ add_all (read_text number m (each_text ids.now)) (text at out.old) }
{
    let mut to = add_start(number, m, at, out);
    to = add_size(m, to, out);
    add_each(ids, to, out)
}

fn add_end(count: u64, at: usize, out: &mut [u8]) -> usize
    ensures { text result out.new ≡ add_all (end_text count) (text at out.old) }
{
    let to = add_all(b"end ", at, out);
    add_decimal(count, to, out)
}

fn ok_line(count: u64, at: usize, out: &mut [u8]) -> usize
    ensures { text result out.new ≡ add_all (ok_text count) (text at out.old) }
{
    let to = add_end(count, at, out);
    add_all(b" ok", to, out)
}

fn refused_line(count: u64, number: u8, at: usize, out: &mut [u8]) -> usize
    ensures { text result out.new ≡ add_all (refused_text count number) (text at out.old) }
{
    let mut to = add_end(count, at, out);
    to = add_all(b" refused ", to, out);
    add_decimal(u64::from(number), to, out)
}

// The line of the message that the rest of an input begins with, after count messages, or the last line: where its text ends, and, where
// it is a message's, where the next message begins.
fn next_line(rest: &[u8], count: u32, at: usize, out: &mut [u8]) -> (usize, Option<usize>)
    ensures line { text result.0 out.new ≡ add_all (next_of count rest.now).0 (text at out.old) }
    ensures next { result.1 ≡ (next_of count rest.now).1 }
    ensures within { Within rest.now result.1 }
{
    let listed = u64::from(count);
    if LIMIT < rest.len() {
        return (refused_line(listed, Refusal::TOO_LONG, at, out), None);
    }
    if rest.len() == 0 {
        return (ok_line(listed, at, out), None);
    }
    let mut ids = [0u8; 256];
    let first = zvt::read_first(rest, &mut ids);
    match first.answer {
        Err(f) => (refused_line(listed, f.number, at, out), None),
        Ok((m, next)) => {
            let end = message_line(&ids[..first.count], listed + 1, m, at, out);
            (end, Some(next))
        }
    }
}

// The listing of an input, each line with its end, at the start of out; and where it ends. Nothing of it is cut off where out has TEXT bytes.
pub fn list(s: &[u8], out: &mut [u8]) -> usize
    ensures added { text result out.new ≡ add_all (listing s.now) (text 0 out.old) }
    ensures whole { 65536 * 7 ≤ length out.old → Whole (listing s.now) result out.old out.new }
    ensures inside { IsPrefixLen result out.new }
{
    let mut to: usize = 0;
    let mut from: usize = 0;
    let mut count: u32 = 0;
    // Each message has its own size: no iterator steps so.
    loop {
        let (end, next) = next_line(&s[from..], count, to, out);
        to = add(b'\n', end, out);
        let Some(size) = next else { return to };
        from += size;
        count += 1;
    }
}
