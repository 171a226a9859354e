// Files of lines: a line and the next, and in a file of cases the answer that stands behind a line. The word `added`, in a line or in an
// answer, stands for the bytes that the lines `add` put together.
ghost use Rattle.std.specs.Prelude.{◌≡◌, ◌+◌, ◌<◌, ◌≤◌, min, length};
ghost use Rattle.io.specs.Counts.{IsPrefixLen};

use buffers::{add, add_all, add_bytes, upto};

// The answer that a file has for a line: where it ends in the file, on how many lines it stands, and how long its text is.
#[derive(Clone, Copy)]
struct Wanted {
    end: usize,
    lines: u64,
    size: usize,
}

// The next line of a file: where it ends, how long the text of the answer is that the file has for it, where the line behind that answer
// begins, and on how many lines of the file both stand.
#[derive(Clone, Copy)]
pub(crate) struct Entry {
    pub(crate) end: usize,
    pub(crate) due: usize,
    pub(crate) next: usize,
    pub(crate) lines: u64,
}

// Where the line behind one begins that ends there.
pub(crate) fn behind(end: usize, s: &[u8]) -> usize
    requires { end ≤ length s.now }
    ensures { result ≡ min (end + 1) (length s.now) }
{
    (end + 1).min(s.len())
}

// The word w; for `added` the digits of these bytes.
fn add_word(w: &[u8], bytes: &[u8], at: usize, out: &mut [u8]) -> usize {
    match w {
        b"added" => add_bytes(bytes, at, out),
        _ => add_all(w, at, out),
    }
}

// The line s with the digits of these bytes for each word `added`, as text behind the first at bytes of out.
fn add_expanded(s: &[u8], bytes: &[u8], at: usize, out: &mut [u8]) -> usize {
    let mut to = at;
    for (k, word) in s.split(|b| *b == b' ').enumerate() {
        if 0 < k {
            to = add(b' ', to, out);
        }
        to = add_word(word, bytes, to, out);
    }
    to
}

// The lines of s from at on that begin with `= `, as text.
fn wants(at: usize, s: &[u8], bytes: &[u8], out: &mut [u8]) -> Wanted
    requires { at ≤ length s.now }
    ensures { (at ≤ result.end) × (result.end ≤ length s.now) }
{
    let mut size: usize = 0;
    let mut lines: u64 = 0;
    let mut from = at;
    // Where the answers end is asked for, too, and an iterator of lines does not say it.
    while from < s.len() {
        let end = buffers::find(s, from, b'\n');
        let [b'=', _, answer @ ..] = &s[from..end] else {
            break;
        };
        size = add_expanded(answer, bytes, size, out);
        size = add(b'\n', size, out);
        lines = lines.wrapping_add(1);
        from = behind(end, s);
    }
    Wanted {
        end: from,
        lines,
        size,
    }
}

// The line of s that begins at from; its answer behind it goes to want as text, with the first count bytes of those added.
pub(crate) fn next_of(from: usize, s: &[u8], count: usize, added: &[u8], want: &mut [u8]) -> Entry
    requires { from < length s.now }
    ensures { (from ≤ result.end) × (result.end ≤ length s.now) × (from < result.next) × (result.next ≤ length s.now) }
{
    let n = upto(count, added);
    let end = buffers::find(s, from, b'\n');
    let w = wants(behind(end, s), s, &added[..n], want);
    Entry {
        end,
        due: w.size,
        next: w.end,
        lines: w.lines.wrapping_add(1),
    }
}

// The line s in full, as text with the first count bytes of those added: how long it is.
pub(crate) fn full_line(s: &[u8], count: usize, added: &[u8], full: &mut [u8]) -> usize
    ensures { IsPrefixLen result full.new }
{
    let n = upto(count, added);
    let size = add_expanded(s, &added[..n], 0, full);
    upto(size, full)
}
