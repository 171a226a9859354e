// The list of a message that was read: where it lies, and its fields one after the other.
ghost use Rattle.std.specs.Prelude.{◌≡◌, ◌≤◌, length};
ghost use Rattle.zvt.specs.ListSteps.{ListIn, ListOf, StandsAt, Was, listed_in};
ghost use Rattle.basics.specs.Buffers.{Whole};
ghost use Rattle.zvt_rules.specs.Listed.{ids_listed, listed_message};
ghost use Rattle.zvt_rules.specs.Message.{read_of};

use crate::fields::field_bounds;
use crate::format::{format_of, layout_of};
use crate::part::Part;
use zvt_rules::{Layout, Listed, Outline, Span};

// Where the list of a message that was read lies, by its layout: no bytes at all where it has none.
fn list_in(s: &[u8], m: Outline) -> Span
    requires { Was s.now m }
    ensures { ListOf result s.now }
{
    let start = m.start;
    let to = s.len();
    match layout_of(m.class, m.instruction) {
        Layout::Plain => Span { from: 0, to: 0 },
        Layout::List => Span { from: start, to },
        Layout::Secured => {
            let from = start + 3;
            Span { from, to }
        }
    }
}

// The field at place at of a list that was read and goes up to end: it is not refused again.
fn field_from(s: &[u8], at: usize, end: usize) -> Option<Listed>
    requires { ListIn at end s.now }
    ensures { StandsAt at end s.now result }
{
    if at == end {
        return None;
    }
    let id = s[at];
    let p = Part {
        bytes: &s[at..end],
        at: 0,
    };
    let Ok(b) = field_bounds(p, format_of(id)) else {
        return None;
    };
    let from = at + b.from;
    let to = at + b.to;
    Some(Listed { id, from, to })
}

// Writes the ids of a list, for which there is room, and answers how many they are.
fn put_ids(s: &[u8], from: usize, end: usize, out: &mut [u8]) -> usize
    requires { ListIn from end s.now × (length (ids_listed (listed_in from end s.now)) ≤ length out.old) }
    ensures { Whole (ids_listed (listed_in from end s.now)) result out.old out.new }
{
    let mut at = from;
    let mut n: usize = 0;
    while let Some(f) = field_from(s, at, end) {
        out[n] = f.id;
        n += 1;
        at = f.to;
    }
    n
}

// Writes the ids of the list of a message that was read.
pub(crate) fn put_own_ids(s: &[u8], m: Outline, out: &mut [u8; 256]) -> usize
    requires { Was s.now m }
    ensures { Whole (ids_listed (listed_message (read_of s.now))) result out.old out.new }
{
    let place = list_in(s, m);
    put_ids(s, place.from, place.to, out)
}
