// Data objects: a run of objects, each tag, length, value; the value of some is again a run.
ghost use Rattle.std.specs.Prelude.{◌≡◌, ◌+◌, ◌-◌, ◌≤◌, length};
ghost use Rattle.zvt_rules.specs.Objects.{form_size};
ghost use Rattle.zvt_rules.specs.Shortest.{form_for};
ghost use Rattle.zvt.specs.ObjectSteps.{tag_answer, len_answer, within, head_answer, tally_of, one_answer, run_answer};

use crate::part::Part;
use zvt_rules::{Outline, Refusal};

// Where the parts of an object or a field lie: the tag or id ends at tag, the value goes from from up to to. A nested value is a
// run of objects.
#[derive(Clone, Copy)]
pub(crate) struct Bounds {
    pub(crate) tag: usize,
    pub(crate) from: usize,
    pub(crate) to: usize,
    pub(crate) nested: bool,
}

// What is known of bytes that were read: how many, the objects begun by their end, and how many bytes fewer they take when
// every length is shortest.
#[derive(Clone, Copy)]
pub(crate) struct Tally {
    pub(crate) size: usize,
    pub(crate) objects: u8,
    pub(crate) spare: usize,
}

// Bytes that were read, and where lies what was asked for in them.
#[derive(Clone, Copy)]
pub(crate) struct Located<T> {
    pub(crate) tally: Tally,
    pub(crate) lies: T,
}

// How many bytes a tag takes.
pub(crate) fn tag_size(p: Part) -> Result<usize, Refusal>
    ensures { result ≡ tag_answer p.entry.at p.entry.bytes.now }
{
    let s = p.bytes;
    if s.len() == 0 {
        return Err(p.fault(Refusal::ENDS_TOO_SOON, 0));
    }
    if s[0] & 0x1F != 0x1F {
        return Ok(1);
    }
    if s.len() == 1 {
        return Err(p.fault(Refusal::ENDS_TOO_SOON, 1));
    }
    if s[1] & 0x80 != 0 {
        Err(p.fault(Refusal::TAG_TOO_LONG, 1))
    } else {
        Ok(2)
    }
}

// How many bytes a length takes, and the length.
pub(crate) fn len_of(p: Part) -> Result<(usize, usize), Refusal>
    ensures { result ≡ len_answer p.entry.at p.entry.bytes.now }
{
    let s = p.bytes;
    let cut = p.fault(Refusal::ENDS_TOO_SOON, s.len());
    if s.len() == 0 {
        return Err(cut);
    }
    let b = s[0];
    if b < 0x80 {
        return Ok((1, usize::from(b)));
    }
    if b == 0x81 {
        if s.len() < 2 {
            return Err(cut);
        }
        return Ok((2, usize::from(s[1])));
    }
    if b == 0x82 {
        if s.len() < 3 {
            return Err(cut);
        }
        let two = u16::from_be_bytes([s[1], s[2]]);
        return Ok((3, usize::from(two)));
    }
    Err(p.fault(Refusal::NO_LENGTH, 0))
}

// A value of v bytes that begins at from: it ends within the part.
pub(crate) fn bounds_in(
    p: Part,
    tag: usize,
    from: usize,
    v: usize,
    nested: bool,
) -> Result<Bounds, Refusal>
    requires { from ≤ length p.bytes.now }
    ensures { result ≡ within p.entry.at tag from v nested p.entry.bytes.now }
{
    let s = p.bytes;
    if s.len() - from < v {
        return Err(p.fault(Refusal::ENDS_TOO_SOON, s.len()));
    }
    let to = from + v;
    Ok(Bounds {
        tag,
        from,
        to,
        nested,
    })
}

// The bounds of the object that a part begins with.
pub(crate) fn head_of(p: Part) -> Result<Bounds, Refusal>
    ensures { result ≡ head_answer p.entry.at p.entry.bytes.now }
{
    let tag = tag_size(p)?;
    let (size, v) = len_of(p.behind(tag))?;
    bounds_in(p, tag, tag + size, v, p.bytes[0] & 0x20 != 0)
}

// How many bytes the shortest length of v bytes takes.
pub(crate) fn form_size(v: usize) -> usize
    ensures { result ≡ form_size (form_for v) }
{
    if v < 128 {
        return 1;
    }
    if v < 256 {
        return 2;
    }
    3
}

// The tally of an object or a container whose value takes saved bytes fewer when it is shortest.
pub(crate) fn tally_of(b: Bounds, objects: u8, saved: usize) -> Tally
    requires { (b.tag + form_size (form_for (b.to - b.from - saved)) ≤ b.from) × (b.from + saved ≤ b.to) }
    ensures { result ≡ tally_of b objects saved }
{
    let v = b.to - b.from - saved;
    let short = b.tag + form_size(v) + v;
    Tally {
        size: b.to,
        objects,
        spare: b.to - short,
    }
}

// Reads a run, with left levels left and after n objects.
#[cycle(read_one_read_run)]
pub(crate) fn read_run(p: Part, left: u8, n: u8) -> Result<Tally, Refusal>
    ensures { result ≡ run_answer left n p.entry.at p.entry.bytes.now }
{
    let mut i: usize = 0;
    let mut objects = n;
    let mut spare: usize = 0;
    // Each object has its own size: no iterator steps so.
    while i < p.bytes.len() {
        let o = read_one(p.behind(i), left, objects)?;
        i += o.size;
        objects = o.objects;
        spare += o.spare;
    }
    Ok(Tally {
        size: i,
        objects,
        spare,
    })
}

// Reads the object that a part begins with.
#[cycle(read_one_read_run)]
pub(crate) fn read_one(p: Part, left: u8, n: u8) -> Result<Tally, Refusal>
    ensures { result ≡ one_answer left n p.entry.at p.entry.bytes.now }
{
    if Outline::MOST_OBJECTS <= n {
        return Err(p.fault(Refusal::TOO_MANY_OBJECTS, 0));
    }
    if left == 0 {
        return Err(p.fault(Refusal::TOO_DEEP, 0));
    }
    let count = n + 1;
    let b = head_of(p)?;
    if !b.nested {
        return Ok(tally_of(b, count, 0));
    }
    let r = read_run(p.between(b.from, b.to), left - 1, count)?;
    Ok(tally_of(b, r.objects, r.spare))
}
