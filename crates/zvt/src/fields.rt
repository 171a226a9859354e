// Fields: one id byte, then the value; a list of them.
ghost use Rattle.std.specs.Prelude.{◌≡◌, false, ◌+◌, ◌<◌, ◌≤◌, length, get_or};
ghost use Rattle.zvt_rules.specs.Fields.{format_of};
ghost use Rattle.zvt.specs.FieldSteps.{digits_answer, decimals_answer, field_bounds, plain_answer, field_part, field_located, list_located, noted, noted_all};

use crate::format::{format_of, holds_digits};
use crate::objects::{Bounds, Located, Tally, bounds_in, len_of, read_run, tally_of};
use crate::part::Part;
use zvt_rules::{Format, Listed, Outline, Refusal, Span};

// The number in the first d bytes, each a length digit.
pub(crate) fn digits_of(p: Part, d: usize) -> Result<usize, Refusal>
    requires { d ≤ 3 }
    ensures { result ≡ digits_answer d p.entry.at p.entry.bytes.now }
{
    let s = p.bytes;
    let mut v: usize = 0;
    for i in 0..d {
        if s.len() <= i {
            return Err(p.fault(Refusal::ENDS_TOO_SOON, i));
        }
        let b = s[i];
        if b < 0xF0 || 0xF9 < b {
            return Err(p.fault(Refusal::NO_LENGTH_DIGIT, i));
        }
        v = v * 10 + usize::from(b - 0xF0);
    }
    Ok(v)
}

// Decimal digits in both halves of each byte.
pub(crate) fn all_decimal(p: Part) -> Result<(), Refusal>
    ensures { result ≡ decimals_answer p.entry.at p.entry.bytes.now }
{
    for (i, &b) in p.bytes.iter().enumerate() {
        if 0x90 < b & 0xF0 || 0x09 < b & 0x0F {
            return Err(p.fault(Refusal::NOT_DECIMAL, i));
        }
    }
    Ok(())
}

// The bounds of the field that a part begins with, whose id has that format.
pub(crate) fn field_bounds(p: Part, format: Format) -> Result<Bounds, Refusal>
    requires { (0 < length p.bytes.now) × (format ≡ format_of (get_or p.bytes.now 0 0)) }
    ensures { result ≡ field_bounds p.entry.at p.entry.bytes.now }
{
    match format {
        Format::Unknown => Err(p.fault(Refusal::UNKNOWN_FIELD, 0)),
        Format::Fixed(k) => bounds_in(p, 1, 1, k, false),
        Format::Digits(d) => {
            let v = digits_of(p.behind(1), d)?;
            bounds_in(p, 1, 1 + d, v, false)
        }
        Format::Container => {
            let (size, v) = len_of(p.behind(1))?;
            bounds_in(p, 1, 1 + size, v, true)
        }
    }
}

// The field that a part begins with, whose value, plain bytes, lies there: digits where digits must be.
pub(crate) fn read_plain(p: Part, b: Bounds, n: u8) -> Result<Tally, Refusal>
    requires { (0 < length p.bytes.now) × (b.from ≤ b.to) × (b.to ≤ length p.bytes.now) }
    ensures { result ≡ plain_answer n p.entry.at b p.entry.bytes.now }
{
    let whole = Tally {
        size: b.to,
        objects: n,
        spare: 0,
    };
    if holds_digits(p.bytes[0]) {
        all_decimal(p.between(b.from, b.to))?;
    }
    Ok(whole)
}

// The field that a part begins with, whose value lies there, after n objects.
fn read_value(p: Part, b: Bounds, n: u8) -> Result<Tally, Refusal>
    requires { (0 < length p.bytes.now) × (field_bounds p.at p.bytes.now ≡ Ok b) }
    ensures { result ≡ field_part false n p.entry.at p.entry.bytes.now }
{
    if !b.nested {
        return read_plain(p, b, n);
    }
    let r = read_run(p.between(b.from, b.to), Outline::LEVELS, n)?;
    Ok(tally_of(b, r.objects, r.spare))
}

// The field that a part begins with, after n objects, and where its value begins; twice says that its id stood before.
pub(crate) fn read_field(p: Part, n: u8, twice: bool) -> Result<Located<usize>, Refusal>
    requires { 0 < length p.bytes.now }
    ensures { result ≡ field_located twice n p.entry.at p.entry.bytes.now }
{
    let format = format_of(p.bytes[0]);
    if let Format::Unknown = format {
        return Err(p.fault(Refusal::UNKNOWN_FIELD, 0));
    }
    if twice {
        return Err(p.fault(Refusal::FIELD_TWICE, 0));
    }
    let b = field_bounds(p, format)?;
    Ok(Located {
        tally: read_value(p, b, n)?,
        lies: b.from,
    })
}

// Where a field lies that has the id, else what was noted before.
fn noted(before: Option<Span>, id: u8, f: Listed) -> Option<Span>
    ensures { result ≡ noted id f before }
{
    if f.id == id {
        return Some(Span {
            from: f.from,
            to: f.to,
        });
    }
    before
}

fn noted_all(before: [Option<Span>; 4], ids: [u8; 4], f: Listed) -> [Option<Span>; 4]
    ensures { result ≡ noted_all ids f before }
{
    let a = noted(before[0], ids[0], f);
    let b = noted(before[1], ids[1], f);
    let c = noted(before[2], ids[2], f);
    let d = noted(before[3], ids[3], f);
    [a, b, c, d]
}

// Reads a list of fields, and notes where the values of those with the ids lie, if they are there. seen marks the ids that came.
pub(crate) fn read_list(p: Part, ids: [u8; 4]) -> Result<Located<[Option<Span>; 4]>, Refusal>
    ensures { result ≡ list_located ids p.entry.at p.entry.bytes.now }
{
    let mut seen = [false; 256];
    let mut lies = [None; 4];
    let mut i: usize = 0;
    let mut objects: u8 = 0;
    let mut spare: usize = 0;
    // Each field has its own size: no iterator steps so.
    while i < p.bytes.len() {
        let id = p.bytes[i];
        let mark = usize::from(id);
        let rest = p.behind(i);
        let field = read_field(rest, objects, seen[mark])?;
        let t = field.tally;
        seen[mark] = true;
        let from = rest.at + field.lies;
        let to = rest.at + t.size;
        let more = noted_all(lies, ids, Listed { id, from, to });
        lies = more;
        i += t.size;
        objects = t.objects;
        spare += t.spare;
    }
    let tally = Tally {
        size: i,
        objects,
        spare,
    };
    Ok(Located { tally, lies })
}
