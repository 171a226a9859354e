// The reader of ZVT messages: what the bytes of a terminal say, the same message with every length shortest, and the digits that
// a till writes. Each function says in its contract which definition gives its answer.

#![tactic(auto)]

mod asking;
mod body;
mod digits;
mod fields;
mod format;
mod headers;
mod list;
mod objects;
mod part;
mod told;
mod values;
mod writing;

ghost use Rattle.std.specs.Prelude.{◌≡◌, length};
ghost use Rattle.zvt_rules.specs.Answers.{header_answer, read_answer, first_answer, shorten_answer, shorten_leaves};
ghost use Rattle.basics.specs.Buffers.{Whole};
ghost use Rattle.zvt_rules.specs.Digits.{digit_bytes_of, number_of};
ghost use Rattle.zvt_rules.specs.Heard.{hear_answer};
ghost use Rattle.zvt_rules.specs.Listed.{field_answer, handed_bytes, handed_place, first_ids, places_answer};
ghost use Rattle.zvt_rules.specs.Name.{name_at, card_name, name_place};
ghost use Rattle.zvt_rules.specs.Values.{status_of};

use asking::NO_ID;
use zvt_rules::{FirstRead, Header, Heard, Outline, Places, Refusal, Span, Status};

// The header of the message that s is.
pub fn read_header(s: &[u8]) -> Result<Header, Refusal>
    ensures { result ≡ header_answer s.now }
{
    headers::whole_header(s)
}

// The message that s is.
pub fn read(s: &[u8]) -> Result<Outline, Refusal>
    ensures { result ≡ read_answer s.now }
{
    let message = asking::ask(s, [NO_ID; 4])?;
    Ok(message.outline)
}

// The message that s begins with, and the ids of its list in their order, written to ids. Nothing is written where it is refused.
pub fn read_first(s: &[u8], ids: &mut [u8; 256]) -> FirstRead
    ensures answer { result.answer ≡ first_answer s.now }
    ensures lent { Whole (first_ids s.now) result.count ids.old ids.new }
{
    let answer = first_message(s);
    let count = match answer {
        Err(_) => 0,
        Ok((outline, next)) => list::put_own_ids(&s[..next], outline, ids),
    };
    FirstRead { answer, count }
}

// The message that s begins with, and where the next begins.
fn first_message(s: &[u8]) -> Result<(Outline, usize), Refusal>
    ensures { result ≡ first_answer s.now }
{
    let h = headers::header_of(s)?;
    let body = body::body_in(s, h, [NO_ID; 4])?;
    Ok((body::outline_of(h, body.tally), h.start + h.length))
}

// Writes the message that s is with every length shortest.
pub fn shorten(s: &[u8], out: &mut [u8]) -> Result<usize, Refusal>
    ensures answer { result ≡ shorten_answer (length out.old) s.now }
    ensures lent { out.new ≡ shorten_leaves s.now out.old }
{
    let h = headers::whole_header(s)?;
    let body = body::body_in(s, h, [NO_ID; 4])?;
    let size = writing::message_size(h.length - body.tally.spare);
    if out.len() < size {
        return Err(Refusal::unplaced(Refusal::NO_ROOM));
    }
    writing::put_message(s, h, &mut out[..size]);
    Ok(size)
}

// The field with that id of the list of the message that s is: where its value lies.
pub fn field(s: &[u8], id: u8) -> Result<Option<Span>, Refusal>
    ensures { result ≡ field_answer id s.now }
{
    let message = asking::ask(s, [id, NO_ID, NO_ID, NO_ID])?;
    Ok(message.places.fields[0])
}

// The bytes of that field's value, as they lie in s; the other bytes where s has no such field or is refused.
pub fn field_bytes<'a>(s: &'a [u8], id: u8, other: &'a [u8]) -> &'a [u8]
    ensures bytes { result.now ≡ handed_bytes s.now other.now (field_answer id s.now) }
    ensures place { result.ref_ptr ≡ handed_place s.entry.ref_ptr other.entry.ref_ptr (field_answer id s.now) }
{
    match field(s, id) {
        Ok(Some(Span { from, to })) => &s[from..to],
        Ok(None) => other,
        Err(_) => other,
    }
}

// Where the password and the values of the fields with those ids lie in the message that s is.
pub fn places(s: &[u8], ids: [u8; 4]) -> Places
    ensures { result ≡ places_answer ids s.now }
{
    match asking::ask(s, ids) {
        Err(_) => body::NO_PLACES,
        Ok(message) => message.places,
    }
}

// What the status information that s is tells; nothing of any other bytes.
pub fn read_status(s: &[u8]) -> Status
    ensures { result ≡ status_of s.now }
{
    let places = places(s, values::STATUS_IDS);
    values::status_at(s, places.fields)
}

// What a desk asks of the message that s is: its header, and what the body behind it tells.
pub fn hear(s: &[u8]) -> Result<Heard, Refusal>
    ensures { result ≡ hear_answer s.now }
{
    let h = headers::whole_header(s)?;
    Ok(Heard {
        class: h.class,
        instruction: h.instruction,
        start: h.start,
        length: h.length,
        told: told::told_behind(s, h),
    })
}

// The card name of the status information that s is, or the till's own name.
pub fn card_name<'a>(s: &'a [u8], own: &'a [u8]) -> &'a [u8]
    ensures bytes { result.now ≡ card_name s.now own.now }
    ensures place { result.ref_ptr ≡ name_place s.entry.ref_ptr own.entry.ref_ptr (name_at s.now) }
{
    if !values::is_status(s) {
        return own;
    }
    match field(s, 0x8B) {
        Ok(Some(Span { from, to: end })) => {
            let size = buffers::find(&s[from..end], 0, 0);
            if size == 0 {
                return own;
            }
            let to = from + size;
            &s[from..to]
        }
        Ok(None) => own,
        Err(_) => own,
    }
}

// The last twelve digits of an amount.
pub fn amount_bytes(n: u64) -> [u8; 6]
    ensures { result ≡ digit_bytes_of 6 n }
{
    digits::digit_bytes(n)
}

// The last six digits of a password.
pub fn password_bytes(n: u32) -> [u8; 3]
    ensures { result ≡ digit_bytes_of 3 n }
{
    digits::digit_bytes(u64::from(n))
}

// The last four digits of a receipt number.
pub fn receipt_bytes(n: u16) -> [u8; 2]
    ensures { result ≡ digit_bytes_of 2 n }
{
    digits::digit_bytes(u64::from(n))
}

// The number that the digits of an amount are.
pub fn amount_in(b: [u8; 6]) -> u64
    ensures { result ≡ number_of b }
{
    digits::number(&b)
}

// The number that the digits of a receipt number are.
pub fn receipt_in(b: [u8; 2]) -> u16
    ensures { result ≡ number_of b }
{
    digits::short_number(&b)
}
