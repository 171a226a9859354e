// What the reader answers of a message.
ghost use Rattle.std.specs.Prelude.{◌≡◌, ◌+◌, ◌*◌, ◌≤◌, length};
ghost use Rattle.zvt_rules.specs.Message.{first_of};
ghost use Rattle.zvt_rules.specs.Listing.{ids_of};
ghost use Rattle.basics.specs.Text.{text, add_all};
ghost use Rattle.zvt_rules.specs.Values.{status_of};
ghost use Rattle.printing.specs.Answers.{Printed};
ghost use Rattle.printing.specs.Desks.{status_text};
ghost use Rattle.printing.specs.Messages.{outline_text, read_text, header_text, first_text, field_text};

use crate::answers::{add_number, counted, refused};
use crate::desks::add_status;
use buffers::{add, add_all, add_bytes, add_decimal, add_hex};
use zvt_rules::Outline;

// The message that s begins with, read as m.
fn message(s: &[u8], m: Outline, out: &mut [u8]) -> usize
    ensures added { text result out.new ≡ add_all (outline_text m (ids_of (first_of s.now))) (text 0 out.old) }
    ensures long { length (outline_text m (ids_of (first_of s.now))) ≤ 35 + 3 * length s.now }
{
    let mut to = add_hex(m.class, 0, out);
    to = add_hex(m.instruction, to, out);
    to = listing::add_size(m, to, out);
    to = add_number(u64::from(m.objects), to, out);
    listing::add_ids(s, to, out)
}

// The message that s is.
pub fn read(s: &[u8], out: &mut [u8]) -> usize
    ensures { Printed (64 + 3 * length s.now) (read_text s.now) result out.old out.new }
{
    match zvt::read(s) {
        Err(f) => refused(f, out),
        Ok(m) => {
            let to = message(s, m, out);
            add(b'\n', to, out)
        }
    }
}

// Its pair, where its body starts and how long that is.
pub fn header(s: &[u8], out: &mut [u8]) -> usize
    ensures { Printed 64 (header_text s.now) result out.old out.new }
{
    match zvt::read_header(s) {
        Err(f) => refused(f, out),
        Ok(h) => {
            let mut to = add_hex(h.class, 0, out);
            to = add_hex(h.instruction, to, out);
            to = add_all(b" from", to, out);
            to = add_number(h.start as u64, to, out);
            counted(b" length", h.length as u64, to, out)
        }
    }
}

// The message that s begins with, where its body starts and where the next message does.
pub fn first(s: &[u8], out: &mut [u8]) -> usize
    ensures { Printed (128 + 3 * length s.now) (first_text s.now) result out.old out.new }
{
    let mut ids = [0u8; 256];
    let first = zvt::read_first(s, &mut ids);
    let answer = first.answer;
    match answer {
        Err(f) => refused(f, out),
        Ok(read) => {
            let (m, next) = read;
            let mut to = message(s, m, out);
            to = add_all(b" from", to, out);
            to = add_number(m.start as u64, to, out);
            counted(b" next", next as u64, to, out)
        }
    }
}

// Where the value of the field with that id begins, and its bytes. An empty value is `-`, as bytes are.
pub fn field(s: &[u8], id: u8, out: &mut [u8]) -> usize
    ensures { Printed (64 + 2 * length s.now) (field_text id s.now) result out.old out.new }
{
    match zvt::field(s, id) {
        Err(f) => refused(f, out),
        Ok(place) => match place {
            None => add_all(b"absent\n", 0, out),
            Some(v) => {
                let mut to = add_decimal(v.from as u64, 0, out);
                to = add(b' ', to, out);
                to = add_bytes(zvt::field_bytes(s, id, &s[..0]), to, out);
                add(b'\n', to, out)
            }
        },
    }
}

// What the status information that s is tells.
pub fn status(s: &[u8], out: &mut [u8]) -> usize
    ensures { Printed 64 (status_text (status_of s.now)) result out.old out.new }
{
    add_status(zvt::read_status(s), 0, out)
}
