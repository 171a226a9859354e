// What a call answered: the number of a refusal, or what was written.
ghost use Rattle.std.specs.Prelude.{◌≡◌, ◌+◌, ◌*◌, length};
ghost use Rattle.basics.specs.Text.{text, add_all};
ghost use Rattle.printing.specs.Answers.{Printed, number_text, counted_text, refused_text, not_understood, bytes_line};
ghost use Rattle.printing.specs.Answers.{changed_behind, ok_text, reply_text};

use buffers::{add, add_all, add_bytes, add_decimal, upto};
use zvt_rules::Refusal;

// A number with a blank before it.
pub fn add_number(n: u64, at: usize, out: &mut [u8]) -> usize
    ensures { text result out.new ≡ add_all (number_text n) (text at out.old) }
{
    let to = add(b' ', at, out);
    add_decimal(n, to, out)
}

// A word, a number, and the line's end.
pub fn counted(name: &[u8], n: u64, at: usize, out: &mut [u8]) -> usize
    ensures { text result out.new ≡ add_all (counted_text name.now n) (text at out.old) }
{
    let mut to = add_all(name, at, out);
    to = add_number(n, to, out);
    add(b'\n', to, out)
}

// A number of refusal, and the place where it names one.
pub fn refused(r: Refusal, out: &mut [u8]) -> usize
    ensures { Printed 64 (refused_text r) result out.old out.new }
{
    let place = r.place;
    let mut to = add_all(b"refused", 0, out);
    to = add_number(u64::from(r.number), to, out);
    match place {
        None => add(b'\n', to, out),
        Some(p) => counted(b" at", p as u64, to, out),
    }
}

pub fn not_understood(line: u64, out: &mut [u8]) -> usize
    ensures { Printed 64 (not_understood line) result out.old out.new }
{
    let mut to = add_all(b"line", 0, out);
    to = add_number(line, to, out);
    add_all(b" not understood\n", to, out)
}

// Bytes as a line of hex.
pub fn bytes_line(v: &[u8], out: &mut [u8]) -> usize
    ensures { Printed (64 + 2 * length v.now) (bytes_line v.now) result out.old out.new }
{
    let to = add_bytes(v, 0, out);
    add(b'\n', to, out)
}

// What every byte of a lent room is before a call.
pub const BLANK: u8 = 0xC3;

// Whether a call that wrote n bytes changed one behind them, or claims more than there are.
fn changed(n: usize, lent: &[u8]) -> bool
    ensures { result ≡ changed_behind n lent.now }
{
    lent.len() < n || lent[n..].iter().any(|b| *b != BLANK)
}

fn written(v: &[u8], out: &mut [u8]) -> usize
    ensures { text result out.new ≡ add_all (ok_text v.now) (text 0 out.old) }
{
    if v.len() == 0 {
        return add_all(b"ok\n", 0, out);
    }
    let mut to = add_all(b"ok ", 0, out);
    to = add_bytes(v, to, out);
    add(b'\n', to, out)
}

// What a call answered that had this room to write into, and should have left the rest of it alone.
pub fn reply(r: Result<usize, Refusal>, lent: &[u8], out: &mut [u8]) -> usize
    ensures { Printed (64 + 2 * length lent.now) (reply_text r lent.now) result out.old out.new }
{
    if changed(r.unwrap_or(0), lent) {
        return add_all(b"buffer changed\n", 0, out);
    }
    match r {
        Ok(size) => {
            let end = upto(size, lent);
            written(&lent[..end], out)
        }
        Err(f) => refused(f, out),
    }
}
