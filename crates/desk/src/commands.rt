// The commands that opening writes, and what the bytes of one open.
ghost use Rattle.std.specs.Prelude.{◌≡◌, ◌≤◌, length};
ghost use Rattle.basics.specs.Buffers.{front};
ghost use Rattle.desk_rules.specs.Openings.{command_bytes, most_command, supposed, same};

use crate::questions::command_size;
use desk_rules::Opening;

// 06 01: amount, currency.
fn sale_bytes(amount: u64) -> [u8; 13]
    ensures { result ≡ command_bytes (Opening.Sale amount) }
{
    let a = zvt::amount_bytes(amount);
    [
        0x06, 0x01, 0x0A, 0x04, a[0], a[1], a[2], a[3], a[4], a[5], 0x49, 0x09, 0x78,
    ]
}

// 06 31: password, and behind it what a sale has behind its header.
fn refund_bytes(password: u32, amount: u64) -> [u8; Opening::MOST_COMMAND]
    ensures { result ≡ command_bytes (Opening.Refund password amount) }
{
    let p = zvt::password_bytes(password);
    let sale = sale_bytes(amount);
    let mut b = [0u8; Opening::MOST_COMMAND];
    buffers::copy(&[0x06, 0x31, 0x0D, p[0], p[1], p[2]], &mut b);
    buffers::copy(&sale[3..], &mut b[6..]);
    b
}

// 06 30: password, receipt.
fn reversal_bytes(password: u32, receipt: u16) -> [u8; 9]
    ensures { result ≡ command_bytes (Opening.Reversal password receipt) }
{
    let p = zvt::password_bytes(password);
    let b = zvt::receipt_bytes(receipt);
    [0x06, 0x30, 0x06, p[0], p[1], p[2], 0x87, b[0], b[1]]
}

// The command of an opening goes to the start of out.
pub(crate) fn put_command(opening: Opening, out: &mut [u8])
    requires { length (command_bytes opening) ≤ length out.old }
    ensures { out.new ≡ front (command_bytes opening) out.old }
{
    match opening {
        Opening::Sale { amount } => {
            buffers::copy(&sale_bytes(amount), out);
        }
        Opening::Refund { password, amount } => {
            buffers::copy(&refund_bytes(password, amount), out);
        }
        Opening::Reversal { password, receipt } => {
            buffers::copy(&reversal_bytes(password, receipt), out);
        }
    }
}

// What such bytes would open, by their instruction: the number stands where that command has it.
#[tactic(auto, unfolding(desk_rules::specs::Openings::supposed, desk_rules::specs::Openings::window))]
fn supposed_in(b: [u8; Opening::MOST_COMMAND]) -> Opening
    ensures { result ≡ supposed b }
{
    match b[1] {
        0x30 => {
            let receipt = zvt::receipt_in([b[7], b[8]]);
            Opening::Reversal {
                password: 0,
                receipt,
            }
        }
        0x31 => {
            let amount = zvt::amount_in([b[7], b[8], b[9], b[10], b[11], b[12]]);
            Opening::Refund {
                password: 0,
                amount,
            }
        }
        _ => {
            let amount = zvt::amount_in([b[4], b[5], b[6], b[7], b[8], b[9]]);
            Opening::Sale { amount }
        }
    }
}

// What s would open.
pub(crate) fn would_open(s: &[u8]) -> Opening
    requires { length s.now ≤ most_command }
    ensures { result ≡ supposed s.now }
{
    let mut b = [0u8; Opening::MOST_COMMAND];
    buffers::copy(s, &mut b);
    supposed_in(b)
}

// Whether s is the command of that opening.
pub(crate) fn is_command(opening: Opening, s: &[u8]) -> bool
    ensures { result ≡ same s.now (command_bytes opening) }
{
    let mut b = [0u8; Opening::MOST_COMMAND];
    put_command(opening, &mut b);
    s == &b[..command_size(opening)]
}
