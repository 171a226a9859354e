// What a status information tells the desk, each value by its place.
ghost use Rattle.std.specs.Prelude.{◌≡◌};
ghost use Rattle.zvt.specs.ValueSteps.{Sized, SizedDigits, value_at, status_ids, status_pair, StatusAt, FoundIn};
ghost use Rattle.zvt_rules.specs.Values.{code_of, amount_of, receipt_of, status_of};

use crate::asking::NO_ID;
use crate::digits::{number, short_number};
use zvt_rules::{Span, Status};

fn code_at(s: &[u8], place: Option<Span>) -> Option<u8>
    requires { Sized 1 place s.now }
    ensures { result ≡ code_of (value_at place s.now) }
{
    let at = place?.from;
    Some(s[at])
}

#[tactic(auto, unfolding(zvt_rules::specs::Values::amount_of))]
fn amount_at(s: &[u8], place: Option<Span>) -> Option<u64>
    requires { Sized 6 place s.now }
    ensures { result ≡ amount_of (value_at place s.now) }
{
    let Span { from, to } = place?;
    Some(number(&s[from..to]))
}

#[tactic(auto, unfolding(zvt_rules::specs::Values::receipt_of))]
fn receipt_at(s: &[u8], place: Option<Span>) -> Option<u16>
    requires { SizedDigits 2 place s.now }
    ensures { result ≡ receipt_of (value_at place s.now) }
{
    let Span { from, to } = place?;
    Some(short_number(&s[from..to]))
}

// The fields that it is asked for; no field has the fourth id.
pub(crate) const STATUS_IDS: [u8; 4] = [0x27, 0x04, 0x87, NO_ID];

const NO_STATUS: Status = Status {
    code: None,
    amount: None,
    receipt: None,
};

// Whether the pair is that of a status information.
pub(crate) fn is_status(s: &[u8]) -> bool
    ensures { result ≡ status_pair s.now }
{
    s.starts_with(&[0x04, 0x0F])
}

fn values_at(s: &[u8], fields: [Option<Span>; 4]) -> Status
    requires { StatusAt fields s.now }
    ensures { result ≡ status_of s.now }
{
    Status {
        code: code_at(s, fields[0]),
        amount: amount_at(s, fields[1]),
        receipt: receipt_at(s, fields[2]),
    }
}

// What the message that s is tells; those fields of it lie there.
pub(crate) fn status_at(s: &[u8], fields: [Option<Span>; 4]) -> Status
    requires { FoundIn status_ids fields s.now }
    ensures { result ≡ status_of s.now }
{
    if is_status(s) {
        values_at(s, fields)
    } else {
        NO_STATUS
    }
}
