// Questions to a kind, an opening, what it refers to, and a line: the small tables of the rules.
ghost use Rattle.std.specs.Prelude.{◌≡◌, ◌^◌, ◌<◌, sum_by};
ghost use Rattle.desk_rules.specs.Kinds.{booked};
ghost use Rattle.desk_rules.specs.Openings.{kind_of, within_limits, refers_to, asked_by, named_by, command_size, looks_at, concerns, sold, stands, missing_no, opened_lane};
ghost use Rattle.desk_rules.specs.Turnover.{counted, gain, loss};

use desk_rules::{Kind, Lane, Line, Opening, Outcome};
use zvt_rules::Refusal;

// Whether an open lane of this kind takes a line of the book, and its end writes it.
pub(crate) fn booked(kind: Kind) -> bool
    ensures { result ≡ booked kind }
{
    match kind {
        Kind::Sale | Kind::Refund | Kind::Reversal => true,
    }
}

pub(crate) fn kind_of(opening: Opening) -> Kind
    ensures { result ≡ kind_of opening }
{
    match opening {
        Opening::Sale { .. } => Kind::Sale,
        Opening::Refund { .. } => Kind::Refund,
        Opening::Reversal { .. } => Kind::Reversal,
    }
}

pub(crate) fn within_limits(opening: Opening) -> bool
    ensures { result ≡ within_limits opening }
{
    match opening {
        Opening::Sale { amount } => Lane::amount_ok(amount),
        Opening::Refund { password, amount } => {
            Lane::password_ok(password) && Lane::amount_ok(amount)
        }
        Opening::Reversal { password, receipt } => {
            Lane::password_ok(password) && Lane::receipt_ok(receipt)
        }
    }
}

// The receipt of the sale that it refers to.
pub(crate) fn refers_to(opening: Opening) -> Option<u16>
    ensures { result ≡ refers_to opening }
{
    match opening {
        Opening::Sale { .. } | Opening::Refund { .. } => None,
        Opening::Reversal { receipt, .. } => Some(receipt),
    }
}

// The amount that it asks for, where it refers to that line.
fn asked_by(opening: Opening, line: Line) -> u64
    ensures { result ≡ asked_by opening line }
{
    match opening {
        Opening::Sale { amount } | Opening::Refund { amount, .. } => amount,
        Opening::Reversal { .. } => line.settled,
    }
}

fn named_by(opening: Opening) -> u16
    ensures { result ≡ named_by opening }
{
    refers_to(opening).unwrap_or(0)
}

pub(crate) fn command_size(opening: Opening) -> usize
    ensures { result ≡ command_size opening }
{
    match opening {
        Opening::Sale { .. } => 13,
        Opening::Refund { .. } => Opening::MOST_COMMAND,
        Opening::Reversal { .. } => 9,
    }
}

// The lane that it opens, where it refers to that line.
pub(crate) fn opened_lane(opening: Opening, line: Line) -> Lane
    ensures { result ≡ opened_lane opening line }
{
    Lane::waiting(kind_of(opening), asked_by(opening, line), named_by(opening))
}

// Whether a reference looks at lines of that kind.
fn looks_at(reference: Option<u16>, kind: Kind) -> bool
    ensures { result ≡ looks_at reference kind }
{
    reference.is_some() && kind != Kind::Refund
}

// Whether the line that it looks at is there.
pub(crate) fn stands(reference: Option<u16>, line: Line) -> bool
    ensures { result ≡ stands reference line }
{
    reference.is_none() || is_sold(line)
}

// The number of refusal where it is not.
pub(crate) fn missing_number(reference: Option<u16>) -> u8
    ensures { result ≡ missing_no reference }
{
    match reference {
        None => 0,
        Some(_) => Refusal::NO_SALE,
    }
}

// An approved sale.
fn is_sold(line: Line) -> bool
    ensures { result ≡ sold line }
{
    line.outcome == Outcome::Approved && line.kind == Kind::Sale
}

// A line of that lane that the reference looks at.
#[tactic(auto, unfolding(desk_rules::specs::Openings::concerns))]
pub(crate) fn concerns(line: Line, lane: u8, reference: Option<u16>) -> bool
    ensures { result ≡ concerns lane reference line }
{
    line.lane == lane
        && line.receipt == reference.unwrap_or(0)
        && line.outcome == Outcome::Approved
        && looks_at(reference, line.kind)
}

// The settled amount, where it is approved.
fn counted(line: Line) -> u64
    ensures { result ≡ counted line }
{
    if line.outcome == Outcome::Approved {
        line.settled
    } else {
        0
    }
}

// What it adds to the turnover.
fn gain(line: Line) -> u64
    ensures { result ≡ gain line }
{
    match line.kind {
        Kind::Sale => counted(line),
        Kind::Refund | Kind::Reversal => 0,
    }
}

// What it takes off the turnover.
fn loss(line: Line) -> u64
    ensures { result ≡ loss line }
{
    match line.kind {
        Kind::Sale => 0,
        Kind::Refund | Kind::Reversal => counted(line),
    }
}

pub(crate) fn gains(lines: &[Line]) -> u64
    requires { sum_by gain lines.now < 2 ^ 63 }
    ensures { result ≡ sum_by gain lines.now }
{
    lines.iter().map(|l| gain(*l)).sum()
}

pub(crate) fn losses(lines: &[Line]) -> u64
    requires { sum_by loss lines.now < 2 ^ 63 }
    ensures { result ≡ sum_by loss lines.now }
{
    lines.iter().map(|l| loss(*l)).sum()
}
