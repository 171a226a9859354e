// What a lane does at a call, and the line at its payment's end.
ghost use Rattle.std.specs.Prelude.{◌≡◌, ◌*◌, ◌+◌, Ok};
ghost use Rattle.desk_rules.specs.Lanes.{receipt_by, line_at};
ghost use Rattle.desk_rules.specs.Course.{completed_by, settled_as, aborted_by, answered, heard, no_move, opened_by};
ghost use Rattle.desk.specs.Hear.{said_by, waiting_moved, running_moved, reported_as, moved_for};

use crate::questions::{missing_number, opened_lane, refers_to, stands, within_limits};
use desk_rules::{Kind, Lane, Line, Moved, Opening, Outcome, Phase};
use zvt_rules::{Heard, Refusal, Status, ToldBody};

// What a message says to a running lane.
#[derive(Clone, Copy)]
pub(crate) enum Said {
    Completion,
    Abort,
    Report,
    // Taken, and changes nothing.
    Passing,
}

fn refused(number: u8) -> Result<Moved, Refusal>
    ensures { result ≡ no_move number }
{
    Err(Refusal::unplaced(number))
}

// An opening that refers to that line: 13, 16, and the number for a line that is not there.
#[tactic(auto, unfolding(desk_rules::specs::Course::opened_by))]
pub(crate) fn opened(l: Lane, opening: Opening, line: Line) -> Result<Moved, Refusal>
    ensures { result ≡ opened_by l opening line }
{
    if l.phase != Phase::Idle {
        return refused(Refusal::LANE_NOT_IDLE);
    }
    if !within_limits(opening) {
        return refused(Refusal::OUTSIDE_LIMITS);
    }
    let reference = refers_to(opening);
    if !stands(reference, line) {
        return refused(missing_number(reference));
    }
    Ok(Moved::Becomes(opened_lane(opening, line)))
}

// The receipt named for a reversal, else the one told, else 0.
#[tactic(auto, unfolding(desk_rules::specs::Lanes::receipt_by))]
pub(crate) fn receipt_by(kind: Kind, named: u16, told: Option<u16>) -> u16
    ensures { result ≡ receipt_by kind named told }
{
    match kind {
        Kind::Sale | Kind::Refund => told.unwrap_or(0),
        Kind::Reversal => named,
    }
}

// The line at the end of a lane's payment.
#[tactic(auto, unfolding(desk_rules::specs::Lanes::line_at))]
pub(crate) fn ending_line(lane: u8, l: Lane, outcome: Outcome, settled: u64, code: u8) -> Line
    ensures { result ≡ line_at lane l outcome settled code }
{
    Line {
        lane,
        kind: l.kind,
        asked: l.asked,
        settled,
        receipt: receipt_by(l.kind, l.named, l.status.receipt),
        outcome,
        code,
    }
}

// Code 00: approved for the amount told. Unclear where none was told, and for a reversal at another amount than it asked for.
#[tactic(auto, unfolding(desk_rules::specs::Course::settled_as))]
fn settled_as(kind: Kind, asked: u64, told: Option<u64>) -> Moved
    ensures { Ok result ≡ settled_as kind asked told }
{
    let Some(amount) = told else {
        return Moved::Ends(Outcome::Unclear, 0, 0);
    };
    if kind == Kind::Reversal && amount != asked {
        return Moved::Ends(Outcome::Unclear, 0, 0);
    }
    Moved::Ends(Outcome::Approved, amount, 0)
}

// 06 0F: the remembered code decides.
#[tactic(auto, unfolding(desk_rules::specs::Course::completed_by))]
fn completed(l: Lane) -> Moved
    ensures { Ok result ≡ completed_by l l.status.code }
{
    match l.status.code {
        None => Moved::Ends(Outcome::Unclear, 0, 0),
        Some(0) => settled_as(l.kind, l.asked, l.status.amount),
        Some(code) => Moved::Ends(Outcome::Unclear, 0, code),
    }
}

// 06 1E: the first body byte is the code. An empty body ends where it starts.
#[tactic(auto, unfolding(desk_rules::specs::Course::aborted_by))]
fn aborted(start: usize, first: Option<u8>) -> Result<Moved, Refusal>
    ensures { result ≡ aborted_by start first }
{
    let code = first.ok_or(Refusal {
        number: Refusal::ENDS_TOO_SOON,
        place: Some(start),
    })?;
    Ok(Moved::Ends(Outcome::Declined, 0, code))
}

// 04 0F: with a code it replaces the remembered status.
#[tactic(auto, unfolding(crate::specs::Hear::reported_as, desk_rules::specs::Course::reported_by))]
fn reported(l: Lane, status: Status) -> Moved
    ensures { Ok result ≡ reported_as l status }
{
    match status.code {
        None => Moved::Stays,
        Some(_) => Moved::Becomes(l.reported(status)),
    }
}

// What a message that was read does to a running lane, by what its pair says.
#[tactic(auto, unfolding(crate::specs::Hear::moved_for))]
fn moved_by(l: Lane, said: Said, start: usize, t: ToldBody) -> Result<Moved, Refusal>
    ensures { result ≡ moved_for said l start t }
{
    match said {
        Said::Completion => Ok(completed(l)),
        Said::Abort => aborted(start, t.first),
        Said::Report => Ok(reported(l, t.status)),
        Said::Passing => Ok(Moved::Stays),
    }
}

// What each pair that a running lane takes says.
fn said_by(class: u8, instruction: u8) -> Option<Said>
    ensures { result ≡ said_by (class * 256 + instruction) }
{
    match u16::from_be_bytes([class, instruction]) {
        0x060F => Some(Said::Completion),
        0x061E => Some(Said::Abort),
        0x040F => Some(Said::Report),
        0x04FF | 0x06D1 | 0x06D3 => Some(Said::Passing),
        _ => None,
    }
}

#[tactic(auto, unfolding(crate::specs::Hear::waiting_moved, desk_rules::specs::Course::heard_waiting, crate::specs::Hear::header_by))]
fn heard_waiting(l: Lane, h: Heard) -> Result<Moved, Refusal>
    ensures { result ≡ waiting_moved l h }
{
    match (h.length, h.class, h.instruction) {
        (0, 0x80, 0x00) => Ok(Moved::Becomes(l.running())),
        (0, 0x84, code) => Ok(Moved::Ends(Outcome::Declined, 0, code)),
        _ => refused(Refusal::NOT_ALLOWED),
    }
}

#[tactic(auto, unfolding(crate::specs::Hear::running_moved, crate::specs::Hear::running_for, crate::specs::Hear::after_told))]
fn heard_running(l: Lane, h: Heard) -> Result<Moved, Refusal>
    ensures { result ≡ running_moved l h }
{
    let Some(said) = said_by(h.class, h.instruction) else {
        return refused(Refusal::NOT_ALLOWED);
    };
    moved_by(l, said, h.start, h.told?)
}

// A message for a lane: 14, header, 15, body.
pub(crate) fn heard(l: Lane, s: &[u8]) -> Result<Moved, Refusal>
    ensures { result ≡ heard l s.now }
{
    match l.phase {
        Phase::Idle => refused(Refusal::LANE_IDLE),
        Phase::Waiting => heard_waiting(l, zvt::hear(s)?),
        Phase::Running => heard_running(l, zvt::hear(s)?),
    }
}

// A running lane's message is answered with 80 00 00, a waiting one's with nothing.
#[tactic(auto, unfolding(desk_rules::specs::Course::answered))]
pub(crate) fn reply(phase: Phase) -> &'static [u8]
    ensures { result.now ≡ answered phase }
{
    match phase {
        Phase::Idle | Phase::Waiting => b"",
        Phase::Running => &[0x80, 0x00, 0x00],
    }
}
