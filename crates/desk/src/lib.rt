// The desk: eight lanes and the day book. A desk goes into a call and comes back by value; its answer says what was written, or why
// the call was refused.

#![tactic(auto)]

mod commands;
mod hear;
mod memory;
mod questions;

ghost use Rattle.std.specs.Prelude.{◌≡◌, ◌&&◌, leb, length};
ghost use Rattle.zvt_rules.specs.Reading.{unplaced};
ghost use Rattle.desk_rules.specs.Numbers.{book_lines};
ghost use Rattle.desk_rules.specs.Kinds.{booked};
ghost use Rattle.desk_rules.specs.Openings.{kind_of, opening_in};
ghost use Rattle.desk_rules.specs.Course.{opening as call, heard, message, lost};
ghost use Rattle.desk_rules.specs.Desk.{load};
ghost use Rattle.desk_rules.specs.Memory.{Valid, lines_of_desk, view, refused_answer, answer_of, leaves_of, close_answer, line_answer, lane_answer};
ghost use Rattle.desk_rules.specs.Turnover.{net_of};

use commands::{is_command, put_command, would_open};
use desk_rules::{Answer, Desk, Lane, Line, Moved, Opening, Outcome, Phase};
use memory::{all_idle, is_full, last_line, moved};
use questions::{booked, command_size, gains, kind_of, losses, refers_to, within_limits};
use zvt_rules::Refusal;

// Refused with a number that names no place.
#[tactic(auto, unfolding(desk_rules::specs::Memory::refused_answer))]
fn refused(desk: Desk, number: u8) -> Answer
    ensures { result ≡ refused_answer desk (unplaced number) }
{
    Answer {
        reply: Err(Refusal::unplaced(number)),
        desk,
    }
}

// Opens a payment.
pub fn open(desk: Desk, lane: u8, opening: Opening, out: &mut [u8]) -> Answer
    requires { Valid desk }
    ensures answer { result ≡ answer_of desk (call lane opening) (length out.old) }
    ensures lent { out.new ≡ leaves_of desk (call lane opening) out.old }
    ensures valid { Valid result.desk }
{
    if Lane::COUNT <= lane {
        return refused(desk, Refusal::NO_SUCH_LANE);
    }
    let l = desk.lanes[usize::from(lane)];
    let line = last_line(desk.book, lane, refers_to(opening));
    let m = match hear::opened(l, opening, line) {
        Ok(m) => m,
        Err(r) => {
            return Answer {
                reply: Err(r),
                desk,
            };
        }
    };
    if no_line(desk, opening) {
        return refused(desk, Refusal::BOOK_FULL);
    }
    let size = command_size(opening);
    if out.len() < size {
        return refused(desk, Refusal::NO_ROOM);
    }
    put_command(opening, out);
    Answer {
        reply: Ok(size),
        desk: moved(desk, lane, m),
    }
}

// Whether an opening needs a line of the book and finds none.
fn no_line(desk: Desk, opening: Opening) -> bool
    requires { Valid desk }
    ensures { result ≡ (booked (kind_of opening) && leb book_lines (load (view desk))) }
{
    booked(kind_of(opening)) && is_full(desk)
}

// Takes one message from a lane's terminal.
pub fn terminal(desk: Desk, lane: u8, s: &[u8], out: &mut [u8]) -> Answer
    requires { Valid desk }
    ensures answer { result ≡ answer_of desk (message lane s.now) (length out.old) }
    ensures lent { out.new ≡ leaves_of desk (message lane s.now) out.old }
    ensures valid { Valid result.desk }
{
    if Lane::COUNT <= lane {
        return refused(desk, Refusal::NO_SUCH_LANE);
    }
    let l = desk.lanes[usize::from(lane)];
    let m = match hear::heard(l, s) {
        Ok(m) => m,
        Err(r) => {
            return Answer {
                reply: Err(r),
                desk,
            };
        }
    };
    let reply = hear::reply(l.phase);
    if out.len() < reply.len() {
        return refused(desk, Refusal::NO_ROOM);
    }
    let size = buffers::copy(reply, out);
    Answer {
        reply: Ok(size),
        desk: moved(desk, lane, m),
    }
}

// What one message from its terminal does to a lane. A desk is large: who takes many messages asks the lane first, and the desk where its
// payment ends.
pub fn hears(lane: Lane, s: &[u8]) -> Result<Moved, Refusal>
    ensures { result ≡ heard lane s.now }
{
    hear::heard(lane, s)
}

// The link to a lane's terminal is lost.
pub fn link_lost(desk: Desk, lane: u8) -> Answer
    requires { Valid desk }
    ensures answer { result ≡ answer_of desk (lost lane) 0 }
    ensures valid { Valid result.desk }
{
    if Lane::COUNT <= lane {
        return refused(desk, Refusal::NO_SUCH_LANE);
    }
    if desk.lanes[usize::from(lane)].phase == Phase::Idle {
        return refused(desk, Refusal::LANE_IDLE);
    }
    Answer {
        reply: Ok(0),
        desk: moved(desk, lane, Moved::Ends(Outcome::Unclear, 0, 0)),
    }
}

// Closes the day: what is left is a fresh desk.
pub fn close(desk: Desk) -> Answer
    requires { Valid desk }
    ensures answer { result ≡ close_answer desk }
    ensures valid { Valid result.desk }
{
    if !all_idle(desk) {
        return refused(desk, Refusal::PAYMENT_OPEN);
    }
    Answer {
        reply: Ok(0),
        desk: Desk::fresh(),
    }
}

// Net turnover in cents.
pub fn net(desk: Desk) -> i64
    requires { Valid desk }
    ensures { result ≡ net_of (lines_of_desk desk) }
{
    let lines = &desk.book.lines[..desk.book.count];
    (gains(lines) as i64) - (losses(lines) as i64)
}

// Line number k of the book, counted from 0.
#[tactic(auto, unfolding(desk_rules::specs::Memory::line_answer))]
pub fn line_at(desk: Desk, k: usize) -> Option<Line>
    requires { Valid desk }
    ensures { result ≡ line_answer k (lines_of_desk desk) }
{
    desk.book.lines[..desk.book.count].get(k).copied()
}

// A lane as it stands.
#[tactic(auto, unfolding(desk_rules::specs::Memory::lane_answer))]
pub fn lane_at(desk: Desk, lane: u8) -> Result<Lane, Refusal>
    requires { Valid desk }
    ensures { result ≡ lane_answer lane desk.lanes }
{
    desk.lanes
        .get(usize::from(lane))
        .copied()
        .ok_or(Refusal::unplaced(Refusal::NO_SUCH_LANE))
}

// The opening whose command s is, with password 0: the one that a command on a tape is.
pub fn opening_in(s: &[u8]) -> Option<Opening>
    ensures { result ≡ opening_in s.now }
{
    if Opening::MOST_COMMAND < s.len() {
        return None;
    }
    let opening = would_open(s);
    if within_limits(opening) && is_command(opening, s) {
        Some(opening)
    } else {
        None
    }
}
