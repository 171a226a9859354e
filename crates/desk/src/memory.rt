// The desk's memory: what is read off the book and the lanes, and what a move leaves in them.
ghost use Rattle.std.specs.Prelude.{◌≡◌, ◌<◌, ◌≤◌, leb, length, take, count_by, Ok};
ghost use Rattle.std.specs.List.{list_all};
ghost use Rattle.desk_rules.specs.declared.Lane.{Lane};
ghost use Rattle.desk_rules.specs.Kinds.{is_idle};
ghost use Rattle.desk_rules.specs.Numbers.{lane_count, book_lines};
ghost use Rattle.desk_rules.specs.Openings.{last_line};
ghost use Rattle.desk_rules.specs.Desk.{load};
ghost use Rattle.desk_rules.specs.Memory.{Valid, with_line, view, ended_desk, moved_desk};
ghost use Rattle.desk.specs.Steps.{Sized, BookedFits, LineFits, takes_line};

use crate::hear;
use crate::questions::{booked, concerns};
use desk_rules::{Book, Desk, Lane, Line, Moved, Phase};

pub(crate) fn with_line(mut b: Book, l: Line) -> Book
    requires { b.count < book_lines }
    ensures { result ≡ with_line b l }
{
    b.lines[b.count] = l;
    b.count += 1;
    b
}

// The last line of a lane that a reference looks at, or a blank one. Who refers to nothing looks at none.
pub(crate) fn last_line(b: Book, lane: u8, reference: Option<u16>) -> Line
    requires { (b.count ≤ book_lines) × (length b.lines ≡ book_lines) }
    ensures { result ≡ last_line lane reference (take b.count b.lines) }
{
    let mut last = Line::blank();
    if reference.is_none() {
        return last;
    }
    for l in &b.lines[..b.count] {
        if concerns(*l, lane, reference) {
            last = *l;
        }
    }
    last
}

// How many lines of the book are kept for open payments: one for each that is booked.
fn lines_taken(d: Desk) -> usize
    requires { length d.lanes ≡ lane_count }
    ensures { result ≡ count_by takes_line d.lanes }
{
    d.lanes
        .iter()
        .filter(|l| l.phase != Phase::Idle && booked(l.kind))
        .count()
}

// Whether lines and open payments take every line of the book.
pub(crate) fn is_full(d: Desk) -> bool
    requires { Valid d }
    ensures { result ≡ leb book_lines (load (view d)) }
{
    Book::LINES <= d.book.count + lines_taken(d)
}

// Whether every lane is idle.
pub(crate) fn all_idle(d: Desk) -> bool
    requires { length d.lanes ≡ lane_count }
    ensures { result ≡ list_all (λ (l : Lane). is_idle l.phase) d.lanes }
{
    d.lanes.iter().all(|l| l.phase == Phase::Idle)
}

// The lane's payment ends, with that line if it is booked, and the lane is idle.
#[tactic(auto, unfolding(desk_rules::specs::Memory::ended_desk))]
pub(crate) fn ended(mut d: Desk, lane: u8, line: Line) -> Desk
    requires { Sized d lane × BookedFits d line }
    ensures { result ≡ ended_desk d lane line }
{
    let at = usize::from(lane);
    d.lanes[at] = Lane::idle();
    if booked(line.kind) {
        d.book = with_line(d.book, line);
    }
    d
}

// What a move of a lane leaves.
pub(crate) fn moved(mut d: Desk, lane: u8, m: Moved) -> Desk
    requires { Sized d lane × LineFits d lane m }
    ensures { result ≡ moved_desk d lane (Ok m) }
{
    let at = usize::from(lane);
    match m {
        Moved::Stays => d,
        Moved::Becomes(l) => {
            d.lanes[at] = l;
            d
        }
        Moved::Ends(outcome, settled, code) => {
            let line = hear::ending_line(lane, d.lanes[at], outcome, settled, code);
            ended(d, lane, line)
        }
    }
}
