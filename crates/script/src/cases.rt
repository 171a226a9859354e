// Files of cases: script lines, each with its answer behind it on lines that begin with `= `. A blank line ends a case, and the next
// one starts with a fresh desk. The word `added`, in a line or in an answer, stands for the bytes that the lines `add` put together.
ghost use Rattle.tape_rules.specs.Recording.{ValidTaped};

use crate::calls::Rooms;
use crate::turns::{BYTES, TEXT, Turn};
use crate::{files, turns};
use buffers::upto;
use system::STDOUT_FILENO;
use words::Script;

// How many answers a file of cases has, and how many of them differ.
#[derive(Clone, Copy)]
pub struct Tally {
    pub answers: u64,
    pub differ: u64,
}

// Where an answer stands in its file, how long it is, and how long it should be.
#[derive(Clone, Copy)]
struct Spot {
    number: u64,
    size: usize,
    due: usize,
}

// Room for a line: two digits for each added byte, and some words.
const LINE: usize = BYTES * 2 + 256;

// The next line of a file. One that is blank ends a case, and behind it stands a fresh desk.
fn passed(turn: Turn, s: &[u8], rooms: &mut Rooms) -> Turn
    requires { ValidTaped turn.taped }
    ensures { ValidTaped result.taped }
{
    if s.len() == 0 {
        return turns::fresh(true);
    }
    let mut full = [0u8; LINE];
    let n = files::full_line(s, turn.at.added, rooms.added, &mut full);
    turns::line(turn, &full[..n], rooms)
}

// An answer is compared with what the file has for it, counted, and told where it differs.
fn told(tally: Tally, name: &[u8], spot: Spot, text: &[u8], want: &[u8]) -> Tally {
    let n = upto(spot.size, text);
    let m = upto(spot.due, want);
    if n == 0 && m == 0 {
        return tally;
    }
    let answers = tally.answers.wrapping_add(1);
    if text[..n] == want[..m] {
        return Tally { answers, ..tally };
    }
    io::write_all(STDOUT_FILENO, name);
    io::write_all(STDOUT_FILENO, b" line ");
    io::print_decimal(STDOUT_FILENO, spot.number);
    io::write_all(STDOUT_FILENO, b" answers\n");
    io::write_all(STDOUT_FILENO, &text[..n]);
    Tally {
        answers,
        differ: tally.differ.wrapping_add(1),
    }
}

// Plays the cases of the file s. What is answered otherwise than the file says goes to standard output, with the file's name and the line.
pub fn check(name: &[u8], s: &[u8]) -> Tally {
    let mut file = [0u8; turns::FILE];
    let mut room = [0u8; Script::ROOM];
    let mut added = [0u8; BYTES];
    let mut want = [0u8; TEXT];
    let mut text = [0u8; TEXT];
    let mut rooms = Rooms {
        file: &mut file,
        room: &mut room,
        added: &mut added,
        text: &mut text,
    };
    check_in(name, s, &mut rooms, &mut want)
}

// The same with these buffers, and with one for the text of an answer as it should be.
fn check_in(name: &[u8], s: &[u8], rooms: &mut Rooms, want: &mut [u8]) -> Tally {
    let mut turn = turns::fresh(true);
    let mut tally = Tally {
        answers: 0,
        differ: 0,
    };
    let mut number: u64 = 1;
    let mut from: usize = 0;
    // A line, and the answers behind it: no iterator steps so.
    while from < s.len() {
        let e = files::next_of(from, s, turn.at.added, rooms.added, want);
        turn = passed(turn, &s[from..e.end], rooms);
        let spot = Spot {
            number,
            size: turn.size,
            due: e.due,
        };
        tally = told(tally, name, spot, rooms.text, want);
        number = number.wrapping_add(e.lines);
        from = e.next;
    }
    tally
}
