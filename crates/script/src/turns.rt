// What a line does to a desk with its tape, and its answer.
ghost use Rattle.tape_rules.specs.Recording.{ValidTaped};

use crate::calls::{Rooms, at_most, opening_of};
use crate::plain;
use crate::taping::{open_at, tape_in};
use buffers::{fill, upto};
use printing::{answers, desks};
use tape_rules::{Taped, TapedAnswer};
use words::{Order, Script, What, order_of};

// The file of the day's tape has 261 blocks, more than a script can fill.
pub(crate) const FILE: usize = 133632;

// No line stands for more bytes: an input of the lister that is one byte too long.
pub(crate) const BYTES: usize = listing::LIMIT + 1;

// No answer is longer than a listing: a tape of 261 blocks, each 1,024 digits and a line feed, is not.
pub(crate) const TEXT: usize = listing::TEXT;

// What a line leaves: the desk with its tape, where the script stands, and how long the text of the answer is.
#[derive(Clone, Copy)]
pub(crate) struct Turn {
    pub(crate) taped: Taped,
    pub(crate) at: Script,
    pub(crate) size: usize,
}

// A fresh desk, and a script that has not begun.
pub(crate) fn fresh(further: bool) -> Turn
    ensures { ValidTaped result.taped }
{
    Turn {
        taped: Taped::fresh(),
        at: Script::start(further),
        size: 0,
    }
}

// The call itself. What is lent to its blocks is the file from the open block on, so that each is written at its place. The lane is
// passed on as numbers of an opening are.
fn made(taped: Taped, o: Order, s: &[u8], lent: &mut [u8], file: &mut [u8]) -> TapedAnswer
    requires { ValidTaped taped }
    ensures { ValidTaped result.taped }
{
    let lane = at_most(o.first, u8::MAX);
    let at = open_at(taped.tail, file);
    let blocks = &mut file[at..];
    match o.what {
        What::Terminal => tape::terminal(taped, lane, s, lent, blocks),
        What::Lost => tape::link_lost(taped, lane, blocks),
        _ => tape::open(taped, lane, opening_of(o), lent, blocks),
    }
}

// The call and its answer, with so much of the room lent as the script says.
fn call(turn: Turn, o: Order, s: &[u8], rooms: &mut Rooms) -> Turn
    requires { ValidTaped turn.taped }
    ensures { ValidTaped result.taped }
{
    let n = upto(turn.at.room, rooms.room);
    let lent = &mut rooms.room[..n];
    fill(lent, answers::BLANK);
    let a = made(turn.taped, o, s, lent, rooms.file);
    Turn {
        taped: a.taped,
        size: answers::reply(a.reply, lent, rooms.text),
        ..turn
    }
}

// Closing writes nothing.
fn closed(turn: Turn, out: &mut [u8]) -> Turn
    requires { ValidTaped turn.taped }
    ensures { ValidTaped result.taped }
{
    let a = tape::close(turn.taped);
    Turn {
        taped: a.taped,
        size: answers::reply(a.reply, b"", out),
        ..turn
    }
}

// What is asked about the desk: the book, the lanes, the net turnover; or about its tape: what a replay of it gives, or its blocks. The
// file is only read, but lent as each of the rooms is that is lent beside another.
fn question(taped: Taped, what: What, file: &mut [u8], out: &mut [u8]) -> usize
    requires { ValidTaped taped }
{
    let desk = taped.desk;
    match what {
        What::Book => desks::book(desk, out),
        What::Lanes => desks::lanes(desk, out),
        What::Net => desks::net(desk, out),
        What::Replay => plain::replayed(tape_in(taped.tail, file), out),
        _ => desks::blocks(tape_in(taped.tail, file), out),
    }
}

// A question leaves all as it is.
fn asked(turn: Turn, what: What, rooms: &mut Rooms) -> Turn
    requires { ValidTaped turn.taped }
    ensures { ValidTaped result.taped }
{
    Turn {
        size: question(turn.taped, what, rooms.file, rooms.text),
        ..turn
    }
}

// A line that leaves the desk alone.
fn aside(turn: Turn, o: Order, s: &mut [u8], name: &[u8], rooms: &mut Rooms) -> Turn
    requires { ValidTaped turn.taped }
    ensures { ValidTaped result.taped }
{
    let (at, size) = plain::answered(turn.at, o, s, name, rooms);
    Turn { at, size, ..turn }
}

// What a line with this order does, with the bytes of its message and the till's own name.
fn done(turn: Turn, o: Order, s: &mut [u8], name: &[u8], rooms: &mut Rooms) -> Turn
    requires { ValidTaped turn.taped }
    ensures { ValidTaped result.taped }
{
    match o.what {
        What::Sale | What::Refund | What::Reversal | What::Terminal | What::Lost => {
            call(turn, o, s, rooms)
        }
        What::Close => closed(turn, rooms.text),
        What::Book | What::Lanes | What::Net | What::Tape | What::Replay => {
            asked(turn, o.what, rooms)
        }
        _ => aside(turn, o, s, name, rooms),
    }
}

// The next line of a script.
pub(crate) fn line(turn: Turn, s: &[u8], rooms: &mut Rooms) -> Turn
    requires { ValidTaped turn.taped }
    ensures { ValidTaped result.taped }
{
    let mut bytes = [0u8; BYTES];
    let number = turn.at.number.wrapping_add(1);
    let at = Script { number, ..turn.at };
    let o = order_of(at, s, &mut bytes);
    let (message, behind) = bytes.split_at_mut(o.size);
    let name = &behind[..o.end - o.size];
    done(Turn { at, ..turn }, o, message, name, rooms)
}
