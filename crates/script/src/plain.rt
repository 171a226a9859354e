// Lines that leave the desk alone: what the reader, the lister, the blocks of a tape and the replay of one answer.
use crate::calls::{Rooms, at_most, due_of};
use crate::{changes, standing};
use buffers::upto;
use printing::answers::{BLANK, bytes_line};
use printing::{answers, desks, messages};
use tape_rules::Block;
use words::{Order, Script, What};
use zvt_rules::Refusal;

// No line's bytes are the payload of a longer tape: 131 blocks.
const TAPE: usize = 67_072;

fn block(due: Block, s: &[u8], out: &mut [u8]) -> usize {
    match tape::read_block(due, s) {
        Ok(n) => answers::counted(b"payload", n as u64, 0, out),
        Err(f) => answers::refused(f, out),
    }
}

// The replay of a tape.
pub(crate) fn replayed(s: &[u8], out: &mut [u8]) -> usize {
    let r = replaying::replay(s);
    desks::replayed(r.desk, r.place, r.ending, out)
}

// That of the tape of a payload.
fn retold(s: &[u8], out: &mut [u8]) -> usize {
    let mut blocks = [0u8; TAPE];
    match tape::write_tape(s, &mut blocks) {
        Err(f) => answers::refused(f, out),
        Ok(n) => {
            let end = upto(n, &blocks);
            replayed(&blocks[..end], out)
        }
    }
}

// The digits of a number, as a command has them.
fn digits(o: Order, out: &mut [u8]) -> usize {
    let n = o.first;
    match o.what {
        What::Amount => bytes_line(&zvt::amount_bytes(n), out),
        What::Password => bytes_line(&zvt::password_bytes(at_most(n, u32::MAX)), out),
        What::Receipt => bytes_line(&zvt::receipt_bytes(at_most(n, u16::MAX)), out),
        _ => 0,
    }
}

// What is read of bytes, and nothing changed; or the digits of a number.
fn reading(o: Order, s: &[u8], name: &[u8], out: &mut [u8]) -> usize {
    match o.what {
        What::Name => bytes_line(zvt::card_name(s, name), out),
        What::Block | What::LastBlock => block(due_of(o), s, out),
        What::ReplayTape => replayed(s, out),
        What::ReplayRecords => retold(s, out),
        What::Read => messages::read(s, out),
        What::Header => messages::header(s, out),
        What::First => messages::first(s, out),
        What::Status => messages::status(s, out),
        What::Field => messages::field(s, at_most(o.first, u8::MAX), out),
        What::List => listing::list(s, out),
        _ => digits(o, out),
    }
}

fn write(o: Order, s: &[u8], lent: &mut [u8]) -> Result<usize, Refusal> {
    match o.what {
        What::Shorten => zvt::shorten(s, lent),
        What::Write => tape::write_block(at_most(o.first, u32::MAX), s, lent),
        What::Records => tape::read_tape(s, lent),
        _ => tape::write_tape(s, lent),
    }
}

// What is written into so much lent room: a message shortened, a block, a tape's payload, a tape.
fn writing(o: Order, s: &[u8], room: usize, out: &mut [u8]) -> usize {
    let mut all = [BLANK; Script::ROOM];
    let n = upto(room, &all);
    let lent = &mut all[..n];
    let r = write(o, s, lent);
    answers::reply(r, lent, out)
}

// Bytes that are read with every value for the byte at a place, or a block with every change of a digit.
fn change(o: Order, s: &mut [u8], out: &mut [u8]) -> usize {
    match o.what {
        What::Each => changes::each(o.first as usize, s, out),
        _ => changes::damage(due_of(o), s, out),
    }
}

// What a line comes to that leaves the script as it is.
fn asked_of(o: Order, s: &mut [u8], name: &[u8], room: usize, out: &mut [u8]) -> usize {
    match o.what {
        What::Shorten | What::Write | What::Records | What::Blocks => writing(o, s, room, out),
        What::Each | What::Damage | What::DamageLast => change(o, s, out),
        _ => reading(o, s, name, out),
    }
}

// A line that asks nothing of the desk: where the script then stands, and how long the text of its answer is.
pub(crate) fn answered(
    at: Script,
    o: Order,
    s: &mut [u8],
    name: &[u8],
    rooms: &mut Rooms,
) -> (Script, usize) {
    match o.what {
        What::Bad => standing::ended(at, rooms.text),
        What::Room => standing::roomed(at, o.first, rooms.text),
        What::Add => standing::extended(at, s, o.first, rooms.added, rooms.text),
        _ => (at, asked_of(o, s, name, at.room, rooms.text)),
    }
}
