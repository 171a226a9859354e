// Scripts of calls that drive a desk with its tape: played, one answer for each line, or checked against the answers beside them.

#![tactic(auto)]

mod calls;
pub mod cases;
mod changes;
mod files;
mod plain;
mod standing;
mod taping;
mod turns;

use crate::calls::Rooms;
use buffers::upto;
use system::STDOUT_FILENO;
use words::Script;

// The most bytes of a script.
pub const LIMIT: usize = 65536;

// The answers to a script go to standard output. No contract can say what is written there.
pub fn play(script: &[u8]) {
    if LIMIT < script.len() {
        io::write_all(STDOUT_FILENO, b"input too long\n");
        return;
    }
    let mut file = [0u8; turns::FILE];
    let mut room = [0u8; Script::ROOM];
    let mut added = [0u8; 1];
    let mut text = [0u8; turns::TEXT];
    let mut rooms = Rooms {
        file: &mut file,
        room: &mut room,
        added: &mut added,
        text: &mut text,
    };
    play_in(script, &mut rooms);
}

// The same with these buffers. Behind the last line end stands one line more, which is blank and has no answer.
fn play_in(script: &[u8], rooms: &mut Rooms) {
    let mut turn = turns::fresh(false);
    for s in script.split(|b| *b == b'\n') {
        turn = turns::line(turn, s, rooms);
        let end = upto(turn.size, rooms.text);
        io::write_all(STDOUT_FILENO, &rooms.text[..end]);
    }
}
