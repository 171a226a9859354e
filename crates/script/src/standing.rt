// Lines that say where the script stands: it ends, so many bytes are lent from now on, bytes are added. Each function answers where the
// script then stands, and how long the text of its answer is.
use buffers::add_all;
use printing::answers;
use words::Script;

// So many times the bytes s, behind the first at bytes of out. After as many times as out has bytes nothing more is added.
fn repeated(s: &[u8], times: u64, at: usize, out: &mut [u8]) -> usize {
    let mut to = at;
    for _ in 0..times.min(out.len() as u64) {
        to = add_all(s, to, out);
    }
    to
}

// A line that is not understood ends the script.
pub(crate) fn ended(at: Script, out: &mut [u8]) -> (Script, usize) {
    (
        Script { more: false, ..at },
        answers::not_understood(at.number, out),
    )
}

// So many bytes are lent from now on, if there are that many.
pub(crate) fn roomed(at: Script, room: u64, out: &mut [u8]) -> (Script, usize) {
    if (Script::ROOM as u64) < room {
        return ended(at, out);
    }
    let room = room as usize;
    (Script { room, ..at }, add_all(b"ok\n", 0, out))
}

// So many times the bytes s are added.
pub(crate) fn extended(
    at: Script,
    s: &[u8],
    times: u64,
    added: &mut [u8],
    out: &mut [u8],
) -> (Script, usize) {
    let added = repeated(s, times, at.added, added);
    (
        Script { added, ..at },
        answers::counted(b"bytes", added as u64, 0, out),
    )
}
