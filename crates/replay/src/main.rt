// Prints the day book that the tape on standard input leaves, one line a book line, and how its replay ended.

#![tactic(auto)]

use printing::desks;
use system::{STDIN_FILENO, STDOUT_FILENO};

// The most bytes of a tape.
const LIMIT: usize = 1_048_576;

// With a buffer for the tape, one byte longer than that may be.
fn print(input: &mut [u8]) {
    let n = io::read_full(STDIN_FILENO, input);
    if LIMIT < n {
        io::write_all(STDOUT_FILENO, b"input too long\n");
        return;
    }
    let mut text = [0u8; desks::BOOK];
    let r = replaying::replay(&input[..n]);
    let size = desks::replayed(r.desk, r.place, r.ending, &mut text);
    io::write_all(STDOUT_FILENO, &text[..size]);
}

// It takes no argument.
fn main(rt: HostRuntime) {
    if system::arg_count(&rt) != 1 {
        io::write_all(STDOUT_FILENO, b"not understood\n");
        return;
    }
    let mut input = [0u8; LIMIT + 1];
    print(&mut input);
}
