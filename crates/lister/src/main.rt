// Lists the messages on standard input, one line each.

#![tactic(auto)]

use system::{STDIN_FILENO, STDOUT_FILENO};

fn main() {
    let mut input = [0u8; listing::LIMIT + 1];
    let mut text = [0u8; listing::TEXT];
    let n = io::read_full(STDIN_FILENO, &mut input);
    let size = listing::list(&input[..n], &mut text);
    io::write_all(STDOUT_FILENO, &text[..size]);
}
