// Plays the script on standard input.

#![tactic(auto)]

use system::STDIN_FILENO;

fn main() {
    let mut input = [0u8; script::LIMIT + 1];
    let n = io::read_full(STDIN_FILENO, &mut input);
    script::play(&input[..n]);
}
