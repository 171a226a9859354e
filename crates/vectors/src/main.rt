// Plays the files of cases that the arguments name, and scripts of as many bytes as are taken and of one more.

#![tactic(auto)]

use script::cases::Tally;
use std::fs::File;
use std::os::fd::AsRawFd;
use std::rt::{Env, Files};
use system::STDOUT_FILENO;

// One file; where it cannot be read, or is longer than a script may be, that counts as an answer that differs.
fn file(rt: &impl Files<File = File>, path: &[u8]) -> Tally {
    let bad = Tally {
        answers: 0,
        differ: 1,
    };
    let file = match system::open_read(rt, path) {
        Ok(file) => file,
        Err(e) => {
            system::fail(path, e);
            return bad;
        }
    };
    let mut text = [0u8; script::LIMIT + 1];
    // A read that fails counts as the end.
    let n = io::read_full(file.as_raw_fd(), &mut text);
    drop(file);
    if script::LIMIT < n {
        io::write_all(STDOUT_FILENO, b"file too long\n");
        return bad;
    }
    script::cases::check(path, &text[..n])
}

// The files of the arguments from number 1 on.
fn files(rt: &(impl Env + Files<File = File>), count: usize) -> Tally {
    let mut path = io::buffer();
    let mut answers: u64 = 0;
    let mut differ: u64 = 0;
    for k in 1..count {
        let n = rt.arg(k, &mut path).unwrap_or(0);
        let t = file(rt, &path[..n]);
        answers = answers.wrapping_add(t.answers);
        differ = differ.wrapping_add(t.differ);
    }
    Tally { answers, differ }
}

fn main(rt: HostRuntime) {
    let most = [b'#'; script::LIMIT];
    script::play(&most);
    let more = [b'#'; script::LIMIT + 1];
    script::play(&more);
    let t = files(&rt, system::arg_count(&rt));
    io::print_decimal(STDOUT_FILENO, t.answers);
    io::write_all(STDOUT_FILENO, b" answers, ");
    io::print_decimal(STDOUT_FILENO, t.differ);
    io::write_all(STDOUT_FILENO, b" differ\n");
}
