// What a program asks of the system: how many arguments it has, files by the bytes of their names, and the words for an error. Beside
// that the numbers of the standard streams, for the functions of io.

#![tactic(auto)]

ghost use Rattle.std.specs.Prelude.{◌≡◌, ◌↔◌, IfOk, IsOk};
ghost use Rattle.std.specs.Str.{IsUtf8};

use std::env::FillError;
use std::fs;
use std::fs::{File, OpenOptions};
use std::io::{Cursor, Error, Write};
use std::rt::{Env, Files};
use std::str::from_utf8;

pub const STDIN_FILENO: i32 = 0;

pub const STDOUT_FILENO: i32 = 1;

pub const STDERR_FILENO: i32 = 2;

// The system's number for bytes that are no text.
const EILSEQ: i32 = 84;

// What std says of an error is shorter.
const MOST_SAID: usize = 128;

// Whether there is an argument of that number; one that does not fit is there, too.
fn is_there(rt: &impl Env, k: usize) -> bool {
    let mut first = [0u8; 1];
    !matches!(rt.arg(k, &mut first), Err(FillError::NotPresent))
}

// How many arguments the program was started with, its own name among them.
pub fn arg_count(rt: &impl Env) -> usize {
    // No program has so many that none is missing.
    (0..usize::MAX)
        .find(|k| !is_there(rt, *k))
        .unwrap_or(usize::MAX)
}

// A path as std takes it: bytes that are no UTF-8 name no file.
fn name(path: &[u8]) -> Result<&str, Error>
    ensures valid { IsOk result ↔ IsUtf8 path.now }
    ensures same { IfOk result (λ s. s.now ≡ path.now) }
{
    from_utf8(path).map_err(|_| Error::from_raw_os_error(EILSEQ))
}

// Opens the file for reading.
pub fn open_read<R: Files>(rt: &R, path: &[u8]) -> Result<R::File, Error>
    ensures { IsOk result → IsUtf8 path.now }
{
    File::open(rt, name(path)?)
}

// Creates the file, which may not be there yet, and opens it for writing.
pub fn create<R: Files>(rt: &R, path: &[u8]) -> Result<R::File, Error>
    ensures { IsOk result → IsUtf8 path.now }
{
    OpenOptions::new()
        .write(true)
        .create_new(true)
        .open(rt, name(path)?)
}

// Takes the file away.
pub fn unlink(rt: &impl Files, path: &[u8]) -> Result<(), Error>
    ensures { IsOk result → IsUtf8 path.now }
{
    fs::remove_file(rt, name(path)?)
}

// The system's words, without the number that std puts behind them.
fn words(said: &str) -> &str {
    said.split_once(" (os error ")
        .map_or(said, |(words, _)| words)
}

// Writes a line to standard error: what failed, as the caller names it, a colon and the words for the error.
pub fn fail(what: &[u8], e: Error) {
    let mut room = Cursor::new([0u8; MOST_SAID]);
    let _ = write!(room, "{e}");
    let size = (room.position() as usize).min(MOST_SAID);
    let text = room.into_inner();
    let said = from_utf8(&text[..size]).unwrap_or("");
    io::write_all(STDERR_FILENO, what);
    io::write_all(STDERR_FILENO, b": ");
    io::write_all(STDERR_FILENO, words(said).as_bytes());
    io::write_all(STDERR_FILENO, b"\n");
}
