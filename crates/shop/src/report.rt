// What ends the day before its time, told on standard error.
use crate::refusals;
use std::io::Error;
use zvt_rules::Refusal;

// A call or a block was refused, or a file cannot be written or read.
#[derive(Clone, Copy)]
pub enum Trouble {
    Refused(Refusal),
    Failed(Error),
}

impl From<Refusal> for Trouble {
    fn from(r: Refusal) -> Self {
        Trouble::Refused(r)
    }
}

impl From<Error> for Trouble {
    fn from(e: Error) -> Self {
        Trouble::Failed(e)
    }
}

// Tells it, with the name of the file that it may be about.
pub fn tell(file: &[u8], trouble: Trouble) {
    match trouble {
        Trouble::Refused(r) => refusals::tell(r),
        Trouble::Failed(e) => system::fail(file, e),
    }
}
