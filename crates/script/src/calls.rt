// The buffers that the lines of a script are lent; what a line opens, and which block is due.
use desk_rules::Opening;
use tape_rules::Block;
use words::{Order, What};

// The buffers of a script: for the tape's file, for what a call writes, for the bytes that lines added, and for the text of an answer.
#[derive(Drop)]
pub(crate) struct Rooms<'a> {
    pub(crate) file: &'a mut [u8],
    pub(crate) room: &'a mut [u8],
    pub(crate) added: &'a mut [u8],
    pub(crate) text: &'a mut [u8],
}

// n, or the greatest number of a narrower type where n is greater.
pub(crate) fn at_most<T: TryFrom<u64>>(n: u64, greatest: T) -> T
where
    T: Drop,
    T::Error: Drop,
{
    T::try_from(n).unwrap_or(greatest)
}

// What a line opens. A number over the width of its type is passed on as the greatest of that type: the desk refuses it.
pub(crate) fn opening_of(o: Order) -> Opening {
    match o.what {
        What::Sale => Opening::Sale { amount: o.second },
        What::Refund => Opening::Refund {
            password: at_most(o.second, u32::MAX),
            amount: o.third,
        },
        _ => Opening::Reversal {
            password: at_most(o.second, u32::MAX),
            receipt: at_most(o.third, u16::MAX),
        },
    }
}

// The block that is due, by its number: the last of its tape, or one before the last.
pub(crate) fn due_of(o: Order) -> Block {
    let number = at_most(o.first, u32::MAX);
    match o.what {
        What::LastBlock | What::DamageLast => Block::at_end(number),
        _ => Block::before_last(number),
    }
}
