// How lines are written, by their first word.
ghost use Rattle.std.specs.Prelude.{◌≡◌};
ghost use Rattle.words.specs.Shapes.{shape_of};
ghost use Rattle.words.specs.Steps.{rows, shape_in};

use crate::What;

// Behind the word of a line stand so many numbers, behind them so many runs of bytes, and behind those so many ids.
#[derive(Clone, Copy)]
pub(crate) struct Shape {
    pub(crate) what: What,
    pub(crate) numbers: u8,
    pub(crate) runs: u8,
    pub(crate) ids: u8,
}

// A word, and the shape of its line.
type Row = (&'static [u8], What, u8, u8, u8);

// The words of a script.
const SCRIPT: [Row; 16] = [
    (b"close", What::Close, 0, 0, 0),
    (b"sale", What::Sale, 2, 0, 0),
    (b"refund", What::Refund, 3, 0, 0),
    (b"reversal", What::Reversal, 3, 0, 0),
    (b"terminal", What::Terminal, 1, 1, 0),
    (b"lost", What::Lost, 1, 0, 0),
    (b"book", What::Book, 0, 0, 0),
    (b"lanes", What::Lanes, 0, 0, 0),
    (b"net", What::Net, 0, 0, 0),
    (b"tape", What::Tape, 0, 0, 0),
    (b"replay", What::Replay, 0, 0, 0),
    (b"room", What::Room, 1, 0, 0),
    (b"read", What::Read, 0, 1, 0),
    (b"name", What::Name, 0, 2, 0),
    (b"shorten", What::Shorten, 0, 1, 0),
    (b"field", What::Field, 0, 1, 1),
];

// The further words: what the reader and the lister are asked, and blocks and tapes.
const CASES: [Row; 18] = [
    (b"header", What::Header, 0, 1, 0),
    (b"first", What::First, 0, 1, 0),
    (b"status", What::Status, 0, 1, 0),
    (b"list", What::List, 0, 1, 0),
    (b"each", What::Each, 1, 1, 0),
    (b"amount", What::Amount, 1, 0, 0),
    (b"password", What::Password, 1, 0, 0),
    (b"receipt", What::Receipt, 1, 0, 0),
    (b"add", What::Add, 1, 1, 0),
    (b"block", What::Block, 1, 1, 0),
    (b"last-block", What::LastBlock, 1, 1, 0),
    (b"damage", What::Damage, 1, 1, 0),
    (b"damage-last", What::DamageLast, 1, 1, 0),
    (b"write", What::Write, 1, 1, 0),
    (b"records", What::Records, 0, 1, 0),
    (b"blocks", What::Blocks, 0, 1, 0),
    (b"replay-tape", What::ReplayTape, 0, 1, 0),
    (b"replay-records", What::ReplayRecords, 0, 1, 0),
];

const BAD: Shape = Shape {
    what: What::Bad,
    numbers: 0,
    runs: 0,
    ids: 0,
};

// The shape of the first row with that word.
fn shape_in(table: &[Row], name: &[u8]) -> Option<Shape>
    ensures { result ≡ shape_in (rows table.now) name.now }
{
    let &(_, what, numbers, runs, ids) = table.iter().find(|(word, ..)| *word == name)?;
    Some(Shape {
        what,
        numbers,
        runs,
        ids,
    })
}

// The shape of a line with that first word; where the word is none of these, it is bad.
pub(crate) fn shape_of(further: bool, name: &[u8]) -> Shape
    ensures { result ≡ shape_of further name.now }
{
    if let Some(shape) = shape_in(&SCRIPT, name) {
        return shape;
    }
    if further {
        return shape_in(&CASES, name).unwrap_or(BAD);
    }
    BAD
}
