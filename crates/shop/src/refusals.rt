// A refusal told in words: the first that docs/RULES.md has for its number (R1 to R23), without the other rules named there. What to do
// next is said in docs/REFUSALS.md.
use system::STDERR_FILENO;
use zvt_rules::Refusal;

fn say(text: &[u8]) {
    io::write_all(STDERR_FILENO, text);
}

// What each number means. A till meets all but 23, which a replayed tape is refused with.
fn say_meaning(number: u8) {
    match number {
        Refusal::ENDS_TOO_SOON => say(b"the bytes end before a thing that they began"),
        Refusal::TOO_LONG => say(b"a header announces more than 4,096 bytes of body"),
        Refusal::LEFT_OVER => say(b"bytes are left over behind the one message or block"),
        Refusal::NO_LENGTH_DIGIT => say(b"a byte that is no length digit stands where one is due"),
        Refusal::UNKNOWN_FIELD => say(b"a field id is unknown"),
        Refusal::NOT_DECIMAL => say(b"a half of a byte is no decimal digit"),
        Refusal::FIELD_TWICE => say(b"a field id stands a second time"),
        Refusal::TAG_TOO_LONG => say(b"a second tag byte has its top bit set"),
        Refusal::TOO_DEEP => say(b"an object is at depth 5"),
        Refusal::TOO_MANY_OBJECTS => say(b"an object is the 65th"),
        Refusal::NO_ROOM => say(b"the room lent for what is to be written is too small"),
        Refusal::NO_SUCH_LANE => say(b"there is no such lane"),
        Refusal::LANE_NOT_IDLE => say(b"the lane is not idle"),
        Refusal::LANE_IDLE => say(b"the lane is idle"),
        Refusal::NOT_ALLOWED => say(
            b"the pair, or a body that is not empty, is not allowed in this phase",
        ),
        Refusal::OUTSIDE_LIMITS => say(b"a number is outside its limits"),
        Refusal::NO_SALE => say(b"there is no sale to reverse"),
        Refusal::BOOK_FULL => say(b"lines and open payments are 64 already"),
        Refusal::PAYMENT_OPEN => say(b"a payment is open at closing"),
        Refusal::WRONG_CHECK => say(b"the check of a block is wrong"),
        Refusal::WRONG_CONTENTS => say(b"number, used count or filling of a block is wrong"),
        Refusal::NO_LENGTH => say(
            b"the first length byte of a container or data object is 80 or 83 to FF",
        ),
        Refusal::RECORD_NOT_DUE => say(
            b"a record of the till is neither an opening as the desk records it nor the reply that is due",
        ),
        _ => say(b"no refusal has this number"),
    }
}

// A refusal: its number, the place in the message where it names one, and what it means.
pub fn tell(r: Refusal) {
    say(b"shop: refused ");
    io::print_decimal(STDERR_FILENO, u64::from(r.number));
    if let Some(p) = r.place {
        say(b" at ");
        io::print_decimal(STDERR_FILENO, p as u64);
    }
    say(b": ");
    say_meaning(r.number);
    say(b"\n");
}
