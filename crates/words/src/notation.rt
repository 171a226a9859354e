// Numbers and bytes as a line has them.
ghost use Rattle.std.specs.Prelude.{◌≡◌, true, [], ◌∷◌, length};
ghost use Rattle.std.specs.Option.{option_map};
ghost use Rattle.words.specs.Notation.{is_hex, hex_byte, number_from, word_number, in_pairs, bytes_of, id_of};
ghost use Rattle.words.specs.Steps.{Fits, put};

use buffers::hex_value;

const MOST_DIGITS: usize = 20;

// The number n with one decimal digit more.
#[tactic(auto, unfolding(crate::specs::Notation::number_from, crate::specs::Notation::value_from))]
fn with_digit(n: u64, c: u8) -> Option<u64>
    ensures { result ≡ number_from n (c ∷ []) }
{
    if !c.is_ascii_digit() {
        return None;
    }
    n.checked_mul(10)?.checked_add(u64::from(c - b'0'))
}

// The decimal number that w is.
#[tactic(auto, using(crate::proofs::NotationLaws::at_digit, crate::proofs::NotationLaws::at_end, crate::proofs::NotationLaws::number_sized), unfolding(crate::specs::Notation::word_number, crate::specs::Lines::if_some))]
pub(crate) fn word_number(w: &[u8]) -> Option<u64>
    ensures { result ≡ word_number w.now }
{
    if w.is_empty() || MOST_DIGITS < w.len() {
        return None;
    }
    let mut n: u64 = 0;
    for &c in w {
        n = with_digit(n, c)?;
    }
    Some(n)
}

// Whether w is pairs of hexadecimal digits.
#[tactic(auto, unfolding(crate::specs::Notation::in_pairs))]
fn in_pairs(w: &[u8]) -> bool
    ensures { result ≡ in_pairs w.now }
{
    w.iter().all(|c| hex_value(*c) < 16) && w.len() % 2 == 0
}

// The byte of two digits.
fn byte(high: u8, low: u8) -> u8
    requires { (is_hex high ≡ true) × (is_hex low ≡ true) }
    ensures { result ≡ hex_byte high low }
{
    hex_value(high) * 16 + hex_value(low)
}

// How many bytes w stands for.
#[tactic(auto, using(crate::proofs::NotationLaws::pairs_size), unfolding(crate::specs::Notation::bytes_of))]
pub(crate) fn size_of(w: &[u8]) -> Option<usize>
    ensures { result ≡ option_map length (bytes_of w.now) }
{
    if w == b"-".as_slice() {
        return Some(0);
    }
    if w.is_empty() || !in_pairs(w) {
        return None;
    }
    Some(w.len() / 2)
}

// The bytes that w stands for go to the start of out.
pub(crate) fn put_bytes(w: &[u8], out: &mut [u8])
    requires { Fits (bytes_of w.now) out.old }
    ensures { out.new ≡ put (bytes_of w.now) out.old }
{
    for (k, pair) in w.chunks_exact(2).enumerate() {
        out[k] = byte(pair[0], pair[1]);
    }
}

// The id of a field: one byte.
#[tactic(auto, using(crate::proofs::NotationLaws::hex_at, crate::proofs::NotationLaws::paired_hex), unfolding(crate::specs::Notation::id_of))]
pub(crate) fn id_of(w: &[u8]) -> Option<u64>
    ensures { result ≡ id_of w.now }
{
    if w.len() != 2 || !in_pairs(w) {
        return None;
    }
    Some(u64::from(byte(w[0], w[1])))
}
