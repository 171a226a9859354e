// A lent buffer: filled with one value, counted, copied to, searched, or written with text. Each function of text adds behind the first at
// bytes and answers where the text then ends. What does not fit is left out. Place and buffer are two parameters: so the texts
// of all crates are promised.

#![tactic(auto)]

ghost use Rattle.std.specs.Prelude.{◌≡◌, ◌+◌, ◌<◌, ◌≤◌, min, max, [], ◌∷◌, ◌++◌, length, replicate, take, drop};
ghost use Rattle.io.specs.Counts.{IsPrefixLen};
ghost use Rattle.basics.specs.Lists.{index_of};
ghost use Rattle.basics.specs.Text.{text, add_all, hex_digit, hex_text, hexes, bytes_text, hex_value, decimal_text};

// Every byte becomes that value.
pub fn fill(out: &mut [u8], value: u8)
    ensures { out.new ≡ replicate (length out.old) value }
{
    out.fill(value);
}

// n, or the length of s where that is less.
pub fn upto(n: usize, s: &[u8]) -> usize
    ensures least { result ≡ min n (length s.now) }
    ensures counts { IsPrefixLen result s.now }
{
    n.min(s.len())
}

// Puts src at the start of out, as much of it as there is room for, and answers how many bytes that are.
pub fn copy(src: &[u8], out: &mut [u8]) -> usize
    ensures size { result ≡ min (length src.now) (length out.old) }
    ensures bytes { out.new ≡ take result src.now ++ drop result out.old }
{
    let n = src.len().min(out.len());
    out[..n].copy_from_slice(&src[..n]);
    n
}

// The place of the first b in s from that place on; where none follows, the end of s, or that place where it lies behind the end.
pub fn find(s: &[u8], from: usize, b: u8) -> usize
    ensures place { result ≡ from + index_of b (drop from s.now) }
    ensures within { (from ≤ result) × (result ≤ max from (length s.now)) }
{
    let rest = &s[upto(from, s)..];
    from + rest.iter().position(|x| *x == b).unwrap_or(rest.len())
}

pub fn add(b: u8, at: usize, out: &mut [u8]) -> usize
    ensures { text result out.new ≡ add_all (b ∷ []) (text at out.old) }
{
    add_all(&[b], at, out)
}

#[tactic(auto, using(crate::proofs::TextLaws::full, crate::proofs::TextLaws::copied))]
pub fn add_all(v: &[u8], at: usize, out: &mut [u8]) -> usize
    ensures { text result out.new ≡ add_all v.now (text at out.old) }
{
    // With room for a byte at least, a text of one byte is a store, and no call to copy.
    if out.len() <= at {
        return at;
    }
    at + copy(v, &mut out[at..])
}

fn digit(d: u8) -> u8
    requires { d < 16 }
    ensures { result ≡ hex_digit d }
{
    if d < 10 { b'0' + d } else { b'A' + (d - 10) }
}

// Two digits in capital hex.
pub fn add_hex(b: u8, at: usize, out: &mut [u8]) -> usize
    ensures { text result out.new ≡ add_all (hex_text b) (text at out.old) }
{
    let to = add(digit(b / 16), at, out);
    add(digit(b % 16), to, out)
}

// Bytes as hex, `-` for none.
#[tactic(auto, using(crate::proofs::TextLaws::bytes_none, crate::proofs::TextLaws::bytes_some, crate::proofs::TextLaws::hex_step, crate::proofs::TextLaws::hex_none))]
pub fn add_bytes(v: &[u8], at: usize, out: &mut [u8]) -> usize
    ensures { text result out.new ≡ add_all (bytes_text v.now) (text at out.old) }
{
    if v.is_empty() {
        return add(b'-', at, out);
    }
    let mut to = at;
    for &b in v {
        to = add_hex(b, to, out);
    }
    to
}

#[tactic(auto, using(crate::proofs::TextLaws::decimals))]
pub fn add_decimal(n: u64, at: usize, out: &mut [u8]) -> usize
    ensures { text result out.new ≡ add_all (decimal_text n) (text at out.old) }
{
    let mut digits = [0u8; 20];
    let k = io::decimal(n, &mut digits);
    add_all(&digits[..k], at, out)
}

// The value of a hex digit of either case, and 16 for any other byte.
pub fn hex_value(b: u8) -> u8
    ensures { result ≡ hex_value b }
{
    match b {
        b'0'..=b'9' => b - b'0',
        b'A'..=b'F' => b - b'A' + 10,
        b'a'..=b'f' => b - b'a' + 10,
        _ => 16,
    }
}
