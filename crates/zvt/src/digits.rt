// Decimal numbers, two digits to a byte, high first.
ghost use Rattle.std.specs.Prelude.{◌≡◌, ◌≤◌, length};
ghost use Rattle.zvt_rules.specs.Digits.{digit_bytes_of, number_of};

// The last digits of n, in N bytes.
pub(crate) fn digit_bytes<const N: usize>(n: u64) -> [u8; N]
    ensures { result ≡ digit_bytes_of N n }
{
    let mut b = [0u8; N];
    let mut v = n;
    for i in (0..N).rev() {
        let two = v % 100;
        b[i] = (two / 10 * 16 + two % 10) as u8;
        v /= 100;
    }
    b
}

// The number that the digits of s are.
pub(crate) fn number(s: &[u8]) -> u64
    requires { length s.now ≤ 6 }
    ensures { result ≡ number_of s.now }
{
    let mut v: u64 = 0;
    for &b in s {
        let two = u64::from(b);
        v = v * 100 + (two / 16 * 10 + two % 16);
    }
    v
}

// The same of two bytes: small enough, digits or not.
pub(crate) fn short_number(s: &[u8]) -> u16
    requires { length s.now ≤ 2 }
    ensures { result ≡ number_of s.now }
{
    number(s) as u16
}
