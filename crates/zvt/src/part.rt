// A part of a message, and where in the message it begins: the place of a refusal is counted from the message's start.
ghost use Rattle.std.specs.Prelude.{◌≡◌, ℕ, ◌+◌, ◌-◌, ◌<◌, ◌≤◌, length, get_or, drop};
ghost use Rattle.basics.specs.Lists.{part};
ghost use Rattle.zvt_rules.specs.Limits.{most_message};
ghost use Rattle.zvt_rules.specs.Reading.{fault_at};

use zvt_rules::Refusal;

// That bytes are bytes is known of a slice that is an argument, and has to be said of one in a struct.
#[derive(Clone, Copy)]
pub(crate) struct Part<'a> {
    pub(crate) bytes: &'a [u8],
    pub(crate) at: usize,
    ghost are_bytes: { (i : ℕ) → get_or bytes.now i 0 < 256 },
    ghost within: { at + length bytes.now ≤ most_message },
}

impl<'a> Part<'a> {
    // What stands from its n-th byte on.
    pub(crate) fn behind(self, n: usize) -> Part<'a>
        requires { n ≤ length self.bytes.now }
        ensures at { result.at ≡ self.entry.at + n }
        ensures bytes { result.bytes.now ≡ drop n self.entry.bytes.now }
    {
        Part {
            bytes: &self.bytes[n..],
            at: self.at + n,
        }
    }

    // What stands between two of its bytes.
    pub(crate) fn between(self, from: usize, to: usize) -> Part<'a>
        requires { (from ≤ to) × (to ≤ length self.bytes.now) }
        ensures at { result.at ≡ self.entry.at + from }
        ensures bytes { result.bytes.now ≡ part from to self.entry.bytes.now }
    {
        Part {
            bytes: &self.bytes[from..to],
            at: self.at + from,
        }
    }

    // A refusal at its k-th byte, or at its end.
    pub(crate) fn fault(self, number: u8, k: usize) -> Refusal
        requires { k ≤ length self.bytes.now }
        ensures { result ≡ fault_at number (self.entry.at + k) }
    {
        Refusal {
            number,
            place: Some(self.at + k),
        }
    }
}
