// The words of a line: what lies between its blanks.
ghost use Rattle.std.specs.Prelude.{◌≡◌};
ghost use Rattle.words.specs.Split.{word_of};
ghost use Rattle.words.specs.Split.{following as following_in};

// How many words follow the first.
#[tactic(auto, using(crate::proofs::SplitLaws::blanks))]
pub(crate) fn following(s: &[u8]) -> usize
    ensures { result ≡ following_in s.now }
{
    s.iter().filter(|b| **b == b' ').count()
}

// Word number k, the first being number 0; no bytes where there is none.
pub(crate) fn word<'a>(s: &'a [u8], k: usize) -> &'a [u8]
    ensures { result.now ≡ word_of k s.now }
{
    s.split(|b| *b == b' ').nth(k).unwrap_or(&[])
}
