// The header of a message: class byte, instruction byte, length.
ghost use Rattle.std.specs.Prelude.{◌≡◌};
ghost use Rattle.zvt.specs.HeaderSteps.{fitting, first_header, whole_answer};

use zvt_rules::{Header, Outline, Refusal};

// The header, where its body keeps the limit and lies in s.
pub(crate) fn fitted(s: &[u8], h: Header) -> Result<Header, Refusal>
    ensures { result ≡ fitting h s.now }
{
    if Outline::MOST_BODY < h.length {
        return Err(Refusal::unplaced(Refusal::TOO_LONG));
    }
    if s.len() < h.start || s.len() - h.start < h.length {
        return Err(Refusal::unplaced(Refusal::ENDS_TOO_SOON));
    }
    Ok(h)
}

// The header of the message that s begins with.
pub(crate) fn header_of(s: &[u8]) -> Result<Header, Refusal>
    ensures { result ≡ first_header s.now }
{
    let cut = Refusal::unplaced(Refusal::ENDS_TOO_SOON);
    if s.len() < 3 {
        return Err(cut);
    }
    let class = s[0];
    let instruction = s[1];
    let b = s[2];
    if b != 0xFF {
        let short = Header {
            class,
            instruction,
            start: 3,
            length: usize::from(b),
        };
        return fitted(s, short);
    }
    if s.len() < 5 {
        return Err(cut);
    }
    let length = u16::from_le_bytes([s[3], s[4]]);
    let long = Header {
        class,
        instruction,
        start: 5,
        length: usize::from(length),
    };
    fitted(s, long)
}

// The header of the message that s is.
pub(crate) fn whole_header(s: &[u8]) -> Result<Header, Refusal>
    ensures { result ≡ whole_answer s.now }
{
    let h = header_of(s)?;
    if h.length < s.len() - h.start {
        return Err(Refusal::unplaced(Refusal::LEFT_OVER));
    }
    Ok(h)
}
