// A message asked for fields: read once, with four ids to look for.
ghost use Rattle.std.specs.Prelude.{◌≡◌};
ghost use Rattle.zvt.specs.AskingSteps.{message_found};

use crate::body::{body_in, outline_of};
use crate::headers::whole_header;
use zvt_rules::{Outline, Places, Refusal};

// A message that was read, and where its password and the values of the four fields asked for lie.
#[derive(Clone, Copy)]
pub(crate) struct MessageFound {
    pub(crate) outline: Outline,
    pub(crate) places: Places,
}

// No field has this id: none is asked for. Four are asked for at once, since `places` takes four.
pub(crate) const NO_ID: u8 = 0x00;

// The message that s is, and where the fields with those ids lie in it.
pub(crate) fn ask(s: &[u8], ids: [u8; 4]) -> Result<MessageFound, Refusal>
    ensures { result ≡ message_found ids s.now }
{
    let h = whole_header(s)?;
    let body = body_in(s, h, ids)?;
    Ok(MessageFound {
        outline: outline_of(h, body.tally),
        places: body.lies,
    })
}
