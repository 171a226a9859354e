// What a message tells the desk: its status, and the first byte of a plain body.
ghost use Rattle.std.specs.Prelude.{◌≡◌};
ghost use Rattle.zvt_rules.specs.Heard.{told_answer};
ghost use Rattle.zvt_rules.specs.Message.{read_of};
ghost use Rattle.zvt.specs.ListSteps.{Was};
ghost use Rattle.zvt.specs.ValueSteps.{status_ids, FoundIn};
ghost use Rattle.zvt.specs.ToldSteps.{HeaderOf, Tells, first_in};

use crate::body::{body_in, outline_of};
use crate::format::layout_of;
use crate::values::{STATUS_IDS, status_at};
use zvt_rules::{Header, Layout, Outline, Refusal, Span, ToldBody};

// The first byte of a plain body, if it has one.
fn first_in(s: &[u8], m: Outline) -> Option<u8>
    requires { Was s.now m }
    ensures { result ≡ first_in (read_of s.now) }
{
    let at = m.start;
    if s.len() <= at {
        return None;
    }
    match layout_of(m.class, m.instruction) {
        Layout::Plain => Some(s[at]),
        Layout::List | Layout::Secured => None,
    }
}

#[tactic(auto, using(crate::proofs::ToldLaws::told_is))]
fn told_in(s: &[u8], m: Outline, fields: [Option<Span>; 4]) -> ToldBody
    requires { Was s.now m × FoundIn status_ids fields s.now }
    ensures { Tells result s.now }
{
    ToldBody {
        first: first_in(s, m),
        status: status_at(s, fields),
    }
}

// What the body behind the header of the message that s is tells.
pub(crate) fn told_behind(s: &[u8], h: Header) -> Result<ToldBody, Refusal>
    requires { HeaderOf h s.now }
    ensures { result ≡ told_answer (read_of s.now) }
{
    let body = body_in(s, h, STATUS_IDS)?;
    Ok(told_in(s, outline_of(h, body.tally), body.lies.fields))
}
