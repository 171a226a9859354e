// The body of a message: plain bytes, a field list, or a field list after a password.
ghost use Rattle.std.specs.Prelude.{◌≡◌, ◌+◌, ◌≤◌, length};
ghost use Rattle.zvt_rules.specs.Limits.{most_body};
ghost use Rattle.zvt_rules.specs.declared.Layout.TheVariants.{Secured as secured};
ghost use Rattle.zvt.specs.BodySteps.{body_located, body_found, described};

use crate::fields::{all_decimal, read_list};
use crate::format::layout_of;
use crate::objects::{Located, Tally};
use crate::part::Part;
use zvt_rules::{Header, Layout, Outline, Places, Refusal, Span};

pub(crate) const NO_PLACES: Places = Places {
    password: None,
    fields: [None; 4],
};

// A password, then a list.
pub(crate) fn read_secured(p: Part, ids: [u8; 4]) -> Result<Located<Places>, Refusal>
    ensures { result ≡ body_located ids p.entry.at p.entry.bytes.now secured }
{
    let size = p.bytes.len();
    if size < 3 {
        return Err(p.fault(Refusal::ENDS_TOO_SOON, size));
    }
    all_decimal(p.between(0, 3))?;
    let rest = p.behind(3);
    let list = read_list(rest, ids)?;
    let tally = Tally { size, ..list.tally };
    let password = Some(Span {
        from: p.at,
        to: rest.at,
    });
    let fields = list.lies;
    Ok(Located {
        tally,
        lies: Places { password, fields },
    })
}

pub(crate) fn read_body(p: Part, layout: Layout, ids: [u8; 4]) -> Result<Located<Places>, Refusal>
    ensures { result ≡ body_located ids p.entry.at p.entry.bytes.now layout }
{
    match layout {
        Layout::Plain => Ok(Located {
            tally: Tally {
                size: p.bytes.len(),
                objects: 0,
                spare: 0,
            },
            lies: NO_PLACES,
        }),
        Layout::List => {
            let list = read_list(p, ids)?;
            let fields = list.lies;
            Ok(Located {
                tally: list.tally,
                lies: Places {
                    password: None,
                    fields,
                },
            })
        }
        Layout::Secured => read_secured(p, ids),
    }
}

// The body that a header of s announces, and where its password and the values of the four fields asked for lie.
#[tactic(auto, using(crate::proofs::BodyLaws::announced))]
pub(crate) fn body_in(s: &[u8], h: Header, ids: [u8; 4]) -> Result<Located<Places>, Refusal>
    requires { (h.start ≤ 5) × (h.length ≤ most_body) × (h.start + h.length ≤ length s.now) }
    ensures { result ≡ body_found ids h s.now }
{
    let from = h.start;
    let to = from + h.length;
    let layout = layout_of(h.class, h.instruction);
    let p = Part {
        bytes: &s[from..to],
        at: from,
    };
    read_body(p, layout, ids)
}

// A message by its header and the tally of its body.
#[tactic(auto, unfolding(crate::specs::BodySteps::described))]
pub(crate) fn outline_of(h: Header, t: Tally) -> Outline
    ensures { result ≡ described h t }
{
    Outline {
        class: h.class,
        instruction: h.instruction,
        start: h.start,
        length: h.length,
        objects: t.objects,
        shortest: t.spare == 0 && (h.start == 3 || 255 <= h.length),
    }
}
