// The shortest writing of a message. It is put down from its end to its start, so that each length is known when its turn comes:
// inner ones first.
ghost use Rattle.std.specs.Prelude.{◌≡◌, true, ◌+◌, ◌<◌, ◌≤◌, length};
ghost use Rattle.basics.specs.Lists.{part};
ghost use Rattle.zvt_rules.specs.Limits.{most_body};
ghost use Rattle.zvt_rules.specs.believed.Writing.{len_bytes};
ghost use Rattle.zvt_rules.specs.Shortest.{form_for};
ghost use Rattle.zvt.specs.WritingSteps.{Put, head_bytes, value_bytes, RunReads, short_run_of, short_field_of, ListReads, short_list_of, BodyReads, short_body_of, header_bytes, body_part, header_layout, short_message_of};

use crate::fields::field_bounds;
use crate::format::{format_of, layout_of};
use crate::objects::{Bounds, head_of};
use crate::part::Part;
use zvt_rules::{Header, Layout};

// Puts v at the end of out. Here and below, the answer is how many bytes of out are left before what was put.
pub(crate) fn put(v: &[u8], out: &mut [u8]) -> usize
    requires { length v.now ≤ length out.old }
    ensures { Put v.now out.old result out.new }
{
    let at = out.len() - v.len();
    buffers::copy(v, &mut out[at..]);
    at
}

// The shortest length of v bytes.
pub(crate) fn put_len(v: usize, out: &mut [u8]) -> usize
    requires { (v < 65536) × (length (len_bytes (form_for v) v) ≤ length out.old) }
    ensures { Put (len_bytes (form_for v) v) out.old result out.new }
{
    let [high, low] = (v as u16).to_be_bytes();
    if v < 128 {
        return put(&[low], out);
    }
    if v < 256 {
        return put(&[0x81, low], out);
    }
    put(&[0x82, high, low], out)
}

// A tag, or a container's id, and the shortest length of v bytes.
pub(crate) fn put_head(tag: &[u8], v: usize, out: &mut [u8]) -> usize
    requires { (v < 65536) × (length (head_bytes tag.now v) ≤ length out.old) }
    ensures { Put (head_bytes tag.now v) out.old result out.new }
{
    let left = put_len(v, out);
    put(tag, &mut out[..left])
}

// An object of plain bytes.
pub(crate) fn put_leaf(tag: &[u8], value: &[u8], out: &mut [u8]) -> usize
    requires { (length value.now < 65536) × (length (value_bytes tag.now value.now) ≤ length out.old) }
    ensures { Put (value_bytes tag.now value.now) out.old result out.new }
{
    let left = put(value, out);
    put_head(tag, value.len(), &mut out[..left])
}

// An object or a container whose value is a run.
#[cycle(put_branch_put_run)]
pub(crate) fn put_branch(tag: &[u8], run: &[u8], out: &mut [u8]) -> usize
    requires { (length run.now ≤ most_body) × RunReads run.now × (length (value_bytes tag.now (short_run_of run.now)) ≤ length out.old) }
    ensures { Put (value_bytes tag.now (short_run_of run.now)) out.old result out.new }
{
    let left = put_run(run, out);
    let v = out.len() - left;
    put_head(tag, v, &mut out[..left])
}

// A run of objects, the last one first.
#[cycle(put_branch_put_run)]
pub(crate) fn put_run(s: &[u8], out: &mut [u8]) -> usize
    requires { (length s.now ≤ most_body) × RunReads s.now × (length (short_run_of s.now) ≤ length out.old) }
    ensures { Put (short_run_of s.now) out.old result out.new }
{
    if s.len() == 0 {
        return out.len();
    }
    match head_of(Part { bytes: s, at: 0 }) {
        Err(_) => out.len(),
        Ok(b) => {
            let tag = b.tag;
            let from = b.from;
            let to = b.to;
            let left = put_run(&s[to..], out);
            if b.nested {
                put_branch(&s[..tag], &s[from..to], &mut out[..left])
            } else {
                put_leaf(&s[..tag], &s[from..to], &mut out[..left])
            }
        }
    }
}

// The field that s begins with: its length digits have one form only.
pub(crate) fn put_field(s: &[u8], b: Bounds, out: &mut [u8]) -> usize
    requires { (length s.now ≤ most_body) × (1 ≤ b.from) × (b.from ≤ b.to) × (b.to ≤ length s.now) × (b.nested ≡ true → RunReads (part b.from b.to s.now)) × (length (short_field_of b s.now) ≤ length out.old) }
    ensures { Put (short_field_of b s.now) out.old result out.new }
{
    let from = b.from;
    let to = b.to;
    if b.nested {
        put_branch(&s[..1], &s[from..to], out)
    } else {
        put(&s[..to], out)
    }
}

// A list of fields, the last one first.
pub(crate) fn put_list(s: &[u8], out: &mut [u8]) -> usize
    requires { (length s.now ≤ most_body) × ListReads s.now × (length (short_list_of s.now) ≤ length out.old) }
    ensures { Put (short_list_of s.now) out.old result out.new }
{
    if s.len() == 0 {
        return out.len();
    }
    match field_bounds(Part { bytes: s, at: 0 }, format_of(s[0])) {
        Err(_) => out.len(),
        Ok(b) => {
            let to = b.to;
            let left = put_list(&s[to..], out);
            put_field(s, b, &mut out[..left])
        }
    }
}

pub(crate) fn put_body(s: &[u8], layout: Layout, out: &mut [u8]) -> usize
    requires { (length s.now ≤ most_body) × BodyReads layout s.now × (length (short_body_of layout s.now) ≤ length out.old) }
    ensures { Put (short_body_of layout s.now) out.old result out.new }
{
    match layout {
        Layout::Plain => put(s, out),
        Layout::List => put_list(s, out),
        Layout::Secured => {
            let left = put_list(&s[3..], out);
            put(&s[..3], &mut out[..left])
        }
    }
}

// Class, instruction and the shortest length of a body of v bytes.
pub(crate) fn put_header(class: u8, instruction: u8, v: usize, out: &mut [u8]) -> usize
    requires { (v < 65536) × (length (header_bytes class instruction v) ≤ length out.old) }
    ensures { Put (header_bytes class instruction v) out.old result out.new }
{
    let [low, high] = (v as u16).to_le_bytes();
    if v < 255 {
        return put(&[class, instruction, low], out);
    }
    put(&[class, instruction, 0xFF, low, high], out)
}

// The message whose header is h.
pub(crate) fn put_message(s: &[u8], h: Header, out: &mut [u8]) -> usize
    requires { (h.start + h.length ≤ length s.now) × (h.length ≤ most_body) × BodyReads (header_layout h) (body_part h s.now) × (length (short_message_of h s.now) ≤ length out.old) }
    ensures { Put (short_message_of h s.now) out.old result out.new }
{
    let from = h.start;
    let to = from + h.length;
    let layout = layout_of(h.class, h.instruction);
    let left = put_body(&s[from..to], layout, out);
    let v = out.len() - left;
    put_header(h.class, h.instruction, v, &mut out[..left])
}

// How many bytes a message with a body of v bytes takes.
pub(crate) fn message_size(v: usize) -> usize
    requires { v ≤ most_body }
    ensures { result ≡ length (header_bytes 0 0 v) + v }
{
    if v < 255 { v + 3 } else { v + 5 }
}
