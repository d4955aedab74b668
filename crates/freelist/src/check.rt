// The check of one node: its place and size, and its order after the node before it.
ghost use Rattle.std.specs.Prelude.{◌≡◌, true, ◌≤◌, length, unwrap_or, option_map};
ghost use Rattle.words.specs.Word.{word_at};
ghost use Rattle.freelist.specs.Segs.{seg_at, leads};
ghost use Rattle.freelist.specs.Check.{in_range};

use crate::segs::may_lead;
use records::{Order, Segment};

// Whether a node may stand at p: its place, a size that is not 0, and its end. It is read once its word lies below the
// top. `top` and the buffer stay apart: the callers need the whole buffer's length too.
pub fn node_ok(buf: &[u8], p: usize, start: usize, top: usize) -> bool
    requires { top ≤ length buf.now }
    ensures { result ≡ in_range start top (seg_at (word_at buf.now) p) }
{
    if !p.is_multiple_of(8) {
        return false;
    }
    if p < start {
        return false;
    }
    if top < words::NODE_SIZE {
        return false;
    }
    if top - words::NODE_SIZE < p {
        return false;
    }
    let size = words::node_at(buf, p).size as usize;
    if size == 0 {
        return false;
    }
    if top - words::NODE_SIZE - p < size {
        return false;
    }
    true
}

// Whether a node may follow the last one, if there is one.
pub fn follows_last(order: Order, last: Option<Segment>, node: Segment) -> bool
    ensures { result ≡ unwrap_or (option_map (λ s. leads order s node) last) true }
{
    last.is_none_or(|s| may_lead(order, s, node))
}
