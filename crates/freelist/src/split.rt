// The check of a list in two parts: a walk that looks at each node and at the order of two neighbours, and whether no two
// of the segments that it passed share a byte, pair by pair.
ghost use Rattle.std.specs.Prelude.{◌≡◌, ◌≤◌, length};
ghost use Rattle.freelist.specs.Nodes.{rest};
ghost use Rattle.freelist.specs.Split.{Told, ranged_run, walk_from, apartb};

use crate::check::{follows_last, node_ok};
use crate::nodes::Nodes;
use crate::place::any_meets;
use crate::segs::END_MARK;
use records::{Order, Policy, Segment};

// How many nodes the list from `head` has, where the places and the order of all are sound and it ends at the end mark. No
// sound list has more nodes than a sixteenth of the buffer's length, so the walk ends there, and it ends on any bytes.
fn ranged_run(buf: &[u8], head: usize, start: usize, top: usize, order: Order) -> Option<usize>
    requires { top ≤ length buf.now }
    ensures { Told buf.now head (ranged_run buf.now head start top order) result }
{
    let limit = buf.len() / 16;
    let mut last = None;
    let mut p = head;
    for count in 0..limit {
        if p == END_MARK {
            return Some(count);
        }
        if !node_ok(buf, p, start, top) {
            return None;
        }
        let node = words::node_at(buf, p);
        let segment = Segment {
            offset: p,
            size: node.size as usize,
        };
        if !follows_last(order, last, segment) {
            return None;
        }
        last = Some(segment);
        p = node.next as usize;
    }
    (p == END_MARK).then_some(limit)
}

// The walk by a policy: None has no list to follow.
pub fn free_run(buf: &[u8], head: usize, start: usize, top: usize, policy: Policy) -> Option<usize>
    requires { top ≤ length buf.now }
    ensures { Told buf.now head (walk_from policy start top buf.now head) result }
{
    match policy {
        Policy::None => (head == END_MARK).then_some(0),
        Policy::Ordered(order) => ranged_run(buf, head, start, top, order),
    }
}

// Whether no two of these nodes share a byte, pair by pair. A turn reads the nodes that are left, which a `for` would hold.
pub fn apart_pairs(mut nodes: Nodes) -> bool
    ensures { result ≡ apartb (rest nodes.entry) }
{
    while let Some(s) = nodes.next() {
        if any_meets(nodes, s.offset, s.end()) {
            return false;
        }
    }
    true
}
