// Changes of a list: a node put in where the order has it, and one taken out. They ask by a clause what `Nodes` knows of a list
// that is read, since it cannot hold a buffer that is written.
ghost use Rattle.std.specs.Prelude.{◌≡◌, ◌≢◌, ◌+◌, ◌≤◌, ◌<◌, length};
ghost use Rattle.std.specs.List.{AllByRecursion as Each};
ghost use Rattle.words.specs.Word.{word_at, end_mark};
ghost use Rattle.freelist.specs.Segs.{passed, Run, EndsBy, end_of, leads};
ghost use Rattle.freelist.specs.Place.{Stands, Spotted};
ghost use Rattle.freelist.specs.Link.{link_bytes, link_head, Inserted, Removed};

use crate::nodes::Nodes;
use crate::place::{Spot, find_place};
use crate::segs::{END_MARK, may_lead};
use records::{Order, Segment};
use words::Node;

// The link after the node at `prev` set to `to`, or the list's first where `prev` is the end mark: the first then.
fn link(buf: &mut [u8], head: usize, prev: usize, to: usize) -> usize
    requires prev_in { prev ≢ end_mark → prev + 8 ≤ length buf.old }
    requires to_fits { to < 4294967296 }
    ensures bytes { buf.new ≡ link_bytes buf.old prev to }
    ensures starts { result ≡ link_head head prev to }
{
    if prev == END_MARK {
        return to;
    }
    let node = words::node_at(buf, prev);
    let linked = Node {
        size: node.size,
        next: to as u32,
    };
    words::put_word(buf, prev, u64::from(linked));
    head
}

// Where the order has a segment in a list of `count` nodes: before the first that it may lead.
fn place_of(buf: &[u8], head: usize, count: usize, order: Order, segment: Segment) -> Spot
    requires { Each (EndsBy (length buf.now)) (passed (word_at buf.now) count head) }
    ensures { Spotted (passed (word_at buf.now) count head) (leads order segment) result.prev result.next result.index }
{
    find_place(
        Nodes::new(buf, head, count),
        |t| may_lead(order, segment, t),
    )
}

// A segment put into a list of `count` nodes where the order has it, before its equals: the list's first then.
pub fn insert(buf: &mut [u8], head: usize, count: usize, order: Order, segment: Segment) -> usize
    requires ends { Each (EndsBy (length buf.old)) (passed (word_at buf.old) count head) }
    requires room { (end_of segment ≤ length buf.old) × (length buf.old < 4294967295) }
    ensures { Inserted buf.old (passed (word_at buf.old) count head) head order segment buf.new result }
{
    let spot = place_of(buf, head, count, order, segment);
    let node = Node {
        size: segment.size as u32,
        next: spot.next as u32,
    };
    words::put_word(buf, segment.offset, u64::from(node));
    link(buf, head, spot.prev, segment.offset)
}

// The node at a place taken out of a list of `count` nodes: the list's first then.
pub fn remove(buf: &mut [u8], head: usize, count: usize, spot: Spot) -> usize
    requires ends { Each (EndsBy (length buf.old)) (passed (word_at buf.old) count head) }
    requires stands { Stands (passed (word_at buf.old) count head) spot.index spot.prev spot.next }
    requires run { Run (word_at buf.old) head (passed (word_at buf.old) count head) end_mark }
    requires index_in { spot.index < count }
    ensures { Removed buf.old (passed (word_at buf.old) count head) head spot.index buf.new result }
{
    let prev = spot.prev;
    let at = spot.next;
    let next = words::node_at(buf, at).next as usize;
    link(buf, head, prev, next)
}
