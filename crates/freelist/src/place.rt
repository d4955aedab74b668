// Tests of the nodes of a list: whether one passes, and the place of the first that does. And the sum of their sizes.
ghost use Rattle.std.specs.Prelude.{◌≡◌, Bool, ◌<◌, ◌^◌};
ghost use Rattle.std.specs.List.{list_any as any};
ghost use Rattle.records.specs.declared.Segment.{Segment};
ghost use Rattle.freelist.specs.Segs.{end_of, sizes};
ghost use Rattle.freelist.specs.Nodes.{rest};
ghost use Rattle.freelist.specs.Place.{meets, any_above, Spotted};

use crate::nodes::Nodes;
use crate::segs::{END_MARK, share};
use records::Segment;

// A place in a list: the nodes on both sides of it, the end mark where there is none (no Option: it is what the words hold), and
// how many nodes stand before.
#[derive(Clone, Copy)]
pub struct Spot {
    pub prev: usize,
    pub next: usize,
    pub index: usize,
}

// Whether one of these nodes passes a test.
fn any_passes<F: Fn(Segment) -> bool>(mut nodes: Nodes, test: F) -> bool
    requires { (s : Segment) → end_of s < 2 ^ 64 → F.pre test s }
    ensures { (f : Segment → Bool) → ((s : Segment) (r : Bool) → F.post test s r → r ≡ f s) → result ≡ any f (rest nodes.entry) }
{
    nodes.any(&test)
}

// Whether one of these nodes has a byte from `from` up to `to`, `to` not included.
pub fn any_meets(nodes: Nodes, from: usize, to: usize) -> bool
    ensures { result ≡ meets (rest nodes.entry) from to }
{
    any_passes(nodes, |s| share(s.offset, s.end(), from, to))
}

// Whether one of these nodes ends above `top`.
pub fn any_above(nodes: Nodes, top: usize) -> bool
    ensures { result ≡ any_above top (rest nodes.entry) }
{
    any_passes(nodes, |s| top < s.end())
}

// The place of the first node of a list that passes a test.
pub fn find_place<F: Fn(Segment) -> bool>(nodes: Nodes, test: F) -> Spot
    requires { (s : Segment) → end_of s < 2 ^ 64 → F.pre test s }
    ensures { (f : Segment → Bool) → ((s : Segment) (r : Bool) → F.post test s r → r ≡ f s) → Spotted (rest nodes.entry) f result.prev result.next result.index }
{
    let mut prev = END_MARK;
    for (index, node) in nodes.enumerate() {
        if test(node) {
            return Spot {
                prev,
                next: node.offset,
                index,
            };
        }
        prev = node.offset;
    }
    Spot {
        prev,
        next: END_MARK,
        index: nodes.len(),
    }
}

// The sum of the data sizes of these nodes.
pub fn sum_sizes(nodes: Nodes) -> usize
    requires { sizes (rest nodes) < 2 ^ 64 }
    ensures { result ≡ sizes (rest nodes.entry) }
{
    nodes.map(|s| s.size).sum()
}
