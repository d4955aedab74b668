// Segments by their numbers: whether two of them share a byte, and which may stand before which.
ghost use Rattle.std.specs.Prelude.{◌≡◌};
ghost use Rattle.freelist.specs.Segs.{shares, leads};

use records::{Order, Segment};

// The end mark: where a list ends, and what stands before its first node.
pub const END_MARK: usize = words::END_MARK as usize;

// Whether the bytes from a up to b and those from c up to d have one in common.
pub fn share(a: usize, b: usize, c: usize, d: usize) -> bool
    ensures { result ≡ shares a b c d }
{
    a.max(c) < b.min(d)
}

// Whether one segment may stand before another.
pub fn may_lead(order: Order, s: Segment, t: Segment) -> bool
    ensures { result ≡ leads order s t }
{
    match order {
        Order::Optimistic => t.size <= s.size,
        Order::Pessimistic => s.size <= t.size,
    }
}
