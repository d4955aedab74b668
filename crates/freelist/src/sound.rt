// The soundness check of an arena: the head, the sentinel and the list.
ghost use Rattle.std.specs.Prelude.{◌≡◌};
ghost use Rattle.freelist.specs.Sound.{sound, surveyed};

use crate::marks::apart_run;
use crate::nodes::Nodes;
use crate::split::free_run;
use records::{Header, Shape};
use words::Node;

// The soundness check of any header over any bytes: the number of the free segments of a sound arena.
pub fn survey(shape: Shape, header: Header, buf: &[u8]) -> Option<usize>
    ensures { result ≡ surveyed shape header buf.now }
{
    if !records::head_sound(shape, header, buf) {
        return None;
    }
    if Node::from(header.sentinel).size != words::END_MARK {
        return None;
    }
    let head = header.first() as usize;
    let top = header.allocated as usize;
    let count = free_run(buf, head, shape.data_offset as usize, top, shape.policy)?;
    if !apart_run(Nodes::new(buf, head, count), top) {
        return None;
    }
    Some(count)
}

// Whether the arena is sound.
pub fn arena_sound(shape: Shape, header: Header, buf: &[u8]) -> bool
    ensures { result ≡ sound shape header buf.now }
{
    survey(shape, header, buf).is_some()
}
