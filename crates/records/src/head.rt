// The head: what a header and a shape must be over a buffer before a call may look at the bytes.
ghost use Rattle.std.specs.Prelude.{◌≡◌, length};
ghost use Rattle.records.specs.Head.{head_sound};

use crate::set_up::data_offset;
use crate::{Header, LIMIT, Shape};

// Whether the head is sound over this buffer.
#[tactic(auto, unfolding(crate::specs::Head::head_sound))]
pub fn head_sound(shape: Shape, header: Header, buf: &[u8]) -> bool
    ensures { result ≡ head_sound shape header (length buf.now) }
{
    shape.cap as usize == buf.len()
        && shape.cap <= LIMIT
        && shape.data_offset as usize == data_offset(shape.reserved, shape.unify)
        && shape.data_offset <= header.allocated
        && header.allocated <= shape.cap
}
