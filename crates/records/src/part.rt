// The parts of the buffer that are handed out. A range that leaves the buffer gives an empty part.
ghost use Rattle.std.specs.Prelude.{◌≡◌};
ghost use Rattle.records.specs.Part.{part_of, Within, usable_part, usable_place, reserved_part};

use crate::{Block, Shape};
use std::ops::Range;

// The range of n bytes from at, of none where they leave a buffer of len bytes.
fn within(len: usize, at: usize, n: usize) -> Range<usize>
    ensures { Within len at n result }
{
    if at <= len && n <= len - at {
        at..at + n
    } else {
        0..0
    }
}

// n bytes from at, none where they leave the buffer.
#[tactic(auto, unfolding(crate::specs::Part::part_of))]
fn part(buf: &[u8], at: usize, n: usize) -> &[u8]
    ensures { result.now ≡ part_of buf.now at n }
{
    &buf[within(buf.len(), at, n)]
}

// A block's usable bytes, to read.
pub fn bytes(buf: &[u8], block: Block) -> &[u8]
    ensures { result.now ≡ usable_part buf.now block }
{
    part(
        buf,
        block.usable_offset as usize,
        block.usable_size as usize,
    )
}

// A block's usable bytes, to write: the buffer is spent for as long as the part is held. `get_mut` would not say where an
// empty part lies.
#[tactic(auto, unfolding(crate::specs::Part::part_of, crate::specs::Part::place_of))]
pub fn bytes_mut(buf: &mut [u8], block: Block) -> &mut [u8]
    ensures contents { result.now ≡ usable_part buf.old block }
    ensures place { result.ref_ptr ≡ usable_place buf.old buf.entry.ref_ptr block }
{
    let at = block.usable_offset as usize;
    let usable = within(buf.len(), at, block.usable_size as usize);
    &mut buf[usable]
}

// The reserved bytes, none where the buffer is shorter.
pub fn reserved_slice(buf: &[u8], shape: Shape) -> &[u8]
    ensures { result.now ≡ reserved_part buf.now shape }
{
    part(buf, 0, shape.reserved as usize)
}
