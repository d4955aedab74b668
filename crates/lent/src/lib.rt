// The header as one lent record that is changed in place: three thin functions over the by-value calls, with the same
// answers, in the form that document 01 names. A refusal leaves the record as it was.
#![tactic(auto)]

ghost use Rattle.std.specs.Prelude.{◌≡◌};
ghost use Rattle.records.specs.Answer.{said, leaves};
ghost use Rattle.records.specs.declared.Request.TheVariants.{Bytes};
ghost use Rattle.arena.specs.Take.{taking};
ghost use Rattle.arena.specs.Give.{giving_back};
ghost use Rattle.arena.specs.Rewind.{rewinding};

use records::{Answer, Header, Position, Shape};

// A bytes request.
pub fn alloc_bytes(shape: Shape, header: &mut Header, buf: &mut [u8], size: u32) -> Answer
    ensures { leaves (said result) header.new buf.new ≡ taking shape header.old buf.old (Bytes size) }
{
    let taken = arena::alloc_bytes(shape, *header, buf, size);
    *header = taken.header;
    taken.answer
}

// A give-back of the memory range from offset on.
pub fn dealloc(shape: Shape, header: &mut Header, buf: &mut [u8], offset: u32, size: u32) -> Answer
    ensures { leaves (said result) header.new buf.new ≡ giving_back shape header.old buf.old offset size }
{
    let given = arena::dealloc(shape, *header, buf, offset, size);
    *header = given.header;
    given.answer
}

// A rewind. The buffer is read, and no byte of it is written.
pub fn rewind(shape: Shape, header: &mut Header, buf: &[u8], position: Position) -> Answer
    ensures { leaves (said result) header.new buf.now ≡ rewinding shape header.old buf.now position }
{
    let moved = arena::rewind(shape, *header, buf, position);
    *header = moved.header;
    moved.answer
}
