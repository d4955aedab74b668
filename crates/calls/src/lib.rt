// Every call that may change an arena, as one value: what theorems over whole days of calls and lines of text speak of.
// `perform` makes the call by the arena's own code, and its contract is a step of those days.
#![tactic(auto)]

ghost use Rattle.std.specs.Prelude.{◌≡◌};
ghost use Rattle.records.specs.Answer.{outcome};
ghost use Rattle.calls.specs.Calls.{performed};

use records::{Header, Position, Reply, Request, Shape};

#[derive(Clone, Copy)]
pub enum Call {
    Take(Request),
    Give { offset: u32, size: u32 },
    Discard,
    Rewind(Position),
    SetMinimum(u32),
    AddDiscarded(u32),
}

// Makes the call.
pub fn perform(shape: Shape, header: Header, buf: &mut [u8], call: Call) -> Reply
    ensures { outcome result buf.new ≡ performed shape header buf.old call }
{
    match call {
        Call::Take(request) => arena::take(shape, header, buf, request),
        Call::Give { offset, size } => arena::dealloc(shape, header, buf, offset, size),
        Call::Discard => arena::discard_freelist(shape, header, buf),
        Call::Rewind(position) => arena::rewind(shape, header, buf, position),
        Call::SetMinimum(size) => arena::set_minimum_segment_size(shape, header, buf, size),
        Call::AddDiscarded(size) => arena::increase_discarded(shape, header, buf, size),
    }
}
