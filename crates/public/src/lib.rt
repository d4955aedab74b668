// The public calls, each made by a thin function whose contract is its row of `Promised` in specs/: so a row is what the code
// promises, and no copy of it. Nothing calls these functions. The calls over a lent header are in proofs/Lent.antt.
#![tactic(auto)]

ghost use Rattle.records.specs.declared.Position.TheVariants.{Start, Current, End};
ghost use Rattle.records.specs.declared.Request.TheVariants.{Bytes, Typed, Aligned};
ghost use Rattle.calls.specs.declared.Call.TheVariants.{Take, Give, Discard, Rewind, SetMinimum, AddDiscarded};
ghost use Rattle.public.specs.Public as P;
ghost use Rattle.public.specs.Public.{Promised};

use calls::Call;
use exports::{CAnswer, CBegun, CHeader, CShape};
use records::{
    Answer, Arena, Block, Header, Policy, Position, Reply, Segment, Settings, SetupError, Shape,
    UnknownFreelist,
};

// Setup and its defaults.
pub fn defaults() -> Settings
    ensures { Promised P.defaults result }
{
    Settings::default()
}

pub fn setup(settings: Settings, buf: &[u8]) -> Result<Arena, SetupError>
    ensures { Promised (P.setup settings buf.now) result }
{
    records::setup(settings, buf)
}

// The calls that may change an arena: each of the six, and the three requests by their own names.
pub fn change(shape: Shape, header: Header, buf: &mut [u8], call: Call) -> Reply
    ensures { Promised (P.change shape header buf.old call) (result, buf.new) }
{
    calls::perform(shape, header, buf, call)
}

pub fn alloc_bytes(shape: Shape, header: Header, buf: &mut [u8], size: u32) -> Reply
    ensures { Promised (P.change shape header buf.old (Take (Bytes size))) (result, buf.new) }
{
    arena::alloc_bytes(shape, header, buf, size)
}

pub fn alloc(shape: Shape, header: Header, buf: &mut [u8], size: u32, align: u32) -> Reply
    ensures { Promised (P.change shape header buf.old (Take (Typed size align))) (result, buf.new) }
{
    arena::alloc(shape, header, buf, size, align)
}

pub fn alloc_aligned_bytes(
    shape: Shape,
    header: Header,
    buf: &mut [u8],
    size: u32,
    align: u32,
    extra: u32,
) -> Reply
    ensures { Promised (P.change shape header buf.old (Take (Aligned size align extra))) (result, buf.new) }
{
    arena::alloc_aligned_bytes(shape, header, buf, size, align, extra)
}

// The soundness check.
pub fn check(shape: Shape, header: Header, buf: &[u8]) -> bool
    ensures { Promised (P.check shape header buf.now) result }
{
    freelist::arena_sound(shape, header, buf)
}

pub fn survey(shape: Shape, header: Header, buf: &[u8]) -> Option<usize>
    ensures { Promised (P.survey shape header buf.now) result }
{
    freelist::survey(shape, header, buf)
}

// The readers of counters.
pub fn remaining(shape: Shape, header: Header) -> u32
    ensures { Promised (P.remaining shape header) result }
{
    records::remaining(shape, header)
}

pub fn allocated(header: Header) -> u32
    ensures { Promised (P.allocated header) result }
{
    header.allocated()
}

pub fn discarded(header: Header) -> u32
    ensures { Promised (P.discarded header) result }
{
    header.discarded()
}

pub fn minimum(header: Header) -> u32
    ensures { Promised (P.minimum header) result }
{
    header.minimum_segment_size()
}

// The parts of the buffer.
pub fn usable(buf: &[u8], block: Block) -> &[u8]
    ensures { Promised (P.usable buf.now block) result.now }
{
    records::bytes(buf, block)
}

pub fn writable(buf: &mut [u8], block: Block) -> &mut [u8]
    ensures { Promised (P.writable buf.old buf.entry.ref_ptr block) (result.now, result.ref_ptr) }
{
    records::bytes_mut(buf, block)
}

pub fn reserved(buf: &[u8], shape: Shape) -> &[u8]
    ensures { Promised (P.reserved buf.now shape) result.now }
{
    records::reserved_slice(buf, shape)
}

// The boundary to Rust and C.
pub fn c_setup(
    header: &mut CHeader,
    buf: &[u8],
    reserved: u32,
    unify: u8,
    policy: u8,
    least: u32,
    read_only: u8,
) -> CBegun
    ensures { Promised (P.c_setup header.old buf.now reserved unify policy least read_only) (result, header.new) }
{
    exports::arena_setup(header, buf, reserved, unify, policy, least, read_only)
}

pub fn c_alloc_bytes(shape: CShape, header: &mut CHeader, buf: &mut [u8], size: u32) -> CAnswer
    ensures { Promised (P.c_change shape header.old buf.old (Take (Bytes size))) (result, header.new, buf.new) }
{
    exports::arena_alloc_bytes(shape, header, buf, size)
}

pub fn c_alloc(
    shape: CShape,
    header: &mut CHeader,
    buf: &mut [u8],
    size: u32,
    align: u32,
) -> CAnswer
    ensures { Promised (P.c_change shape header.old buf.old (Take (Typed size align))) (result, header.new, buf.new) }
{
    exports::arena_alloc(shape, header, buf, size, align)
}

pub fn c_alloc_aligned_bytes(
    shape: CShape,
    header: &mut CHeader,
    buf: &mut [u8],
    size: u32,
    align: u32,
    extra: u32,
) -> CAnswer
    ensures { Promised (P.c_change shape header.old buf.old (Take (Aligned size align extra))) (result, header.new, buf.new) }
{
    exports::arena_alloc_aligned_bytes(shape, header, buf, size, align, extra)
}

pub fn c_dealloc(
    shape: CShape,
    header: &mut CHeader,
    buf: &mut [u8],
    offset: u32,
    size: u32,
) -> CAnswer
    ensures { Promised (P.c_change shape header.old buf.old (Give offset size)) (result, header.new, buf.new) }
{
    exports::arena_dealloc(shape, header, buf, offset, size)
}

pub fn c_discard_freelist(shape: CShape, header: &mut CHeader, buf: &[u8]) -> CAnswer
    ensures { Promised (P.c_change shape header.old buf.now Discard) (result, header.new, buf.now) }
{
    exports::arena_discard_freelist(shape, header, buf)
}

pub fn c_rewind_start(shape: CShape, header: &mut CHeader, buf: &[u8], by: u32) -> CAnswer
    ensures { Promised (P.c_change shape header.old buf.now (Rewind (Start by))) (result, header.new, buf.now) }
{
    exports::arena_rewind_start(shape, header, buf, by)
}

pub fn c_rewind_current(shape: CShape, header: &mut CHeader, buf: &[u8], by: i64) -> CAnswer
    ensures { Promised (P.c_change shape header.old buf.now (Rewind (Current by))) (result, header.new, buf.now) }
{
    exports::arena_rewind_current(shape, header, buf, by)
}

pub fn c_rewind_end(shape: CShape, header: &mut CHeader, buf: &[u8], by: u32) -> CAnswer
    ensures { Promised (P.c_change shape header.old buf.now (Rewind (End by))) (result, header.new, buf.now) }
{
    exports::arena_rewind_end(shape, header, buf, by)
}

pub fn c_set_minimum(shape: CShape, header: &mut CHeader, buf: &[u8], size: u32) -> CAnswer
    ensures { Promised (P.c_change shape header.old buf.now (SetMinimum size)) (result, header.new, buf.now) }
{
    exports::arena_set_minimum_segment_size(shape, header, buf, size)
}

pub fn c_add_discarded(shape: CShape, header: &mut CHeader, buf: &[u8], size: u32) -> CAnswer
    ensures { Promised (P.c_change shape header.old buf.now (AddDiscarded size)) (result, header.new, buf.now) }
{
    exports::arena_increase_discarded(shape, header, buf, size)
}

pub fn c_check(shape: CShape, header: &CHeader, buf: &[u8]) -> bool
    ensures { Promised (P.c_check shape header.now buf.now) result }
{
    exports::arena_sound(shape, header, buf)
}

pub fn c_remaining(shape: CShape, header: &CHeader) -> u32
    ensures { Promised (P.c_remaining shape header.now) result }
{
    exports::arena_remaining(shape, header)
}

// What crosses it.
pub fn c_shape(shape: Shape) -> CShape
    ensures { Promised (P.c_shape shape) result }
{
    CShape::from(shape)
}

#[tactic(auto, unfolding(exports::specs::Crossing::shape_in))]
pub fn c_shape_in(shape: CShape) -> Shape
    ensures { Promised (P.c_shape_in shape) result }
{
    Shape::from(shape)
}

pub fn c_header_in(header: CHeader) -> Header
    ensures { Promised (P.c_header_in header) result }
{
    Header::from(header)
}

pub fn c_answer(answer: Answer) -> CAnswer
    ensures { Promised (P.c_answer answer) result }
{
    CAnswer::from(answer)
}

pub fn c_setup_error(error: SetupError) -> CBegun
    ensures { Promised (P.c_setup_error error) result }
{
    CBegun::from(error)
}

// The helpers that require nothing.
pub fn data_start(reserved: u32, unify: bool) -> usize
    ensures { Promised (P.data_start reserved unify) result }
{
    records::data_offset(reserved, unify)
}

pub fn policy(code: u8) -> Result<Policy, UnknownFreelist>
    ensures { Promised (P.policy code) result }
{
    Policy::try_from(code)
}

pub fn policy_code(policy: Policy) -> u8
    ensures { Promised (P.policy_code policy) result }
{
    u8::from(policy)
}

pub fn setup_error(unknown: UnknownFreelist) -> SetupError
    ensures { Promised (P.setup_error unknown) result }
{
    SetupError::from(unknown)
}

pub fn setup_number(error: SetupError) -> u32
    ensures { Promised (P.setup_number error) result }
{
    error.number()
}

pub fn answer_number(answer: Answer) -> Option<u32>
    ensures { Promised (P.answer_number answer) result }
{
    answer.number()
}

pub fn head_check(shape: Shape, header: Header, buf: &[u8]) -> bool
    ensures { Promised (P.head_check shape header buf.now) result }
{
    records::head_sound(shape, header, buf)
}

pub fn segment(least: u32, offset: u32, size: u32) -> Option<Segment>
    ensures { Promised (P.segment least offset size) result }
{
    records::segment_of(least, offset, size)
}

pub fn first(header: Header) -> u32
    ensures { Promised (P.first header) result }
{
    header.first()
}

pub fn set_first(header: Header, first: u32) -> Header
    ensures { Promised (P.set_first header first) result }
{
    header.with_first(first)
}

pub fn set_top(header: Header, top: u32) -> Header
    ensures { Promised (P.set_top header top) result }
{
    header.with_top(top)
}

pub fn set_minimum(header: Header, least: u32) -> Header
    ensures { Promised (P.set_minimum header least) result }
{
    header.with_minimum(least)
}

pub fn lose(header: Header, n: u32) -> Header
    ensures { Promised (P.lose header n) result }
{
    header.lose(n)
}

pub fn rewound(start: u32, cap: u32, top: u32, position: Position) -> u32
    ensures { Promised (P.rewound start cap top position) result }
{
    positions::new_top(start, cap, top, position)
}
