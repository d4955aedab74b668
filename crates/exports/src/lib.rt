// What Rust and C call, by the crate exports_c: these are plain functions, and there each has its C symbol; include/arena.h says the
// same for C. A shape and an answer cross as records of numbers, a slice as a pointer and a length, and the header in place as a record
// of six numbers, which are the 24 bytes of the record that rarena keeps.
// Every call takes any shape, any header, any bytes and any numbers. Its contract is one equation that gives the answer, the six
// numbers and every byte afterwards, also where it refuses. A shape whose policy code is none of 0, 1, 2, or whose `unify` or
// `read_only` is neither 0 nor 1, is damaged: no head is sound over it.
#![tactic(auto, unfolding(crate::specs::Crossing::crossing))]

ghost use Rattle.std.specs.Prelude.{◌≡◌, ◌-◌, length, Err};
ghost use Rattle.records.specs.Answer.{said, began, unready};
ghost use Rattle.records.specs.Setup.{policy_of, code_of};
ghost use Rattle.records.specs.declared.Request.TheVariants.{Bytes, Typed, Aligned};
ghost use Rattle.records.specs.declared.Position.TheVariants.{Start, Current, End};
ghost use Rattle.freelist.specs.Sound.{sound};
ghost use Rattle.arena.specs.Take.{taking};
ghost use Rattle.arena.specs.Give.{giving_back};
ghost use Rattle.arena.specs.Rewind.{discarding, rewinding, setting_minimum, adding_discarded};
ghost use Rattle.exports.specs.Crossing.{header_of, stored, shape_out, shape_with, named_by, shape_in, numbers_of, answer_of, Sent, crossed, crossing, no_shape, unopened, opened, opening};

use records::{
    Answer, Header, Policy, Position, Reply, Settings, SetupError, Shape, UnknownFreelist,
};
use words::Node;

// The codes of answers that are no refusals; numbers, since they cross to C.
const GRANTED: u32 = 100;

const NOTHING: u32 = 101;

const GIVEN_BACK: u32 = 102;

const SUM: u32 = 103;

const DONE: u32 = 104;

// An arena's shape, as setup gave it. `unify` and `read_only` are 0 or 1; the policy by its code: none 0, optimistic 1,
// pessimistic 2. They cross as bytes, since a shape may come from a file, where a byte can hold anything.
#[repr(C)]
#[derive(Clone, Copy, Default)]
pub struct CShape {
    pub cap: u32,
    pub reserved: u32,
    pub data_offset: u32,
    pub unify: u8,
    pub read_only: u8,
    pub policy: u8,
}

// A header: the two halves of its sentinel, its three numbers, and one that no call reads or writes.
#[repr(C)]
#[derive(Clone, Copy)]
pub struct CHeader {
    pub sentinel_next: u32,
    pub sentinel_size: u32,
    pub allocated: u32,
    pub minimum_segment_size: u32,
    pub discarded: u32,
    pub unused: u32,
}

// An answer for C: its code, and what it carries.
#[repr(C)]
#[derive(Clone, Copy)]
pub struct CAnswer {
    pub code: u32,
    pub first: u32,
    pub second: u32,
    pub third: u32,
    pub fourth: u32,
}

// What setup answers: 104 and a shape, or a refusal and zeros.
#[repr(C)]
#[derive(Clone, Copy)]
pub struct CBegun {
    pub code: u32,
    pub shape: CShape,
}

// The header that the six numbers say.
impl From<CHeader> for Header {
    ghost from_gives = { λ n h. h ≡ header_of n };

    fn from(header: CHeader) -> Header {
        Header {
            sentinel: u64::from(Node {
                size: header.sentinel_size,
                next: header.sentinel_next,
            }),
            allocated: header.allocated,
            minimum_segment_size: header.minimum_segment_size,
            discarded: header.discarded,
        }
    }
}

// Makes the six numbers say this header; the last is left as it is.
fn store(header: &mut CHeader, next: Header)
    ensures { header.new ≡ stored header.old next }
{
    let sentinel = Node::from(next.sentinel);
    header.sentinel_next = sentinel.next;
    header.sentinel_size = sentinel.size;
    header.allocated = next.allocated;
    header.minimum_segment_size = next.minimum_segment_size;
    header.discarded = next.discarded;
}

// A shape as it goes out.
impl From<Shape> for CShape {
    ghost from_gives = { λ s c. c ≡ shape_out s };

    fn from(shape: Shape) -> CShape {
        CShape {
            cap: shape.cap,
            reserved: shape.reserved,
            data_offset: shape.data_offset,
            unify: u8::from(shape.unify),
            read_only: u8::from(shape.read_only),
            policy: u8::from(shape.policy),
        }
    }
}

// A shape that came over, with this data offset and this policy.
fn shape_with(shape: CShape, data_offset: u32, policy: Policy) -> Shape
    ensures { result ≡ shape_with shape data_offset policy }
{
    Shape {
        cap: shape.cap,
        reserved: shape.reserved,
        data_offset,
        unify: shape.unify == 1,
        read_only: shape.read_only == 1,
        policy,
    }
}

// The policy that a shape names, if its other two bytes are truths.
#[tactic(auto, unfolding(crate::specs::Crossing::named_by))]
fn named_by(shape: CShape) -> Result<Policy, UnknownFreelist>
    ensures { result ≡ named_by shape }
{
    if 1 < shape.unify || 1 < shape.read_only {
        return Err(UnknownFreelist);
    }
    Policy::try_from(shape.policy)
}

// A shape as it comes in. One that names no policy gets the data offset 0, which none has: it is refused 4, but after 1 and 5, so
// the calls take it and this is no TryFrom.
impl From<CShape> for Shape {
    ghost from_gives = { λ c s. s ≡ shape_in c };

    #[tactic(auto, unfolding(crate::specs::Crossing::shape_in))]
    fn from(shape: CShape) -> Shape {
        match named_by(shape) {
            Ok(policy) => shape_with(shape, shape.data_offset, policy),
            Err(_) => shape_with(shape, 0, Policy::None),
        }
    }
}

// An answer of five numbers: twelve cases have them on a line each.
fn numbers(code: u32, first: u32, second: u32, third: u32, fourth: u32) -> CAnswer
    ensures { result ≡ numbers_of code first second third fourth }
{
    CAnswer {
        code,
        first,
        second,
        third,
        fourth,
    }
}

// What a call says, as five numbers.
impl From<Answer> for CAnswer {
    ghost from_gives = { λ a c. c ≡ answer_of (said a) };

    fn from(answer: Answer) -> CAnswer {
        match answer {
            Answer::Granted(b) => numbers(
                GRANTED,
                b.memory_offset,
                b.memory_size,
                b.usable_offset,
                b.usable_size,
            ),
            Answer::Nothing => numbers(NOTHING, 0, 0, 0, 0),
            Answer::GivenBack(taken) => numbers(GIVEN_BACK, u32::from(taken), 0, 0, 0),
            Answer::Sum(n) => numbers(SUM, n, 0, 0, 0),
            Answer::Done => numbers(DONE, 0, 0, 0, 0),
            Answer::ReadOnly => numbers(1, 0, 0, 0, 0),
            Answer::Damaged => numbers(4, 0, 0, 0, 0),
            Answer::BadLayout => numbers(5, 0, 0, 0, 0),
            Answer::OutOfBounds { offset, allocated } => numbers(6, offset, allocated, 0, 0),
            Answer::Overlap => numbers(7, 0, 0, 0, 0),
            Answer::CutsFreeList => numbers(8, 0, 0, 0, 0),
            Answer::InsufficientSpace {
                requested,
                available,
            } => numbers(9, requested, available, 0, 0),
        }
    }
}

// A reply as it goes out: its header in the six numbers, its answer in five. Each export makes its call itself: one function that takes
// the call as a closure, over `&[u8]` and `&mut [u8]` alike, could not say what was written, so there would be two.
fn send(header: &mut CHeader, reply: Reply) -> CAnswer
    ensures { Sent header.old reply result header.new }
{
    store(header, reply.header);
    CAnswer::from(reply.answer)
}

// Setup's refusal: its number, and zeros.
impl From<SetupError> for CBegun {
    ghost from_gives = { λ e b. (began (Err e) ≡ unready b.code) × (b.shape ≡ no_shape) };

    fn from(error: SetupError) -> CBegun {
        CBegun {
            code: error.number(),
            shape: CShape::default(),
        }
    }
}

// A setup whose `unify` or `read_only` is neither 0 nor 1: refused 3, but for a policy that is refused 2.
fn misread(policy: u8) -> CBegun
    ensures { result ≡ unopened (policy_of policy) }
{
    match Policy::try_from(policy) {
        Ok(_) => CBegun::from(SetupError::BadSetup),
        Err(unknown) => CBegun::from(SetupError::from(unknown)),
    }
}

// A fresh arena over a buffer of any contents, of which no byte is written. A refusal leaves the six numbers as they are.
#[tactic(auto, unfolding(crate::specs::Crossing::opening))]
pub fn arena_setup(
    header: &mut CHeader,
    buf: &[u8],
    reserved: u32,
    unify: u8,
    policy: u8,
    minimum_segment_size: u32,
    read_only: u8,
) -> CBegun
    ensures { opened result header.new
        ≡ opening reserved unify policy minimum_segment_size read_only (length buf.now) header.old }
{
    if 1 < unify || 1 < read_only {
        return misread(policy);
    }
    let settings = Settings {
        reserved,
        unify: unify == 1,
        policy,
        minimum_segment_size,
        read_only: read_only == 1,
    };
    match records::setup(settings, buf) {
        Ok(arena) => {
            store(header, arena.header);
            CBegun {
                code: DONE,
                shape: CShape::from(arena.shape),
            }
        }
        Err(error) => CBegun::from(error),
    }
}

// `size` bytes, zeroed.
pub fn arena_alloc_bytes(shape: CShape, header: &mut CHeader, buf: &mut [u8], size: u32) -> CAnswer
    ensures { crossed result header.new buf.new
        ≡ crossing shape header.old buf.old (λ s h l. taking s h l (Bytes size)) }
{
    let reply = arena::alloc_bytes(Shape::from(shape), Header::from(*header), buf, size);
    send(header, reply)
}

// Room for a value of this size and alignment, its usable part zeroed where the top meets it.
pub fn arena_alloc(
    shape: CShape,
    header: &mut CHeader,
    buf: &mut [u8],
    size: u32,
    align: u32,
) -> CAnswer
    ensures { crossed result header.new buf.new
        ≡ crossing shape header.old buf.old (λ s h l. taking s h l (Typed size align)) }
{
    let reply = arena::alloc(Shape::from(shape), Header::from(*header), buf, size, align);
    send(header, reply)
}

// Room for a value of this size and alignment with `extra` bytes after it, not zeroed where the top meets it.
pub fn arena_alloc_aligned_bytes(
    shape: CShape,
    header: &mut CHeader,
    buf: &mut [u8],
    size: u32,
    align: u32,
    extra: u32,
) -> CAnswer
    ensures { crossed result header.new buf.new
        ≡ crossing shape header.old buf.old (λ s h l. taking s h l (Aligned size align extra)) }
{
    let reply = arena::alloc_aligned_bytes(
        Shape::from(shape),
        Header::from(*header),
        buf,
        size,
        align,
        extra,
    );
    send(header, reply)
}

// A block's memory range goes back.
pub fn arena_dealloc(
    shape: CShape,
    header: &mut CHeader,
    buf: &mut [u8],
    offset: u32,
    size: u32,
) -> CAnswer
    ensures { crossed result header.new buf.new
        ≡ crossing shape header.old buf.old (λ s h l. giving_back s h l offset size) }
{
    let reply = arena::dealloc(Shape::from(shape), Header::from(*header), buf, offset, size);
    send(header, reply)
}

// The free list is emptied, and the sum of its data sizes is counted as discarded.
pub fn arena_discard_freelist(shape: CShape, header: &mut CHeader, buf: &[u8]) -> CAnswer
    ensures { crossed result header.new buf.now
        ≡ crossing shape header.old buf.now (λ s h l. discarding s h l) }
{
    let reply = arena::discard_freelist(Shape::from(shape), Header::from(*header), buf);
    send(header, reply)
}

// The top moves: to `by` from the start, by `by` from where it is, to `by` below the end. C has a name for each, and no positions.
pub fn arena_rewind_start(shape: CShape, header: &mut CHeader, buf: &[u8], by: u32) -> CAnswer
    ensures { crossed result header.new buf.now
        ≡ crossing shape header.old buf.now (λ s h l. rewinding s h l (Start by)) }
{
    let reply = arena::rewind(
        Shape::from(shape),
        Header::from(*header),
        buf,
        Position::Start(by),
    );
    send(header, reply)
}

pub fn arena_rewind_current(shape: CShape, header: &mut CHeader, buf: &[u8], by: i64) -> CAnswer
    ensures { crossed result header.new buf.now
        ≡ crossing shape header.old buf.now (λ s h l. rewinding s h l (Current by)) }
{
    let reply = arena::rewind(
        Shape::from(shape),
        Header::from(*header),
        buf,
        Position::Current(by),
    );
    send(header, reply)
}

pub fn arena_rewind_end(shape: CShape, header: &mut CHeader, buf: &[u8], by: u32) -> CAnswer
    ensures { crossed result header.new buf.now
        ≡ crossing shape header.old buf.now (λ s h l. rewinding s h l (End by)) }
{
    let reply = arena::rewind(
        Shape::from(shape),
        Header::from(*header),
        buf,
        Position::End(by),
    );
    send(header, reply)
}

// The setters: another minimum segment size, and `size` bytes more discarded.
pub fn arena_set_minimum_segment_size(
    shape: CShape,
    header: &mut CHeader,
    buf: &[u8],
    size: u32,
) -> CAnswer
    ensures { crossed result header.new buf.now
        ≡ crossing shape header.old buf.now (λ s h l. setting_minimum s h l size) }
{
    let reply = arena::set_minimum_segment_size(
        Shape::from(shape),
        Header::from(*header),
        buf,
        size,
    );
    send(header, reply)
}

pub fn arena_increase_discarded(
    shape: CShape,
    header: &mut CHeader,
    buf: &[u8],
    size: u32,
) -> CAnswer
    ensures { crossed result header.new buf.now
        ≡ crossing shape header.old buf.now (λ s h l. adding_discarded s h l size) }
{
    let reply = arena::increase_discarded(Shape::from(shape), Header::from(*header), buf, size);
    send(header, reply)
}

// Whether the arena is sound.
pub fn arena_sound(shape: CShape, header: &CHeader, buf: &[u8]) -> bool
    ensures { result ≡ sound (shape_in shape) (header_of header.now) buf.now }
{
    freelist::arena_sound(Shape::from(shape), Header::from(*header), buf)
}

// The room above the top, 0 where the top lies above the capacity. The policy plays no part in it.
pub fn arena_remaining(shape: CShape, header: &CHeader) -> u32
    ensures { result ≡ shape.cap - (header_of header.now).allocated }
{
    records::remaining(
        shape_with(shape, shape.data_offset, Policy::None),
        Header::from(*header),
    )
}
