// The arena's records. What is asked of them stands in a module beside its definitions in specs/: set_up (with policies' codes),
// head, rule (of segments), change (of a header), part (of the buffer); refusals, their numbers; and counters, their readers.
// `said` and `began` of specs/Answer give document 01's number and values for each answer. The list in the bytes is the crate
// above. Debug and comparison are derived for errors alone: no crate compares or prints the other types whole.
#![tactic(auto)]

mod change;
mod counters;
mod head;
mod part;
mod refusals;
mod rule;
mod set_up;

pub use counters::remaining;
pub use head::head_sound;
pub use part::{bytes, bytes_mut, reserved_slice};
pub use rule::segment_of;
pub use set_up::{data_offset, setup};

// The largest buffer, size and extra.
pub const LIMIT: u32 = 1073741824;

// How a free list is sorted, and which segment a request takes.
#[derive(Clone, Copy)]
pub enum Order {
    // Sizes never rise: a request takes the first, a largest.
    Optimistic,
    // Sizes never fall: a request takes the first with room, a smallest that fits.
    Pessimistic,
}

// The policy. What the two lists share is written once, over the order. No Option: the conversions from and to a code are its own.
#[derive(Clone, Copy)]
pub enum Policy {
    // No list: what is given back below the top is lost.
    None,
    Ordered(Order),
}

// A code that names no policy.
#[derive(Clone, Copy, Debug, PartialEq, Eq)]
pub struct UnknownFreelist;

// What setup is asked for. The capacity is the buffer's length.
#[derive(Clone, Copy)]
pub struct Settings {
    // The bytes at the buffer's start that are the caller's own.
    pub reserved: u32,
    // Whether the data starts where it would with the header in the buffer: at reserved, rounded up to 8, + 32. Else at
    // reserved + 1.
    pub unify: bool,
    // A code and no `Policy`, since setup may be asked for any and refuses others: 0 none, 1 optimistic, 2 pessimistic.
    pub policy: u8,
    // The least data size of a segment when it is made.
    pub minimum_segment_size: u32,
    // Whether every call that would change the arena is refused.
    pub read_only: bool,
}

// What setup fixes. A caller keeps it beside the header and hands it back to every call.
#[derive(Clone, Copy)]
pub struct Shape {
    // The buffer's length.
    pub cap: u32,
    pub reserved: u32,
    // Where the data starts: no block and no segment lies below it.
    pub data_offset: u32,
    pub unify: bool,
    pub read_only: bool,
    pub policy: Policy,
}

// What the calls change.
#[derive(Clone, Copy)]
pub struct Header {
    // A node word: its next half is the offset of the list's first node, and its size half the end mark.
    pub sentinel: u64,
    // The top: the offset of the first byte that no block has and no segment.
    pub allocated: u32,
    pub minimum_segment_size: u32,
    // The bytes counted as lost; the count stops at 4,294,967,295.
    pub discarded: u32,
}

#[derive(Clone, Copy)]
pub struct Arena {
    pub shape: Shape,
    pub header: Header,
}

// Why setup gives no arena.
#[derive(Clone, Copy, Debug, PartialEq, Eq)]
pub enum SetupError {
    // Refusal 2: the policy code is none of 0, 1, 2.
    UnknownFreelist,
    // Refusal 3: the buffer is over the limit, or ends before the data offset.
    BadSetup,
}

// A block's whole record: give back its memory range, read and write its usable range. The usable range may pass the memory
// range by up to eight bytes.
#[derive(Clone, Copy)]
pub struct Block {
    pub memory_offset: u32,
    pub memory_size: u32,
    // A multiple of the alignment that was asked for, counted from the buffer's start.
    pub usable_offset: u32,
    pub usable_size: u32,
}

// What a request asks for. An alignment is a power of two from 1 to 4,096, and a size given with one a multiple of it.
#[derive(Clone, Copy)]
pub enum Request {
    // So many bytes.
    Bytes(u32),
    // Room for a value.
    Typed { size: u32, align: u32 },
    // Room for a value with `extra` bytes after it; where size is 0, `extra` bytes.
    Aligned { size: u32, align: u32, extra: u32 },
}

// Where a rewind puts the top, never below the data offset nor past the end.
#[derive(Clone, Copy)]
pub enum Position {
    // So many bytes from the buffer's start.
    Start(u32),
    // So many bytes from the top. Where the sum is exactly 0, the top stays.
    Current(i64),
    // So many bytes before the buffer's end.
    End(u32),
}

// What a call answers: one enum and no Result, in the form that document 01 names. A refusal changed neither the header nor a
// byte. `said` in specs/ gives document 01's number and values for each case.
#[derive(Clone, Copy)]
pub enum Answer {
    // A request: the block that it has.
    Granted(Block),
    // A request for no bytes.
    Nothing,
    // A give-back: false where the range is too small to be a segment; it is counted as lost then.
    GivenBack(bool),
    // A discard: the sum of the data sizes of the segments that the list had.
    Sum(u32),
    // A rewind or a setter.
    Done,
    // Refusal 1: the arena is read-only, and the call would change it.
    ReadOnly,
    // Refusal 4: the head is unsound, or, in a call that needs the list, the arena is.
    Damaged,
    // Refusal 5: a size, an extra or an alignment that is not served.
    BadLayout,
    // Refusal 6: the range given back starts below the data offset or ends above the top. The offset given, and the top.
    OutOfBounds { offset: u32, allocated: u32 },
    // Refusal 7: the bytes given back meet a free segment's.
    Overlap,
    // Refusal 8: the new top lies below the end of a free segment.
    CutsFreeList,
    // Refusal 9: neither the top nor the list has room. What was asked for or needed, and what there is.
    InsufficientSpace { requested: u32, available: u32 },
}

// A call's answer and the header afterwards.
#[derive(Clone, Copy)]
pub struct Reply {
    pub answer: Answer,
    pub header: Header,
}

// A segment: a node at `offset`, and `size` bytes of data after it.
#[derive(Clone, Copy)]
pub struct Segment {
    pub offset: usize,
    pub size: usize,
}
