// The arena's calls under the names that C and Rust link; include/arena.h declares them for C. Each calls the function of its name in
// the crate exports, which is a library for other crates and so none for C, and says that function's clauses again. What crosses, and
// how, stands at the top of exports/src/lib.rt.
#![tactic(auto)]

ghost use Rattle.std.specs.Prelude.{◌≡◌, ◌-◌, length};
ghost use Rattle.records.specs.declared.Request.TheVariants.{Bytes, Typed, Aligned};
ghost use Rattle.records.specs.declared.Position.TheVariants.{Start, Current, End};
ghost use Rattle.freelist.specs.Sound.{sound};
ghost use Rattle.arena.specs.Take.{taking};
ghost use Rattle.arena.specs.Give.{giving_back};
ghost use Rattle.arena.specs.Rewind.{discarding, rewinding, setting_minimum, adding_discarded};
ghost use Rattle.exports.specs.Crossing.{header_of, shape_in, crossed, crossing, opened, opening};

use exports::{CAnswer, CBegun, CHeader, CShape};

// A fresh arena over a buffer of any contents, of which no byte is written. A refusal leaves the six numbers as they are.
#[unsafe(no_mangle)]
pub extern "C" fn arena_setup(
    header: &mut CHeader,
    buf: &[u8],
    reserved: u32,
    unify: u8,
    policy: u8,
    minimum_segment_size: u32,
    read_only: u8,
) -> CBegun
    ensures { opened result header.new
        ≡ opening reserved unify policy minimum_segment_size read_only (length buf.now) header.old }
{
    exports::arena_setup(
        header,
        buf,
        reserved,
        unify,
        policy,
        minimum_segment_size,
        read_only,
    )
}

// `size` bytes, zeroed.
#[unsafe(no_mangle)]
pub extern "C" fn arena_alloc_bytes(
    shape: CShape,
    header: &mut CHeader,
    buf: &mut [u8],
    size: u32,
) -> CAnswer
    ensures { crossed result header.new buf.new
        ≡ crossing shape header.old buf.old (λ s h l. taking s h l (Bytes size)) }
{
    exports::arena_alloc_bytes(shape, header, buf, size)
}

// Room for a value of this size and alignment, its usable part zeroed where the top meets it.
#[unsafe(no_mangle)]
pub extern "C" fn arena_alloc(
    shape: CShape,
    header: &mut CHeader,
    buf: &mut [u8],
    size: u32,
    align: u32,
) -> CAnswer
    ensures { crossed result header.new buf.new
        ≡ crossing shape header.old buf.old (λ s h l. taking s h l (Typed size align)) }
{
    exports::arena_alloc(shape, header, buf, size, align)
}

// Room for a value of this size and alignment with `extra` bytes after it, not zeroed where the top meets it.
#[unsafe(no_mangle)]
pub extern "C" fn arena_alloc_aligned_bytes(
    shape: CShape,
    header: &mut CHeader,
    buf: &mut [u8],
    size: u32,
    align: u32,
    extra: u32,
) -> CAnswer
    ensures { crossed result header.new buf.new
        ≡ crossing shape header.old buf.old (λ s h l. taking s h l (Aligned size align extra)) }
{
    exports::arena_alloc_aligned_bytes(shape, header, buf, size, align, extra)
}

// A block's memory range goes back.
#[unsafe(no_mangle)]
pub extern "C" fn arena_dealloc(
    shape: CShape,
    header: &mut CHeader,
    buf: &mut [u8],
    offset: u32,
    size: u32,
) -> CAnswer
    ensures { crossed result header.new buf.new
        ≡ crossing shape header.old buf.old (λ s h l. giving_back s h l offset size) }
{
    exports::arena_dealloc(shape, header, buf, offset, size)
}

// The free list is emptied, and the sum of its data sizes is counted as discarded.
#[unsafe(no_mangle)]
pub extern "C" fn arena_discard_freelist(shape: CShape, header: &mut CHeader, buf: &[u8]) -> CAnswer
    ensures { crossed result header.new buf.now
        ≡ crossing shape header.old buf.now (λ s h l. discarding s h l) }
{
    exports::arena_discard_freelist(shape, header, buf)
}

// The top moves: to `by` from the start, by `by` from where it is, to `by` below the end.
#[unsafe(no_mangle)]
pub extern "C" fn arena_rewind_start(
    shape: CShape,
    header: &mut CHeader,
    buf: &[u8],
    by: u32,
) -> CAnswer
    ensures { crossed result header.new buf.now
        ≡ crossing shape header.old buf.now (λ s h l. rewinding s h l (Start by)) }
{
    exports::arena_rewind_start(shape, header, buf, by)
}

#[unsafe(no_mangle)]
pub extern "C" fn arena_rewind_current(
    shape: CShape,
    header: &mut CHeader,
    buf: &[u8],
    by: i64,
) -> CAnswer
    ensures { crossed result header.new buf.now
        ≡ crossing shape header.old buf.now (λ s h l. rewinding s h l (Current by)) }
{
    exports::arena_rewind_current(shape, header, buf, by)
}

#[unsafe(no_mangle)]
pub extern "C" fn arena_rewind_end(
    shape: CShape,
    header: &mut CHeader,
    buf: &[u8],
    by: u32,
) -> CAnswer
    ensures { crossed result header.new buf.now
        ≡ crossing shape header.old buf.now (λ s h l. rewinding s h l (End by)) }
{
    exports::arena_rewind_end(shape, header, buf, by)
}

// The setters: another minimum segment size, and `size` bytes more discarded.
#[unsafe(no_mangle)]
pub extern "C" fn arena_set_minimum_segment_size(
    shape: CShape,
    header: &mut CHeader,
    buf: &[u8],
    size: u32,
) -> CAnswer
    ensures { crossed result header.new buf.now
        ≡ crossing shape header.old buf.now (λ s h l. setting_minimum s h l size) }
{
    exports::arena_set_minimum_segment_size(shape, header, buf, size)
}

#[unsafe(no_mangle)]
pub extern "C" fn arena_increase_discarded(
    shape: CShape,
    header: &mut CHeader,
    buf: &[u8],
    size: u32,
) -> CAnswer
    ensures { crossed result header.new buf.now
        ≡ crossing shape header.old buf.now (λ s h l. adding_discarded s h l size) }
{
    exports::arena_increase_discarded(shape, header, buf, size)
}

// Whether the arena is sound.
#[unsafe(no_mangle)]
pub extern "C" fn arena_sound(shape: CShape, header: &CHeader, buf: &[u8]) -> bool
    ensures { result ≡ sound (shape_in shape) (header_of header.now) buf.now }
{
    exports::arena_sound(shape, header, buf)
}

// The room above the top, 0 where the top lies above the capacity. The policy plays no part in it.
#[unsafe(no_mangle)]
pub extern "C" fn arena_remaining(shape: CShape, header: &CHeader) -> u32
    ensures { result ≡ shape.cap - (header_of header.now).allocated }
{
    exports::arena_remaining(shape, header)
}
