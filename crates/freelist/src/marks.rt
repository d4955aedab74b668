// Whether no two segments of a list share a byte, by marks: a bit for each cell of eight bytes, a window of cells at a
// time. A list with few segments for its room is still tested pair by pair.
ghost use Rattle.std.specs.Prelude.{◌≡◌, true, ◌+◌, ◌-◌, ◌*◌, ◌^◌, min, ◌≤◌, ◌<◌, length, replicate};
ghost use Rattle.std.specs.List.{AllByRecursion as Each};
ghost use Rattle.freelist.specs.Segs.{Pairwise, InRange};
ghost use Rattle.freelist.specs.Nodes.{rest};
ghost use Rattle.freelist.specs.Split.{apartb};
ghost use Rattle.freelist.specs.Marks.{Free, Unset, Marked, Tells};

use crate::nodes::Nodes;
use crate::split::apart_pairs;

// The bytes of a cell, which has one mark, and the marks of a word.
const CELL: usize = 8;

const WORD: usize = 64;

// The words of marks of a large window and of a small one.
const LARGE: usize = 1024;

const SMALL: usize = 128;

// The cells of a large window and their bytes, and the bytes of the cells of a small one.
const WINDOW: usize = LARGE * WORD;

const SPAN: usize = WINDOW * CELL;

const SMALL_SPAN: usize = SMALL * WORD * CELL;

// Where the mark of a cell stands among `marks` of them from that of the cell `base` on: the first or past the last for a
// cell before or after them.
fn mark_of(base: usize, marks: usize, cell: usize) -> usize
    ensures { result ≡ min (cell - base) marks }
{
    cell.saturating_sub(base).min(marks)
}

// The bits of a word from `from` up to `to`.
fn bits(from: usize, to: usize) -> u64
    requires { (from < to) × (to ≤ 64) }
    ensures { result ≡ 2 ^ to - 2 ^ from }
{
    let below = (1u64 << from) - 1;
    (u64::MAX >> (64 - to)) - below
}

// Whether the marks from a up to b are unset: it sets them then, a word at a time. A `for` over the words would need a product and a
// limit for both ends of each word, and a test for b below a.
fn claim(marks: &mut [u64], a: usize, b: usize) -> bool
    requires { b ≤ length marks.old * 64 }
    ensures tells { Tells result (Unset marks.old a b) }
    ensures marked { result ≡ true → Marked marks.old a b marks.new }
{
    let mut i = a;
    while i < b {
        let from = i % WORD;
        let to = (from + (b - i)).min(WORD);
        let word = marks[i / WORD];
        let own = bits(from, to);
        if word & own != 0 {
            return false;
        }
        marks[i / WORD] = word | own;
        i += to - from;
    }
    true
}

// Whether no two of these nodes share a cell of those from `base` on that have a mark, all of them unset: each node finds
// the marks of its cells unset, and sets them.
fn claim_run(nodes: Nodes, base: usize, marks: &mut [u64]) -> bool
    requires { (marks.old ≡ replicate (length marks.old) 0) × (length marks.old ≤ 1024) }
    ensures { Tells result (Pairwise (Free base (base + length marks.old * 64)) (rest nodes.entry)) }
{
    let room = marks.len() * WORD;
    for node in nodes {
        let a = mark_of(base, room, node.offset / CELL);
        let b = mark_of(base, room, node.end().div_ceil(CELL));
        if !claim(marks, a, b) {
            return false;
        }
    }
    true
}

// Whether these nodes share no cell of the window of N words of marks from the cell `base` on. The marks are an array: nothing is on
// a heap.
fn window_apart<const N: usize>(nodes: Nodes, base: usize) -> bool
    requires { N ≤ 1024 }
    ensures { Tells result (Pairwise (Free base (base + N * 64)) (rest nodes.entry)) }
{
    let mut marks = [0; N];
    claim_run(nodes, base, &mut marks)
}

// Whether they share no cell of so many large windows, which follow each other.
fn windows_apart(nodes: Nodes, windows: usize) -> bool
    requires { windows < 281474976710656 }
    ensures { Tells result (Pairwise (Free 0 (windows * 65536)) (rest nodes.entry)) }
{
    for window in 0..windows {
        if !window_apart::<LARGE>(nodes, window * WINDOW) {
            return false;
        }
    }
    true
}

// Whether no two of these nodes share a byte: they are multiples of 8 and end at or below `top`. Pair by pair where they are few for the
// room that they lie in, else by marks.
pub fn apart_run(nodes: Nodes, top: usize) -> bool
    requires { Each (InRange 0 top) (rest nodes) }
    ensures { result ≡ apartb (rest nodes.entry) }
{
    let count = nodes.len();
    if count < 8 {
        return apart_pairs(nodes);
    }
    if top <= SMALL_SPAN {
        return window_apart::<SMALL>(nodes, 0);
    }
    let windows = top.div_ceil(SPAN);
    if count / 4 < windows + 2 {
        return apart_pairs(nodes);
    }
    windows_apart(nodes, windows)
}
