// Numbers and bytes, which the crates above stand on: alignments, rounding to them, node words of eight bytes, clearing.
// Every `requires` is a bound that the callers, all of them in the crates above, show from their own tests.
#![tactic(auto)]

ghost use Rattle.std.specs.Prelude.{◌≡◌, ◌+◌, ◌*◌, ◌<◌, ◌≤◌, true, length};
ghost use Rattle.words.specs.Align.{good_align};
ghost use Rattle.words.specs.Round.{Rounded};
ghost use Rattle.words.specs.Word.{put_word, zeroed, node_word, NodeOf, word_at};

// The bytes of a node, which is one word: they stand before its data.
pub const NODE_SIZE: usize = 8;

// 2 to the 32nd: a word is its size half times this, plus its next half.
const HALF: u64 = 4294967296;

// The end mark, in either half of a word.
pub const END_MARK: u32 = 4294967295;

// The word of an empty list: the end mark in both halves, by `as`, since a constant may call no From.
pub const EMPTY: u64 = END_MARK as u64 * HALF + END_MARK as u64;

// The largest good alignment.
const MAX_ALIGN: u32 = 4096;

// x rounded up to a multiple of 8.
#[tactic(auto, unfolding(crate::specs::Round::round_up))]
pub fn align8(x: usize) -> usize
    requires { x + 8 < 18446744073709551616 }
    ensures { Rounded 8 x result }
{
    x.next_multiple_of(8)
}

// x rounded up to an alignment, by a mask, which costs no division: a good alignment is a power of two.
#[tactic(auto, using(crate::proofs::Masks::good_pos, crate::proofs::Masks::round_mask))]
pub fn align_offset(x: usize, align: usize) -> usize
    requires { (good_align align ≡ true) × (x + align < 18446744073709551616) }
    ensures { Rounded align x result }
{
    let y = x + (align - 1);
    y - (y & (align - 1))
}

// Whether a request may name this alignment.
pub fn good_align(a: u32) -> bool
    ensures { result ≡ good_align a }
{
    a <= MAX_ALIGN && a.is_power_of_two()
}

// A node word in its two halves.
#[derive(Clone, Copy)]
pub struct Node {
    pub size: u32,
    pub next: u32,
}

impl From<u64> for Node {
    ghost from_gives = { λ w n. NodeOf w n.size n.next };

    fn from(word: u64) -> Node {
        Node {
            size: (word / HALF) as u32,
            next: (word % HALF) as u32,
        }
    }
}

impl From<Node> for u64 {
    ghost from_gives = { λ n w. w ≡ node_word n.size n.next };

    fn from(node: Node) -> u64 {
        u64::from(node.size) * HALF + u64::from(node.next)
    }
}

// The node at p.
#[tactic(auto, using(crate::proofs::Digits::node_read))]
pub fn node_at(buf: &[u8], p: usize) -> Node
    requires { p + 8 ≤ length buf.now }
    ensures { NodeOf (word_at buf.now p) result.size result.next }
{
    let bytes = buf[p..p + NODE_SIZE].try_into().unwrap();
    Node::from(u64::from_le_bytes(bytes))
}

// Puts the word w at p.
pub fn put_word(buf: &mut [u8], p: usize, w: u64)
    requires { p + 8 ≤ length buf.old }
    ensures { buf.new ≡ put_word buf.old p w }
{
    let bytes = w.to_le_bytes();
    buf[p..p + NODE_SIZE].copy_from_slice(&bytes);
}

// Sets the bytes from a up to b, b not included, to zero. The compiler makes fill_with one memset; fill stores the last byte apart.
pub fn clear_range(buf: &mut [u8], a: usize, b: usize)
    requires { (a ≤ b) × (b ≤ length buf.old) }
    ensures { buf.new ≡ zeroed buf.old a b }
{
    buf[a..b].fill_with(|| 0);
}
