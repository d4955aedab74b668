// The nodes of a list, one after another, as their segments.
ghost use Rattle.std.specs.Prelude.{◌≡◌, ◌<◌, ◌^◌, length};
ghost use Rattle.std.specs.List.{AllByRecursion as Each};
ghost use Rattle.std.specs.Iterator.{YieldsFirst, item_count};
ghost use Rattle.std.proofs.Props.{props};
ghost use Rattle.words.specs.Word.{word_at};
ghost use Rattle.freelist.specs.Segs.{passed, EndsBy, sizes};

use records::Segment;

// The first `left` nodes from `at`, which end inside the buffer.
#[derive(Clone, Copy)]
pub struct Nodes<'a> {
    buf: &'a [u8],
    at: usize,
    left: usize,
    ghost short: { length buf.now < 2 ^ 63 },
    ghost inside: { Each (EndsBy (length buf.now)) (passed (word_at buf.now) left at) } by { Prim.hlevel props },
}

impl<'a> Nodes<'a> {
    ghost use Rattle.freelist.specs.Nodes.{rest};

    // The first `count` nodes from `head`.
    pub fn new(buf: &'a [u8], head: usize, count: usize) -> Nodes<'a>
        requires { Each (EndsBy (length buf.now)) (passed (word_at buf.now) count head) }
        ensures { rest result ≡ passed (word_at buf.now) count head }
    {
        Nodes {
            buf,
            at: head,
            left: count,
        }
    }
}

impl<'a> Iterator for Nodes<'a> {
    ghost use Rattle.freelist.specs.Nodes.{rest};

    type Item = Segment;

    ghost next_gives = { YieldsFirst rest };

    ghost remaining = { item_count rest };

    #[inline]
    fn next(&mut self) -> Option<Segment> {
        if self.left == 0 {
            return None;
        }
        let offset = self.at;
        let node = words::node_at(self.buf, offset);
        self.at = node.next as usize;
        self.left -= 1;
        Some(Segment {
            offset,
            size: node.size as usize,
        })
    }
}

impl<'a> ExactSizeIterator for Nodes<'a> {
    fn len(&self) -> usize {
        self.left
    }
}
