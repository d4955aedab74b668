// A header with one field changed, and its first node, which is a half of a field.
ghost use Rattle.std.specs.Prelude.{◌≡◌};
ghost use Rattle.words.specs.Word.{next_half};
ghost use Rattle.records.specs.Change.{with_top, with_first, with_minimum, losing};

use crate::Header;
use words::{END_MARK, Node};

impl Header {
    // The first node of the list, by the sentinel's next half.
    pub fn first(self) -> u32
        ensures { result ≡ next_half self.sentinel }
    {
        Node::from(self.sentinel).next
    }

    // The header with one field changed: the list's first node, the top, the minimum.
    pub fn with_first(self, first: u32) -> Header
        ensures { result ≡ with_first self first }
    {
        Header {
            sentinel: u64::from(Node {
                size: END_MARK,
                next: first,
            }),
            ..self
        }
    }

    pub fn with_top(self, top: u32) -> Header
        ensures { result ≡ with_top self top }
    {
        Header {
            allocated: top,
            ..self
        }
    }

    pub fn with_minimum(self, least: u32) -> Header
        ensures { result ≡ with_minimum self least }
    {
        Header {
            minimum_segment_size: least,
            ..self
        }
    }

    // The header with n more bytes discarded; the count stops at its end.
    pub fn lose(self, n: u32) -> Header
        ensures { result ≡ losing self n }
    {
        Header {
            discarded: self.discarded.saturating_add(n),
            ..self
        }
    }
}
