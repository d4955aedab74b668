// The segment rule: whether a range may become a free segment, and which.
ghost use Rattle.std.specs.Prelude.{◌≡◌, ◌+◌, ◌^◌, ◌<◌};
ghost use Rattle.records.specs.Rule.{segment_of};

use crate::Segment;

// The segment rule: the segment that a range becomes.
#[tactic(auto, unfolding(crate::specs::Rule::segment_of))]
pub fn segment_of(minimum_segment_size: u32, offset: u32, size: u32) -> Option<Segment>
    ensures { result ≡ segment_of minimum_segment_size offset size }
{
    let node = words::align8(offset as usize);
    let padding = node - offset as usize;
    let rest = (size as usize).checked_sub(padding + words::NODE_SIZE)?;
    if offset == 0 || rest == 0 || rest < minimum_segment_size as usize {
        return None;
    }
    Some(Segment {
        offset: node,
        size: rest,
    })
}

impl Segment {
    // The offset of the first byte behind the segment.
    pub fn end(self) -> usize
        requires { self.offset + 8 + self.size < 2 ^ 64 }
        ensures { result ≡ self.offset + 8 + self.size }
    {
        self.offset + words::NODE_SIZE + self.size
    }
}
