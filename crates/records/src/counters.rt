// The readers of counters. They refuse nothing.
ghost use Rattle.std.specs.Prelude.{◌≡◌, ◌-◌};

use crate::{Header, Shape};

// The room above the top, 0 where the top lies above the capacity.
pub fn remaining(shape: Shape, header: Header) -> u32
    ensures { result ≡ shape.cap - header.allocated }
{
    shape.cap.saturating_sub(header.allocated)
}

// The counters, as they stand.
impl Header {
    pub fn allocated(self) -> u32
        ensures { result ≡ self.allocated }
    {
        self.allocated
    }

    pub fn discarded(self) -> u32
        ensures { result ≡ self.discarded }
    {
        self.discarded
    }

    pub fn minimum_segment_size(self) -> u32
        ensures { result ≡ self.minimum_segment_size }
    {
        self.minimum_segment_size
    }
}
