// A caller's write.
ghost use Rattle.std.specs.Prelude.{◌≡◌};
ghost use Rattle.trace.specs.Fill.{filled};

// n bytes from `offset` become `byte`, none where they leave the buffer.
#[tactic(auto, unfolding(crate::specs::Fill::filled))]
pub fn fill(buf: &mut [u8], offset: usize, n: usize, byte: u8)
    ensures { buf.new ≡ filled buf.old offset n byte }
{
    let end = offset.saturating_add(n);
    if end <= buf.len() {
        buf[offset..end].fill(byte);
    }
}
