// Our answer as the list writes it.
use records::Arena;
use std::fmt;
use std::fmt::Write;
use trace::Counters;

// s = (s * 31 + byte) mod 2^32, from 0, over the bytes in order.
fn checksum(bytes: &[u8]) -> u32 {
    bytes.iter().fold(0, |sum: u32, b| {
        sum.wrapping_mul(31).wrapping_add(u32::from(*b))
    })
}

// What stands after the call: what is said, and what the arena over these bytes then holds, with the sum over the bytes
// from the data offset up.
#[derive(Drop)]
pub struct Ours<'a, S> {
    pub said: S,
    pub arena: Arena,
    pub buf: &'a [u8],
}

impl<S: fmt::Display> fmt::Display for Ours<'_, S> {
    fn fmt<W: fmt::Write>(&self, f: &mut fmt::Formatter<W>) -> fmt::Result {
        let Arena { shape, header } = self.arena;
        let data = self.buf.get(shape.data_offset as usize..).unwrap_or(&[]);
        write!(f, " -> {}{}", self.said, Counters(header))?;
        write!(f, " sentinel={} sum={}", header.sentinel, checksum(data))
    }
}

// What is still expected of the bytes that are written.
#[derive(Drop)]
struct Expected<'a>(&'a [u8]);

impl fmt::Write for Expected<'_> {
    fn write_str(&mut self, s: &str) -> fmt::Result {
        self.0 = self.0.strip_prefix(s.as_bytes()).ok_or(fmt::Error)?;
        Ok(())
    }
}

// Whether the bytes are the text.
pub fn is_written(text: &impl fmt::Display, bytes: &[u8]) -> bool {
    let mut expected = Expected(bytes);
    write!(expected, "{text}").is_ok() && expected.0.is_empty()
}
