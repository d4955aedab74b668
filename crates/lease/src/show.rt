// What a call answers, as text: every answer that there is, a refusal by its number in document 01 and with the numbers
// that it carries. A truth is 1 or 0.
use records::{Answer, Block};
use std::fmt;

#[derive(Clone, Copy)]
pub struct Shown(pub Answer);

impl fmt::Display for Shown {
    fn fmt<W: fmt::Write>(&self, f: &mut fmt::Formatter<W>) -> fmt::Result {
        if let Some(number) = self.0.number() {
            write!(f, "refused {number}")?;
        }
        match self.0 {
            Answer::Granted(
                Block {
                    memory_offset,
                    memory_size,
                    usable_offset,
                    usable_size,
                },
            ) => {
                writeln!(f, "memory {memory_offset}, {memory_size}")?;
                write!(f, "usable {usable_offset}, {usable_size}")
            }
            Answer::Nothing => f.write_str("nothing"),
            Answer::GivenBack(kept) => write!(f, "given back {}", u8::from(kept)),
            Answer::Sum(sum) => write!(f, "sum {sum}"),
            Answer::Done => f.write_str("done"),
            Answer::OutOfBounds {
                offset: first,
                allocated: second,
            }
            | Answer::InsufficientSpace {
                requested: first,
                available: second,
            } => write!(f, ": {first}, {second}"),
            Answer::ReadOnly
            | Answer::Damaged
            | Answer::BadLayout
            | Answer::Overlap
            | Answer::CutsFreeList => Ok(()),
        }
    }
}
