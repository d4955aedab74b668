// Answers as text.
ghost use Rattle.std.specs.Prelude.{◌≡◌};
ghost use Rattle.records.specs.Answer.{said};
ghost use Rattle.trace.specs.Refused.{is_refused};

use calls::Call;
use records::{Answer, Block, Header, Reply};
use std::fmt;

// The counters after a call.
#[derive(Clone, Copy)]
pub struct Counters(pub Header);

impl fmt::Display for Counters {
    fn fmt<W: fmt::Write>(&self, f: &mut fmt::Formatter<W>) -> fmt::Result {
        let header = self.0;
        write!(f, " top={} lost={}", header.allocated, header.discarded)
    }
}

// An answer to a call, without what stands after it. A granted block has the slot where it is kept, if that is named.
#[derive(Clone, Copy)]
pub struct AnswerText {
    pub call: Call,
    pub answer: Answer,
    pub slot: Option<usize>,
}

impl AnswerText {
    fn granted<W: fmt::Write>(&self, f: &mut fmt::Formatter<W>, block: Block) -> fmt::Result {
        f.write_str("answer=granted")?;
        if let Some(slot) = self.slot {
            write!(f, " slot={slot}")?;
        }
        let Block {
            memory_offset,
            memory_size,
            usable_offset,
            usable_size,
        } = block;
        write!(f, " memory={memory_offset} length={memory_size}")?;
        write!(f, " at={usable_offset} usable={usable_size}")
    }

    // A rewind says that it moved the top, a setter that it is done.
    fn done<W: fmt::Write>(&self, f: &mut fmt::Formatter<W>) -> fmt::Result {
        match self.call {
            Call::Rewind(_) => f.write_str("answer=moved"),
            _ => f.write_str("answer=done"),
        }
    }
}

// A refusal has its number in document 01, and after it what it carries.
impl fmt::Display for AnswerText {
    fn fmt<W: fmt::Write>(&self, f: &mut fmt::Formatter<W>) -> fmt::Result {
        if let Some(number) = self.answer.number() {
            write!(f, "answer=refused no={number}")?;
        }
        match self.answer {
            Answer::Granted(block) => self.granted(f, block),
            Answer::Nothing => f.write_str("answer=nothing"),
            Answer::GivenBack(taken) => write!(f, "answer={taken}"),
            Answer::Sum(bytes) => write!(f, "answer=sum bytes={bytes}"),
            Answer::Done => self.done(f),
            Answer::OutOfBounds {
                offset: first,
                allocated: second,
            }
            | Answer::InsufficientSpace {
                requested: first,
                available: second,
            } => write!(f, " first={first} second={second}"),
            Answer::ReadOnly
            | Answer::Damaged
            | Answer::BadLayout
            | Answer::Overlap
            | Answer::CutsFreeList => Ok(()),
        }
    }
}

// Whether the answer is one of document 01's refusals.
pub fn refused(answer: Answer) -> bool
    ensures { result ≡ is_refused (said answer) }
{
    answer.number().is_some()
}

// The line of a reply to a call: the counters stand after all but a refusal.
#[derive(Clone, Copy)]
pub struct ReplyText {
    pub call: Call,
    pub reply: Reply,
    pub slot: Option<usize>,
}

impl fmt::Display for ReplyText {
    fn fmt<W: fmt::Write>(&self, f: &mut fmt::Formatter<W>) -> fmt::Result {
        let Reply { answer, header } = self.reply;
        let (call, slot) = (self.call, self.slot);
        write!(f, "{}", AnswerText { call, answer, slot })?;
        if refused(answer) {
            return Ok(());
        }
        write!(f, "{}", Counters(header))
    }
}
