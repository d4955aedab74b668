// The lines one after the other, over one arena at a time.
use crate::answer::Ours;
use crate::tally::Tally;
use records::{Arena, Settings};
use std::{fmt, io};
use trace::{AnswerText, Line};

// The arena in use, if there is one, and its bytes.
#[derive(Drop)]
struct Replay {
    arena: Option<Arena>,
    buf: [u8; 4096],
    tally: Tally,
}

impl Replay {
    // Leaves no arena in use.
    fn close(&mut self, rt: &impl Print, why: impl fmt::Display + Drop) -> io::Result<()> {
        self.arena = None;
        self.tally.differs(rt, why)
    }

    // A fresh arena over the zeroed first `cap` bytes.
    fn set_up(&mut self, rt: &impl Print, cap: u32, settings: Settings) -> io::Result<()> {
        let Some(buf) = self.buf.get_mut(..cap as usize) else {
            return self.close(rt, " -> the buffer is too short");
        };
        buf.fill(0);
        match records::setup(settings, buf) {
            Ok(arena) => {
                self.arena = Some(arena);
                self.tally.arenas = self.tally.arenas.saturating_add(1);
                Ok(())
            }
            Err(error) => {
                let number = error.number();
                self.close(rt, format_args!(" -> answer=refused no={number}"))
            }
        }
    }

    // A line over an arena: what it says, and what stands after that. The buffer is long enough, since `set_up` tested that; no
    // type says so, so it is tested again.
    fn answer(
        &mut self,
        rt: &impl Print,
        arena: Arena,
        said: Line,
        theirs: &[u8],
    ) -> io::Result<()> {
        let Arena { shape, header } = arena;
        let Some(buf) = self.buf.get_mut(..shape.cap as usize) else {
            return self.close(rt, " -> the buffer is too short");
        };
        match said {
            Line::Call(call) => {
                let reply = calls::perform(shape, header, buf, call);
                let arena = Arena {
                    shape,
                    header: reply.header,
                };
                let said = AnswerText {
                    call,
                    answer: reply.answer,
                    slot: None,
                };
                self.arena = Some(arena);
                self.tally.calls = self.tally.calls.saturating_add(1);
                self.tally.judge(rt, &Ours { said, arena, buf }, theirs)
            }
            Line::Fill { offset, size, byte } => {
                trace::fill(buf, offset as usize, size as usize, byte);
                let said = "answer=done";
                self.tally.writes = self.tally.writes.saturating_add(1);
                self.tally.judge(rt, &Ours { said, arena, buf }, theirs)
            }
            Line::Setup { .. } => self.tally.differs(rt, " -> not read"),
        }
    }

    // One line: what stands before the arrow, and after it. A setup has no answer.
    fn step(&mut self, rt: &impl Print, line: &[u8]) -> io::Result<()> {
        self.tally.line = self.tally.line.saturating_add(1);
        let cut = line.windows(4).position(|w| w == b" -> ".as_slice());
        let (said, theirs) = line.split_at(cut.unwrap_or(line.len()));
        let Some(said) = trace::read_line(said) else {
            return self.tally.differs(rt, " -> not read");
        };
        if let Line::Setup { cap, settings } = said
            && theirs.is_empty()
        {
            return self.set_up(rt, cap, settings);
        }
        let Some(arena) = self.arena else {
            return self.tally.differs(rt, " -> no arena");
        };
        self.answer(rt, arena, said, theirs)
    }
}

// Every line of the text.
pub fn all(rt: &impl Print, text: &[u8]) -> io::Result<Tally> {
    let mut replay = Replay {
        arena: None,
        buf: [0; 4096],
        tally: Tally::default(),
    };
    for line in text.split_inclusive(|b| *b == b'\n') {
        replay.step(rt, line.strip_suffix(b"\n").unwrap_or(line))?;
    }
    Ok(replay.tally)
}
