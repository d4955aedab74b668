// What is counted, and what is shown of it.
use crate::answer::is_written;
use std::{fmt, io};

// At most this many lines that differ are shown.
const SHOWN: u64 = 20;

// `line` is the number of the line in hand. A count stops at its end.
#[derive(Clone, Copy, Default)]
pub struct Tally {
    pub line: u64,
    pub arenas: u64,
    pub calls: u64,
    pub writes: u64,
    pub differ: u64,
}

impl Tally {
    // Counts the line in hand as one that differs, and shows what stands for it on our side.
    pub fn differs(&mut self, rt: &impl Print, ours: impl fmt::Display + Drop) -> io::Result<()> {
        self.differ = self.differ.saturating_add(1);
        if self.differ > SHOWN {
            return Ok(());
        }
        println!(rt; "line {}{ours}", self.line)
    }

    // Compares our answer with the list's.
    pub fn judge(
        &mut self,
        rt: &impl Print,
        ours: &impl fmt::Display,
        theirs: &[u8],
    ) -> io::Result<()> {
        if is_written(ours, theirs) {
            return Ok(());
        }
        self.differs(rt, ours)
    }

    pub fn report(&self, rt: &impl Print) -> io::Result<()> {
        println!(rt;
            "set up {} arenas, made {} writes",
            self.arenas, self.writes
        )?;
        println!(rt; "compared {} calls, {} differ", self.calls, self.differ)
    }
}
