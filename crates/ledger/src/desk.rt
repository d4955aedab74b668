// An arena over its buffer, with a table of the blocks that are held. It is a value: calls on a copy leave the first as it
// is. A call writes the line of its answer. A rewind leaves the table as it is: here it is the last call on its arena.
ghost use Rattle.std.specs.Prelude.{◌<◌};

use calls::Call;
use records::{Answer, Arena, Block, Settings};
use std::io;
use trace::ReplyText;

// Arrays and no Vec: a desk is copied, and nothing is on a heap.
#[derive(Clone, Copy)]
pub struct Desk<const N: usize> {
    arena: Arena,
    buf: [u8; N],
    held: [Option<Block>; 4],
}

impl<const N: usize> Desk<N> {
    // A fresh arena; a good setup writes nothing. A refused one ends the program.
    pub fn open(rt: &impl Print, settings: Settings) -> io::Result<Desk<N>> {
        let buf = [0; N];
        match records::setup(settings, &buf) {
            Ok(arena) => Ok(Desk {
                arena,
                buf,
                held: [None; 4],
            }),
            Err(error) => {
                println!(rt; "answer=refused no={}", error.number())?;
                Err(io::Error::other("a setup is refused"))
            }
        }
    }

    // Makes a call and writes the line of its answer.
    fn ask(&mut self, rt: &impl Print, call: Call, slot: Option<usize>) -> io::Result<Answer> {
        let Arena { shape, header } = self.arena;
        let reply = calls::perform(shape, header, &mut self.buf, call);
        println!(rt; "{}", ReplyText { call, reply, slot })?;
        self.arena.header = reply.header;
        Ok(reply.answer)
    }

    // A granted block takes the lowest empty slot; a request with no empty slot is not made.
    pub fn call(&mut self, rt: &impl Print, call: Call) -> io::Result<()> {
        let slot = self.held.iter().position(Option::is_none);
        if slot.is_none() && matches!(call, Call::Take(_)) {
            return println!(rt; "answer=full");
        }
        let answer = self.ask(rt, call, slot)?;
        if let (Answer::Granted(block), Some(slot)) = (answer, slot) {
            self.held[slot] = Some(block);
        }
        Ok(())
    }

    // Gives the block of a slot back. It is held no more, unless the call is refused.
    pub fn give(&mut self, rt: &impl Print, slot: usize) -> io::Result<()>
        requires { slot < 4 }
    {
        let Some(block) = self.held[slot] else {
            return println!(rt; "answer=empty");
        };
        let back = Call::Give {
            offset: block.memory_offset,
            size: block.memory_size,
        };
        if !trace::refused(self.ask(rt, back, None)?) {
            self.held[slot] = None;
        }
        Ok(())
    }
}
