// Replays a recorded list of the Rust's answers on the proved arena, and compares each line of it byte by byte.
//
// A `cap=` line sets an arena up over a zeroed buffer. Each line after it is a call, or a caller's write (`op=fill`),
// with the Rust's answer, top, discarded, the sentinel word and a sum over the bytes from the data offset up. The first
// twenty lines that differ are shown with our answer. A line that cannot be read differs, and so does a call with no
// arena. In the end arenas, writes and calls are counted, and the lines of every kind that differ: all writes and calls
// that are counted were compared.
#![tactic(auto)]

ghost use Rattle.std.specs.Prelude.{◌≤◌, length, IfOk};

mod answer;
mod replay;
mod tally;

use std::io;
use std::io::Read;

// A list is shorter than this. It is read into an array: nothing is on a heap.
const ROOM: usize = 524288;

// Reads until `text` is full or the input ends, and answers how many bytes it put at the start of `text`. Each read has all the
// room that is left: an input that hands out whole messages would lose the end of one that is longer than a smaller piece.
fn read_full<R: Read>(input: &mut R, text: &mut [u8]) -> io::Result<usize>
    ensures { IfOk result (λ n. n ≤ length text.new) }
{
    let mut done = 0;
    while done < text.len() {
        let n = input.read(&mut text[done..])?;
        if n == 0 {
            break;
        }
        done += n;
    }
    Ok(done)
}

fn main(rt: HostRuntime) -> io::Result<()> {
    let mut text = [0; ROOM];
    let n = read_full(&mut rt.stdin(), text.as_mut_slice())?;
    match text.get(..n) {
        Some(list) if n < ROOM => replay::all(&rt, list)?.report(&rt),
        _ => rt.write_all(b"the list is too long\n"),
    }
}
