// A lease on an arena over 200 lent bytes: taken, written in, given back, and given back again; then one is asked for that
// is too large. A program to start from. What each call answers is shown.
#![tactic(auto)]

mod show;

use records::{Answer, Settings};
use show::Shown;
use std::io;

// A caller's write. The part of a block that leaves the buffer is empty, so the first byte is asked for.
fn sign(part: &mut [u8]) {
    if let Some(first) = part.first_mut() {
        *first = 7;
    }
}

fn main(rt: HostRuntime) -> io::Result<()> {
    let mut buf = [0u8; 200];
    let settings = Settings {
        reserved: 7,
        ..Settings::default()
    };
    let fresh = match records::setup(settings, &buf) {
        Ok(fresh) => fresh,
        Err(error) => return println!(rt; "refused {}", error.number()),
    };
    let taken = arena::alloc_bytes(fresh.shape, fresh.header, &mut buf, 40);
    println!(rt; "{}", Shown(taken.answer))?;
    // The reply holds the header for the next call, and the answer.
    let Answer::Granted(lease) = taken.answer else {
        return Ok(());
    };
    sign(records::bytes_mut(&mut buf, lease));
    let offset = lease.memory_offset;
    let size = lease.memory_size;
    let once = arena::dealloc(fresh.shape, taken.header, &mut buf, offset, size);
    println!(rt; "{}", Shown(once.answer))?;
    let twice = arena::dealloc(fresh.shape, once.header, &mut buf, offset, size);
    println!(rt; "{}", Shown(twice.answer))?;
    let asked = arena::alloc_bytes(fresh.shape, twice.header, &mut buf, 1000);
    println!(rt; "{}", Shown(asked.answer))
}
