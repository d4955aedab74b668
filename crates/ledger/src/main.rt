// Makes the calls of document 01's ledger on the proved arena, and writes a line for each answer in the keys of document
// 02, Req 01. A line before each group says which line of the ledger it is. Arenas are values: what S leaves is made once
// for each policy, and each of the calls that the ledger makes next is made on a copy of it.
#![tactic(auto)]

mod desk;

ghost use Rattle.std.specs.Prelude.{◌<◌};

use calls::Call;
use desk::Desk;
use records::{Order, Policy, Position, Request, Settings};
use std::io;

const OPTIMISTIC: Policy = Policy::Ordered(Order::Optimistic);

// The ledger's own settings: minimum 20, and no unify but where it says so.
fn settings(reserved: u32, unify: bool, policy: Policy) -> Settings {
    Settings {
        reserved,
        unify,
        policy: u8::from(policy),
        ..Settings::default()
    }
}

fn bytes(size: u32) -> Call {
    Call::Take(Request::Bytes(size))
}

fn typed(size: u32, align: u32) -> Call {
    Call::Take(Request::Typed { size, align })
}

fn range(offset: u32, size: u32) -> Call {
    Call::Give { offset, size }
}

// Calls on a copy.
fn try_on<const N: usize>(rt: &impl Print, mut desk: Desk<N>, calls: &[Call]) -> io::Result<()> {
    for call in calls {
        desk.call(rt, *call)?;
    }
    Ok(())
}

// A give-back by slot on a copy.
fn give_on(rt: &impl Print, mut desk: Desk<200>, slot: usize) -> io::Result<()>
    requires { slot < 4 }
{
    desk.give(rt, slot)
}

// The name of a line of the ledger that goes on from S.
fn from_s(rt: &impl Print, order: Order, what: &str) -> io::Result<()> {
    match order {
        Order::Pessimistic => println!(rt; "S pessimistic{what}"),
        Order::Optimistic => println!(rt; "S optimistic{what}"),
    }
}

// S: three blocks, and the first two of them given back.
fn start(rt: &impl Print, order: Order) -> io::Result<Desk<200>> {
    from_s(rt, order, "")?;
    let mut desk = Desk::open(rt, settings(7, false, Policy::Ordered(order)))?;
    for size in [40, 60, 92] {
        desk.call(rt, bytes(size))?;
    }
    desk.give(rt, 0)?;
    desk.give(rt, 1)?;
    Ok(desk)
}

// S, and each of the calls that the ledger makes next. It has a typed request for the pessimistic list alone.
fn next_calls(rt: &impl Print, order: Order) -> io::Result<()> {
    let s = start(rt, order)?;
    from_s(rt, order, ": bytes 30")?;
    try_on(rt, s, &[bytes(30)])?;
    from_s(rt, order, ": bytes 4")?;
    try_on(rt, s, &[bytes(4)])?;
    from_s(rt, order, ": bytes 53")?;
    try_on(rt, s, &[bytes(53)])?;
    if matches!(order, Order::Pessimistic) {
        from_s(rt, order, ": typed 8 align 8")?;
        try_on(rt, s, &[typed(8, 8)])?;
    }
    from_s(rt, order, ": give back (108,92)")?;
    give_on(rt, s, 2)?;
    from_s(rt, order, ": End(150)")?;
    try_on(rt, s, &[Call::Rewind(Position::End(150))])?;
    from_s(rt, order, ": give back (8,40) again")?;
    try_on(rt, s, &[range(8, 40)])
}

// The segment rule, seen by give-backs of parts of one block.
fn segment_rule(rt: &impl Print) -> io::Result<()> {
    let mut desk: Desk<200> = Desk::open(rt, settings(7, false, OPTIMISTIC))?;
    println!(rt; "rule: one block up to the end")?;
    desk.call(rt, bytes(192))?;
    println!(rt; "rule: (16,28) accepted, size 20")?;
    try_on(rt, desk, &[range(16, 28), bytes(20)])?;
    println!(rt; "rule: (16,27) refused")?;
    try_on(rt, desk, &[range(16, 27)])?;
    println!(rt; "rule: minimum 0, (16,9) accepted")?;
    try_on(rt, desk, &[Call::SetMinimum(0), range(16, 9)])?;
    println!(rt; "rule: minimum 0, (16,8) refused")?;
    try_on(rt, desk, &[Call::SetMinimum(0), range(16, 8)])?;
    println!(rt; "rule: (13,33), node 16, size 22")?;
    try_on(rt, desk, &[range(13, 33), bytes(22)])
}

// A request for nothing on fresh arenas: the top is the data offset.
fn data_offsets(rt: &impl Print, unify: bool) -> io::Result<()> {
    for reserved in [0, 1, 8, 9] {
        let mut desk: Desk<200> = Desk::open(rt, settings(reserved, unify, OPTIMISTIC))?;
        desk.call(rt, bytes(0))?;
    }
    Ok(())
}

fn top_one(rt: &impl Print) -> io::Result<()> {
    println!(rt; "top 1, cap 200: typed 8 align 8")?;
    let mut desk: Desk<200> = Desk::open(rt, settings(0, false, OPTIMISTIC))?;
    desk.call(rt, typed(8, 8))
}

fn policy_none(rt: &impl Print) -> io::Result<()> {
    let desk: Desk<20> = Desk::open(rt, settings(12, false, Policy::None))?;
    println!(rt; "None, cap 20, top 13: typed 8 align 8")?;
    try_on(rt, desk, &[typed(8, 8)])?;
    println!(rt; "None, cap 20, top 13: aligned 8 align 8 extra 0")?;
    let aligned = Request::Aligned {
        size: 8,
        align: 8,
        extra: 0,
    };
    try_on(rt, desk, &[Call::Take(aligned)])
}

// Each rewind on a copy of its own.
fn rewind(rt: &impl Print, desk: Desk<200>, positions: &[Position]) -> io::Result<()> {
    for position in positions {
        try_on(rt, desk, &[Call::Rewind(*position)])?;
    }
    Ok(())
}

fn rewinds(rt: &impl Print) -> io::Result<()> {
    let mut desk = Desk::open(rt, settings(7, false, OPTIMISTIC))?;
    println!(rt; "rewind: top 108, list empty")?;
    desk.call(rt, bytes(100))?;
    println!(rt; "rewind: Start(0), Start(500)")?;
    rewind(rt, desk, &[Position::Start(0), Position::Start(500)])?;
    println!(rt; "rewind: Current(-108), Current(-109), Current(-101), Current(92)")?;
    rewind(rt, desk, &[-108, -109, -101, 92].map(Position::Current))?;
    println!(rt; "rewind: End(150), End(201)")?;
    rewind(rt, desk, &[Position::End(150), Position::End(201)])
}

fn main(rt: HostRuntime) -> io::Result<()> {
    next_calls(&rt, Order::Pessimistic)?;
    next_calls(&rt, Order::Optimistic)?;
    segment_rule(&rt)?;
    println!(&rt; "data offsets for reserved 0, 1, 8, 9")?;
    data_offsets(&rt, false)?;
    println!(&rt; "data offsets with unify for reserved 0, 1, 8, 9")?;
    data_offsets(&rt, true)?;
    top_one(&rt)?;
    policy_none(&rt)?;
    rewinds(&rt)
}
