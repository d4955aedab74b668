// Where a rewind leads, on numbers alone. The exact sum of a top and an i64 is made in a u64, where only a sum below 0 does not fit.
// Every function is for any numbers; the callers' are those of a sound head.
#![tactic(auto)]

ghost use Rattle.std.specs.Prelude.{◌≡◌, pos, ◌+ℤ◌};
ghost use Rattle.positions.specs.NewTop.{new_top, exact_top};

use records::Position;

// The new top for the exact sum of the top and d.
fn current_top(start: u32, cap: u32, top: u32, d: i64) -> u32
    ensures { result ≡ exact_top start cap top (pos top +ℤ d) }
{
    match u64::from(top).checked_add_signed(d) {
        None => start,
        Some(sum) if u64::from(cap) <= sum => cap,
        Some(0) => top,
        Some(sum) => (sum as u32).max(start),
    }
}

// The top that a rewind leads to.
#[tactic(auto, unfolding(crate::specs::NewTop::new_top))]
pub fn new_top(start: u32, cap: u32, top: u32, position: Position) -> u32
    ensures { result ≡ new_top start cap top position }
{
    match position {
        Position::Start(x) => x.max(start).min(cap),
        Position::Current(d) => current_top(start, cap, top, d),
        Position::End(x) => cap.saturating_sub(x).max(start),
    }
}
