// Setup: where the data starts, what a policy code names, the defaults, and a fresh arena.
ghost use Rattle.std.specs.Prelude.{◌≡◌, length};
ghost use Rattle.records.specs.Setup.{Offset, policy_of, code_of, default_settings, setting_up};
ghost use Rattle.records.specs.Answer.{began};
ghost use Rattle.records.specs.declared.SetupError.TheVariants.{UnknownFreelist};

use crate::{Arena, Header, LIMIT, Order, Policy, Settings, SetupError, Shape, UnknownFreelist};

// Where the data starts. Wider than the field that keeps it: setup refuses what does not fit.
#[tactic(auto, unfolding(crate::specs::Setup::data_offset))]
pub fn data_offset(reserved: u32, unify: bool) -> usize
    ensures { Offset reserved unify result }
{
    let wide = reserved as usize;
    if unify {
        words::align8(wide) + 32
    } else {
        wide + 1
    }
}

// The policy that a code names.
impl TryFrom<u8> for Policy {
    type Error = UnknownFreelist;

    ghost try_from_gives = { λ code r. r ≡ policy_of code };

    #[tactic(auto, unfolding(crate::specs::Setup::policy_of))]
    fn try_from(code: u8) -> Result<Policy, UnknownFreelist> {
        match code {
            0 => Ok(Policy::None),
            1 => Ok(Policy::Ordered(Order::Optimistic)),
            2 => Ok(Policy::Ordered(Order::Pessimistic)),
            _ => Err(UnknownFreelist),
        }
    }
}

// The code of a policy.
impl From<Policy> for u8 {
    ghost from_gives = { λ policy r. r ≡ code_of policy };

    fn from(policy: Policy) -> u8 {
        match policy {
            Policy::None => 0,
            Policy::Ordered(Order::Optimistic) => 1,
            Policy::Ordered(Order::Pessimistic) => 2,
        }
    }
}

// An unknown code is refusal 2.
impl From<UnknownFreelist> for SetupError {
    ghost from_gives = { λ _ r. r ≡ UnknownFreelist };

    fn from(_: UnknownFreelist) -> SetupError {
        SetupError::UnknownFreelist
    }
}

// The settings of somebody who names none.
impl Default for Settings {
    ghost is_default = { λ s. s ≡ default_settings };

    fn default() -> Settings {
        Settings {
            reserved: 0,
            unify: false,
            policy: u8::from(Policy::Ordered(Order::Optimistic)),
            minimum_segment_size: 20,
            read_only: false,
        }
    }
}

// A fresh arena over a buffer of any contents, of which no byte is written.
#[tactic(auto, unfolding(crate::specs::Setup::setting_up))]
pub fn setup(settings: Settings, buf: &[u8]) -> Result<Arena, SetupError>
    ensures { began result ≡ setting_up settings (length buf.now) }
{
    let policy = Policy::try_from(settings.policy)?;
    let cap = buf.len();
    let start = data_offset(settings.reserved, settings.unify);
    if cap > LIMIT as usize || cap < start {
        return Err(SetupError::BadSetup);
    }
    let shape = Shape {
        cap: cap as u32,
        reserved: settings.reserved,
        data_offset: start as u32,
        unify: settings.unify,
        read_only: settings.read_only,
        policy,
    };
    let header = Header {
        sentinel: words::EMPTY,
        allocated: start as u32,
        minimum_segment_size: settings.minimum_segment_size,
        discarded: 0,
    };
    Ok(Arena { shape, header })
}
