// The named sub-codes from their numbers. Past the last number a sub-code has the last name: the form of a record is tested elsewhere.
ghost use Rattle.std.specs.Prelude.{◌≡◌};
ghost use Rattle.record.specs.Named.{cause_of, state_of, effect_of};

use crate::named::{ApplyEffect, RangeCause, RangeState};

impl From<u8> for RangeCause {
    ghost from_gives = { λ code r. r ≡ cause_of code };

    fn from(code: u8) -> RangeCause {
        match code {
            1 => RangeCause::Bootstrap,
            2 => RangeCause::Split,
            _ => RangeCause::Snapshot,
        }
    }
}

impl From<u8> for RangeState {
    ghost from_gives = { λ code r. r ≡ state_of code };

    fn from(code: u8) -> RangeState {
        match code {
            1 => RangeState::Live,
            2 => RangeState::Merging,
            _ => RangeState::Subsumed,
        }
    }
}

impl From<u8> for ApplyEffect {
    ghost from_gives = { λ code r. r ≡ effect_of code };

    fn from(code: u8) -> ApplyEffect {
        match code {
            1 => ApplyEffect::Applied,
            2 => ApplyEffect::OutOfSpan,
            3 => ApplyEffect::Frozen,
            4 => ApplyEffect::Took,
            5 => ApplyEffect::Aborted,
            6 => ApplyEffect::Refused,
            _ => ApplyEffect::None,
        }
    }
}
