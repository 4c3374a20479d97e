//! The type of moments, and arithmetic that stays in range.
ghost use Rattle.std.specs.Prelude.{◌≡◌, ◌+◌, ◌<◌, ◌↔◌, ◌≤ℤ◌, ◌<ℤ◌, pos, IsSome, IfSome};
ghost use Rattle.moment_core.specs.Moments.{seconds_end};

use std::marker::Model;

/// The first second past the range: 2200-01-01T00:00:00Z.
pub const END: u64 = 7_258_118_400;

/// A whole number of seconds since 1970-01-01T00:00:00Z, before 2200-01-01T00:00:00Z. Leap seconds do not count.
///
/// Contracts see a moment as that number.
#[derive(Clone, Copy, Debug, PartialEq, Eq, PartialOrd, Ord)]
pub struct Moment {
    secs: u64,
}

impl Model for Moment {
    ghost use Rattle.std.specs.Prelude.{ℕ, ◌<◌};
    ghost use Rattle.moment_core.specs.Moments.{seconds_end};

    ghost Value = { ℕ };

    ghost view = { λ m. m.secs };

    ghost invariant = { λ m. m.secs < seconds_end };

    ghost inverse = { λ n. record { secs = n } };
}

impl Moment {
    /// The moment this many seconds after 1970-01-01T00:00:00Z, or `None` outside the range.
    pub fn from_secs(secs: i64) -> Option<Moment>
        ensures in_range { IsSome result ↔ ((pos 0 ≤ℤ secs) × (secs <ℤ pos seconds_end)) }
        ensures value { IfSome result (λ m. pos m ≡ secs) }
    {
        if secs < 0 {
            return None;
        }
        let secs = secs as u64;
        if secs < END {
            Some(Moment { secs })
        } else {
            None
        }
    }

    /// The moment at seconds that the caller knows to be in range, below [`END`].
    pub fn at(secs: u64) -> Moment
        requires { secs < seconds_end }
        ensures { result ≡ secs }
    {
        Moment { secs }
    }

    /// The seconds since 1970-01-01T00:00:00Z.
    pub fn secs(self) -> u64
        ensures value { result ≡ self }
        ensures bound { result < seconds_end }
    {
        self.secs
    }

    /// The moment this many seconds later, or `None` past the range.
    pub fn checked_plus(self, seconds: u64) -> Option<Moment>
        ensures in_range { IsSome result ↔ (self + seconds < seconds_end) }
        ensures value { IfSome result (λ m. m ≡ self + seconds) }
    {
        let secs = self.secs.checked_add(seconds)?;
        if secs < END {
            Some(Moment { secs })
        } else {
            None
        }
    }
}
