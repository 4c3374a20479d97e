//! Numbers of slots.
ghost use Rattle.std.specs.Prelude.{◌≡◌, ◌<◌, ◌≤◌, MatchOption};
ghost use Rattle.pool_book.specs.Limits.{slot_limit};

use std::marker::Model;

// The greatest number of slots.
const MOST_SLOTS: u32 = 1_000_000;

/// A number of slots, from 0 to 1,000,000. Contracts see it as that number.
#[derive(Clone, Copy, Debug, PartialEq, Eq, PartialOrd, Ord)]
pub struct Slots {
    number: u32,
}

impl Model for Slots {
    ghost use Rattle.std.specs.Prelude.{ℕ, ◌≤◌};
    ghost use Rattle.pool_book.specs.Limits.{slot_limit};

    ghost Value = { ℕ };

    ghost view = { λ s. s.number };

    ghost invariant = { λ s. s.number ≤ slot_limit };

    ghost inverse = { λ n. record { number = n } };
}

impl Slots {
    /// So many slots, where the number is in the range.
    pub fn new(number: u32) -> Option<Slots>
        ensures { MatchOption result (slot_limit < number)
            (λ s. (s ≡ number) × (number ≤ slot_limit)) }
    {
        if number <= MOST_SLOTS {
            Some(Slots { number })
        } else {
            None
        }
    }

    /// So many slots, which the caller knows to be in the range.
    pub fn of(number: u32) -> Slots
        requires { number ≤ slot_limit }
        ensures { result ≡ number }
    {
        Slots { number }
    }

    /// The number.
    pub fn get(self) -> u32
        ensures value { result ≡ self }
        ensures high { result ≤ slot_limit }
    {
        self.number
    }
}
