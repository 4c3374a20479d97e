//! Whole numbers whose range is part of their type.
ghost use Rattle.std.specs.Prelude.{◌≡◌, ◌≤◌};

use std::marker::Model;

/// A whole number from `LOW` to `HIGH`, both included. Contracts see it as that number.
#[derive(Clone, Copy, Debug, PartialEq, Eq, PartialOrd, Ord)]
pub struct Bounded<const LOW: u32, const HIGH: u32> {
    number: u32,
}

impl<const LOW: u32, const HIGH: u32> Model for Bounded<LOW, HIGH> {
    ghost use Rattle.std.specs.Prelude.{ℕ, ◌≤◌};

    ghost Value = { ℕ };

    ghost view = { λ b. b.number };

    ghost invariant = { λ b. (LOW ≤ b.number) × (b.number ≤ HIGH) };

    ghost inverse = { λ n. record { number = n } };
}

impl<const LOW: u32, const HIGH: u32> Bounded<LOW, HIGH> {
    /// The number, which the caller knows to be in the range.
    pub fn new(number: u32) -> Bounded<LOW, HIGH>
        requires low { LOW ≤ number }
        requires high { number ≤ HIGH }
        ensures { result ≡ number }
    {
        Bounded { number }
    }

    /// The number.
    pub fn get(self) -> u32
        ensures value { result ≡ self.entry }
        ensures low { LOW ≤ result }
        ensures high { result ≤ HIGH }
    {
        self.number
    }
}
