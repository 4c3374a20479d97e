//! Sets of numbers below 64, which the fields of a cron expression name.
ghost use Rattle.std.specs.Prelude.{◌≡◌, ℕ, ◌+◌, ◌-◌, ◌<◌, ◌≤◌, true, false, bit_or};
ghost use Rattle.cron_timetable.specs.Sets.{has};
ghost use Rattle.cron_timetable.specs.Fields.{is_restricted};

use std::marker::Model;

/// A set of numbers below 64. Contracts see it as the number whose bit n says whether n is in the set.
#[derive(Clone, Copy, Debug, PartialEq, Eq)]
pub(crate) struct FieldSet {
    bits: u64,
}

impl Model for FieldSet {
    ghost use Rattle.std.specs.Prelude.{ℕ, ◌<◌, ◌^◌};

    ghost Value = { ℕ };

    ghost view = { λ s. s.bits };

    ghost inverse = { λ n. record { bits = n } };
}

impl FieldSet {
    // The set with these bits.
    pub(crate) fn of_bits(bits: u64) -> FieldSet
        ensures { result ≡ bits }
    {
        FieldSet { bits }
    }

    // Whether the number is in the set.
    #[tactic(auto, using(std::proofs::lemmas::Nat::Bits::shr_and_one), unfolding(crate::specs::Sets::has))]
    pub(crate) fn has(self, n: u32) -> bool
        requires { n < 64 }
        ensures { result ≡ has self n }
    {
        self.bits >> n & 1 == 1
    }

    // The least number from `n` on that is in the set, or some number above all where there is none.
    pub(crate) fn least_from(self, n: u32) -> u32
        requires { n < 64 }
        ensures from { n ≤ result }
        ensures small { result < 128 }
        ensures none { (k : ℕ) → n ≤ k → k < result → has self k ≡ false }
        ensures found { result < 64 → has self result ≡ true }
    {
        n + (self.bits >> n).trailing_zeros()
    }

    // One more than the greatest number up to `n` that is in the set, or 0 where there is none.
    pub(crate) fn past_greatest_to(self, n: u32) -> u32
        requires { n < 64 }
        ensures to { result ≤ n + 1 }
        ensures none { (k : ℕ) → result ≤ k → k ≤ n → has self k ≡ false }
        ensures found { 0 < result → has self (result - 1) ≡ true }
    {
        64 - (self.bits & u64::MAX >> (63 - n)).leading_zeros()
    }

    // Whether the set is another one than the whole set of its field.
    pub(crate) fn is_restricted(self, whole: u64) -> bool
        ensures { result ≡ is_restricted whole self }
    {
        self.bits != whole
    }

    // The numbers that are in one of the sets.
    pub(crate) fn union(self, other: FieldSet) -> FieldSet
        ensures { result ≡ bit_or self other }
    {
        FieldSet {
            bits: self.bits | other.bits,
        }
    }
}
