//! What one worker has of a desk.
ghost use Rattle.std.specs.Prelude.{◌≡◌, []};

use crate::holds::Hold;
use std::alloc::Global;
use std::marker::Model;
use std::sync::ledger;
use std::sync::ledger::Ledger;

/// The holds that one worker entered and did not leave, of distinct serials, in the order in which they came. Contracts see it as the list
/// of them. It is made by `SlotDesk::open` alone, and belongs to that desk, which `L` names.
#[derive(Drop)]
pub struct Share<L: Ledger> {
    pub(crate) holds: Vec<Hold>,
    pub(crate) counted: ledger::Share<L>,
}

impl<L: Ledger> Model for Share<L> {
    ghost use Rattle.std.specs.Prelude.{◌≡◌, List, true};
    ghost use Rattle.slot_desk.specs.declared.holds.Hold.{Hold};
    ghost use Rattle.slot_desk.specs.Holds.{have_distinct_serials, slots_of};

    ghost Value = { List Hold };

    ghost view = { λ s. s.holds.items };

    ghost invariant = { λ s. (have_distinct_serials s.holds.items ≡ true) × (s.counted.parts ≡ 1) × (s.counted.amount ≡ slots_of s.holds.items) };
}

impl<L: Ledger> Share<L> {
    /// The holds.
    pub fn holds(&self) -> &[Hold]
        ensures { result.now ≡ self.now }
    {
        self.holds.as_slice()
    }
}

/// A share without a hold, with its part of the ledger.
pub(crate) fn empty_share<L: Ledger>(alloc: Global, counted: ledger::Share<L>) -> Share<L>
    requires { (counted.parts ≡ 1) × (counted.amount ≡ 0) }
    ensures { result ≡ [] }
{
    Share {
        holds: Vec::new(alloc),
        counted,
    }
}
