//! The book of holds: what it takes and what it gives back.
ghost use Rattle.std.specs.Prelude.{◌≡◌, ◌+◌, ◌<◌, ◌≤◌, true, [], ◌∷◌, ◌++◌, length, slice_index_or};
ghost use Rattle.std.specs.Prelude.{IfOk, IfErr, IfSome, IfNone, MatchBool, MatchOption};
ghost use Rattle.std.specs.List.{Contains};
ghost use Rattle.slot_desk.specs.Holds.{has_serial, have_distinct_serials, slots_of, without, Lacks};

use crate::faults::DeskFault;
use crate::holds::Hold;
use std::alloc::Global;
use std::marker::Model;

/// Up to `LIMIT` holds of distinct serials, in the order in which they came. Contracts see it as the list of them.
///
/// Each call looks through the holds that are there, so it takes as long as there are holds: those of the tries that run, at most as
/// many as there are lanes.
#[derive(Debug, Drop)]
pub struct LimitedBook<const LIMIT: usize> {
    holds: Vec<Hold>,
}

/// The book of a desk, with room for 1,000,000 holds.
pub type Book = LimitedBook<1_000_000>;

impl<const LIMIT: usize> Model for LimitedBook<LIMIT> {
    ghost use Rattle.std.specs.Prelude.{◌≡◌, List, ◌≤◌, true, length};
    ghost use Rattle.slot_desk.specs.declared.holds.Hold.{Hold};
    ghost use Rattle.slot_desk.specs.Holds.{have_distinct_serials};

    ghost Value = { List Hold };

    ghost view = { λ b. b.holds.items };

    ghost invariant = { λ b. (have_distinct_serials b.holds.items ≡ true) × (length b.holds.items ≤ LIMIT) };
}

impl<const LIMIT: usize> LimitedBook<LIMIT> {
    ghost use Rattle.slot_desk.specs.Faults.{HasRoomFor, IsRefusedBy};

    /// A book without a hold. It takes no memory.
    pub fn new(alloc: Global) -> LimitedBook<LIMIT>
        ensures { result ≡ [] }
    {
        LimitedBook {
            holds: Vec::new(alloc),
        }
    }

    /// Whether a hold of this serial is in the book.
    pub fn has_serial(&self, serial: u64) -> bool
        ensures { result ≡ has_serial serial self.now }
    {
        self.holds.iter().any(|hold| hold.serial == serial)
    }

    /// Whether the book has as many holds as there is room for.
    pub fn is_full(&self) -> bool
        ensures { MatchBool result (length self.now ≡ LIMIT) (length self.now < LIMIT) }
    {
        self.holds.len() == LIMIT
    }

    /// Puts a hold behind the others, or hands it back.
    pub fn add(&mut self, hold: Hold) -> Result<(), (Hold, DeskFault)>
        ensures added { IfOk result (λ _. self.new ≡ self.old ++ hold ∷ []) }
        ensures room { IfOk result (λ _. HasRoomFor LIMIT self.old hold.serial) }
        ensures same { IfErr result (λ e. (e.0 ≡ hold) × (self.new ≡ self.old)) }
        ensures fault { IfErr result (λ e. IsRefusedBy LIMIT self.old hold.serial e.1) }
    {
        if self.has_serial(hold.serial) {
            return Err((hold, DeskFault::DoubleSerial));
        }
        if self.is_full() {
            return Err((hold, DeskFault::Full));
        }
        if self.holds.reserve(1).is_err() {
            return Err((hold, DeskFault::Memory));
        }
        self.holds.push_reserved(hold);
        Ok(())
    }

    /// Takes out the hold that is equal to this one, where there is one. It takes no memory.
    pub fn remove(&mut self, hold: &Hold) -> Option<Hold>
        ensures removed { IfSome result (λ out. (out ≡ hold.now) × Contains self.old out) }
        ensures rest { IfSome result (λ _. self.new ≡ without hold.now.serial self.old) }
        ensures slots { IfSome result (λ out. slots_of self.new + out.slots ≡ slots_of self.old) }
        ensures same { IfNone result ((self.new ≡ self.old) × Lacks self.old hold.now) }
    {
        let place = self.place_of(hold)?;
        Some(self.holds.remove(place))
    }

    /// The slots of all holds together.
    pub fn slots(&self) -> u64
        requires { LIMIT ≤ 1_000_000 }
        ensures slots { result ≡ slots_of self.now }
        ensures each_has_one { length self.now ≤ result }
    {
        let mut slots: u64 = 0;
        for hold in &self.holds {
            slots += hold.slots.get() as u64;
        }
        slots
    }

    /// The holds, in their order.
    pub fn into_holds(self) -> Vec<Hold>
        ensures holds { result.items ≡ self.entry }
        ensures distinct { have_distinct_serials result.items ≡ true }
    {
        let LimitedBook { holds } = self;
        holds
    }

    // The place of the hold that is equal to this one.
    fn place_of(&self, hold: &Hold) -> Option<usize>
        ensures { MatchOption result (Lacks self.now hold.now) (λ place. (place < length self.now) × (slice_index_or self.now place hold.now ≡ hold.now)) }
    {
        for (place, other) in self.holds.iter().enumerate() {
            if other.is_equal(hold) {
                return Some(place);
            }
        }
        None
    }
}
