//! What lies under a desk's lock: the book, with the ledger's total. All that a worker changes is changed here, in one call.
ghost use Rattle.std.specs.Prelude.{◌≡◌, ◌∷◌, ◌++◌, [], ◌<◌, ◌≤◌, IfOk, IfErr, MatchOption, length, slice_index_or, false};
ghost use Rattle.std.specs.List.{Contains};
ghost use Rattle.slot_desk.specs.declared.holds.Hold.{Hold};
ghost use Rattle.slot_desk.specs.Holds as spec;
ghost use Rattle.slot_desk.specs.Holds.{slots_of, without};
ghost use Rattle.slot_desk.specs.Faults.{most_holds, MayEnter, IsRefusedEntry, IsRefusedLeave};

use crate::book::Book;
use crate::faults::DeskFault;
use crate::holds::Hold;
use crate::shares::Share;
use std::alloc::Global;
use std::marker::Model;
use std::sync::ledger;
use std::sync::ledger::Ledger;

/// The book, whose slots are the ledger's total. Contracts see it as the book.
#[derive(Drop)]
pub(crate) struct LockedBook<L: Ledger> {
    book: Book,
    total: ledger::Book<L>,
}

impl<L: Ledger> Model for LockedBook<L> {
    ghost use Rattle.std.specs.Prelude.{◌≡◌, List};
    ghost use Rattle.slot_desk.specs.declared.holds.Hold.{Hold};
    ghost use Rattle.slot_desk.specs.Holds.{slots_of};

    ghost Value = { List Hold };

    ghost view = { λ l. l.book };

    ghost invariant = { λ l. l.total.total ≡ slots_of l.book };
}

impl<L: Ledger> LockedBook<L> {
    /// A book without a hold.
    pub fn new(alloc: Global, total: ledger::Book<L>) -> LockedBook<L>
        requires { total.total ≡ 0 }
        ensures { result ≡ [] }
    {
        LockedBook {
            book: Book::new(alloc),
            total,
        }
    }

    /// Puts a hold behind those of the book and an equal one behind those of the share, or hands it back.
    pub fn enter(
        &mut self,
        alloc: Global,
        share: &mut Share<L>,
        hold: Hold,
    ) -> Result<(), (Hold, DeskFault)>
        ensures entered { IfOk result (λ _. (self.new ≡ self.old ++ hold ∷ []) × (share.new ≡ share.old ++ hold ∷ [])) }
        ensures room { IfOk result (λ _. MayEnter self.old share.old hold.serial) }
        ensures same { IfErr result (λ e. (e.0 ≡ hold) × (self.new ≡ self.old) × (share.new ≡ share.old)) }
        ensures fault { IfErr result (λ e. IsRefusedEntry self.old share.old hold.serial e.1) }
    {
        let LockedBook { book, total } = self;
        let Share { holds, counted } = share;
        if book.has_serial(hold.serial) || has_serial(holds.as_slice(), hold.serial) {
            return Err((hold, DeskFault::DoubleSerial));
        }
        if book.is_full() {
            return Err((hold, DeskFault::Full));
        }
        if holds.reserve(1).is_err() {
            return Err((hold, DeskFault::Memory));
        }
        let Ok(entry) = hold.copy(alloc) else {
            return Err((hold, DeskFault::Memory));
        };
        if let Err((_, fault)) = book.add(entry) {
            return Err((hold, fault));
        }
        total.add(counted, hold.slots.get() as u64);
        holds.push_reserved(hold);
        Ok(())
    }

    /// Takes the share's hold of this serial out of the share, and the equal one out of the book.
    pub fn leave(&mut self, share: &mut Share<L>, serial: u64) -> Result<Hold, DeskFault>
        ensures hold { IfOk result (λ hold. (hold.serial ≡ serial) × Contains self.old hold × Contains share.old hold) }
        ensures left { IfOk result (λ _. (self.new ≡ without serial self.old) × (share.new ≡ without serial share.old)) }
        ensures same { IfErr result (λ _. (self.new ≡ self.old) × (share.new ≡ share.old)) }
        ensures fault { IfErr result (λ fault. IsRefusedLeave self.old share.old serial fault) }
    {
        let LockedBook { book, total } = self;
        let Share { holds, counted } = share;
        let Some(place) = place_of(holds.as_slice(), serial) else {
            return Err(DeskFault::NotHeld);
        };
        let Some(hold) = book.remove(&holds[place]) else {
            return Err(DeskFault::Torn);
        };
        total.sub(counted, hold.slots.get() as u64);
        let _ = holds.remove(place);
        Ok(hold)
    }

    /// The book, where a share of the ledger has all its parts: what it counted is the slots in the book.
    pub fn close(self, all: &mut ledger::Share<L>) -> Book
        requires { all.old.parts ≡ L.parts }
        ensures book { result ≡ self }
        ensures slots { all.old.amount ≡ slots_of result }
    {
        let LockedBook { book, mut total } = self;
        total.audit(all);
        book
    }
}

// Whether a hold of this serial is among these.
fn has_serial(holds: &[Hold], serial: u64) -> bool
    ensures { result ≡ spec.has_serial serial holds.now }
{
    holds.iter().any(|hold| hold.serial == serial)
}

// The place of the first hold of this serial.
fn place_of(holds: &[Hold], serial: u64) -> Option<usize>
    ensures { MatchOption result
        (spec.has_serial serial holds.now ≡ false)
        (λ place. (place < length holds.now) × ((d : Hold) → (slice_index_or holds.now place d).serial ≡ serial)) }
{
    for (place, hold) in holds.iter().enumerate() {
        if hold.serial == serial {
            return Some(place);
        }
    }
    None
}
