//! The desk: the book under its lock, which workers share.
ghost use Rattle.std.specs.Prelude.{◌≡◌, ◌∷◌, ◌++◌, [], ◌<◌, ◌≤◌, All, IfOk, IfErr, length, vec_len, true, false};
ghost use Rattle.std.specs.List.{Contains};
ghost use Rattle.slot_desk.specs.Holds.{has_serial, have_distinct_serials, in_hand, slots_of, without};
ghost use Rattle.slot_desk.specs.Faults.{WasRefusedEntry, WasRefusedLeave};

use crate::faults::DeskFault;
use crate::holds::Hold;
use crate::locked::LockedBook;
use crate::shares::{Share, empty_share};
use std::alloc::{AllocError, Global};
use std::marker::{Model, PhantomData};
use std::sync::ledger::{Blank, Ledger};
use std::sync::{Mutex, Wait};

/// A book of holds under a lock. `L` names its ledger, and with it the desk.
///
/// Entering and leaving wait for the lock, and then take as long as there are holds in the book and in the share.
#[derive(Drop)]
pub struct SlotDesk<L: Ledger> {
    locked: Mutex<LockedBook<L>>,
}

/// A hold that was taken out of the book of the desk that `L` names. It is made by `SlotDesk::leave` alone. Contracts see it as the hold.
#[derive(Drop)]
pub struct LeftAt<L: Ledger> {
    left: Left,
    desk: PhantomData<L>,
}

impl<L: Ledger> Model for LeftAt<L> {
    ghost use Rattle.slot_desk.specs.declared.holds.Hold.{Hold};

    ghost Value = { Hold };

    ghost view = { λ l. l.left };
}

impl<L: Ledger> LeftAt<L> {
    /// What was left, without the name of its desk.
    pub fn left(self) -> Left
        ensures { result ≡ self }
    {
        let LeftAt { left, .. } = self;
        left
    }
}

/// A hold that was taken out of the book of a desk. It is made of a `LeftAt` alone. Contracts see it as the hold.
#[derive(Debug, Drop)]
pub struct Left {
    hold: Hold,
}

impl Model for Left {
    ghost use Rattle.slot_desk.specs.declared.holds.Hold.{Hold};

    ghost Value = { Hold };

    ghost view = { λ l. l.hold };
}

impl Left {
    /// The hold.
    pub fn hold(&self) -> &Hold
        ensures { result.now ≡ self.now }
    {
        &self.hold
    }
}

/// What a desk held when all shares were back.
#[derive(Debug, Drop)]
pub struct Total {
    /// The slots of all holds together.
    pub slots: u64,
    /// The holds, in the order in which they were entered.
    pub holds: Vec<Hold>,
}

impl<L: Ledger> SlotDesk<L> {
    /// A desk without a hold, and so many shares of it, without a hold each. The blank has a part for each share.
    ///
    /// The memory that it takes follows the number of shares alone.
    pub fn open(
        alloc: Global,
        blank: Blank,
        shares: usize,
    ) -> Result<(SlotDesk<L>, Vec<Share<L>>), AllocError>
        requires name { blank.name ≡ L.name }
        requires parts { (blank.parts ≡ L.parts) × (blank.parts ≡ shares) }
        requires some { 0 < shares }
        ensures shares { IfOk result (λ r. vec_len r.1 ≡ shares) }
        ensures none { IfOk result (λ r. All (λ share. share ≡ []) r.1.items) }
    {
        let (total, mut rest) = blank.open::<L>();
        let mut all = Vec::new(alloc);
        for _made in 0..shares {
            all.push(empty_share(alloc, rest.split_off(1, 0)))?;
        }
        let locked = Mutex::new(LockedBook::new(alloc, total));
        Ok((SlotDesk { locked }, all))
    }

    /// Puts a hold into the book and behind those of the share, or hands it back.
    pub fn enter<R: Wait>(
        &self,
        rt: &R,
        alloc: Global,
        share: &mut Share<L>,
        hold: Hold,
    ) -> Result<(), (Hold, DeskFault)>
        ensures entered { IfOk result (λ _. share.new ≡ share.old ++ hold ∷ []) }
        ensures new { IfOk result (λ _. has_serial hold.serial share.old ≡ false) }
        ensures same { IfErr result (λ e. (e.0 ≡ hold) × (share.new ≡ share.old)) }
        ensures fault { IfErr result (λ e. WasRefusedEntry share.old hold.serial e.1) }
    {
        self.locked.lock(rt).enter(alloc, share, hold)
    }

    /// Takes the share's hold of this serial out of the share and out of the book. It takes no memory.
    pub fn leave<R: Wait>(
        &self,
        rt: &R,
        share: &mut Share<L>,
        serial: u64,
    ) -> Result<LeftAt<L>, DeskFault>
        ensures hold { IfOk result (λ left. (left.serial ≡ serial) × Contains share.old left) }
        ensures left { IfOk result (λ _. share.new ≡ without serial share.old) }
        ensures same { IfErr result (λ _. share.new ≡ share.old) }
        ensures fault { IfErr result (λ fault. WasRefusedLeave share.old serial fault) }
    {
        let hold = self.locked.lock(rt).leave(share, serial)?;
        Ok(LeftAt {
            left: Left { hold },
            desk: PhantomData,
        })
    }

    /// What is held, once all shares are back. It waits for nobody and takes no memory.
    pub fn gather(self, shares: Vec<Share<L>>) -> Total
        requires all { length shares.items ≡ L.parts }
        requires some { 0 < length shares.items }
        ensures in_hand { result.slots ≡ in_hand shares.items }
        ensures in_book { result.slots ≡ slots_of result.holds.items }
        ensures distinct { have_distinct_serials result.holds.items ≡ true }
        ensures each_has_one { length result.holds.items ≤ result.slots }
    {
        let SlotDesk { locked } = self;
        let mut shares = shares;
        let Some(
            Share {
                counted: mut all,
                ..
            },
        ) = shares.pop()
        else {
            unreachable!()
        };
        for share in shares {
            let Share { counted, .. } = share;
            all.merge(counted);
        }
        let book = locked.into_inner().close(&mut all);
        let slots = book.slots();
        let holds = book.into_holds();
        Total { slots, holds }
    }
}
