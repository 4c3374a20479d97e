//! The slot desk: which slots of pools the tries hold that run now, in one book that all workers share under a lock.
//!
//! A worker enters a hold before it performs a try and leaves it afterwards. It has a share of its own, the list of the holds that it
//! entered and did not leave. The book's slots are counted by a ledger of the kit, of which the book has the total and each share has a
//! part; so once all shares are back, the slots in the book are the slots that the shares hold, whatever the threads did.
//!
//! In: `let (desk, mut shares) = SlotDesk::open(alloc, blank, 2)?;`, then `desk.enter(rt, alloc, &mut shares[0], hold)` and
//! `desk.leave(rt, &mut shares[0], serial)`, each share on one thread. Out: `desk.gather(shares)`. Easy to get wrong: `L` names one
//! desk, so a function that opens one is generic in `L`, takes no `&str`, and is called with `std::marker::Brand` (`worked_workers`).
#![tactic(auto)]

mod book;
mod desk;
mod faults;
mod holds;
mod locked;
mod shares;

pub use book::{Book, LimitedBook};
pub use desk::{Left, LeftAt, SlotDesk, Total};
pub use faults::DeskFault;
pub use holds::Hold;
pub use shares::Share;
