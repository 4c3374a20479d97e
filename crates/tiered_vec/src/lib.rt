//! A list into which an item can be put anywhere without moving all that stand behind it.
//!
//! A [`TieredVec`] holds its items in tiers of one size, one behind the other. Where a full tier takes an item, its last one goes to the front
//! of the next tier. Room is made first, `list.reserve(1)?`, which may fail; `list.insert(place, item)` cannot.
#![tactic(auto)]

mod tier;
mod tiers;

pub use tiers::TieredVec;
