//! A list that grows, of which who makes it says whether its values are kept.
//!
//! In: [`Kept::new`], with [`Keep::All`] or [`Keep::Nothing`], then [`Kept::reserve`] and [`Kept::put`] for each item. Out: [`Kept::into_values`], all values or none.
//! Contracts see all items that were put, also where none is kept.
//!
//! Easy to get wrong: room for an item is made before, also where nothing is kept, since the list that contracts see takes no memory, but asks for it.
#![tactic(auto)]

mod lists;

pub use lists::{Keep, Kept};
