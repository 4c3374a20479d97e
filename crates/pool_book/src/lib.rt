//! Pools of slots, and what is handed out next: the first in rank whose slots fit its pool (Airflow 2, "Pools" and
//! "Priority Weights").
//!
//! [`Pools`] counts for each pool how many of its slots are taken, and [`Ready`] keeps the task instances that could be handed
//! out, in the order of their rank; [`Rooms`] says which graphs may have one more try. Easy to get wrong: what doesn't fit is passed
//! over, so a light task may go before a heavy one; and a pool may be made smaller than what is taken of it, so its open slots may be
//! fewer than none.
//!
//! ```text
//! pools.resize(alloc, name, size)?;                 // a pool `p` of 3 slots
//! ready.offer(a);  ready.offer(b);  ready.offer(c); // of 2, 2 and 1 slots, weights 5, 4, 3
//! rooms.set(0, 0, 16);                              // their graph has no active try, and may have 16
//! ready.best_fitting(&pools, &rooms)                // a
//! pools.occupy(&p, two);  ready.withdraw(&a);
//! ready.best_fitting(&pools, &rooms)                // c: b needs 2 slots, and 1 is open
//! ```
//!
//! Hand-outs of the program go by [`Pools`], and not by [`Ready`] and [`Rooms`].
#![tactic(auto)]

mod keys;
mod laws;
mod pool_uses;
mod pools;
mod ranks;
mod ready;
mod rooms;
mod slots;

pub use keys::Key;
pub use laws::{
    an_offer_adds_one_key, one_pool_changes, pools_are_known_by_their_names,
    the_first_in_rank_is_one, what_fits_overdraws_no_pool, what_is_withdrawn_is_not_offered,
};
pub use pool_uses::Pool;
pub use pools::{PoolFault, Pools};
pub use ranks::Rank;
pub use ready::Ready;
pub use rooms::Rooms;
pub use slots::Slots;
