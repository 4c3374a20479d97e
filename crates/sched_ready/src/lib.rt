//! What is ready, kept between events: a hand-out looks at what stands first, and not at every task instance (Airflow 2, "Scheduler").
//!
//! Of each graph there is a `Shelf`: for each of its tasks a `Queue` of the dates of the running runs in which it may be handed out, and of
//! those that wait for a moment. More may stand in a queue than is due, never less: who hands out looks at the instance again. A bound for
//! each kind of task, which is its pool and its slots, says what none of its dates ranks before.
//!
//! An event leaves the shelves as they are while it is planned. What it changes are `Patch`es (`patches_of`), new queues of some places, made
//! from the touched runs alone; they are moved in when the event is done, which takes no memory (`put_all`). Shelves from nothing are made
//! by `shelves_of`.
#![tactic(auto)]

mod filling;
mod laws;
mod leading;
mod making;
mod patches;
mod patching;
mod places;
mod queues;
mod shelves;
mod weighing;

pub use laws::patched_shelves_are_of_what_follows;
pub use leading::First;
pub use making::{shelf_of, shelves_of};
pub use patches::{Patch, put_all};
pub use patching::patches_of;
pub use queues::Queue;
pub use shelves::Shelf;
pub use weighing::weigh_tasks;
