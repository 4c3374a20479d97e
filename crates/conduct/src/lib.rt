//! The conductor: it runs workers on threads of their own, and a session on this one, until the lines are over and no try is in flight.
//!
//! What a run promises, in every interleaving of the threads, is the contract of [`conduct`], which stands word by word in `specs/Run.antt`: the
//! schedule and its record are those of the minutes; the lines were told their events with the answers; each try that was handed out stands in the
//! log of one worker, once; what a worker reported is in the minutes as it told it, and nothing else; each log is an account of what the worker's
//! kit did; and at the desk nothing is left.
//!
//! In: `conduct(rt, alloc, director, 4, crews, &mut lines, &mut clock, keep)`. Out: the director, the minutes, the ends of the crews, and what the
//! desk held or why the run ended otherwise. Easy to get wrong: with a fault the minutes, the record and the logs are right too, but where no
//! event was stepped there may be no ends.
#![tactic(auto)]

mod closing;
mod conducting;
mod equipment;
mod serving;
mod threads;

pub use conducting::{Conducted, conduct};
pub use kept::{Keep, Kept};
pub use sessions::{Clock, ClockFault, ConductFault, Director, Fault, Limits, Schedule, Store};
