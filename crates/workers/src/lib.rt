//! Workers: each takes jobs from the queue on a thread of its own, performs them with a kit of its own, and tells how they began and ended, until it
//! gets a stop. The threads are started and joined, and what all did is counted.
//!
//! The steps of a job, in this order and in no other: there is room for it in the log; the start is told; its slots are entered at the desk; the gate
//! is asked before; the operator of its kind begins, performs and finishes it; the gate is asked after; the slots are left; the end is told.
//! What is refused for a while (memory, a place at the desk, room in the queue of reports) is asked again, with pauses.
//!
//! In: `start_all(scope, rt, alloc, &lanes, &desk, &mut handles, passes, shares, crews)`, then a job or a stop by `Lanes::wait_to_send`, and
//! `join_all`. Out: `account(rt, lanes, desk, director, results, room)`, with the ends of the crews in their order, each with its log, and, where nothing
//! is left in a queue, what the desk held: then each item that was sent stands in one of the logs, what was heard of each worker is what its log says, and
//! the desk held what the shares hold.
//!
//! The log says what the kit did (`IsAccount`), what was told (`reports_of`) and which jobs were taken (`jobs_of`). Easy to get wrong: a job that could
//! not be begun is told as failed too, and stands in the log with `begun` false; a scope ends only when all its threads do, so each thread that was
//! started gets a stop, also where another was refused; and the room for what comes back is made before the first thread starts (`ResultRoom`), so that
//! nothing is lost for want of memory.
#![tactic(auto)]

mod accounting;
mod asking;
mod crews;
mod laws;
mod logs;
mod pauses;
mod results;
mod steps;
mod threads;
mod trying;
mod working;

pub use accounting::{Accounted, account};
pub use crews::{Crew, EndAt, Gate, OpenGate, WorkerEnd};
pub use laws::reports_belong_to_one_log;
pub use logs::Logged;
pub use results::ResultRoom;
pub use threads::{Handle, Worked, Works, join_all, start_all};
pub use working::work;
