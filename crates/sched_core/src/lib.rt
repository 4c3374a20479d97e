//! The core of the scheduler: an event is refused, or planned, reserved and committed.
//!
//! In comes an event: `let answer = schedule.step(alloc, &Event::Tick(moment))?;`. Out comes its answer, with the runs made and the tries
//! handed out, or a refusal, which changes nothing. What the schedule holds is shown by `runs`, `instances`, `pools` and the other views.
//! A schedule is made by `Schedule::new`, or of the rows of a record by `Schedule::restore`.
//!
//! What events, answers and rows are made of is offered here too, for programs that stand on this crate alone.
#![tactic(auto)]

mod backfilling;
mod changed_rows;
mod changes;
mod clearing;
mod counting;
mod dates;
mod default_pools;
mod finding;
mod graph_texts;
mod loading;
mod lookups;
mod losing;
mod marking;
mod ordering;
mod pausing;
mod planning;
mod pool_rows;
mod replacing;
mod restoring;
mod rows;
mod schedules;
mod triggering;
mod views;

pub use changes::Change;
pub use default_pools::DEFAULT_POOL_SLOTS;
pub use graph_file::Name;
pub use instance_machine::{Instance, Outcome, Stage, Try};
pub use moment_core::Moment;
pub use pool_book::Slots;
pub use pool_rows::PoolRows;
pub use record_restoring::{KeyedRows, RestoreFault};
pub use record_writing::rows_of_an_event_are_put;
pub use rows::Instances;
pub use run_lists::RunRows;
pub use sched_events::{Answer, Event, InstanceRow, PoolRow, Refusal, RunId, State};
pub use sched_state::{Clearing, GraphText, Job, Limits, LoadedGraph, Run, RunKind, RunPhase};
pub use schedules::Schedule;
