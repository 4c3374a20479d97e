//! The way from the rows of the record back to a schedule: which rows are those of one, and the first fault where they are not.
//!
//! In come the rows of the seven tables. [`KeyedRows`] holds rows of which it is known that they rise by key. Inside, each rule of the record has a
//! function of its own that goes through the rows of its table once and answers the first at fault; the graphs are read on the way
//! (`dags.rt`), and the tries are dealt to their instances (`buckets.rt`). Runs are made of rows that pass (`run_making.rt`), and one function
//! reads their columns for the rule and for the run (`run_columns.rt`). The book of pools is made of the rows of `pool` (`pool_making.rt`), and the tries without an end take their slots of it
//! (`occupying.rt`). What is found by key is found by a binary search.
//! Easy to get wrong: a row's number is its place by key from 0; a missing row has the number of rows that are there.
//!
//! ```text
//! let rows = KeyedRows::new(rows)?;                  // handed back where a table does not rise by its key
//! let parts = restore_parts(alloc, limits, &rows)?;  // `parts.graphs`, `parts.runs`, `parts.pools`, ..
//! ```
#![tactic(auto)]

mod attempt_rules;
mod buckets;
mod checking;
mod columns;
mod dags;
mod earlier;
mod end_rules;
mod faults;
mod finding;
mod instance_rules;
mod keyed;
mod laws;
mod limit_rules;
mod making;
mod metas;
mod numbers;
mod occupying;
mod orders;
mod parts;
mod pool_making;
mod pools;
mod restoring;
mod run_columns;
mod run_making;
mod run_rules;
mod try_rules;

pub use dags::is_within;
pub use faults::RestoreFault;
pub use keyed::KeyedRows;
pub use laws::taken_slots_are_counted;
pub use numbers::{OLD_BOUND, USUAL_BOUND};
pub use parts::ScheduleParts;
pub use restoring::restore_parts;
