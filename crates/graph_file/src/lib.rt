//! Graph files: the form in which a graph of tasks is read, refused and stated.
//!
//! [`read_graph`] gives the [`GraphSpec`] of a text in TOML, or the first [`GraphFault`] that stands in it. The table of
//! keys in `keys.rt` says what a file may have; each class of faults is one test over its rows. Easy to get wrong: the
//! first *class* is answered wherever it stands in the file, and only within a class does the first place count.
//!
//! ```text
//! dag_id = "one"
//! schedule = "@daily"
//! start_date = "2024-02-28"
//! [[task]]
//! task_id = "t"
//! operator = "noop"
//! ```
#![tactic(auto)]

mod actions;
mod arguments;
mod bounded;
mod building;
mod classes;
mod faults;
mod finding;
mod graph_specs;
mod keys;
mod mistakes;
mod names;
mod operators;
mod reading;
mod rules;
mod schedules;
mod sequences;
mod tables;
mod task_lists;
mod task_specs;
mod words;

pub use actions::{Action, Argument};
pub use bounded::Bounded;
pub use faults::{GraphFault, Place};
pub use graph_specs::GraphSpec;
pub use keys::{Absent, DEFAULT_POOL, Key, Kind, Role, Row, TASK_KEYS, TOP_KEYS};
pub use mistakes::{faulty_key, unknown_name};
pub use names::{Name, NameFault, is_name};
pub use operators::{Operator, read_status};
pub use reading::{TEXT_LIMIT, read_graph};
pub use rules::{Rule, WeightRule};
pub use sequences::Sequence;
pub use task_lists::Tasks;
pub use task_specs::TaskSpec;
pub use words::words_are_read;
