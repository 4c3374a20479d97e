//! Trigger rules: what a task does by the states of its upstreams (Airflow 2, "DAGs": trigger rules).
//!
//! The rules' names are Airflow's. What each makes of the upstreams' states is the table in `specs/Rules.antt`; where Airflow's
//! page leaves a case open the table is this project's own. [`verdict_of`] reads it off the counts of the states, which [`Counts`]
//! keeps, and no call takes memory.
//!
//! ```text
//! let mut counts = Counts::new();
//! counts.add(State::Success);
//! counts.add(State::Running);
//! verdict_of(Rule::AllSuccess, &counts)     // Verdict::Wait
//! ```
#![tactic(auto)]

mod counts;
mod laws;
mod states;
mod verdicts;

pub use counts::Counts;
pub use laws::a_verdict_stands;
pub use states::State;
pub use verdicts::{Verdict, verdict_of};
