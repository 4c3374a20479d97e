//! Why a task instance is where it is, and what it waits for.
//!
//! [`explain`] answers the question that users of a scheduler ask most: every reason that holds, in the order of [`Reason`], and no other.
//! In a settled schedule a task instance that waits has at least one (`who_waits_has_a_reason`).
//!
//! ```text
//! let reasons = explain(alloc, &schedule, &graph, logical, &task)?;   // [Reason::Pool { pool, needs: 2, free: 0 }]
//! ```
#![tactic(auto)]

mod explaining;
mod graph_reasons;
mod handout_reasons;
mod laws;
mod reasons;
mod subjects;

pub use explaining::explain;
pub use laws::{each_instance_has_a_reason, who_waits_has_a_reason};
pub use reasons::{ExplainFault, Reason};
