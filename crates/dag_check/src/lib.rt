//! Graphs that are checked: what was read from a file becomes a [`Graph`], or is handed back with its first [`DagFault`].
//!
//! [`check`] gives each task of a file its place, an order in which each task stands after its upstreams. Names become
//! positions once (`positions.rt`); all that is hard is about positions alone: an order (`orders.rt`), or a cycle where there
//! is none (`cycles.rt`). Easy to get wrong: the tasks of a [`Graph`] stand by place and not as in the file, and a place's
//! upstreams are in the order of the file while its downstreams rise.
//!
//! ```text
//! match check(rt.alloc(), spec) {                         // a before b and c, both before d
//!     Ok(graph) => graph.downstreams(0),                  // [1, 2]
//!     Err((spec, DagFault::Cycle(names))) => ..,          // ["a", "b", "c"]: a before b before c before a
//!     Err((spec, fault)) => ..,
//! }
//! ```
#![tactic(auto)]

mod cycles;
mod faults;
mod graphs;
mod laws;
mod layouts;
mod orders;
mod positions;
mod reaching;

pub use faults::DagFault;
pub use graphs::{Direction, Graph, check};
pub use laws::{
    a_cycle_refutes_every_numbering, a_file_has_one_answer, a_graph_is_acyclic,
    a_place_reaches_one_set, a_placement_is_acyclic, a_placement_is_one,
};
