//! Effective weights: by how much a task goes before others, by its weight rule.
//!
//! A task's effective weight is its own weight, and by its rule the weights of all that come after it or before it too. Easy to
//! get wrong: a task that is reached by several ways counts once.
//!
//! ```text
//! effective(rt.alloc(), &graph)?   // a before b and c, both before d, weights 1: [4, 2, 2, 1]
//! ```
#![tactic(auto)]

mod laws;
mod weights;

pub use laws::a_place_has_one_weight;
pub use weights::effective;
