//! Of one task of a graph, what is ready and what waits.
ghost use Rattle.sched_ready.specs.Shelves.{IsEmpty};

use instance_machine::Dirty;
use moment_core::Moment;
use std::alloc::Global;

/// Of one task of a graph: the dates of the runs in which it is ready, and of those in which it waits for a moment, the moment first.
#[derive(Drop)]
pub struct Queue {
    pub ready: Dirty<Moment>,
    pub waiting: Dirty<(u64, Moment)>,
}

impl Queue {
    /// Nothing. This takes no memory.
    pub fn new(alloc: Global) -> Queue
        ensures { IsEmpty result }
    {
        Queue {
            ready: Dirty::new(alloc),
            waiting: Dirty::new(alloc),
        }
    }
}
