//! Which graphs have room for one more try (Airflow 2, the class `DAG`: `max_active_tasks`).
//! No crate above uses this: hand-outs go by `sched_handout/src/rooms.rt`.
ghost use Rattle.std.specs.Prelude.{◌≡◌, ◌<◌, ◌++◌, ◌-◌, [], false, nat_lt, length, replicate, slice_set, OnOk, OnErr};
ghost use Rattle.pool_book.specs.Rooms.{has_room};

use std::alloc::{AllocError, Global};
use std::marker::Model;

/// Of each number below a count: whether fewer tries of its graph are active than may be, as was last said of it.
#[derive(Debug, Drop)]
pub struct Rooms {
    open: Vec<bool>,
}

impl Model for Rooms {
    ghost use Rattle.std.specs.Prelude.{Bool, List};

    ghost Value = { List Bool };

    ghost view = { λ r. r.open.items };
}

impl Rooms {
    /// No number. This takes no memory.
    pub fn new(alloc: Global) -> Rooms
        ensures { result ≡ [] }
    {
        Rooms {
            open: Vec::new(alloc),
        }
    }

    /// Takes in the numbers below `n`. One of which nothing was said has no room.
    pub fn reserve(&mut self, n: usize) -> Result<(), AllocError>
        ensures ok { OnOk result (self.new ≡ self.old ++ replicate (n - length self.old) false) }
        ensures err { OnErr result (self.new ≡ self.old) }
    {
        let count = self.open.len().max(n);
        self.open.resize(count, false)
    }

    /// Says how many tries of a graph are active, and how many may be.
    pub fn set(&mut self, n: usize, active: u64, bound: u64)
        requires { n < length self.old }
        ensures { self.new ≡ slice_set self.old n (nat_lt active bound) }
    {
        self.open[n] = active < bound;
    }

    /// Whether fewer tries of a graph are active than may be. It is not so where nothing was said.
    pub fn has_room(&self, n: usize) -> bool
        ensures { result ≡ has_room self.now n }
    {
        self.open.get(n).copied().unwrap_or(false)
    }
}
