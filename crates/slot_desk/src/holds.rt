//! What a try holds while it runs.
ghost use Rattle.std.specs.Prelude.{◌≡◌, ◌↔◌, IfOk, IsTrue};

use graph_file::{Bounded, Name};
use std::alloc::{AllocError, Global};

/// Slots of a pool that a try holds.
#[derive(Debug, Drop)]
pub struct Hold {
    /// The number of the try among all that were handed out.
    pub serial: u64,
    /// The pool from which it takes its slots (Airflow 2, "Pools").
    pub pool: Name,
    /// How many slots it takes.
    pub slots: Bounded<1, 1_000>,
}

impl Hold {
    /// An equal hold.
    pub fn copy(&self, alloc: Global) -> Result<Hold, AllocError>
        ensures { IfOk result (λ hold. hold ≡ self.now) }
    {
        let pool = self.pool.copy(alloc)?;
        Ok(Hold {
            serial: self.serial,
            pool,
            slots: self.slots,
        })
    }

    /// Whether the other is an equal hold.
    pub fn is_equal(&self, other: &Hold) -> bool
        ensures { IsTrue result ↔ self.now ≡ other.now }
    {
        self.serial == other.serial
            && self.slots.get() == other.slots.get()
            && self.pool.as_str() == other.pool.as_str()
    }
}
