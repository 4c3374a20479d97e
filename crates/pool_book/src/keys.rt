//! Keys: task instances that could be handed out, and their rank.
ghost use Rattle.std.specs.Prelude.{◌≡◌, IfOk};
ghost use Rattle.pool_book.specs.Keys.{parts_of, rank, same_instance, same_key, fits};

use crate::{Pools, Rank, Rooms, Slots};
use graph_file::Name;
use moment_core::Moment;
use std::alloc::{AllocError, Global};
use std::cmp::Ordering;

/// A task instance that could be handed out.
#[derive(Debug, Drop)]
pub struct Key {
    /// Its effective weight.
    pub weight: u64,
    /// The logical date of its run.
    pub logical: Moment,
    /// The name of its graph.
    pub graph: Name,
    /// The name of its task.
    pub task: Name,
    /// The pool whose slots it takes.
    pub pool: Name,
    /// How many of them.
    pub slots: Slots,
    /// The number of its graph in [`Rooms`].
    pub room: usize,
}

impl Key {
    /// The same key once more.
    pub fn copy(&self, alloc: Global) -> Result<Key, AllocError>
        ensures { IfOk result (λ key. key ≡ self.now) }
    {
        Ok(Key {
            weight: self.weight,
            logical: self.logical,
            graph: self.graph.copy(alloc)?,
            task: self.task.copy(alloc)?,
            pool: self.pool.copy(alloc)?,
            slots: self.slots,
            room: self.room,
        })
    }

    // What it ranks by.
    fn parts(&self) -> Rank<'_>
        ensures { result ≡ parts_of self.now }
    {
        Rank {
            weight: self.weight,
            logical: self.logical,
            graph: &self.graph,
            task: &self.task,
        }
    }

    // Where it ranks against another.
    pub(crate) fn rank(&self, other: &Key) -> Ordering
        ensures { result ≡ rank self.now other.now }
    {
        self.parts().compare(&other.parts())
    }

    // Whether it is of the same task instance.
    pub(crate) fn is_same_instance(&self, other: &Key) -> bool
        ensures { result ≡ same_instance self.now other.now }
    {
        self.logical == other.logical && self.graph == other.graph && self.task == other.task
    }

    // Whether it is the same in all its parts.
    pub(crate) fn is(&self, other: &Key) -> bool
        ensures { result ≡ same_key self.now other.now }
    {
        self.weight == other.weight
            && self.is_same_instance(other)
            && self.pool == other.pool
            && self.slots == other.slots
            && self.room == other.room
    }

    // Whether its slots are open in its pool, and its graph has room. Where there is no such pool, they aren't.
    pub(crate) fn fits(&self, pools: &Pools, rooms: &Rooms) -> bool
        ensures { result ≡ fits pools.now.pools rooms.now self.now }
    {
        pools.fits(&self.pool, self.slots) && rooms.has_room(self.room)
    }
}
