//! A list that grows.
ghost use Rattle.std.specs.Prelude.{◌≡◌, ◌<◌, ◌≤◌, ◌+◌, ◌++◌, ◌∷◌, [], OnErr, OnOk};
ghost use Rattle.kept.specs.Lists.{values_of};

use std::alloc::{AllocError, Global};
use std::marker::Model;
use std::snapshot::Snapshot;

/// Whether the values of a list are kept.
#[derive(Clone, Copy, Debug, PartialEq, Eq)]
pub enum Keep {
    /// All of them.
    All,
    /// None of them.
    Nothing,
}

/// A list that grows, of which all values are kept, or none. Contracts see all items that were put.
#[derive(Drop)]
pub struct Kept<T: Drop> {
    list: Items<T>,
}

// The items: their values, or what contracts see of them, which takes no memory.
#[derive(Drop)]
enum Items<T: Drop> {
    Values(Vec<T>),
    Seen(Vec<Snapshot<T>>),
}

impl<T: Drop> Model for Kept<T> {
    ghost use Rattle.kept.specs.Lists.{KeptValue};
    ghost use Rattle.kept.specs.Items.{items_in, room_in, keep_in};

    ghost Value = { KeptValue T };

    ghost view = { λ k. record { items = items_in k.list; room = room_in k.list; keep = keep_in k.list } };
}

impl<T: Drop> Kept<T> {
    /// A list without items. It takes no memory.
    pub fn new(alloc: Global, keep: Keep) -> Kept<T>
        ensures items { result.items ≡ [] }
        ensures keep { result.keep ≡ keep }
        ensures room { result.room ≡ 0 }
    {
        let list = match keep {
            Keep::All => Items::Values(Vec::new(alloc)),
            Keep::Nothing => Items::Seen(Vec::new(alloc)),
        };
        Kept { list }
    }

    /// Makes room for one more. It fails only where that room was missing, and never takes room away.
    pub fn reserve(&mut self) -> Result<(), AllocError>
        ensures items { self.new.items ≡ self.old.items }
        ensures keep { self.new.keep ≡ self.old.keep }
        ensures room { OnOk result (0 < self.new.room) }
        ensures full { OnErr result (self.old.room ≡ 0) }
        ensures more { self.old.room ≤ self.new.room }
    {
        match &mut self.list {
            Items::Values(values) => values.reserve(1),
            Items::Seen(seen) => seen.reserve(1),
        }
    }

    /// Puts one behind the others. It takes no memory.
    pub fn put(&mut self, item: T)
        requires { 0 < self.old.room }
        ensures items { self.new.items ≡ self.old.items ++ item ∷ [] }
        ensures keep { self.new.keep ≡ self.old.keep }
        ensures room { self.new.room + 1 ≡ self.old.room }
    {
        match &mut self.list {
            Items::Values(values) => values.push_reserved(item),
            Items::Seen(seen) => seen.push_reserved(Snapshot::of(&item)),
        }
    }

    /// The values that are kept: all, or none.
    pub fn into_values(self, alloc: Global) -> Vec<T>
        ensures { result.items ≡ values_of self }
    {
        match self.list {
            Items::Values(values) => values,
            Items::Seen(_) => Vec::new(alloc),
        }
    }
}
