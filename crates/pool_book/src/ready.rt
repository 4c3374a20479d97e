//! What is ready to be handed out, in the order of its rank. No crate above uses this yet: hand-outs choose in
//! `sched_handout/src/fitting.rt`.
//!
//! Easy to get wrong: a key that is offered is withdrawn only by a key that is the same in all its parts.
ghost use Rattle.std.specs.Prelude.{◌≡◌, ◌+◌, ◌<◌, ◌≤◌, [], false, length, MatchOption, OnOk};
ghost use Rattle.pool_book.specs.Keys.{IsInRank, IsRankAt, IsFirstInRank, has_instance, with_key, without_key, fitting};

use crate::{Key, Pools, Rooms};
use std::alloc::{AllocError, Global};
use std::marker::Model;

/// The keys that are offered, in the order of their rank: the greater weight first, as on Airflow 2's page 'Priority Weights';
/// then the earlier logical date, the lesser name of the graph and the lesser name of the task, by bytes.
///
/// Contracts see the keys, and for how many more there is room. A key's place is found by binary search; what is offered or
/// withdrawn moves the keys behind it.
#[derive(Debug, Drop)]
pub struct Ready {
    keys: Vec<Key>,
}

impl Model for Ready {
    ghost use Rattle.std.specs.Prelude.{◌-◌, vec_len, vec_capacity};
    ghost use Rattle.pool_book.specs.Keys.{Offered, IsInRank};

    ghost Value = { Offered };

    ghost view = { λ r. record { keys = r.keys.items; room = vec_capacity r.keys - vec_len r.keys } };

    ghost invariant = { λ r. IsInRank r.keys.items };
}

impl Ready {
    /// Nothing is offered. This takes no memory.
    pub fn new(alloc: Global) -> Ready
        ensures { result.keys ≡ [] }
    {
        Ready {
            keys: Vec::new(alloc),
        }
    }

    /// Makes room for `n` keys more.
    pub fn reserve(&mut self, n: usize) -> Result<(), AllocError>
        ensures keys { self.new.keys ≡ self.old.keys }
        ensures room { OnOk result (n ≤ self.new.room) }
        ensures kept { self.old.room ≤ self.new.room }
    {
        self.keys.reserve(n)
    }

    /// Whether a key of the same task instance is offered. It goes through all keys.
    pub fn has_instance(&self, key: &Key) -> bool
        ensures { result ≡ has_instance key.now self.now.keys }
    {
        self.keys
            .iter()
            .any(|offered| key.is_same_instance(offered))
    }

    /// Offers a key, for which there is room, and of whose task instance no key is offered.
    pub fn offer(&mut self, key: Key)
        requires room { 0 < self.old.room }
        requires new { has_instance key self.old.keys ≡ false }
        ensures keys { self.new.keys ≡ with_key key self.old.keys }
        ensures room { self.new.room + 1 ≡ self.old.room }
    {
        // It is always an Err: a key of this rank would be of the same instance.
        let (Ok(at) | Err(at)) = search(&self.keys, &key);
        let _ = self.keys.insert(at, key);
    }

    /// Takes a key back. One that isn't offered changes nothing.
    pub fn withdraw(&mut self, key: &Key)
        ensures keys { self.new.keys ≡ without_key key.now self.old.keys }
        ensures room { length self.new.keys + self.new.room ≡ length self.old.keys + self.old.room }
    {
        if let Ok(at) = search(&self.keys, key) {
            if key.is(&self.keys[at]) {
                self.keys.remove(at);
            }
        }
    }

    /// The first in rank of the offered keys whose slots are open in their pool and whose graph has room. It goes through the keys
    /// that rank before.
    pub fn best_fitting(&self, pools: &Pools, rooms: &Rooms) -> Option<&Key>
        ensures best { let fit = fitting pools.now.pools rooms.now self.now.keys in
            MatchOption result (fit ≡ []) (λ key. IsFirstInRank fit key.now) }
        ensures in_rank { IsInRank self.now.keys }
    {
        for key in &self.keys {
            if key.fits(pools, rooms) {
                return Some(key);
            }
        }
        None
    }
}

// Where the key of this rank stands, or where it would stand.
fn search(keys: &[Key], key: &Key) -> Result<usize, usize>
    requires { IsInRank keys.now }
    ensures { IsRankAt keys.now key.now result }
{
    keys.binary_search_by(|offered| offered.rank(key))
}
