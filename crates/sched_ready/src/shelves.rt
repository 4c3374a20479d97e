//! What is ready of one graph, by place.
ghost use Rattle.std.specs.Prelude.{◌≡◌, ℕ, ◌<◌, false, length, slice_get, slice_set, Some, IfOk};
ghost use Rattle.sched_ready.specs.Patching.{AreAhead};
ghost use Rattle.sched_ready.specs.Shelves.{AreEmpty, HasKinds, IsLed, IsLedBy, IsSoonest};

use crate::leading::{First, Loose, lead_from, least_of, lowered, lowered_to};
use crate::queues::Queue;
use moment_core::Moment;
use std::alloc::{AllocError, Global};
use std::marker::Model;
use std::mem;

/// What is ready of one graph: a queue for each of its tasks, and of each kind of task a bound of what is ready.
///
/// Contracts see the weights, the kinds, the samples and the queues.
#[derive(Drop)]
pub struct Shelf {
    // By place.
    weights: Vec<u64>,
    kinds: Vec<usize>,
    queues: Vec<Queue>,
    // By kind: a place of it, and what no ready date of it ranks before.
    samples: Vec<usize>,
    firsts: Vec<Option<First>>,
    // No moment that waits is before it.
    soonest: Option<u64>,
    // No one of `firsts` ranks before it.
    least: Option<First>,
    // Which of these bounds may be too early.
    loose: Loose,
}

impl Model for Shelf {
    ghost use Rattle.sched_ready.specs.Shelves.{ShelfValue};

    ghost Value = { ShelfValue };

    ghost use Rattle.sched_ready.specs.Shelves.{Leads, shelf_value};

    ghost view = { λ s. shelf_value s.weights.items s.kinds.items s.samples.items s.queues.items };

    ghost invariant = { λ s. Leads (shelf_value s.weights.items s.kinds.items s.samples.items s.queues.items) s.firsts.items s.soonest s.least };
}

// The kinds of the tasks of a graph: the kind of each place, and of each kind a place of it.
#[derive(Drop)]
pub struct Kinds {
    pub kinds: Vec<usize>,
    pub samples: Vec<usize>,
}

impl Shelf {
    // A shelf with these weights and kinds, on which nothing stands.
    pub(crate) fn empty(alloc: Global, weights: Vec<u64>, kinds: Kinds) -> Result<Shelf, AllocError>
        requires weights { length weights.items ≡ length kinds.kinds.items }
        requires kinds { (n k : ℕ) → slice_get kinds.kinds.items n ≡ Some k → k < length kinds.samples.items }
        ensures weights { IfOk result (λ s. s.weights ≡ weights.items) }
        ensures kinds { IfOk result (λ s. s.kinds ≡ kinds.kinds.items) }
        ensures samples { IfOk result (λ s. s.samples ≡ kinds.samples.items) }
        ensures long { IfOk result (λ s. length s.queues ≡ length weights.items) }
        ensures empty { IfOk result (λ s. AreEmpty s.queues) }
    {
        let queues = empty_queues(alloc, weights.len())?;
        let Kinds { kinds, samples } = kinds;
        let firsts = no_firsts(alloc, samples.len())?;
        let least = least_of(&firsts);
        Ok(Shelf {
            weights,
            kinds,
            queues,
            samples,
            firsts,
            soonest: None,
            least,
            loose: Loose::Nothing,
        })
    }

    /// A queue is put in the place of another. No more than this is looked at.
    pub fn put(&mut self, place: usize, queue: Queue)
        requires { place < length self.old.queues }
        ensures { self.new ≡ record self.old { queues = slice_set self.old.queues place queue } }
    {
        let kind = self.kinds[place];
        let weight = self.weights[place];
        self.firsts[kind] = lowered(self.firsts[kind], weight, queue.ready.get(0));
        self.least = lowered(self.least, weight, queue.ready.get(0));
        self.soonest = lowered_to(self.soonest, queue.waiting.get(0));
        let _ = mem::replace(&mut self.queues[place], queue);
        let loose = self.loose;
        self.loose = loose.with(kind, place);
    }

    /// The bounds are made exact. It goes over all places, unless queues of one kind of task alone were put, and its bound is met.
    pub fn lead(&mut self)
        ensures { self.new ≡ self.old }
    {
        let soonest = self.soonest;
        let loose = self.loose;
        self.soonest = lead_from(
            &self.weights,
            &self.kinds,
            &self.queues,
            &mut self.firsts,
            soonest,
            loose,
        );
        self.least = least_of(&self.firsts);
        self.loose = Loose::Nothing;
    }

    /// What no ready date of the kind ranks before.
    pub fn first(&self, kind: usize) -> Option<First>
        requires { kind < length self.now.samples }
        ensures { IsLedBy self.now kind result }
    {
        self.firsts[kind]
    }

    /// What no ready date ranks before.
    pub fn least(&self) -> Option<First>
        ensures { IsLed self.now result }
    {
        self.least
    }

    /// What no moment that waits is before.
    pub fn soonest(&self) -> Option<u64>
        ensures { IsSoonest self.now result }
    {
        self.soonest
    }

    /// Whether a moment may have come for which a date waits.
    pub fn has_come(&self, now: u64) -> bool
        ensures { result ≡ false → AreAhead now self.now.queues }
    {
        match self.soonest {
            None => false,
            Some(moment) => moment <= now,
        }
    }

    /// How many places there are.
    pub fn len(&self) -> usize
        ensures { result ≡ length self.now.queues }
    {
        self.queues.len()
    }

    /// How many kinds there are.
    pub fn kind_count(&self) -> usize
        ensures count { result ≡ length self.now.samples }
        ensures within { HasKinds self.now }
    {
        self.samples.len()
    }

    /// The weights, by place.
    pub fn weights(&self) -> &[u64]
        ensures { result.now ≡ self.now.weights }
    {
        self.weights.as_slice()
    }

    /// The kind of a place.
    pub fn kind(&self, place: usize) -> usize
        requires { place < length self.now.queues }
        ensures { slice_get self.now.kinds place ≡ Some result }
    {
        self.kinds[place]
    }

    /// A place of a kind.
    pub fn sample(&self, kind: usize) -> usize
        requires { kind < length self.now.samples }
        ensures { slice_get self.now.samples kind ≡ Some result }
    {
        self.samples[kind]
    }

    /// The queue of a place.
    pub fn queue(&self, place: usize) -> &Queue
        requires { place < length self.now.queues }
        ensures { slice_get self.now.queues place ≡ Some result.now }
    {
        &self.queues[place]
    }
}

// So many queues in which nothing stands.
fn empty_queues(alloc: Global, places: usize) -> Result<Vec<Queue>, AllocError>
    ensures long { IfOk result (λ queues. length queues.items ≡ places) }
    ensures empty { IfOk result (λ queues. AreEmpty queues.items) }
{
    let mut queues = Vec::with_capacity(alloc, places)?;
    for _place in 0..places {
        queues.push(Queue::new(alloc))?;
    }
    Ok(queues)
}

// No bound for each of so many kinds.
fn no_firsts(alloc: Global, kinds: usize) -> Result<Vec<Option<First>>, AllocError>
    ensures { IfOk result (λ firsts. length firsts.items ≡ kinds) }
{
    let mut firsts = Vec::with_capacity(alloc, kinds)?;
    for _kind in 0..kinds {
        firsts.push(None)?;
    }
    Ok(firsts)
}
