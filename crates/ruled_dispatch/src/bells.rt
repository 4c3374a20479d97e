//! Bells: a thread sleeps until another has put something into a queue.
//!
//! Who waits reads how often the bell was rung, looks into the queue, and sleeps only while the bell was not rung since. So nothing that was
//! put in before a ring is slept over. A sleep may also end for no reason, and then the queue is looked into once more.
use std::sync::Wait;
use std::sync::atomic::{AtomicU64, Ordering};

/// A count of rings, which one thread at a time is woken by.
#[derive(Drop)]
pub(crate) struct Bell {
    rings: AtomicU64,
}

impl Bell {
    /// A bell that was not rung yet.
    pub fn new() -> Bell {
        Bell {
            rings: AtomicU64::new(0),
        }
    }

    /// How often it was rung, without the multiples of 2^32.
    pub fn rings(&self) -> u32 {
        (self.rings.load(Ordering::SeqCst) % 0x1_0000_0000) as u32
    }

    /// Rings it, and wakes one of those that sleep.
    pub fn ring(&self) {
        self.rings.fetch_add(1, Ordering::SeqCst);
        self.rings.wake_one();
    }

    /// Sleeps while it was rung just so often, until a ring.
    pub fn sleep<R: Wait>(&self, rt: &R, rings: u32) {
        self.rings.park(rt, rings);
    }
}
