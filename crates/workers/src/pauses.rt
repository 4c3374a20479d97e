//! Pauses of a thread that has to ask again.
use std::sync::Wait;
use std::sync::atomic::AtomicU64;
use std::thread;
use std::time::Duration;

// how often the processor is only left to others, before the pauses have a length
const SHORT_PAUSES: u32 = 16;
// how often the length of the pauses is doubled
const DOUBLINGS: u32 = 12;

/// Pauses that grow: at first the processor is left to others, then the thread sleeps, from a microsecond up to four milliseconds.
#[derive(Drop)]
pub struct Pause {
    pauses: u32,
    // nobody else has it, so nobody ends the sleep
    word: AtomicU64,
}

impl Pause {
    /// The next pause is the shortest.
    pub fn new() -> Pause {
        Pause {
            pauses: 0,
            word: AtomicU64::new(0),
        }
    }

    /// Pauses, and makes the next pause longer.
    pub fn wait<R: Wait>(&mut self, rt: &R) {
        if self.pauses < SHORT_PAUSES {
            thread::yield_now();
        } else {
            let doublings = (self.pauses - SHORT_PAUSES).min(DOUBLINGS);
            self.word
                .park_timeout(rt, 0, Duration::from_micros(1 << doublings));
        }
        self.pauses = self.pauses.saturating_add(1);
    }
}
