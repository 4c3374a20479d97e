//! Two parties that wait for one another: each raises its flag, and looks for the other's.
//!
//! Both can see the other's flag only where both run at once; one after the other, the first would look in vain.
use std::alloc::{AllocError, Global};
use std::sync::Arc;
use std::sync::atomic::{AtomicU64, Ordering};
use std::thread;

// how often a party looks
const TURNS: u32 = 10_000_000;

/// One of the two: its flag, the other's, and the count of those that saw the other's.
#[derive(Drop)]
pub(crate) struct Party {
    mine: Arc<AtomicU64, Global>,
    other: Arc<AtomicU64, Global>,
    seen: Arc<AtomicU64, Global>,
}

impl Party {
    /// Two parties, and the count.
    pub fn pair(alloc: Global) -> Result<(Party, Party, Arc<AtomicU64, Global>), AllocError> {
        let first = Arc::new(alloc, AtomicU64::new(0))?;
        let second = Arc::new(alloc, AtomicU64::new(0))?;
        let seen = Arc::new(alloc, AtomicU64::new(0))?;
        let one = Party {
            mine: Arc::try_clone(&first)?,
            other: Arc::try_clone(&second)?,
            seen: Arc::try_clone(&seen)?,
        };
        let two = Party {
            mine: second,
            other: first,
            seen: Arc::try_clone(&seen)?,
        };
        Ok((one, two, seen))
    }

    /// Raises the flag, and looks for the other's.
    pub fn meet(&self) {
        self.mine.store(1, Ordering::SeqCst);
        for _turn in 0..TURNS {
            if self.other.load(Ordering::SeqCst) == 1 {
                self.seen.fetch_add(1, Ordering::SeqCst);
                return;
            }
            thread::yield_now();
        }
    }
}
