//! The clock of the worked scripts.
use crate::listed_clock::ListedClock;
use moment_core::Moment;
use sessions::ClockFault;
use std::alloc::{AllocError, Global};

/// A clock that gives 2024-01-02, 2024-01-03 and 2024-01-01, then a moment past 2199, and then none.
pub(crate) fn worked_clock(alloc: Global) -> Result<ListedClock, AllocError> {
    let mut moments = Vec::new(alloc);
    for date in ["2024-01-02", "2024-01-03", "2024-01-01", "2200-01-01"] {
        moments.push(Moment::read(date).map_err(|_| ClockFault::OutOfRange))?;
    }
    Ok(ListedClock::new(alloc, moments))
}
