//! What stops left, counted.
use crate::states::Held;

/// What the stops of a step left, in two readings.
#[derive(Clone, Copy)]
pub(crate) struct Left {
    /// Of the files as they were written.
    pub written: Tally,
    /// Of the files without what was not synced.
    pub crashed: Tally,
}

impl Left {
    /// Of no stop.
    pub fn none() -> Left {
        Left {
            written: Tally::none(),
            crashed: Tally::none(),
        }
    }
}

/// How often a stop left what was before its step, what is after it, and anything else.
#[derive(Clone, Copy)]
pub(crate) struct Tally {
    pub before: u64,
    pub after: u64,
    pub other: u64,
}

impl Tally {
    fn none() -> Tally {
        Tally {
            before: 0,
            after: 0,
            other: 0,
        }
    }

    /// Counts a stop that left this.
    pub fn count(&mut self, left: &Held, before: &Held, after: &Held) {
        if left == before {
            self.before = self.before.saturating_add(1);
        } else if left == after {
            self.after = self.after.saturating_add(1);
        } else {
            self.other = self.other.saturating_add(1);
        }
    }

    /// Which of the two were left.
    pub fn kinds(&self) -> &'static str {
        match (self.before > 0, self.after > 0) {
            (false, false) => "neither",
            (true, false) => "the schedule before",
            (false, true) => "the schedule after",
            (true, true) => "the schedule before or after",
        }
    }
}
