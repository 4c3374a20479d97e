//! Rows of searches, each from the tick that the one before it found.
ghost use Rattle.std.specs.Prelude.{◌≤◌};

use cron_timetable::Cron;
use moment_core::{END, Moment};

/// Which way the searches go.
#[derive(Clone, Copy)]
pub(crate) enum Direction {
    Forwards,
    Backwards,
}

impl Direction {
    /// The word for it.
    pub fn name(self) -> &'static str {
        match self {
            Direction::Forwards => "forwards",
            Direction::Backwards => "backwards",
        }
    }

    // The end of the range at which a row begins.
    fn start(self) -> Moment {
        match self {
            Direction::Forwards => Moment::at(0),
            Direction::Backwards => Moment::at(END - 1),
        }
    }

    // The tick next to a moment.
    fn search(self, cron: &Cron, from: Moment) -> Option<Moment> {
        match self {
            Direction::Forwards => cron.next_after(from),
            Direction::Backwards => cron.last_before(from),
        }
    }
}

/// What a row of searches found. Where no tick is left the row goes on at its first moment.
#[derive(Clone, Copy)]
pub(crate) struct Row {
    /// How many searches found a tick.
    pub ticks: u64,
    /// The last tick, or the first moment where the last search found none.
    pub last: Moment,
}

impl Row {
    /// The row of this many searches.
    pub fn of(cron: &Cron, direction: Direction, searches: u64) -> Row
        ensures { result.ticks ≤ searches }
    {
        let mut ticks = 0;
        let mut last = direction.start();
        for _search in 0..searches {
            if let Some(tick) = direction.search(cron, last) {
                ticks += 1;
                last = tick;
            } else {
                last = direction.start();
            }
        }
        Row { ticks, last }
    }
}
