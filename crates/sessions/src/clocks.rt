//! Where the moments come from at which `tick now` ticks.
ghost use Rattle.std.specs.Prelude.{List, ◌++◌, ◌∷◌, []};
ghost use Rattle.sessions.specs.Readings.{Reading};
ghost use Rattle.sched_model.specs.Schedule.{Schedule as ScheduleContent};

use director::Schedule;
use moment_core::Moment;
use thiserror::Error;

/// Why a clock gives no moment.
#[derive(Clone, Copy, Debug, PartialEq, Eq, Error)]
pub enum ClockFault {
    /// The system has no clock, or it cannot be read.
    #[error("there is no clock")]
    NoClock,
    /// It is before 1970 or after 2199.
    #[error("the clock is out of range")]
    OutOfRange,
    /// There was no memory.
    #[error("out of memory")]
    Memory,
}

/// A clock. What it gave is a relation between two of its states, so who implements it need not keep it.
pub trait Clock: Drop {
    /// From one state to another it gave these readings, in order, each at a schedule: moments, or why there was none.
    ghost gives: { Self → List (ScheduleContent × Reading) → Self → Type 0 };

    /// The moment that it is, while the schedule stands so.
    fn now(&mut self, schedule: &Schedule) -> Result<Moment, ClockFault>
        ensures { (c : Self) (given : List (ScheduleContent × Reading)) → gives c given self.old
            → gives c (given ++ (schedule.now.content, result) ∷ []) self.new };

    /// Where nothing is done, it gave none.
    ghost begins: { (c : Self) → gives c [] c };
}
