//! The system's clock.
ghost use Rattle.std.specs.Prelude.{◌≡◌, ◌≤◌, ◌/◌, IfErr, IfOk};
ghost use Rattle.std.specs.Time.{system_time_nanos};
ghost use Rattle.std.specs.IoError.{error_kind};
ghost use Rattle.moment_core.specs.Moments.{seconds_end};
ghost use Rattle.conduct.specs.sessions.declared.clocks.ClockFault.TheVariants.{OutOfRange};
ghost use Rattle.script_runner.specs.SystemFaults.{clock_fault};

use conduct::{Clock, ClockFault, Schedule};
use moment_core::Moment;
use std::io::{self, ErrorKind};
use std::rt;
use std::time::SystemTime;

/// The system's clock, in whole seconds of UTC.
#[derive(Drop)]
pub struct SystemClock<R: rt::Clock + Drop> {
    rt: R,
}

impl<R: rt::Clock + Drop> SystemClock<R> {
    /// The clock of this runtime.
    pub fn new(rt: R) -> SystemClock<R> {
        SystemClock { rt }
    }
}

impl<R: rt::Clock + Drop> Clock for SystemClock<R> {
    ghost gives = { λ c given later. Unit {0} };

    ghost begins = { λ c. tt };

    fn now(&mut self, _schedule: &Schedule) -> Result<Moment, ClockFault> {
        match SystemTime::now(&self.rt) {
            Ok(now) => moment_of(now),
            Err(error) => Err(fault_of(&error)),
        }
    }
}

// The second in which a reading of the clock lies.
fn moment_of(now: SystemTime) -> Result<Moment, ClockFault>
    ensures moment { IfOk result (λ m. m ≡ system_time_nanos now / 1_000_000_000) }
    ensures fault { IfErr result (λ f. (f ≡ OutOfRange) × (seconds_end ≤ system_time_nanos now / 1_000_000_000)) }
{
    let Ok(since) = now.duration_since(SystemTime::UNIX_EPOCH) else {
        return Err(ClockFault::OutOfRange);
    };
    let Ok(seconds) = i64::try_from(since.as_secs()) else {
        return Err(ClockFault::OutOfRange);
    };
    Moment::from_secs(seconds).ok_or(ClockFault::OutOfRange)
}

// Why the clock gave no reading. A time before 1970, or past the end of the clock, is invalid data to the standard library.
fn fault_of(error: &io::Error) -> ClockFault
    ensures { result ≡ clock_fault (error_kind error.now) }
{
    match error.kind() {
        ErrorKind::OutOfMemory => ClockFault::Memory,
        ErrorKind::InvalidData => ClockFault::OutOfRange,
        _ => ClockFault::NoClock,
    }
}
