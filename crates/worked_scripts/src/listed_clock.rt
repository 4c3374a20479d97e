//! A clock that gives the moments of a list.
ghost use Rattle.std.specs.Prelude.{◌≡◌, []};

use moment_core::Moment;
use sessions::{Clock, ClockFault, Schedule};
use std::alloc::Global;

/// A clock that gives what stands in a list, in its order, and keeps what it gave. Behind the last there is no clock.
#[derive(Drop)]
pub(crate) struct ListedClock {
    // The next one last.
    left: Vec<Result<Moment, ClockFault>>,
    given: Vec<Moment>,
}

impl ListedClock {
    ghost use Rattle.worked_scripts.specs.Clocks.{given_of};

    /// A clock that gives what stands in the list.
    pub fn new(alloc: Global, moments: Vec<Result<Moment, ClockFault>>) -> ListedClock
        ensures { given_of result ≡ [] }
    {
        let mut left = moments;
        left.reverse();
        ListedClock {
            left,
            given: Vec::new(alloc),
        }
    }

    /// The moments that it gave.
    pub fn given(&self) -> &[Moment]
        ensures { result.now ≡ given_of self.now }
    {
        self.given.as_slice()
    }
}

impl Clock for ListedClock {
    ghost use Rattle.worked_scripts.specs.Clocks.{Gives, gives_none};

    ghost gives = { Gives };

    ghost begins = { gives_none };

    fn now(&mut self, _schedule: &Schedule) -> Result<Moment, ClockFault> {
        if self.given.reserve(1).is_err() {
            return Err(ClockFault::Memory);
        }
        match self.left.pop() {
            Some(Ok(moment)) => {
                self.given.push_reserved(moment);
                Ok(moment)
            }
            Some(Err(fault)) => Err(fault),
            None => Err(ClockFault::NoClock),
        }
    }
}
