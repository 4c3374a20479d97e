//! A director whose tries are counted, and the events that it accepted.
ghost use Rattle.std.specs.Prelude.{◌≡◌, ◌<◌, ◌++◌, ◌∷◌, [], List, length, IfOk};
ghost use Rattle.sqlite.specs.Held.{state};
ghost use Rattle.director.specs.Written.{came_of};
ghost use Rattle.director.specs.declared.faults.Fault.{Fault as FaultValue};
ghost use Rattle.sessions.specs.History.{AreTries};
ghost use Rattle.sessions.specs.Runs.{IsTried};

use director::{Director, Fault, Schedule, Written};
use kept::{Keep, Kept};
use sched_events::Event;
use sqlite::Alter;
use std::alloc::Global;

/// A director, the events that it accepted, and how often one was tried. Nothing else has the director.
#[derive(Drop)]
pub struct Stepper<S: Alter> {
    director: Director<S>,
    minutes: Kept<Event>,
    tries: u64,
}

impl<S: Alter> Stepper<S> {
    /// One that has tried nothing yet. `keep` says whether the events that it accepts are kept.
    pub(crate) fn new(alloc: Global, director: Director<S>, keep: Keep) -> Stepper<S>
        ensures director { result.director ≡ director }
        ensures minutes { result.minutes.items ≡ [] }
        ensures keep { result.minutes.keep ≡ keep }
        ensures tries { result.tries ≡ 0 }
    {
        Stepper {
            director,
            minutes: Kept::new(alloc, keep),
            tries: 0,
        }
    }

    /// The schedule.
    pub(crate) fn schedule(&self) -> &Schedule
        ensures { result.now ≡ self.now.director.schedule }
    {
        self.director.schedule()
    }

    /// Tries an event once: it is written, once there is room for it in the minutes, where it is not put yet.
    pub(crate) fn try_step(&mut self, alloc: Global, event: &Event) -> Result<Written<S>, Fault>
        ensures tried { IsTried (state S.Store) event.now 0 self.old (came_of result) self.new }
        ensures of { IfOk result (λ w. (w.event ≡ event.now)
            × (w.before ≡ self.old.director.schedule.content)) }
    {
        self.tries = self.tries.saturating_add(1);
        if self.minutes.reserve().is_err() {
            return Err(Fault::Memory);
        }
        self.director.write(alloc, event)
    }

    /// Tries an event of the run's own: where the store or want of memory stands against it, again, three times in all.
    pub(crate) fn try_thrice(&mut self, alloc: Global, event: &Event) -> Result<Written<S>, Fault>
        ensures { (before : List FaultValue) × AreTries before (came_of result)
            × IsTried (state S.Store) event.now (length before) self.old (came_of result) self.new }
    {
        for _ in 0..2u32 {
            match self.try_step(alloc, event) {
                Ok(written) => return Ok(written),
                Err(fault) => match fault {
                    Fault::Refused(refusal) => return Err(Fault::Refused(refusal)),
                    _ => {}
                },
            }
        }
        let last = self.try_step(alloc, event);
        last
    }

    /// Puts an event that is written into the minutes.
    pub(crate) fn put(&mut self, event: Event)
        requires room { 0 < self.old.minutes.room }
        ensures minutes { self.new.minutes.items ≡ self.old.minutes.items ++ event ∷ [] }
        ensures keep { self.new.minutes.keep ≡ self.old.minutes.keep }
        ensures director { self.new.director ≡ self.old.director }
        ensures tries { self.new.tries ≡ self.old.tries }
    {
        self.minutes.put(event);
    }

    /// The director, and the events that it accepted.
    pub(crate) fn into_parts(self) -> (Director<S>, Kept<Event>)
        ensures director { result.0 ≡ self.director }
        ensures minutes { result.1 ≡ self.minutes }
    {
        let Stepper {
            director,
            minutes,
            tries: _,
        } = self;
        (director, minutes)
    }
}
