//! What a run holds.
ghost use Rattle.std.specs.Prelude.{◌≡◌, ◌++◌, [], false, replicate};
ghost use Rattle.ruled_dispatch.specs.Lanes.{heard_of, sent_of, IsDirectorOf};
ghost use Rattle.ruled_dispatch.specs.declared.items.JobOrStop.TheVariants as item;
ghost use Rattle.sessions.specs.Executors.{AsksNothing, has_sent, IsSameExecutor};

use crate::executors::Executor;
use crate::steppers::Stepper;
use director::Director;
use kept::{Keep, Kept};
use ruled_dispatch::{DirectorPass, Lanes};
use sched_events::Event;
use sqlite::Alter;
use std::alloc::Global;
use std::sync::Wait;

/// A director at work. It is made and taken apart while the lanes are lent.
#[derive(Drop)]
pub struct Session<'l, S: Alter> {
    pub(crate) stepper: Stepper<S>,
    pub(crate) executor: Executor<'l, S>,
    // whether a report that was heard is not among the minutes
    pub(crate) missed: bool,
}

/// What a session leaves.
#[derive(Drop)]
pub struct Parted<S: Alter> {
    /// The director.
    pub director: Director<S>,
    /// The events that it accepted, in their order.
    pub minutes: Kept<Event>,
    /// The pass that sent jobs to the workers and heard their reports.
    pub pass: DirectorPass,
    /// Whether a report that was heard is not among the minutes.
    pub missed: bool,
}

impl<'l, S: Alter> Session<'l, S> {
    /// A session of which nothing is stepped yet, with a pass by which nothing was sent or heard: from here on its executor alone sends. `keep` says whether the
    /// events that it accepts are kept.
    pub fn new(
        alloc: Global,
        director: Director<S>,
        lanes: &'l Lanes,
        pass: DirectorPass,
        keep: Keep,
    ) -> Session<'l, S>
        requires pass { IsDirectorOf lanes.now pass }
        requires unused { (sent_of pass ≡ []) × (heard_of pass ≡ []) }
        ensures director { result.stepper.director ≡ director }
        ensures minutes { (result.stepper.minutes.items ≡ []) × (result.stepper.tries ≡ 0) }
        ensures keep { result.stepper.minutes.keep ≡ keep }
        ensures executor { result.executor ≡ record { lanes = lanes.now; pass = pass; nones = 0; waits = 0 } }
        ensures missed { result.missed ≡ false }
    {
        Session {
            stepper: Stepper::new(alloc, director, keep),
            executor: Executor::new(lanes, pass),
            missed: false,
        }
    }

    /// Sends so many stops: one for each worker that was started.
    pub fn stop<R: Wait>(&mut self, rt: &R, workers: usize)
        ensures sent { has_sent self.new.executor ≡ has_sent self.old.executor
            ++ replicate workers item.Stop }
        ensures asks { AsksNothing self.old.executor self.new.executor }
        ensures same { IsSameExecutor self.old.executor self.new.executor }
        ensures stepper { self.new.stepper ≡ self.old.stepper }
        ensures missed { self.new.missed ≡ self.old.missed }
    {
        self.executor.stop(rt, workers);
    }

    /// Takes the session apart.
    pub fn part(self) -> Parted<S>
        ensures director { result.director ≡ self.entry.stepper.director }
        ensures minutes { result.minutes ≡ self.entry.stepper.minutes }
        ensures pass { result.pass ≡ self.entry.executor.pass }
        ensures lanes { IsDirectorOf self.entry.executor.lanes result.pass }
        ensures missed { result.missed ≡ self.entry.missed }
    {
        let Session {
            stepper,
            executor,
            missed,
        } = self;
        let (director, minutes) = stepper.into_parts();
        Parted {
            director,
            minutes,
            pass: executor.into_pass(),
            missed,
        }
    }
}
