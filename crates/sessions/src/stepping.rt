//! Steps of a session: the restart, and the event of a line.
ghost use Rattle.std.specs.Prelude.{◌≡◌, ◌≤◌, ◌<◌, ◌∷◌, [], List, true, None, Some, Err, Result, is_ok, IfErr, MatchResult, OnOk};
ghost use Rattle.sqlite.specs.Held.{state};
ghost use Rattle.sched_events.specs.declared.answers.Answer.{Answer as AnswerValue};
ghost use Rattle.director.specs.declared.faults.Fault.{Fault as FaultValue};
ghost use Rattle.director.specs.Written.{came_of};
ghost use Rattle.minutes.specs.Minutes.{is_of_line};
ghost use Rattle.sessions.specs.Faults.{EndsBy};
ghost use Rattle.sessions.specs.History.{Restarted, Told};
ghost use Rattle.sessions.specs.Runs.{Goes, IsPut};
ghost use Rattle.sessions.specs.Told.{IsAnswered};

use crate::faults::{ConductFault, ended_by};
use crate::line_reading::{LineFault, Lines};
use crate::state::Session;
use director::{Fault, Written};
use sched_events::Event;
use sqlite::Alter;
use std::alloc::Global;
use std::sync::Wait;

impl<'l, S: Alter> Session<'l, S> {
    // Puts an event that is written into the minutes, and sends its jobs, for which its token is used up.
    pub(crate) fn put<R: Wait>(
        &mut self,
        rt: &R,
        event: Event,
        came: Result<Written<S>, Fault>,
    ) -> Result<(), Fault>
        requires room { OnOk (came_of came) (0 < self.old.stepper.minutes.room) }
        ensures put { IsPut event (came_of came) self.old self.new }
        ensures fault { MatchResult result (λ _. is_ok (came_of came) ≡ true)
            (λ f. came_of came ≡ Err f) }
    {
        match came {
            Ok(written) => {
                self.stepper.put(event);
                self.executor.post(rt, written);
                Ok(())
            }
            Err(fault) => Err(fault),
        }
    }

    /// The first step of a run: the restart, with so many lanes.
    pub(crate) fn restart<R: Wait>(
        &mut self,
        rt: &R,
        alloc: Global,
        lane_count: u32,
    ) -> Result<(), ConductFault>
        requires lanes { lane_count ≤ self.old.stepper.director.schedule.content.limits.lanes }
        ensures went { (faults : List FaultValue) × (came : Result AnswerValue FaultValue)
            × (is_ok came ≡ is_ok result)
            × Goes (state S.Store) (Restarted lane_count faults came ∷ []) self.old self.new }
        ensures fault { IfErr result (λ f. EndsBy f None) }
    {
        let event = Event::Restart(lane_count);
        let came = self.stepper.try_thrice(alloc, &event);
        match self.put(rt, event, came) {
            Ok(()) => Ok(()),
            Err(fault) => Err(ended_by(fault)),
        }
    }

    /// Tries the event of the line that waits, tells the lines what came of it, and then sends its jobs.
    pub(crate) fn step_line<L: Lines<S>, R: Wait>(
        &mut self,
        rt: &R,
        alloc: Global,
        event: Event,
        lines: &mut L,
    ) -> Result<(), LineFault>
        requires line { is_of_line event ≡ true }
        requires sound { L.failed lines.old ≡ None }
        ensures went { (came : Result AnswerValue FaultValue) × IsAnswered L.tells event came lines.old lines.new
            × Goes (state S.Store) (Told event came ∷ []) self.old self.new }
        ensures failed { MatchResult result (λ _. L.failed lines.new ≡ None)
            (λ fault. L.failed lines.new ≡ Some fault) }
        ensures over { L.over lines.new ≡ L.over lines.old }
    {
        let came = self.stepper.try_step(alloc, &event);
        let told = lines.answered(self.stepper.schedule(), &event, &came);
        let _put = self.put(rt, event, came);
        told
    }
}
