//! What a session does with the reports of the workers.
ghost use Rattle.std.specs.Prelude.{◌≡◌, List, true, false, None, Result, IfErr, MatchResult, OnOk, length};
ghost use Rattle.sqlite.specs.Held.{state};
ghost use Rattle.sched_events.specs.declared.answers.Answer.{Answer as AnswerValue};
ghost use Rattle.sched_model.specs.States.{in_flight};
ghost use Rattle.director.specs.declared.faults.Fault.{Fault as FaultValue};
ghost use Rattle.sessions.specs.Faults.{EndsBy};
ghost use Rattle.sessions.specs.History.{is_lost, report_of, ArePolled, AreReported, AreTries};
ghost use Rattle.sessions.specs.Lines.{TellsOn};
ghost use Rattle.sessions.specs.Runs.{GoesBy, IsDone};
ghost use Rattle.sessions.specs.Told.{IsPoll, IsReport};

use crate::faults::{ConductFault, ended_by};
use crate::line_reading::Lines;
use crate::state::Session;
use director::Fault;
use ruled_dispatch::WorkerReport;
use sched_events::Event;
use sqlite::Alter;
use std::alloc::Global;
use std::sync::Wait;

impl<'l, S: Alter> Session<'l, S> {
    // Tries a report that was just heard. One that is refused is passed over.
    fn step_report<R: Wait>(
        &mut self,
        rt: &R,
        alloc: Global,
        told: WorkerReport,
    ) -> Result<(), ConductFault>
        ensures done { (faults : List FaultValue) × (came : Result AnswerValue FaultValue)
            × AreTries faults came
            × IsDone (state S.Store) (report_of told) (length faults) came (is_lost came) self.old self.new }
        ensures fault { IfErr result (λ f. EndsBy f None) }
    {
        let event = Event::Report(told.report.serial, told.report.stage);
        let came = self.stepper.try_thrice(alloc, &event);
        match self.put(rt, event, came) {
            Ok(()) => Ok(()),
            Err(fault) => {
                self.missed = true;
                match fault {
                    Fault::Refused(_) => Ok(()),
                    fault => Err(ended_by(fault)),
                }
            }
        }
    }

    /// Hears a report, where one is there, and tries it; whether one was there. A report that the schedule refuses is passed over, and counts
    /// as missed.
    pub(crate) fn hear_one<R: Wait>(&mut self, rt: &R, alloc: Global) -> Result<bool, ConductFault>
        ensures went { GoesBy (state S.Store) (λ h. MatchResult result (λ there. IsPoll there h) (λ f. IsReport false h)) self.old self.new }
        ensures fault { IfErr result (λ f. EndsBy f None) }
    {
        match self.executor.poll(rt) {
            None => Ok(false),
            Some(told) => match self.step_report(rt, alloc, told) {
                Ok(()) => Ok(true),
                Err(fault) => Err(fault),
            },
        }
    }

    // Hears the next report, once there is one, and tries it.
    fn await_one<R: Wait>(&mut self, rt: &R, alloc: Global) -> Result<(), ConductFault>
        ensures went { GoesBy (state S.Store) (IsReport true) self.old self.new }
        ensures fault { IfErr result (λ f. EndsBy f None) }
    {
        let told = self.executor.wait(rt);
        self.step_report(rt, alloc, told)
    }

    /// Hears and tries the reports that are there.
    pub(crate) fn hear_all<R: Wait>(&mut self, rt: &R, alloc: Global) -> Result<(), ConductFault>
        ensures went { GoesBy (state S.Store) (λ h. MatchResult result (λ _. ArePolled h) (λ f. AreReported h)) self.old self.new }
        ensures fault { IfErr result (λ f. EndsBy f None) }
    {
        for _ in rt.forever() {
            match self.hear_one(rt, alloc) {
                Ok(true) => {}
                Ok(false) => return Ok(()),
                Err(fault) => return Err(fault),
            }
        }
        unreachable!()
    }

    /// Hears and tries reports until no try is in flight. The lines are shown how the schedule stands before each is waited for.
    pub(crate) fn drain<L: Lines<S>, R: Wait>(
        &mut self,
        rt: &R,
        alloc: Global,
        lines: &mut L,
    ) -> Result<(), ConductFault>
        ensures went { GoesBy (state S.Store) AreReported self.old self.new }
        ensures told { TellsOn L.tells lines.old lines.new }
        ensures failed { L.failed lines.new ≡ L.failed lines.old }
        ensures over { L.over lines.new ≡ L.over lines.old }
        ensures fault { IfErr result (λ f. EndsBy f None) }
        ensures idle { OnOk result (in_flight self.new.stepper.director.schedule.content ≡ 0) }
    {
        for _ in rt.forever() {
            if self.stepper.schedule().in_flight() == 0 {
                return Ok(());
            }
            lines.waits(self.stepper.schedule());
            if let Err(fault) = self.await_one(rt, alloc) {
                return Err(fault);
            }
        }
        unreachable!()
    }
}
