//! A session that follows its lines until they are over.
ghost use Rattle.std.specs.Prelude.{◌≡◌, ◌≤◌, [], true, None, Some, is_ok, MatchResult, OnOk};
ghost use Rattle.sqlite.specs.Held.{state};
ghost use Rattle.sched_model.specs.States.{in_flight};
ghost use Rattle.sessions.specs.Faults.{EndsBy};
ghost use Rattle.sessions.specs.Lines.{may_be_read};
ghost use Rattle.sessions.specs.Told.{IsServed, Rests, Serves};
ghost use Rattle.sessions.specs.declared.line_reading.Line.TheVariants as Says;

use crate::clocks::Clock;
use crate::faults::{ConductFault, ended_by_lines};
use crate::line_reading::{Line, Lines};
use crate::state::Session;
use sched_events::Event;
use sqlite::Alter;
use std::alloc::Global;
use std::sync::Wait;

impl<'l, S: Alter> Session<'l, S> {
    /// Does the line that waits, which says to tick now: hears and tries the reports that are there, asks the clock, and tries a tick at its moment.
    /// Where the clock gives none, the lines are told so.
    pub(crate) fn tick_now<L: Lines<S>, C: Clock, R: Wait>(
        &mut self,
        rt: &R,
        alloc: Global,
        lines: &mut L,
        clock: &mut C,
    ) -> Result<(), ConductFault>
        requires sound { L.failed lines.old ≡ None }
        ensures served { Serves (state S.Store) L.tells C.gives (Some Says.TickNow)
            (λ last waits. OnOk result (Rests None last waits)) self.old self.new lines.old lines.new clock.old clock.new }
        ensures fault { MatchResult result (λ _. L.failed lines.new ≡ None)
            (λ f. EndsBy f (L.failed lines.new)) }
    {
        if let Err(fault) = self.hear_all(rt, alloc) {
            return Err(fault);
        }
        match clock.now(self.stepper.schedule()) {
            Ok(moment) => {
                match self.step_line(rt, alloc, Event::Tick(moment), lines) {
                    Ok(()) => Ok(()),
                    Err(fault) => Err(ended_by_lines(fault)),
                }
            }
            Err(fault) => {
                let seen = self.stepper.schedule();
                match lines.no_clock(seen, fault) {
                    Ok(()) => Ok(()),
                    Err(fault) => Err(ended_by_lines(fault)),
                }
            }
        }
    }

    // Does the line that waits, which says to drain.
    fn drain_line<L: Lines<S>, C: Clock, R: Wait>(
        &mut self,
        rt: &R,
        alloc: Global,
        lines: &mut L,
        clock: &mut C,
    ) -> Result<(), ConductFault>
        requires sound { L.failed lines.old ≡ None }
        ensures served { Serves (state S.Store) L.tells C.gives (Some Says.Drain)
            (λ last waits. OnOk result (Rests None last waits)) self.old self.new lines.old lines.new clock.old clock.new }
        ensures fault { MatchResult result (λ _. L.failed lines.new ≡ None)
            (λ f. EndsBy f (L.failed lines.new)) }
    {
        if let Err(fault) = self.drain(rt, alloc, lines) {
            return Err(fault);
        }
        match lines.drained(self.stepper.schedule()) {
            Ok(()) => Ok(()),
            Err(fault) => Err(ended_by_lines(fault)),
        }
    }

    // Does a line that was just read.
    fn do_line<L: Lines<S>, C: Clock, R: Wait>(
        &mut self,
        rt: &R,
        alloc: Global,
        line: Line,
        lines: &mut L,
        clock: &mut C,
    ) -> Result<(), ConductFault>
        requires line { may_be_read line ≡ true }
        requires sound { L.failed lines.old ≡ None }
        ensures served { Serves (state S.Store) L.tells C.gives (Some line)
            (λ last waits. OnOk result (Rests None last waits)) self.old self.new lines.old lines.new clock.old clock.new }
        ensures fault { MatchResult result (λ _. L.failed lines.new ≡ None)
            (λ f. EndsBy f (L.failed lines.new)) }
    {
        match line {
            Line::Event(event) => match self.step_line(rt, alloc, event, lines) {
                Ok(()) => Ok(()),
                Err(fault) => Err(ended_by_lines(fault)),
            },
            Line::TickNow => self.tick_now(rt, alloc, lines, clock),
            Line::Drain => self.drain_line(rt, alloc, lines, clock),
        }
    }

    /// Does each line until they are over, and then hears and tries reports until no try is in flight.
    pub(crate) fn follow<L: Lines<S>, C: Clock, R: Wait>(
        &mut self,
        rt: &R,
        alloc: Global,
        lines: &mut L,
        clock: &mut C,
    ) -> Result<(), ConductFault>
        requires sound { L.failed lines.old ≡ None }
        ensures served { Serves (state S.Store) L.tells C.gives None
            (λ last waits. OnOk result (waits ≡ None)) self.old self.new lines.old lines.new clock.old clock.new }
        ensures fault { MatchResult result (λ _. L.failed lines.new ≡ None)
            (λ f. EndsBy f (L.failed lines.new)) }
        ensures over { OnOk result (L.over lines.new ≡ true) }
        ensures idle { OnOk result (in_flight self.new.stepper.director.schedule.content ≡ 0) }
    {
        for _ in rt.forever() {
            match lines.next(self.stepper.schedule()) {
                Ok(None) => return self.drain(rt, alloc, lines),
                Ok(Some(line)) => {
                    if let Err(fault) = self.do_line(rt, alloc, line, lines, clock) {
                        return Err(fault);
                    }
                }
                Err(fault) => return Err(ended_by_lines(fault)),
            }
        }
        unreachable!()
    }

    /// A whole run: the restart, with so many lanes, each line until they are over, and reports until no try is in flight.
    pub fn serve<L: Lines<S>, C: Clock, R: Wait>(
        &mut self,
        rt: &R,
        alloc: Global,
        lane_count: u32,
        lines: &mut L,
        clock: &mut C,
    ) -> Result<(), ConductFault>
        requires lanes { lane_count ≤ self.old.stepper.director.schedule.content.limits.lanes }
        requires sound { L.failed lines.old ≡ None }
        ensures served { IsServed (state S.Store) lane_count L.tells C.gives self.old self.new lines.old lines.new clock.old clock.new
            (λ restart waits. OnOk result ((is_ok restart ≡ true) × (waits ≡ None))) }
        ensures fault { MatchResult result (λ _. L.failed lines.new ≡ None)
            (λ f. EndsBy f (L.failed lines.new)) }
        ensures over { OnOk result (L.over lines.new ≡ true) }
        ensures idle { OnOk result (in_flight self.new.stepper.director.schedule.content ≡ 0) }
    {
        match self.restart(rt, alloc, lane_count) {
            Ok(()) => self.follow(rt, alloc, lines, clock),
            Err(fault) => Err(fault),
        }
    }
}
