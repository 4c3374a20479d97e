//! Where the lines come from, and where their answers go.
ghost use Rattle.std.specs.Prelude.{◌≡◌, ◌++◌, ◌∷◌, ℕ, List, [], Bool, true, Some, None, Err, Option, Result, IfOk, OnOk, MatchResult, MatchOption};
ghost use Rattle.sched_events.specs.declared.answers.Answer.{Answer};
ghost use Rattle.sched_events.specs.declared.events.Event.{Event as EventValue};
ghost use Rattle.sched_model.specs.States.{in_flight};
ghost use Rattle.director.specs.Written.{came_of};
ghost use Rattle.director.specs.declared.faults.Fault.{Fault as FaultValue};
ghost use Rattle.sessions.specs.History.{looks, ArePolled, AreReported, Asked, Looked, Step, Told};
ghost use Rattle.sessions.specs.Lines.{line_of, may_be_read, IsCome, Takes, TellsOn};
ghost use Rattle.sessions.specs.declared.clocks.ClockFault.{ClockFault as ClockFaultValue};
ghost use Rattle.sessions.specs.declared.line_reading.Line.{Line};
ghost use Rattle.sessions.specs.declared.line_reading.Line.TheVariants as Says;
ghost use Rattle.sessions.specs.declared.line_reading.LineFault.{LineFault};

use crate::clocks::ClockFault;
use director::{Fault, Schedule, Written};
use sched_events::Event;
use thiserror::Error;

/// What a line says.
#[derive(Debug, Drop)]
pub enum Line {
    /// An event. It is no worker's report and no restart.
    Event(Event),
    /// A tick at the moment that it is.
    TickNow,
    /// To hear reports until no try is in flight.
    Drain,
}

/// Why lines are not read or not answered.
#[derive(Clone, Copy, Debug, PartialEq, Eq, Error)]
pub enum LineFault {
    /// They could not be read, or an answer could not be written.
    #[error("a line could not be read or answered")]
    Failed,
    /// There was no memory.
    #[error("out of memory")]
    Memory,
}

/// Lines that are read one by one, each answered before the next. Of an event that was accepted they are shown the token that the record of the `Director<S>`
/// has it. What they were told is a relation between two of their states, so who implements it need not keep it.
pub trait Lines<S>: Drop {
    /// From one state to another these steps of the run were told, and this line waits for its answer then.
    ghost tells: { Self → List Step → Option Line → Self → Type 0 };

    /// What they show of an answer, from the state before it to the state after it.
    ghost shows: { Self → EventValue → Result Answer FaultValue → Self → Type 0 };

    /// What they show once no try is in flight, for a line that says to drain, likewise.
    ghost shows_done: { Self → Self → Type 0 };

    /// What they show where the clock gave no moment, likewise.
    ghost shows_no_clock: { Self → ClockFaultValue → Self → Type 0 };

    /// The fault that they answered.
    ghost failed: { Self → Option LineFault };

    /// Whether no line is left.
    ghost over: { Self → Bool };

    /// The next line, or none where they are over. No line waits before. They may look at the schedule, more than once.
    fn next(&mut self, schedule: &Schedule) -> Result<Option<Line>, LineFault>
        requires sound { failed self.old ≡ None }
        ensures told { (times : ℕ) × ((s : Self) (before : List Step) → tells s before None self.old
            → tells s (before ++ looks times schedule.now.content) (line_of result) self.new) }
        ensures failed { MatchResult result (λ _. failed self.new ≡ None)
            (λ fault. failed self.new ≡ Some fault) }
        ensures line { IfOk result (λ next. MatchOption next (over self.new ≡ true)
            (λ line. may_be_read line ≡ true)) };

    /// Tells the line that waits, which says to drain, that no try is in flight. Only reports were heard since it was read.
    fn drained(&mut self, schedule: &Schedule) -> Result<(), LineFault>
        requires sound { failed self.old ≡ None }
        requires idle { in_flight schedule.now.content ≡ 0 }
        ensures told { (s : Self) (before heard : List Step) → AreReported heard
            → tells s before (Some Says.Drain) self.old
            → tells s (before ++ (heard ++ Looked schedule.now.content ∷ [])) None self.new }
        ensures shown { OnOk result (shows_done self.old self.new) }
        ensures failed { MatchResult result (λ _. failed self.new ≡ None)
            (λ fault. failed self.new ≡ Some fault) }
        ensures over { over self.new ≡ over self.old };

    /// Tells the line that waits what came of its event, at the schedule after it: that it is written, with its answer, or why not. It counts as told even where
    /// that fails. For a line that says to tick now
    /// the reports that were there were heard before, and then the clock was asked, which gave the moment of the tick.
    fn answered(
        &mut self,
        schedule: &Schedule,
        event: &Event,
        came: &Result<Written<S>, Fault>,
    ) -> Result<(), LineFault>
        requires sound { failed self.old ≡ None }
        requires came { IsCome event.now came.now schedule.now.content }
        ensures told { (s : Self) (before since : List Step) (line : Line) → Takes line event.now since
            → tells s before (Some line) self.old
            → tells s (before ++ (since ++ Told event.now (came_of came.now) ∷ [])) None self.new }
        ensures shown { OnOk result (shows self.old event.now (came_of came.now) self.new) }
        ensures failed { MatchResult result (λ _. failed self.new ≡ None)
            (λ fault. failed self.new ≡ Some fault) }
        ensures over { over self.new ≡ over self.old };

    /// Tells the line that waits, which says to tick now, that the clock gave no moment at this schedule. The reports that were there were heard before.
    fn no_clock(&mut self, schedule: &Schedule, fault: ClockFault) -> Result<(), LineFault>
        requires { failed self.old ≡ None }
        ensures told { (s : Self) (before polled : List Step) → ArePolled polled
            → tells s before (Some Says.TickNow) self.old
            → tells s (before ++ (polled ++ Asked schedule.now.content (Err fault) ∷ [])) None self.new }
        ensures shown { OnOk result (shows_no_clock self.old fault self.new) }
        ensures failed { MatchResult result (λ _. failed self.new ≡ None)
            (λ fault. failed self.new ≡ Some fault) }
        ensures over { over self.new ≡ over self.old };

    /// In a drain a report is waited for next. They may show how the schedule stands; nothing is told by it.
    fn waits(&mut self, schedule: &Schedule)
        ensures told { TellsOn tells self.old self.new }
        ensures failed { failed self.new ≡ failed self.old }
        ensures over { over self.new ≡ over self.old };

    /// Where nothing is done, nothing took place.
    ghost begins: { (s : Self) → tells s [] None s };
}
