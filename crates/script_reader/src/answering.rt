//! A script as the lines of a session.
ghost use Rattle.std.specs.Prelude.{◌≡◌, Some, is_err, MatchResult};
ghost use Rattle.std.specs.Io.KnownBytes.{Appends};
ghost use Rattle.answer_lines.specs.RunFaults.{clock_text};
ghost use Rattle.answer_lines.specs.Shown.{shown_text};
ghost use Rattle.answer_lines.specs.declared.shown.Shown.TheVariants.{Done};
ghost use Rattle.script_reader.specs.Statuses.{shown_for};

use crate::console::Console;
use crate::reader::{ScriptReader, read_line};
use crate::sources::Sources;
use answer_lines::{ClockFault, Fault, Line, LineFault, Lines, Schedule, Shown, Written};
use sched_events::Event;
use std::io::{self, ErrorKind, Read, Write};

// Keeps what the script failed in, if its answer was not written.
fn keep(failed: &mut Option<LineFault>, put: io::Result<()>) -> Result<(), LineFault>
    ensures ended { is_err result ≡ is_err put }
    ensures failed { MatchResult result (λ _. failed.new ≡ failed.old) (λ fault. failed.new ≡ Some fault) }
{
    match put {
        Ok(()) => Ok(()),
        Err(error) => {
            let fault = fault_of(&error);
            *failed = Some(fault);
            Err(fault)
        }
    }
}

// What a script fails in by an error of its reader or its writer.
fn fault_of(error: &io::Error) -> LineFault {
    match error.kind() {
        ErrorKind::OutOfMemory => LineFault::Memory,
        _ => LineFault::Failed,
    }
}

impl<S, R: Read + Drop, W: Write + Drop, F: Sources, P: Console> Lines<S>
    for ScriptReader<R, W, F, P> {
    ghost use Rattle.script_reader.specs.Readers.{Tells, tells_nothing};

    ghost tells = { Tells R.remaining W.contents F.gives };

    ghost shows = { λ s event answer t. Appends (W.contents s.answers.output) (W.contents t.answers.output) (shown_for event answer) };

    ghost shows_done = { λ s t. Appends (W.contents s.answers.output) (W.contents t.answers.output) (shown_text Done) };

    ghost shows_no_clock = { λ s fault t. Appends (W.contents s.answers.output) (W.contents t.answers.output) (clock_text fault) };

    ghost failed = { λ s. s.failed };

    ghost over = { λ s. s.is_over };

    ghost begins = { tells_nothing R.remaining W.contents F.gives F.begins };

    fn next(&mut self, schedule: &Schedule) -> Result<Option<Line>, LineFault> {
        match read_line(
            schedule,
            &mut self.commands,
            &mut self.answers,
            &mut self.sources,
        ) {
            Ok(next) => {
                self.is_over = next.is_none();
                Ok(next)
            }
            Err(error) => {
                let fault = fault_of(&error);
                self.failed = Some(fault);
                self.is_over = false;
                Err(fault)
            }
        }
    }

    fn answered(
        &mut self,
        _schedule: &Schedule,
        event: &Event,
        came: &Result<Written<S>, Fault>,
    ) -> Result<(), LineFault> {
        let spot = self.commands.spot();
        let put = self.answers.answer(spot, event, came);
        keep(&mut self.failed, put)
    }

    fn drained(&mut self, _schedule: &Schedule) -> Result<(), LineFault> {
        self.answers.console.wait_is_over();
        let put = self.answers.write(Shown::Done, 0);
        keep(&mut self.failed, put)
    }

    fn waits(&mut self, schedule: &Schedule) {
        self.answers.console.waits(schedule);
    }

    fn no_clock(&mut self, _schedule: &Schedule, fault: ClockFault) -> Result<(), LineFault> {
        let spot = self.commands.spot();
        let shown = Shown::NoMoment(fault);
        let put = self.answers.put(Some(spot), None, shown, 4);
        keep(&mut self.failed, put)
    }
}
