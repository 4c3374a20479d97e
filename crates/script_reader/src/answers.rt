//! Where the answers of a script go, and what a person is told beside them.
ghost use Rattle.std.specs.Prelude.{◌≡◌, ◌&&◌, [], true, Err, Ok, max, is_ok, IsOk, OnOk};
ghost use Rattle.std.specs.Io.KnownBytes.{Appends};
ghost use Rattle.script_commands.specs.declared.commands.ScriptCommand.TheVariants.{Explain, List as ListRows};
ghost use Rattle.answer_lines.specs.CommandFaults.{command_fault_text};
ghost use Rattle.answer_lines.specs.RunFaults.{end_text};
ghost use Rattle.answer_lines.specs.Shown.{shown_text};
ghost use Rattle.answer_lines.specs.sessions.director.Written.{came_of};
ghost use Rattle.script_reader.specs.Answers.{IsPut};
ghost use Rattle.script_reader.specs.Commands.{Answered};
ghost use Rattle.script_reader.specs.Ends.{last_text};
ghost use Rattle.script_reader.specs.Statuses as spec;
ghost use Rattle.script_reader.specs.Statuses.{shown_for, status_of};

use crate::console::{Console, Spot};
use crate::statuses::{command_status, explain_status, failure_status};
use answer_lines::{
    ConductFault, Fault, Line, Schedule, Shown, Written, explain, put, put_listing, put_reasons,
};
use command_words::{Listing, Question};
use sched_events::Event;
use script_commands::CommandFault;
use std::alloc::Global;
use std::io::{self, Write};

/// What puts answers, and keeps the greatest status of them and whether all are written.
#[derive(Drop)]
pub(crate) struct Answers<W: Write + Drop, P: Console> {
    pub(crate) output: W,
    pub(crate) console: P,
    pub(crate) status: u8,
    pub(crate) is_written: bool,
}

impl<W: Write + Drop, P: Console> Answers<W, P> {
    /// Nothing is put yet.
    pub(crate) fn new(output: W, console: P) -> Answers<W, P>
        ensures { result ≡ record { output = output; console = console; status = 0; is_written = true } }
    {
        Answers {
            output,
            console,
            status: 0,
            is_written: true,
        }
    }

    /// Has the console hear of the event that this line takes in, before it is answered.
    pub(crate) fn announce(&mut self, spot: Spot<'_>, line: &Line)
        ensures { self.new ≡ record self.old { console = self.new.console } }
    {
        if let Line::Event(event) = line {
            self.console.hear(spot, event);
        }
    }

    /// Lists rows of the schedule.
    pub(crate) fn list(&mut self, schedule: &Schedule, listing: Listing) -> io::Result<()>
        ensures { Answered W.contents schedule.now.content (Ok (ListRows listing)) [] result self.old self.new }
    {
        let put = put_listing(&mut self.output, schedule, listing);
        self.count(0, put)
    }

    /// Says why a task instance stands where it does.
    pub(crate) fn explain(
        &mut self,
        alloc: Global,
        spot: Spot<'_>,
        schedule: &Schedule,
        question: &Question,
    ) -> io::Result<()>
        ensures { Answered W.contents schedule.now.content (Ok (Explain question.now)) [] result self.old self.new }
    {
        let Question {
            graph,
            logical,
            task,
        } = question;
        match explain(alloc, schedule, graph, *logical, task) {
            Ok(reasons) => {
                let put = put_reasons(&mut self.output, reasons.as_slice());
                self.count(0, put)
            }
            Err(fault) => {
                let status = explain_status(fault);
                self.put(Some(spot), None, Shown::Unexplained(fault), status)
            }
        }
    }

    /// Says why there is no command, or no text.
    pub(crate) fn refuse(&mut self, spot: Spot<'_>, fault: CommandFault) -> io::Result<()>
        ensures { IsPut W.contents (command_fault_text fault) (spec.command_status fault) result self.old self.new }
    {
        let status = command_status(fault);
        self.put(Some(spot), None, Shown::NoCommand(fault), status)
    }

    /// Says what came of an event: its answer, as the record has it, or why it was not accepted.
    pub(crate) fn answer<S>(
        &mut self,
        spot: Spot<'_>,
        event: &Event,
        came: &Result<Written<S>, Fault>,
    ) -> io::Result<()>
        ensures { IsPut W.contents (shown_for event.now (came_of came.now)) (status_of (came_of came.now)) result self.old self.new }
    {
        match came {
            Ok(written) => {
                let answer = Shown::Answer(event, written.answer());
                self.put(Some(spot), Some(event), answer, 0)
            }
            Err(fault) => {
                let status = failure_status(fault);
                self.put(Some(spot), Some(event), Shown::Failure(fault), status)
            }
        }
    }

    /// Puts this, with this status, and gives it to the console.
    pub(crate) fn put(
        &mut self,
        spot: Option<Spot<'_>>,
        event: Option<&Event>,
        shown: Shown<'_>,
        status: u8,
    ) -> io::Result<()>
        ensures { IsPut W.contents (shown_text shown.entry) status result self.old self.new }
    {
        self.console.put(spot, event, shown);
        self.write(shown, status)
    }

    /// Puts this, with this status.
    pub(crate) fn write(&mut self, shown: Shown<'_>, status: u8) -> io::Result<()>
        ensures { IsPut W.contents (shown_text shown.entry) status result self.old self.new }
    {
        let put = put(&mut self.output, shown);
        self.count(status, put)
    }

    /// Writes out what was put, and has the console tell of it. The schedule stands so.
    pub(crate) fn flush(&mut self, schedule: &Schedule) -> io::Result<()>
        ensures { IsPut W.contents [] 0 result self.old self.new }
    {
        match self.output.flush() {
            Ok(()) => {
                self.console.tell(Some(schedule));
                Ok(())
            }
            Err(error) => {
                self.is_written = false;
                Err(error)
            }
        }
    }

    /// Puts what is put last, and writes it out: the line of the fault that a run ended with, and nothing where it ended well.
    pub(crate) fn end<T>(&mut self, outcome: &Result<T, ConductFault>) -> io::Result<()>
        ensures put { IsPut W.contents (last_text outcome.now) 0 result self.old self.new }
        ensures well { OnOk outcome.now (IsOk result) }
    {
        match outcome {
            Ok(_) => Ok(()),
            Err(fault) => {
                let ended = write_end(&mut self.output, fault);
                self.console.put(None, None, Shown::EndedBy(fault));
                self.count(0, ended)
            }
        }
    }

    // Counts what was put with this status, and was written or not.
    fn count(&mut self, status: u8, put: io::Result<()>) -> io::Result<()>
        ensures counted { self.new ≡ record self.old { status = max self.old.status status; is_written = self.old.is_written && is_ok put } }
        ensures put { result ≡ put }
    {
        self.status = self.status.max(status);
        self.is_written = self.is_written && put.is_ok();
        put
    }
}

// Writes the line of a fault, and flushes it.
fn write_end<W: Write>(output: &mut W, fault: &ConductFault) -> io::Result<()>
    ensures { OnOk result (Appends (W.contents output.old) (W.contents output.new) (end_text fault.now)) }
{
    put(output, Shown::EndedBy(fault))?;
    output.flush()?;
    Ok(())
}
