//! What is told of a command, with its status. Nothing here has a record.
ghost use Rattle.std.specs.Prelude.{◌≡◌, true, false, MatchResult};
ghost use Rattle.director.specs.Written.{came_of};
ghost use Rattle.script_reader.specs.answer_lines.RecordFaults.{failure_text};
ghost use Rattle.script_reader.specs.Statuses.{shown_for, status_of};
ghost use Rattle.script_reader.specs.Statuses as statuses;
ghost use Rattle.command_runner.specs.Looks.{AreReasonsTold, AreRowsTold};
ghost use Rattle.command_runner.specs.Writes.{IsWritten};

use command_words::{Listing, Question};
use director::{Fault, Schedule, Written};
use sched_events::Event;
use script_reader::{
    Console, Shown, explain, explain_status, failure_status, put, put_listing, put_reasons,
};
use std::alloc::Global;
use std::io::{self, Write};

// What became of the answer to a single command: its status, and whether it is written.
#[derive(Clone, Copy, Debug)]
pub(crate) struct SingleEnd {
    pub(crate) status: u8,
    pub(crate) is_written: bool,
}

// Tells the answer to an event that stands in the record, or why it does not, with the schedule after it.
pub(crate) fn tell_event<S, W: Write, P: Console>(
    event: &Event,
    came: &Result<Written<S>, Fault>,
    schedule: &Schedule,
    output: &mut W,
    console: &mut P,
) -> SingleEnd
    ensures { IsWritten (shown_for event.now (came_of came.now)) (status_of (came_of came.now))
        (W.contents output.old) (W.contents output.new) result.is_written result.status }
{
    match came {
        Ok(written) => {
            let answer = Shown::Answer(event, written.answer());
            console.put(None, Some(event), answer);
            let put = put(output, answer);
            console.tell(Some(schedule));
            told_by(0, put)
        }
        Err(fault) => tell_failure(fault, Some(event), Some(schedule), output, console),
    }
}

// Tells rows of the schedule that was read, or why none was.
pub(crate) fn tell_rows<W: Write, P: Console>(
    read: &Result<Schedule, Fault>,
    listing: Listing,
    output: &mut W,
    console: &mut P,
) -> SingleEnd
    ensures { AreRowsTold read.now listing (W.contents output.old) (W.contents output.new) result.is_written result.status }
{
    match read {
        Ok(schedule) => {
            let put = put_listing(output, schedule, listing);
            told_by(0, put)
        }
        Err(fault) => tell_failure(fault, None, None, output, console),
    }
}

// Tells why a task instance stands where it does in the schedule that was read, or why that has no answer, or why none was read.
pub(crate) fn tell_reasons<W: Write, P: Console>(
    alloc: Global,
    read: &Result<Schedule, Fault>,
    question: &Question,
    output: &mut W,
    console: &mut P,
) -> SingleEnd
    ensures { AreReasonsTold read.now question.now (W.contents output.old) (W.contents output.new) result.is_written result.status }
{
    let schedule = match read {
        Ok(schedule) => schedule,
        Err(fault) => return tell_failure(fault, None, None, output, console),
    };
    let Question {
        graph,
        logical,
        task,
    } = question;
    match explain(alloc, schedule, graph, *logical, task) {
        Ok(reasons) => {
            let put = put_reasons(output, reasons.as_slice());
            told_by(0, put)
        }
        Err(fault) => {
            let put = put(output, Shown::Unexplained(fault));
            console.put(None, None, Shown::Unexplained(fault));
            console.tell(Some(schedule));
            told_by(explain_status(fault), put)
        }
    }
}

// Tells why an event was not stepped, or a record not opened or not read.
pub(crate) fn tell_failure<W: Write, P: Console>(
    fault: &Fault,
    event: Option<&Event>,
    schedule: Option<&Schedule>,
    output: &mut W,
    console: &mut P,
) -> SingleEnd
    ensures { IsWritten (failure_text fault.now) (statuses.failure_status fault.now) (W.contents output.old) (W.contents output.new) result.is_written result.status }
{
    let put = put(output, Shown::Failure(fault));
    console.put(None, event, Shown::Failure(fault));
    console.tell(schedule);
    told_by(failure_status(fault), put)
}

// An answer with this status that was put so: where it is not written the status is 4.
pub(crate) fn told_by(status: u8, put: io::Result<()>) -> SingleEnd
    ensures { MatchResult put (λ _. result ≡ record { status = status; is_written = true }) (λ _. result ≡ record { status = 4; is_written = false }) }
{
    match put {
        Ok(()) => SingleEnd {
            status,
            is_written: true,
        },
        Err(_) => SingleEnd {
            status: 4,
            is_written: false,
        },
    }
}
