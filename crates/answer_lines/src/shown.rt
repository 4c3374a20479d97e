//! One writer for all that is printed but the rows of `list` and of `explain`.
ghost use Rattle.std.specs.Prelude.{OnOk};
ghost use Rattle.std.specs.Io.KnownBytes.{Appends};
ghost use Rattle.answer_lines.specs.Shown.{shown_text};

use crate::answers::{put_answer, put_ok};
use crate::command_faults::put_command_fault;
use crate::pools::put_pool;
use crate::reasons::{put_explain_fault, put_reason};
use crate::record_faults::put_failure;
use crate::run_faults::{put_clock_fault, put_end};
use crate::runs::put_run;
use crate::tasks::put_task;
use explain::{ExplainFault, Reason};
use sched_events::{Answer, Event, InstanceRow, PoolRow};
use sched_state::Run;
use script_commands::CommandFault;
use sessions::{ClockFault, ConductFault, Fault};
use std::io::{self, Write};

/// What is printed at once.
#[derive(Clone, Copy)]
pub enum Shown<'a> {
    /// The answer to an event: `made DAG RUNID` for each run made; `cleared N` for a clear and a backfill with a reset, where N task instances
    /// that were not none were set back; `more` where some runs are left; `try SERIAL DAG LOGICAL TASK NUMBER` for each try handed out; and `ok`.
    Answer(&'a Event, &'a Answer),
    /// Why an event is not stepped, or a record is not opened: `refused N Name` with what the refusal carries, `store N Name`, or `memory`.
    Failure(&'a Fault),
    /// That SQLite does not open the file of a record: `store 1 Refused`.
    Unopened,
    /// Why a line is no command, or has no text: `usage N Name`, `source N Name`, or `memory`; `BadMoment` with the number and name of its fault.
    NoCommand(CommandFault),
    /// Why the clock gives no moment: `clock N Name`, or `memory`.
    NoMoment(ClockFault),
    /// Why a run has ended: `conduct N Name`, or `memory`.
    EndedBy(&'a ConductFault),
    /// A run: `DAG RUNID START END PHASE`.
    Run(&'a Run),
    /// A task instance: `DAG RUNID TASK STATE TRIES`.
    Task(&'a InstanceRow<'a>),
    /// A pool: `NAME SIZE OCCUPIED OPEN`. Fewer slots than none are open where the pool was made smaller than what is taken of it.
    Pool(&'a PoolRow<'a>),
    /// A reason why a task instance is where it is, as `pool p needs 2 open 0`.
    Reason(&'a Reason),
    /// Why a task instance is not explained: `explain N Name`, or `memory`.
    Unexplained(ExplainFault),
    /// The end of rows, and the answer to what has no other: `ok`.
    Done,
}

/// Writes the lines of what is shown.
pub fn put<W: Write>(output: &mut W, shown: Shown<'_>) -> io::Result<()>
    ensures { OnOk result (Appends (W.contents output.old) (W.contents output.new) (shown_text shown.entry)) }
{
    match shown {
        Shown::Answer(event, answer) => put_answer(output, event, answer),
        Shown::Failure(fault) => put_failure(output, fault),
        Shown::Unopened => output.write_all(b"store 1 Refused\n"),
        Shown::NoCommand(fault) => put_command_fault(output, fault),
        Shown::NoMoment(fault) => put_clock_fault(output, fault),
        Shown::EndedBy(fault) => put_end(output, fault),
        Shown::Run(run) => put_run(output, run),
        Shown::Task(row) => put_task(output, row),
        Shown::Pool(row) => put_pool(output, row),
        Shown::Reason(reason) => put_reason(output, reason),
        Shown::Unexplained(fault) => put_explain_fault(output, fault),
        Shown::Done => put_ok(output),
    }
}
