//! The statuses of what is not done.
ghost use Rattle.std.specs.Prelude.{◌≡◌};
ghost use Rattle.script_reader.specs.Statuses as spec;

use answer_lines::{ExplainFault, Fault};
use command_words::UsageFault;
use sched_events::Refusal;
use script_commands::CommandFault;

/// The status of an event that is not stepped, or a record that is not opened: 1 where it is refused, 3 for a fault of the record, 4 for want
/// of memory.
pub fn failure_status(fault: &Fault) -> u8
    ensures { result ≡ spec.failure_status fault.now }
{
    match fault {
        Fault::Refused(refusal) => refusal_status(refusal),
        Fault::Store(_) => 3,
        Fault::Memory => 4,
    }
}

fn refusal_status(refusal: &Refusal) -> u8
    ensures { result ≡ spec.refusal_status refusal.now }
{
    match refusal {
        Refusal::Memory => 4,
        _ => 1,
    }
}

/// The status of what is no command: 2 for its words, 4 where its text could not be had or memory ran out.
pub fn command_status(fault: CommandFault) -> u8
    ensures { result ≡ spec.command_status fault }
{
    match fault {
        CommandFault::Usage(fault) => usage_status(fault),
        CommandFault::Source(_) => 4,
    }
}

fn usage_status(fault: UsageFault) -> u8
    ensures { result ≡ spec.usage_status fault }
{
    match fault {
        UsageFault::Memory => 4,
        _ => 2,
    }
}

/// The status of a question without an answer: 1 where something is not there, 4 for want of memory.
pub fn explain_status(fault: ExplainFault) -> u8
    ensures { result ≡ spec.explain_status fault }
{
    match fault {
        ExplainFault::Memory => 4,
        _ => 1,
    }
}
