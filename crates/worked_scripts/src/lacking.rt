//! What is written where memory ran out.
use answer_lines::{Shown, put};
use command_words::UsageFault;
use director::Fault;
use pool_book::PoolFault;
use sched_core::Refusal;
use script_commands::{CommandFault, SourceFault};
use std::io::{self, Write};

/// Writes a line of each kind: of an event, of a pool, of words, and of a text.
pub(crate) fn put_lacks<W: Write>(output: &mut W) -> io::Result<()> {
    put(output, Shown::Failure(&Fault::Refused(Refusal::Memory)))?;
    let pool = Fault::Refused(Refusal::PoolFault(PoolFault::Memory));
    put(output, Shown::Failure(&pool))?;
    let words = CommandFault::Usage(UsageFault::Memory);
    put(output, Shown::NoCommand(words))?;
    put(
        output,
        Shown::NoCommand(CommandFault::Source(SourceFault::Memory)),
    )
}
