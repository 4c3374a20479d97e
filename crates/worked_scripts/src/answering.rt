//! What comes of a command of a script.
use crate::explaining::answer_question;
use crate::records::Directed;
use crate::stepping::step;
use answer_lines::{Shown, put, put_listing};
use script_commands::{CommandFault, ScriptCommand};
use sqlite::Alter;
use std::alloc::Global;
use std::io::{self, Write};

/// Does a command, or writes why there is none.
pub(crate) fn answer<S: Alter + Drop, W: Write>(
    alloc: Global,
    directed: &mut Directed<S>,
    request: Result<ScriptCommand, CommandFault>,
    output: &mut W,
) -> io::Result<()> {
    match request {
        Ok(ScriptCommand::Step(event)) => step(alloc, directed, &event, output),
        Ok(ScriptCommand::List(listing)) => put_listing(output, directed.schedule(), listing),
        Ok(ScriptCommand::Explain(question)) => {
            answer_question(alloc, directed.schedule(), &question, output)
        }
        Ok(ScriptCommand::TakeFile(_, _) | ScriptCommand::TickNow | ScriptCommand::Drain) =>
            output.write_all(b"not here\n"),
        Err(fault) => put(output, Shown::NoCommand(fault)),
    }
}
