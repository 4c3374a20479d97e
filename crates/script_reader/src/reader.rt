//! A script that is read command by command, and answered line by line.
ghost use Rattle.std.specs.Prelude.{◌≡◌, ℕ, true, is_err, IfErr, IfOk, IfSome};
ghost use Rattle.answer_lines.specs.sessions.Lines.{may_be_read};
ghost use Rattle.script_reader.specs.Commands.{is_end, line_of};
ghost use Rattle.script_reader.specs.Readers.{DoMore, IsNew};

use crate::answers::Answers;
use crate::commands::CommandInput;
use crate::console::Console;
use crate::doing::do_command;
use crate::scripts::Script;
use crate::sources::Sources;
use answer_lines::{Line, LineFault, Schedule};
use std::alloc::Global;
use std::io::{self, ErrorKind, Read, Write};

// How many commands are read before reading ends in an error.
const MOST_COMMANDS: u64 = 1 << 40;

/// A script that is read command by command, and answered line by line.
#[derive(Drop)]
pub struct ScriptReader<R: Read + Drop, W: Write + Drop, F: Sources, P: Console> {
    pub(crate) commands: CommandInput<R>,
    pub(crate) answers: Answers<W, P>,
    pub(crate) sources: F,
    pub(crate) failed: Option<LineFault>,
    pub(crate) is_over: bool,
}

impl<R: Read + Drop, W: Write + Drop, F: Sources, P: Console> ScriptReader<R, W, F, P> {
    /// A script of which nothing is read yet. Where memory runs out, it is given back.
    pub fn new(alloc: Global, script: Script<R, W, F, P>) -> Result<Self, Script<R, W, F, P>>
        ensures new { IfOk result (IsNew script) }
        ensures kept { IfErr result (λ left. left ≡ script) }
    {
        let Script {
            input,
            output,
            sources,
            console,
        } = script;
        match CommandInput::new(alloc, input) {
            Ok(commands) => Ok(ScriptReader {
                commands,
                answers: Answers::new(output, console),
                sources,
                failed: None,
                is_over: false,
            }),
            Err(input) => Err(Script {
                input,
                output,
                sources,
                console,
            }),
        }
    }

    /// The script, of which what was not read is left.
    pub fn into_script(self) -> Script<R, W, F, P>
        ensures { result ≡ record { input = self.commands.input; output = self.answers.output; sources = self.sources; console = self.answers.console } }
    {
        let ScriptReader {
            commands,
            answers,
            sources,
            ..
        } = self;
        let CommandInput { input, .. } = commands;
        let Answers {
            output,
            console,
            ..
        } = answers;
        Script {
            input,
            output,
            sources,
            console,
        }
    }
}

// Reads and answers commands, up to one that leaves a line to the run; nothing where the script is over.
pub(crate) fn read_line<R: Read + Drop, W: Write + Drop, F: Sources, P: Console>(
    schedule: &Schedule,
    commands: &mut CommandInput<R>,
    answers: &mut Answers<W, P>,
    sources: &mut F,
) -> io::Result<Option<Line>>
    ensures told { (times : ℕ) × DoMore R.remaining W.contents F.gives times schedule.now.content (line_of result) (is_err result) (is_end result)
        commands.old answers.old sources.old commands.new answers.new sources.new }
    ensures line { IfOk result (λ next. IfSome next (λ line. may_be_read line ≡ true)) }
{
    for _command in 0..MOST_COMMANDS {
        answers.flush(schedule)?;
        match commands.next()? {
            None => return Ok(None),
            Some(request) => match do_command(
                commands.alloc,
                commands.spot(),
                schedule,
                request,
                answers,
                sources,
            )? {
                None => {}
                Some(line) => {
                    answers.announce(commands.spot(), &line);
                    return Ok(Some(line));
                }
            },
        }
    }
    Err(io::Error::from(ErrorKind::Other))
}
