//! What is done of one command when it is read.
ghost use Rattle.std.specs.Prelude.{◌≡◌, true, Err, List, MatchResult, IfOk, IfSome, None, Ok};
ghost use Rattle.sched_model.specs.Schedule.{Schedule as ScheduleModel};
ghost use Rattle.script_commands.specs.Commands.{is_asked};
ghost use Rattle.script_commands.specs.declared.commands.ScriptCommand.TheVariants.{TakeFile};
ghost use Rattle.answer_lines.specs.sessions.Lines.{may_be_read};
ghost use Rattle.script_reader.specs.Commands.{Does};
ghost use Rattle.script_reader.specs.Done.{AnswersMore, FileAnswer};

use crate::answers::Answers;
use crate::console::{Console, Spot};
use crate::sources::Sources;
use answer_lines::{Line, Schedule};
use command_words::{FilePath, Taking};
use sched_state::GraphText;
use script_commands::{CommandFault, ScriptCommand};
use std::alloc::Global;
use std::io::{self, Write};

/// Does one command: the line that it leaves to the run, or none where it is answered.
pub(crate) fn do_command<W: Write + Drop, F: Sources, P: Console>(
    alloc: Global,
    spot: Spot<'_>,
    schedule: &Schedule,
    request: Result<ScriptCommand, CommandFault>,
    answers: &mut Answers<W, P>,
    sources: &mut F,
) -> io::Result<Option<Line>>
    requires asked { is_asked request ≡ true }
    ensures does { (texts : List FileAnswer) × AnswersMore F.gives texts sources.old sources.new
        × Does W.contents schedule.now.content request texts result answers.old answers.new }
    ensures line { IfOk result (λ next. IfSome next (λ line. may_be_read line ≡ true)) }
{
    match request {
        Ok(ScriptCommand::Step(event)) => Ok(Some(Line::Event(event))),
        Ok(ScriptCommand::TakeFile(taking, path)) => take(spot, taking, &path, answers, sources),
        Ok(ScriptCommand::TickNow) => Ok(Some(Line::TickNow)),
        Ok(ScriptCommand::Drain) => Ok(Some(Line::Drain)),
        Ok(ScriptCommand::List(listing)) => done(answers.list(schedule, listing)),
        Ok(ScriptCommand::Explain(question)) => {
            done(answers.explain(alloc, spot, schedule, &question))
        }
        Err(fault) => done(answers.refuse(spot, fault)),
    }
}

// The event that takes in the file at this path.
fn take<W: Write + Drop, F: Sources, P: Console>(
    spot: Spot<'_>,
    taking: Taking,
    path: &FilePath,
    answers: &mut Answers<W, P>,
    sources: &mut F,
) -> io::Result<Option<Line>>
    ensures does { (texts : List FileAnswer) × AnswersMore F.gives texts sources.old sources.new
        × ((a : ScheduleModel) → Does W.contents a (Ok (TakeFile taking path.now)) texts result answers.old answers.new) }
    ensures line { IfOk result (λ next. IfSome next (λ line. may_be_read line ≡ true)) }
{
    match sources.text(path.as_str()) {
        Ok(text) => {
            let event = taking.event(GraphText::from_string(text));
            Ok(Some(Line::Event(event)))
        }
        Err(fault) => done(answers.refuse(spot, CommandFault::Source(fault))),
    }
}

// A command whose answer was put so leaves no line.
fn done(put: io::Result<()>) -> io::Result<Option<Line>>
    ensures { MatchResult put (λ _. result ≡ Ok None) (λ error. result ≡ Err error) }
{
    match put {
        Ok(()) => Ok(None),
        Err(error) => Err(error),
    }
}
