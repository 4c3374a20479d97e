//! The turns of reports: a task instance of which tries are handed out, and to which reports come, one after another.
use graph_file::Bounded;
use instance_machine::{Instance, Outcome, Stage};
use moment_core::Moment;
use std::io;

/// Writes the answer to a question about an instance.
pub(crate) fn write_answer(rt: &HostRuntime, word: &str, rest: &str) -> io::Result<()> {
    match word {
        "turns" => write_turns(rt, rest),
        _ => rt.print("no such word"),
    }
}

// Those of the words that are in turn, in an instance that is new.
fn write_turns(rt: &HostRuntime, words: &str) -> io::Result<()> {
    let mut instance = Instance::new(rt.alloc());
    rt.print("taken:")?;
    for word in words.split(' ') {
        if is_taken(&mut instance, word)? {
            print!(rt; " {word}")?;
        }
    }
    Ok(())
}

// Hands out a try, or has the report come to the last one. Whether it was in turn.
fn is_taken(instance: &mut Instance, word: &str) -> io::Result<bool> {
    if word == "handed" {
        instance.hand_out(1, Bounded::new(1))?;
        return Ok(true);
    }
    Ok(match stage_of(word) {
        Some(stage) => instance.apply_report(stage, Moment::at(0)).is_ok(),
        None => false,
    })
}

// What a worker reports, by its word.
fn stage_of(word: &str) -> Option<Stage> {
    match word {
        "started" => Some(Stage::Started),
        "success" => Some(Stage::Ended(Outcome::Success)),
        "failed" => Some(Stage::Ended(Outcome::Failed)),
        "skipped" => Some(Stage::Ended(Outcome::Skipped)),
        "lost" => Some(Stage::Ended(Outcome::Lost)),
        _ => None,
    }
}
