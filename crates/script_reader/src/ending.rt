//! The end of a script.
ghost use Rattle.std.specs.Prelude.{◌≡◌, true, OnOk};
ghost use Rattle.std.specs.Io.KnownBytes.{Appends};
ghost use Rattle.script_reader.specs.Ends as spec;
ghost use Rattle.script_reader.specs.Ends.{last_text};

use crate::answers::Answers;
use crate::console::Console;
use crate::reader::ScriptReader;
use crate::sources::Sources;
use answer_lines::{ConductFault, Schedule};
use std::io::{Read, Write};

/// What a script leaves that was run.
#[derive(Drop)]
pub struct Closed<F: Sources, W: Write + Drop> {
    /// Its status: that of its answers, or of the fault that the run ended with; 4 where not all that was put is written.
    pub status: u8,
    /// Whether all that was put is written: the answers, and the line of that fault.
    pub told: bool,
    /// Where its texts came from.
    pub sources: F,
    /// Where the answers went.
    pub output: W,
}

impl<R: Read + Drop, W: Write + Drop, F: Sources, P: Console> ScriptReader<R, W, F, P> {
    /// Ends a script that was run and has left this schedule. Where the run ended with a fault, its line is written: `conduct N Name`, or `memory`.
    pub fn close<T>(self, schedule: &Schedule, outcome: &Result<T, ConductFault>) -> Closed<F, W>
        ensures told { result.told ≡ true → (self.answers.is_written ≡ true)
            × Appends (W.contents self.answers.output) (W.contents result.output) (last_text outcome.now) }
        ensures well { OnOk outcome.now (result.told ≡ self.answers.is_written) }
        ensures status { result.status ≡ spec.end_status result.told self.answers.status outcome.now }
        ensures sources { result.sources ≡ self.sources }
    {
        let ScriptReader {
            mut answers,
            sources,
            ..
        } = self;
        answers.console.wait_is_over();
        let _ = answers.end(outcome);
        answers.console.tell(Some(schedule));
        let Answers {
            output,
            status,
            is_written,
            ..
        } = answers;
        Closed {
            status: end_status(is_written, status, outcome),
            told: is_written,
            sources,
            output,
        }
    }
}

// The status of a script, by the greatest of its answers.
fn end_status<T>(told: bool, answers: u8, outcome: &Result<T, ConductFault>) -> u8
    ensures { result ≡ spec.end_status told answers outcome.now }
{
    if !told {
        return 4;
    }
    match outcome {
        Ok(_) => answers,
        Err(ConductFault::StoreThrice(_)) => answers.max(3),
        Err(_) => 4,
    }
}
