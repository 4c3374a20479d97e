//! What a person is told beside the answers.
//!
//! No contract says what that is, and no promise rests on it: `fault_sentences` has the words.
use answer_lines::{Schedule, Shown};
use sched_events::Event;
use script_commands::LineReader;

/// Where a command of a script stands.
#[derive(Clone, Copy, Debug)]
pub struct Spot<'a> {
    /// The number of its last line, from 1.
    pub number: u64,
    /// That line, without its newline; of a longer one than 65,536 bytes so many of them.
    pub line: &'a [u8],
}

impl<'a> Spot<'a> {
    // That of the line that was read last.
    pub(crate) fn of(lines: &'a LineReader) -> Spot<'a> {
        Spot {
            number: lines.number(),
            line: lines.line(),
        }
    }
}

/// Tells a person what the answers do not, on a stream of its own.
///
/// It is given what it may tell of, and gives nothing back: nothing that it does or fails in changes an answer, a status or the record.
pub trait Console: Drop {
    /// A report is waited for next, and the schedule stands so.
    fn waits(&mut self, schedule: &Schedule);

    /// The wait is over: what was shown of it goes away.
    fn wait_is_over(&mut self);

    /// This event, which the command at this spot asks for, is stepped next: what is to be told of it before its answer.
    fn hear(&mut self, spot: Spot<'_>, event: &Event);

    /// This is put where the answers go, for the command at this spot or for the program's own words; an event is given beside what came of it.
    fn put(&mut self, spot: Option<Spot<'_>>, event: Option<&Event>, shown: Shown<'_>);

    /// What was put has reached its reader, so what is to be told of it may follow. The schedule stands so, where there is one.
    fn tell(&mut self, schedule: Option<&Schedule>);
}

/// Tells nothing.
#[derive(Clone, Copy, Debug, Drop)]
pub struct NoConsole;

impl Console for NoConsole {
    fn waits(&mut self, _schedule: &Schedule) {}

    fn wait_is_over(&mut self) {}

    fn hear(&mut self, _spot: Spot<'_>, _event: &Event) {}

    fn put(&mut self, _spot: Option<Spot<'_>>, _event: Option<&Event>, _shown: Shown<'_>) {}

    fn tell(&mut self, _schedule: Option<&Schedule>) {}
}
