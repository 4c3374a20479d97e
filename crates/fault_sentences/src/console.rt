//! What a person is told beside the answers: sentences, and a line on a terminal that says how a drain goes on.
//!
//! No contract holds this file: the sections `told` of `worked_scripts` show what it writes.
use crate::asked::Asked;
use crate::due::runs_of;
use crate::lines::one_line;
use crate::loads::Loads;
use crate::logs::Failure;
use crate::notes::{Note, Rest, note_of, unreadable_note};
use crate::parts::Part::{Number, Text};
use crate::parts::say;
use crate::programs::Search;
use crate::totals::Totals;
use crate::tries::{Told, Untold, ended_since, lost_at_restart};
use moment_core::Moment;
use sched_events::{Answer, Event};
use script_commands::{CommandFault, SourceFault};
use script_reader::{Console, Schedule, Shown, Spot};
use std::alloc::{AllocError, Global};
use std::io::{self, IsTerminal, Read, Write};
use std::rt::{Clock, Files};
use std::time::{Duration, Instant, SystemTime};
use std::{fs, str};

// How many milliseconds a line stands before it is written anew.
const PAUSE: u64 = 100;

// A tick this many seconds ahead of the system's clock is told of: a day.
const FAR: u64 = 86_400;

const AHEAD: &str =
    "this is more than a day ahead of the system's clock, and the record's clock never goes back: until then tick now is refused";

/// Sentences on what was not done and on tries that failed, each a line; and to a terminal a line that says how many tries are in flight, and how many
/// task instances are done, failed and wait. That line is written over at most ten times a second.
///
/// Where memory runs out for a sentence, or it cannot be written, it is dropped.
#[derive(Drop)]
pub struct SentenceConsole<R: Clock + Files + Drop, W: Write + Drop> {
    rt: R,
    alloc: Global,
    // The program's own words.
    words: Vec<String>,
    // The folders of PATH, where it is to be looked whether a program can be started.
    path: Option<String>,
    output: W,
    is_terminal: bool,
    // When the line was written that stands there.
    written: Option<Instant>,
    // What is to be told of the command that was read last, with the number of its line.
    note: Option<(Option<u64>, Note)>,
    // Whether it was a question outside of scripts, which has restarted nothing.
    is_question: bool,
    // The graphs that the script has taken in.
    loads: Loads,
    // The tries whose ends are still to be told; none before the first command.
    untold: Option<Untold>,
    // The folders of which it was told that a log in them could not be opened.
    unopened: Vec<String>,
}

impl<R: Clock + Files + Alloc + Clone + Drop, W: Write + IsTerminal + Drop> SentenceConsole<R, W> {
    /// With nothing told yet. These are the program's own words, and the folders of PATH, in which programs are looked for; without these it is not said
    /// that one cannot be started.
    pub fn new(
        rt: R,
        alloc: Global,
        words: Vec<String>,
        path: Option<String>,
        output: W,
    ) -> SentenceConsole<R, W> {
        let is_terminal = output.is_terminal();
        SentenceConsole::over(rt, alloc, words, path, output, is_terminal)
    }
}

impl<R: Clock + Files + Alloc + Clone + Drop> SentenceConsole<R, Vec<u8>> {
    /// The same, with what is told kept in memory, without the line on a terminal, and without a look for programs.
    pub fn in_memory(rt: R, alloc: Global, words: Vec<String>) -> SentenceConsole<R, Vec<u8>> {
        SentenceConsole::over(rt, alloc, words, None, Vec::new(alloc), false)
    }
}

impl<R: Clock + Files + Alloc + Clone + Drop, W: Write + Drop> SentenceConsole<R, W> {
    fn over(
        rt: R,
        alloc: Global,
        words: Vec<String>,
        path: Option<String>,
        output: W,
        is_terminal: bool,
    ) -> SentenceConsole<R, W> {
        SentenceConsole {
            rt,
            alloc,
            words,
            path,
            output,
            is_terminal,
            written: None,
            note: None,
            is_question: false,
            loads: Loads::new(alloc),
            untold: None,
            unopened: Vec::new(alloc),
        }
    }

    /// Where it has told what it told.
    pub fn into_output(self) -> W {
        let SentenceConsole { output, .. } = self;
        output
    }

    // Whether the line that stands there is to stand on.
    fn stands_on(&self, now: Instant) -> bool {
        match self.written {
            Some(written) => now.duration_since(written) < Duration::from_millis(PAUSE),
            None => false,
        }
    }

    // Writes the line over the one that stands there.
    fn put_totals(&mut self, schedule: &Schedule) -> io::Result<()> {
        let Totals {
            in_flight,
            done,
            failed,
            waiting,
        } = Totals::of(schedule);
        write!(
            self.output,
            "\r{in_flight} in flight, {done} done, {failed} failed, {waiting} waiting\x1b[K"
        )
    }

    // What is to be told of what was put for the command at this spot.
    fn note_at(
        &self,
        spot: Option<Spot<'_>>,
        event: Option<&Event>,
        shown: Shown<'_>,
    ) -> Result<Option<Note>, AllocError> {
        match spot {
            Some(spot) => {
                let line = str::from_utf8(spot.line).unwrap_or("");
                self.note_on(Asked::Line(spot.number, line), event, shown)
            }
            None => note_of(self.alloc, Asked::Own(self.words.as_slice()), event, shown),
        }
    }

    // The same of a line of a script.
    fn note_on(
        &self,
        asked: Asked<'_>,
        event: Option<&Event>,
        shown: Shown<'_>,
    ) -> Result<Option<Note>, AllocError> {
        match shown {
            Shown::NoCommand(CommandFault::Source(SourceFault::Unreadable)) => {
                self.unread_note(asked, shown)
            }
            Shown::Answer(Event::Tick(_), answer) => self.tick_note(answer),
            _ => note_of(self.alloc, asked, event, shown),
        }
    }

    // The same of a file that cannot be read.
    fn unread_note(&self, asked: Asked<'_>, shown: Shown<'_>) -> Result<Option<Note>, AllocError> {
        let path = asked.path(self.alloc)?.unwrap_or("");
        match self.why_unreadable(path) {
            Some(cause) if !path.ends_with('\r') => {
                Ok(Some(unreadable_note(self.alloc, path, &cause)?))
            }
            _ => note_of(self.alloc, asked, None, shown),
        }
    }

    // What is to be told of a tick that was accepted: that it has begun very many runs.
    fn tick_note(&self, answer: &Answer) -> Result<Option<Note>, AllocError> {
        let rest = begun_rest(self.alloc, answer)?;
        let text = String::new(self.alloc);
        Ok(Some(Note { text, rest }))
    }

    // Whether a moment is far ahead of the system's clock.
    fn is_far(&self, moment: Moment) -> bool {
        match SystemTime::now(&self.rt) {
            Ok(now) => is_ahead(moment, now),
            Err(_) => false,
        }
    }

    // Why the system does not give this file.
    fn why_unreadable(&self, path: &str) -> Option<io::Error> {
        match fs::open(&self.rt, path) {
            Ok(file) => {
                let mut file = file;
                let mut byte = [0];
                file.read(&mut byte).err()
            }
            Err(error) => Some(error),
        }
    }

    // Writes the sentence of a note.
    fn put_note(
        &mut self,
        number: Option<u64>,
        note: &mut Note,
        schedule: Option<&Schedule>,
    ) -> io::Result<()> {
        if let (Some(line), Rest::Taken(taken), Some(schedule)) = (
            number,
            &mut note.rest,
            schedule,
        ) {
            self.loads.take(self.alloc, line, taken, schedule)?;
        }
        let mut text = String::new(self.alloc);
        note.push(&mut text, schedule)?;
        if let Some(search) = self.search() {
            search.push_task(&mut text, note.tasks(schedule))?;
        }
        self.put_sentence(number, text.as_str())
    }

    // Where programs are looked for.
    fn search(&self) -> Option<Search<'_, R>> {
        let path = self.path.as_ref()?.as_str();
        Some(Search { rt: &self.rt, path })
    }

    // Writes a sentence, if it says something, with the number of the line that it is of.
    fn put_sentence(&mut self, number: Option<u64>, text: &str) -> io::Result<()> {
        if text.is_empty() {
            return Ok(());
        }
        let line = line_of(self.alloc, number, text)?;
        self.output.write_all(line.as_bytes())
    }

    // Says what became of tries: at first of those that the restart has lost, and then of those that have ended since.
    fn put_tries(&mut self, schedule: &Schedule) -> io::Result<()> {
        match self.told_at(schedule)? {
            Some(told) => self.put_told(told),
            None => Ok(()),
        }
    }

    fn put_told(&mut self, told: Told) -> io::Result<()> {
        let Told {
            text,
            failures,
            untold,
        } = told;
        self.untold = Some(untold);
        self.put_sentence(None, text.as_str())?;
        self.put_failures(failures.as_slice())
    }

    // Says where the logs of tries are, and which programs were not started.
    fn put_failures(&mut self, failures: &[Failure]) -> io::Result<()> {
        for failure in failures {
            self.put_log(failure)?;
            self.put_program(failure)?;
        }
        Ok(())
    }

    // Says where a log is; that it could not be opened once for all logs of a graph.
    fn put_log(&mut self, failure: &Failure) -> io::Result<()> {
        let fault = failure.log_fault(&self.rt);
        if fault.is_some() && !self.is_first(failure.folder().unwrap_or(""))? {
            return Ok(());
        }
        let mut text = String::new(self.alloc);
        failure.push_log(&mut text, fault.as_ref())?;
        self.put_sentence(None, text.as_str())
    }

    // Whether it was not told yet of this folder that a log in it could not be opened. It is from then on.
    fn is_first(&mut self, folder: &str) -> Result<bool, AllocError> {
        for told in self.unopened.as_slice() {
            if told.as_str() == folder {
                return Ok(false);
            }
        }
        let folder = String::from_str(self.alloc, folder)?;
        self.unopened.push(folder)?;
        Ok(true)
    }

    // Says why the program of a try was not started, where that is seen.
    fn put_program(&mut self, failure: &Failure) -> io::Result<()> {
        let mut text = String::new(self.alloc);
        if let Some(search) = self.search() {
            failure.push_program(&mut text, search)?;
        }
        self.put_sentence(None, text.as_str())
    }

    // What is to be told of tries at this schedule, if some have ended.
    fn told_at(&self, schedule: &Schedule) -> Result<Option<Told>, AllocError> {
        match &self.untold {
            None => Ok(Some(lost_at_restart(self.alloc, schedule)?)),
            Some(untold) => ended_since(self.alloc, schedule, untold, self.logs()),
        }
    }

    // The folder of the logs, where the program was asked to keep some.
    fn logs(&self) -> Option<&str> {
        let mut is_next = false;
        for word in self.words.as_slice() {
            let word = word.as_str();
            if is_next {
                return Some(word);
            }
            if let Some(folder) = word.strip_prefix("--logs=") {
                return Some(folder);
            }
            is_next = word == "--logs";
        }
        None
    }
}

// A sentence as a line, with the number of the line that it is of.
fn line_of(alloc: Global, number: Option<u64>, text: &str) -> Result<String, AllocError> {
    let mut line = String::new(alloc);
    match number {
        Some(number) => say(&mut line, "line {}: {}", &[Number(number), Text(text)])?,
        None => say(&mut line, "dagsched: {}", &[Text(text)])?,
    }
    one_line(alloc, line.as_str())
}

// What the schedule says beside a tick: which of the runs that it has made begin very many.
fn begun_rest(alloc: Global, answer: &Answer) -> Result<Rest, AllocError> {
    if answer.more {
        Ok(Rest::Begun(runs_of(alloc, answer)?))
    } else {
        Ok(Rest::Nothing)
    }
}

// Whether a moment is far ahead of a reading of the clock.
fn is_ahead(moment: Moment, now: SystemTime) -> bool {
    match now.duration_since(SystemTime::UNIX_EPOCH) {
        Ok(since) => since.as_secs().saturating_add(FAR) < moment.secs(),
        Err(_) => false,
    }
}

// The number of the line at a spot.
fn number_at(spot: Option<Spot<'_>>) -> Option<u64> {
    Some(spot?.number)
}

impl<R: Clock + Files + Alloc + Clone + Drop, W: Write + Drop> Console for SentenceConsole<R, W> {
    // A terminal that takes no line changes nothing else.
    fn waits(&mut self, schedule: &Schedule) {
        if !self.is_terminal {
            return;
        }
        let Ok(now) = Instant::now(&self.rt) else {
            return;
        };
        if self.stands_on(now) {
            return;
        }
        let _ = self.put_totals(schedule);
        // from the end of the work on, of which a great schedule asks much
        self.written = match Instant::now(&self.rt) {
            Ok(later) => Some(later),
            Err(_) => Some(now),
        };
    }

    fn wait_is_over(&mut self) {
        if self.written.take().is_some() {
            let _ = self.output.write_all(b"\r\x1b[K");
        }
    }

    fn hear(&mut self, spot: Spot<'_>, event: &Event) {
        if let Event::Tick(moment) = event {
            if self.is_far(*moment) {
                let _ = self.put_sentence(Some(spot.number), AHEAD);
            }
        }
    }

    fn put(&mut self, spot: Option<Spot<'_>>, event: Option<&Event>, shown: Shown<'_>) {
        self.note = match self.note_at(spot, event, shown) {
            Ok(Some(note)) => Some((number_at(spot), note)),
            _ => None,
        };
        self.is_question = spot.is_none() && matches!(shown, Shown::Unexplained(_));
    }

    fn tell(&mut self, schedule: Option<&Schedule>) {
        if let Some((number, note)) = self.note.take() {
            let mut note = note;
            let _ = self.put_note(number, &mut note, schedule);
        }
        if let (Some(schedule), false) = (schedule, self.is_question) {
            let _ = self.put_tries(schedule);
        }
    }
}
