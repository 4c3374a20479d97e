//! What is to be told of a command.
//!
//! No contract holds this file: the sections `told` of `worked_scripts` show what it writes.
use crate::asked::Asked;
use crate::changes::push_old_slots;
use crate::commands::push_command;
use crate::due::push_begun;
use crate::held::Done;
use crate::idle::done_rest;
use crate::keys::nearest;
use crate::loads::Taken;
use crate::logs::push_name;
use crate::parts::Part::{Date, Number, Text};
use crate::parts::{push_words, say, say_more};
use crate::pools::push_resized;
use crate::records::{clock_text, push_end, push_store};
use crate::refusals::{push_refusal, push_unexplained};
use graph_file::{Name, TaskSpec};
use instance_machine::{Instance, Try};
use moment_core::Moment;
use sched_events::{Answer, Event, RunId};
use sched_state::Run;
use script_reader::{Fault, Schedule, Shown};
use std::alloc::{AllocError, Global};
use std::io;

/// What is to be told of a command, once its answer has reached its reader.
#[derive(Drop)]
pub struct Note {
    // A sentence, or nothing.
    pub(crate) text: String,
    pub(crate) rest: Rest,
}

/// What the schedule says beside a sentence.
#[derive(Drop)]
pub(crate) enum Rest {
    /// Nothing.
    Nothing,
    /// The moment that the clock has reached.
    Clock,
    /// The task instance whose try has this serial.
    Try(u64),
    /// What the graph of this text has and cannot mean, and what comes of it.
    Taken(Taken),
    /// The number of slots that a task of this graph has.
    OldSlots(Name, Name),
    /// Which graph was probably meant by this word.
    Near(String),
    /// Which task of the first, a graph, was probably meant by the second.
    Tasks(String, String),
    /// Why a command changed nothing.
    Idle(Done),
    /// What a command that changed something has left, and what holds back its runs, or what these hold back.
    Done(Done),
    /// What comes of the size that this pool has got.
    Pool(Name),
    /// Which of these runs begin very many.
    Begun(Vec<RunId>),
}

/// What is to be told of what was put for a command, of an event where it is one. `None` where there is nothing to tell.
pub fn note_of(
    alloc: Global,
    asked: Asked<'_>,
    event: Option<&Event>,
    shown: Shown<'_>,
) -> Result<Option<Note>, AllocError> {
    let mut text = String::new(alloc);
    let rest = push_shown(&mut text, asked, event, shown)?;
    if text.is_empty() && matches!(rest, Rest::Nothing) {
        return Ok(None);
    }
    Ok(Some(Note { text, rest }))
}

// Adds the sentence; what the schedule says beside it.
fn push_shown(
    sentence: &mut String,
    asked: Asked<'_>,
    event: Option<&Event>,
    shown: Shown<'_>,
) -> Result<Rest, AllocError> {
    match shown {
        Shown::Answer(done, answer) => push_done(sentence, done, answer),
        Shown::Failure(Fault::Refused(refusal)) => { push_refusal(sentence, asked, event, refusal) }
        Shown::Unexplained(fault) => push_unexplained(sentence, asked, fault),
        _ => {
            push_fault(sentence, asked, shown)?;
            Ok(Rest::Nothing)
        }
    }
}

// Adds the sentence of a fault that says all.
fn push_fault(sentence: &mut String, asked: Asked<'_>, shown: Shown<'_>) -> Result<(), AllocError> {
    match shown {
        Shown::Failure(Fault::Store(fault)) => push_store(sentence, fault),
        Shown::NoCommand(fault) => push_command(sentence, asked, fault),
        Shown::NoMoment(fault) => sentence.push_str(clock_text(fault)),
        Shown::EndedBy(fault) => push_end(sentence, fault),
        _ => Ok(()),
    }
}

// Adds the sentence beside an event that was done; what the schedule says beside it.
fn push_done(sentence: &mut String, done: &Event, answer: &Answer) -> Result<Rest, AllocError> {
    match done {
        Event::Load(text) => taken_rest(*sentence.allocator(), text.as_str(), false),
        Event::Replace(text) => taken_rest(*sentence.allocator(), text.as_str(), true),
        Event::Resize(pool, _) => Ok(Rest::Pool(pool.copy(*sentence.allocator())?)),
        _ => {
            sentence.push_str(trigger_text(done, answer))?;
            done_rest(*sentence.allocator(), done, answer)
        }
    }
}

// What the schedule says beside a text that was taken in.
fn taken_rest(alloc: Global, text: &str, is_change: bool) -> Result<Rest, AllocError> {
    Ok(Rest::Taken(Taken::new(alloc, text, is_change)?))
}

// That a run by hand has the date at which the clock of a new record stands, which is probably not meant.
fn trigger_text(done: &Event, answer: &Answer) -> &'static str {
    match (done, answer.made.as_slice().first()) {
        (Event::Trigger(_), Some(made)) if made.logical.secs() == 0 => {
            "the clock of this record was never moved, so the run is of 1970: say tick now before trigger"
        }
        _ => "",
    }
}

/// What is to be told of a file that the system does not give, for this cause.
pub(crate) fn unreadable_note(
    alloc: Global,
    path: &str,
    cause: &io::Error,
) -> Result<Note, AllocError> {
    let text = format!(in alloc; "{path} cannot be read: {cause}")?;
    let rest = Rest::Nothing;
    Ok(Note { text, rest })
}

// Which graph was probably meant by a word.
pub(crate) fn near_graph(alloc: Global, word: &str) -> Result<Rest, AllocError> {
    Ok(Rest::Near(String::from_str(alloc, word)?))
}

// Which task of a graph was probably meant by a word.
pub(crate) fn near_task(alloc: Global, graph: &str, word: &str) -> Result<Rest, AllocError> {
    let graph = String::from_str(alloc, graph)?;
    Ok(Rest::Tasks(graph, String::from_str(alloc, word)?))
}

impl Note {
    /// The sentence, with what this schedule says beside it; `None` where that is nothing.
    pub fn sentence(
        &self,
        alloc: Global,
        schedule: Option<&Schedule>,
    ) -> Result<Option<String>, AllocError> {
        let mut sentence = String::new(alloc);
        self.push(&mut sentence, schedule)?;
        if sentence.is_empty() {
            Ok(None)
        } else {
            Ok(Some(sentence))
        }
    }

    // Adds it.
    pub(crate) fn push(
        &self,
        sentence: &mut String,
        schedule: Option<&Schedule>,
    ) -> Result<(), AllocError> {
        sentence.push_str(self.text.as_str())?;
        match schedule {
            Some(schedule) => self.rest.push(sentence, schedule),
            None => Ok(()),
        }
    }

    // The tasks of the graph whose text was taken in, as this schedule has them; else none.
    pub(crate) fn tasks<'a>(&self, schedule: Option<&'a Schedule>) -> &'a [TaskSpec] {
        match (&self.rest, schedule) {
            (Rest::Taken(taken), Some(schedule)) => taken.tasks(schedule),
            _ => &[],
        }
    }
}

impl Rest {
    // Adds it, as this schedule says it.
    fn push(&self, sentence: &mut String, schedule: &Schedule) -> Result<(), AllocError> {
        match self {
            Rest::Nothing => Ok(()),
            Rest::Clock => push_clock(sentence, schedule),
            Rest::Try(serial) => push_try(sentence, schedule, *serial),
            Rest::Taken(taken) => taken.push(sentence, schedule),
            Rest::OldSlots(graph, task) => push_old_slots(sentence, schedule, graph, task),
            Rest::Near(word) => push_near(sentence, schedule, word.as_str()),
            Rest::Tasks(graph, word) => {
                push_tasks(sentence, schedule, graph.as_str(), word.as_str())
            }
            Rest::Idle(idle) => idle.push_why(sentence, schedule),
            Rest::Done(done) => done.push_rest(sentence, schedule),
            Rest::Pool(pool) => push_resized(sentence, schedule, pool),
            Rest::Begun(runs) => push_begun(sentence, schedule, runs.as_slice()),
        }
    }
}

// Adds which graph was probably meant by a word, or how those that there are are shown.
fn push_near(sentence: &mut String, schedule: &Schedule, word: &str) -> Result<(), AllocError> {
    let names = names_in(*sentence.allocator(), schedule)?;
    push_nearest(sentence, word, names.as_slice())
}

// The names of the graphs.
fn names_in(alloc: Global, schedule: &Schedule) -> Result<Vec<&str>, AllocError> {
    let mut names = Vec::new(alloc);
    for graph in schedule.graphs() {
        names.push(graph.dag.spec().dag_id.as_str())?;
    }
    Ok(names)
}

fn push_nearest(sentence: &mut String, word: &str, names: &[&str]) -> Result<(), AllocError> {
    match nearest(*sentence.allocator(), word, names)? {
        Some(meant) => say(sentence, "; did you mean \"{}\"?", &[Text(meant)]),
        None if names.is_empty() => sentence.push_str("; the record has none yet"),
        None => sentence.push_str("; list dags shows those it has"),
    }
}

// Adds which task of a graph was probably meant by a word, and those that it has.
fn push_tasks(
    sentence: &mut String,
    schedule: &Schedule,
    graph: &str,
    word: &str,
) -> Result<(), AllocError> {
    let tasks = tasks_of(*sentence.allocator(), schedule, graph)?;
    push_nearest_task(sentence, word, tasks.as_slice())
}

fn push_nearest_task(sentence: &mut String, word: &str, tasks: &[&str]) -> Result<(), AllocError> {
    match nearest(*sentence.allocator(), word, tasks)? {
        Some(meant) => say(sentence, "; did you mean \"{}\"? The", &[Text(meant)])?,
        None => sentence.push_str("; the")?,
    }
    sentence.push_str(" tasks of the graph are ")?;
    push_words(sentence, tasks)
}

// The names of the tasks of a graph.
fn tasks_of<'a>(
    alloc: Global,
    schedule: &'a Schedule,
    graph: &str,
) -> Result<Vec<&'a str>, AllocError> {
    let mut names = Vec::new(alloc);
    for loaded in schedule.graphs() {
        if loaded.dag.spec().dag_id.as_str() == graph {
            for task in loaded.dag.spec().tasks.as_slice() {
                names.push(task.task_id.as_str())?;
            }
        }
    }
    Ok(names)
}

// Adds the moment that the clock has reached.
pub(crate) fn push_clock(sentence: &mut String, schedule: &Schedule) -> Result<(), AllocError> {
    let now = schedule.now();
    if now.secs() == 0 {
        return sentence.push_str("; the record's clock was never moved: say tick now first");
    }
    say(sentence, "; the record's clock stands at {}", &[Date(now)])
}

// Adds that the runs of a graph wait since it is paused.
pub(crate) fn push_paused(sentence: &mut String, id: &Name) -> Result<(), AllocError> {
    say_more(
        sentence,
        "the graph is paused, so its runs wait until unpause {}",
        &[Text(id.as_str())],
    )
}

// Adds the task instance whose try has this serial, and since when that has run.
fn push_try(sentence: &mut String, schedule: &Schedule, serial: u64) -> Result<(), AllocError> {
    let Some(found) = place_of(schedule, serial) else {
        return Ok(());
    };
    sentence.push_str(": ")?;
    push_name(sentence, found.run, found.task)?;
    sentence.push_str(" is in flight")?;
    match found.started {
        Some(moment) => say(
            sentence,
            " since {}; in a service end FOLDER {} ends one that hangs",
            &[Date(moment), Number(serial)],
        ),
        None => Ok(()),
    }
}

// The run and the task of a try, and when it has begun.
#[derive(Clone, Copy)]
struct Placed<'a> {
    run: &'a Run,
    task: &'a TaskSpec,
    started: Option<Moment>,
}

// Those of the try with this serial.
fn place_of(schedule: &Schedule, serial: u64) -> Option<Placed<'_>> {
    for run in schedule.runs() {
        let graph = schedule.graph_of(&run.graph)?;
        for (place, instance) in run.instances.as_slice().iter().enumerate() {
            if place < graph.dag.len() {
                if let Some(one) = try_of(instance, serial) {
                    let (task, started) = (graph.dag.task(place), one.started);
                    return Some(Placed { run, task, started });
                }
            }
        }
    }
    None
}

fn try_of(instance: &Instance, serial: u64) -> Option<&Try> {
    for one in instance.tries() {
        if one.serial == serial {
            return Some(one);
        }
    }
    None
}

// Adds the first task that needs more slots than its pool has.
pub(crate) fn push_slots(
    sentence: &mut String,
    schedule: &Schedule,
    graph: &Name,
) -> Result<(), AllocError> {
    let Some(graph) = schedule.graph_of(graph) else {
        return Ok(());
    };
    for task in graph.dag.spec().tasks.as_slice() {
        let needed = task.pool_slots.get();
        let size = size_of(schedule, &task.pool);
        if size < needed {
            return push_need(sentence, task, needed, size);
        }
    }
    Ok(())
}

// Adds that a task needs more slots than its pool has.
fn push_need(
    sentence: &mut String,
    task: &TaskSpec,
    needed: u32,
    size: u32,
) -> Result<(), AllocError> {
    let pool = task.pool.as_str();
    let slots = if needed == 1 { "slot" } else { "slots" };
    let needed = u64::from(needed);
    say_more(
        sentence,
        "task \"{}\" needs {} {} of the pool \"{}\", which has {}: it waits until resize {} {}",
        &[
            Text(task.task_id.as_str()),
            Number(needed),
            Text(slots),
            Text(pool),
            Number(u64::from(size)),
            Text(pool),
            Number(needed),
        ],
    )
}

// How many slots a pool has.
pub(crate) fn size_of(schedule: &Schedule, pool: &Name) -> u32 {
    for row in schedule.pools() {
        if row.name.as_str() == pool.as_str() {
            return row.size;
        }
    }
    0
}
