//! Sentences on the texts of graphs.
//!
//! No contract holds this file: the sections `told` of `worked_scripts` show what it writes.
use crate::keys::{push_key, push_schedule, push_unknown, text_of};
use crate::parts::Part::Text;
use crate::parts::say;
use crate::places::{Source, line_of_task};
use dag_check::DagFault;
use graph_file::{GraphFault, Key, Name, Place, TaskSpec, faulty_key, unknown_name};
use std::alloc::AllocError;
use toml::Table;

// What is said of a string within which a line ends.
const UNCLOSED: &str =
    "; its quote is not closed on this line: several lines stand between ''' and '''";

// Adds why a text is no graph file.
pub(crate) fn push_graph(
    sentence: &mut String,
    source: Source<'_>,
    fault: GraphFault,
) -> Result<(), AllocError> {
    match fault {
        GraphFault::Memory => Ok(()),
        GraphFault::TooMany | GraphFault::NoTask => {
            source.push_line(sentence, None)?;
            sentence.push_str(whole_text(fault))
        }
        _ => match toml::table_from_str(*sentence.allocator(), source.text) {
            Ok(file) => push_placed(sentence, source, fault, &file),
            Err(error) => push_toml(sentence, source, &error),
        },
    }
}

// What is said of a file with a fault that has no place.
fn whole_text(fault: GraphFault) -> &'static str {
    if fault == GraphFault::NoTask {
        "the graph has no task: write [[task]], and the keys of the task below it"
    } else {
        "there are more than 1,048,576 bytes, 256 tasks or 4,096 upstream names"
    }
}

// Adds what the reader of TOML says of a text, and where.
fn push_toml(
    sentence: &mut String,
    source: Source<'_>,
    error: &toml::de::Error,
) -> Result<(), AllocError> {
    let Some(span) = error.span() else {
        return Ok(());
    };
    let newlines = newlines_before(source.text, span.start);
    source.push_line(sentence, Some(newlines.saturating_add(1)))?;
    let hint = match source.text.as_bytes().get(span.start).copied() {
        Some(b'\n' | b'\r') if error.message() == "invalid string" => UNCLOSED,
        _ => python_hint(source.text.lines().nth(newlines).unwrap_or("")),
    };
    say(
        sentence,
        "this is no TOML: {}{}",
        &[Text(error.message()), Text(hint)],
    )
}

fn newlines_before(text: &str, place: usize) -> usize {
    let mut count = 0_usize;
    for byte in text.bytes().take(place) {
        if byte == b'\n' {
            count = count.saturating_add(1);
        }
    }
    count
}

// What is said of a line whose value is a word of Python.
fn python_hint(line: &str) -> &'static str {
    let value = match line.split_once('=') {
        Some((_, value)) => value.trim(),
        None => "",
    };
    match value {
        "None" => "; a text stands in quotes: \"None\"",
        "True" | "False" => "; a flag is true or false, without a capital",
        _ => "",
    }
}

// Adds what is said of a fault at a place, of a text that is this table.
fn push_placed(
    sentence: &mut String,
    source: Source<'_>,
    fault: GraphFault,
    file: &Table,
) -> Result<(), AllocError> {
    match fault {
        GraphFault::Cron(cron) => {
            let name = Key::Schedule.name();
            source.push_place(sentence, file, Place::Top, name)?;
            push_schedule(sentence, text_of(file.get(name)), cron)
        }
        GraphFault::UnknownKey(place) => push_unknown_at(sentence, source, place, file),
        GraphFault::WrongType(place)
        | GraphFault::MissingKey(place)
        | GraphFault::BadName(place)
        | GraphFault::BadValue(place) => { push_faulty_at(sentence, source, fault, place, file) }
        _ => Ok(()),
    }
}

// Adds that a key at a place is unknown.
fn push_unknown_at(
    sentence: &mut String,
    source: Source<'_>,
    place: Place,
    file: &Table,
) -> Result<(), AllocError> {
    match (unknown_name(place, file), place.table_in(file)) {
        (Some(name), Some(table)) => {
            source.push_place(sentence, file, place, name)?;
            push_unknown(sentence, place, name, table)
        }
        _ => Ok(()),
    }
}

// Adds that the value of a key at a place is faulty, or lacking.
fn push_faulty_at(
    sentence: &mut String,
    source: Source<'_>,
    fault: GraphFault,
    place: Place,
    file: &Table,
) -> Result<(), AllocError> {
    match (faulty_key(fault, file), place.table_in(file)) {
        (Some(key), Some(table)) => {
            source.push_place(sentence, file, place, key.name())?;
            push_key(sentence, fault, key, table)
        }
        _ => Ok(()),
    }
}

// Adds why the tasks of a text are no graph without cycles.
pub(crate) fn push_dag(
    sentence: &mut String,
    source: Source<'_>,
    tasks: &[TaskSpec],
    fault: &DagFault,
) -> Result<(), AllocError> {
    match fault {
        DagFault::DoubleTask(place) => {
            push_task(sentence, source, tasks, *place as usize)?;
            sentence.push_str("another task has this id")
        }
        DagFault::UnknownUpstream(place) | DagFault::DoubleEdge(place) => {
            push_task(sentence, source, tasks, *place as usize)?;
            match tasks.get(*place as usize) {
                Some(task) => push_upstream(sentence, task, tasks, fault),
                None => Ok(()),
            }
        }
        DagFault::Cycle(names) => {
            source.push_line(sentence, None)?;
            push_circle(sentence, names.as_slice())
        }
        DagFault::Memory => Ok(()),
    }
}

// Adds that the first task of a text with this pool names one that is not there.
pub(crate) fn push_pool(
    sentence: &mut String,
    source: Source<'_>,
    tasks: &[TaskSpec],
    pool: &Name,
) -> Result<(), AllocError> {
    for (place, task) in tasks.iter().enumerate() {
        if task.pool == *pool {
            push_task(sentence, source, tasks, place)?;
            let pool = pool.as_str();
            return say(
                sentence,
                "there is no pool \"{}\": make it first, by resize {} SLOTS",
                &[Text(pool), Text(pool)],
            );
        }
    }
    Ok(())
}

// Begins a sentence on a task.
fn push_task(
    sentence: &mut String,
    source: Source<'_>,
    tasks: &[TaskSpec],
    place: usize,
) -> Result<(), AllocError> {
    let Some(task) = tasks.get(place) else {
        return Ok(());
    };
    let line = line_of_task(source.text, tasks.len(), place);
    source.push_line(sentence, line)?;
    say(sentence, "task \"{}\": ", &[Text(task.task_id.as_str())])
}

// Adds which upstream of a task is faulty.
fn push_upstream(
    sentence: &mut String,
    task: &TaskSpec,
    tasks: &[TaskSpec],
    fault: &DagFault,
) -> Result<(), AllocError> {
    let (upstream, said) = match fault {
        DagFault::DoubleEdge(_) => (double_upstream(task), "stands there twice"),
        _ => (unknown_upstream(task, tasks), "is no task of this file"),
    };
    match upstream {
        Some(upstream) => {
            let upstream = upstream.as_str();
            say(
                sentence,
                "its upstream \"{}\" {}",
                &[Text(upstream), Text(said)],
            )
        }
        None => sentence.push_str(said),
    }
}

// The first upstream of a task that is none of these.
fn unknown_upstream<'a>(task: &'a TaskSpec, tasks: &[TaskSpec]) -> Option<&'a Name> {
    for name in task.upstream.as_slice() {
        if !has_task(tasks, name) {
            return Some(name);
        }
    }
    None
}

fn has_task(tasks: &[TaskSpec], name: &Name) -> bool {
    for task in tasks {
        if task.task_id == *name {
            return true;
        }
    }
    false
}

// The first upstream of a task that stands there twice.
fn double_upstream(task: &TaskSpec) -> Option<&Name> {
    let names = task.upstream.as_slice();
    for name in names {
        if count_of(names, name) > 1 {
            return Some(name);
        }
    }
    None
}

fn count_of(names: &[Name], name: &Name) -> usize {
    let mut count = 0_usize;
    for other in names {
        if other == name {
            count = count.saturating_add(1);
        }
    }
    count
}

// Adds that these tasks wait for each other.
fn push_circle(sentence: &mut String, names: &[Name]) -> Result<(), AllocError> {
    sentence.push_str("these tasks wait for each other in a circle:")?;
    for name in names {
        say(sentence, " {}", &[Text(name.as_str())])?;
    }
    Ok(())
}
