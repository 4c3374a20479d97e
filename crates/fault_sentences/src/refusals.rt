//! Sentences on events that are refused, and on questions without an answer.
//!
//! No contract holds this file: the sections `told` of `worked_scripts` show what it writes.
use crate::asked::Asked;
use crate::changes::{change_rest, push_change};
use crate::graphs::{push_dag, push_graph, push_pool};
use crate::moments::DATES_HINT;
use crate::notes::{Rest, near_graph, near_task};
use crate::parts::Part::{Date, Text};
use crate::parts::say;
use crate::places::Source;
use graph_file::{GraphSpec, Name, TaskSpec, read_graph};
use sched_events::{Event, Refusal};
use script_reader::ExplainFault;
use std::alloc::{AllocError, Global};

// Adds why an event is refused; what the schedule says beside it.
pub(crate) fn push_refusal(
    sentence: &mut String,
    asked: Asked<'_>,
    event: Option<&Event>,
    refusal: &Refusal,
) -> Result<Rest, AllocError> {
    match event {
        Some(Event::Load(text)) => {
            let text = text.as_str();
            push_text(sentence, Source { asked, text }, refusal, false)
        }
        Some(Event::Replace(text)) => {
            let text = text.as_str();
            push_text(sentence, Source { asked, text }, refusal, true)
        }
        _ => {
            push_of_event(sentence, event, refusal)?;
            rest_of_event(*sentence.allocator(), event, refusal)
        }
    }
}

// The same of a text that is not taken in.
fn push_text(
    sentence: &mut String,
    source: Source<'_>,
    refusal: &Refusal,
    is_change: bool,
) -> Result<Rest, AllocError> {
    if let Refusal::GraphFault(fault) = refusal {
        push_graph(sentence, source, *fault)?;
        return Ok(Rest::Nothing);
    }
    match read_graph(*sentence.allocator(), source.text) {
        Ok(spec) => push_read(sentence, source, &spec, refusal, is_change),
        Err(_) => Ok(Rest::Nothing),
    }
}

// The same of the text of this graph.
fn push_read(
    sentence: &mut String,
    source: Source<'_>,
    spec: &GraphSpec,
    refusal: &Refusal,
    is_change: bool,
) -> Result<Rest, AllocError> {
    if is_change {
        push_change(sentence, &spec.dag_id, refusal)?;
    }
    if sentence.is_empty() {
        push_of_tasks(sentence, source, spec.tasks.as_slice(), refusal)?;
    }
    if is_change {
        change_rest(*sentence.allocator(), &spec.dag_id, refusal)
    } else {
        Ok(Rest::Nothing)
    }
}

// Adds why a text with these tasks is not taken in, of a graph without runs.
fn push_of_tasks(
    sentence: &mut String,
    source: Source<'_>,
    tasks: &[TaskSpec],
    refusal: &Refusal,
) -> Result<(), AllocError> {
    match refusal {
        Refusal::DagFault(fault) => push_dag(sentence, source, tasks, fault),
        Refusal::UnknownPool(pool) => push_pool(sentence, source, tasks, pool),
        _ => sentence.push_str(plain(refusal)),
    }
}

// Adds why an event that has no text is refused.
fn push_of_event(
    sentence: &mut String,
    event: Option<&Event>,
    refusal: &Refusal,
) -> Result<(), AllocError> {
    match (refusal, event) {
        (Refusal::ClockBack(now), _) => say(
            sentence,
            "the moment lies before {}, which the record's clock has reached: it never goes back",
            &[Date(*now)],
        ),
        (Refusal::UnknownGraph, Some(event)) => push_missing(sentence, graph_of(event), "graph"),
        (Refusal::UnknownTask, Some(Event::Clear(clearing))) => {
            push_missing(sentence, clearing.task.as_ref(), "task")
        }
        (Refusal::UnknownTask, Some(Event::Mark { task, .. })) => {
            push_missing(sentence, Some(task), "task")
        }
        (Refusal::UnknownRun, Some(Event::Mark { graph, logical, .. })) => {
            push_no_run(sentence, graph.as_str())?;
            write!(sentence, "{logical}: {DATES_HINT}")
        }
        _ => sentence.push_str(plain(refusal)),
    }
}

// What the schedule says beside it.
fn rest_of_event(
    alloc: Global,
    event: Option<&Event>,
    refusal: &Refusal,
) -> Result<Rest, AllocError> {
    match (refusal, event) {
        (Refusal::RunExists | Refusal::NoInterval, _) => Ok(Rest::Clock),
        (Refusal::InFlight(serial), _) => Ok(Rest::Try(*serial)),
        (Refusal::UnknownGraph, Some(event)) => match graph_of(event) {
            Some(graph) => near_graph(alloc, graph.as_str()),
            None => Ok(Rest::Nothing),
        },
        (Refusal::UnknownTask, Some(Event::Clear(clearing))) => match &clearing.task {
            Some(task) => near_task(alloc, clearing.graph.as_str(), task.as_str()),
            None => Ok(Rest::Nothing),
        },
        (Refusal::UnknownTask, Some(Event::Mark { graph, task, .. })) => {
            near_task(alloc, graph.as_str(), task.as_str())
        }
        _ => Ok(Rest::Nothing),
    }
}

// The sentence of a refusal whose cause needs no names.
fn plain(refusal: &Refusal) -> &'static str {
    match refusal {
        Refusal::TooManyGraphs => {
            "there are 256 graphs, and none is ever taken out: another record has room"
        }
        Refusal::GraphDiffers => {
            "the graph has runs, and load leaves its text as it is: say replace in the place of load"
        }
        Refusal::BadSpan => "TO lies before FROM: the order is FROM TO",
        Refusal::RunExists => {
            "the graph has a run of this date already: a run by hand has the record's clock as its date, and only a tick moves it"
        }
        Refusal::NoInterval => "no interval of the graph's schedule has ended yet",
        Refusal::InFlight(_) => {
            "wait until it has ended (in a script of your own: drain): a task that runs is neither set back nor skipped"
        }
        Refusal::PoolFault(_) => "there are 64 pools, and none is ever taken out",
        Refusal::RecordFull => {
            "the record would have more than 1,000,000 runs, which is the most"
        }
        _ => "",
    }
}

// The graph that an event names.
fn graph_of(event: &Event) -> Option<&Name> {
    match event {
        Event::Trigger(graph) | Event::Pause(graph) | Event::Unpause(graph) => Some(graph),
        Event::Backfill { graph, .. } | Event::Mark { graph, .. } => Some(graph),
        Event::Clear(clearing) => Some(&clearing.graph),
        _ => None,
    }
}

// Adds that there is no graph or task of this name.
fn push_missing(sentence: &mut String, name: Option<&Name>, kind: &str) -> Result<(), AllocError> {
    match name {
        Some(name) => {
            say(
                sentence,
                "there is no {} \"{}\"",
                &[Text(kind), Text(name.as_str())],
            )
        }
        None => Ok(()),
    }
}

// Adds why a question has no answer; what the schedule says beside it. Its words are `explain DAG LOGICAL TASK`.
pub(crate) fn push_unexplained(
    sentence: &mut String,
    asked: Asked<'_>,
    fault: ExplainFault,
) -> Result<Rest, AllocError> {
    let values = asked.values(*sentence.allocator())?;
    push_unexplained_of(sentence, values.as_slice(), fault)
}

// The same of these words.
fn push_unexplained_of(
    sentence: &mut String,
    values: &[&str],
    fault: ExplainFault,
) -> Result<Rest, AllocError> {
    let [_, graph, logical, task, ..] = values else {
        return Ok(Rest::Nothing);
    };
    push_unknown(sentence, fault, graph, logical, task)?;
    match fault {
        ExplainFault::UnknownGraph => near_graph(*sentence.allocator(), graph),
        ExplainFault::UnknownTask => near_task(*sentence.allocator(), graph, task),
        ExplainFault::UnknownRun | ExplainFault::Memory => Ok(Rest::Nothing),
    }
}

// Adds what is not there of the graph, the date and the task of a question.
fn push_unknown<'a>(
    sentence: &mut String,
    fault: ExplainFault,
    graph: &'a str,
    logical: &'a str,
    task: &'a str,
) -> Result<(), AllocError> {
    match fault {
        ExplainFault::UnknownGraph => say(sentence, "there is no graph \"{}\"", &[Text(graph)]),
        ExplainFault::UnknownRun => {
            push_no_run(sentence, graph)?;
            write!(sentence, "{logical}: {DATES_HINT}")
        }
        ExplainFault::UnknownTask => say(
            sentence,
            "the graph \"{}\" has no task \"{}\"",
            &[Text(graph), Text(task)],
        ),
        ExplainFault::Memory => Ok(()),
    }
}

// Adds that the graph has no run of a date, which stands behind it.
fn push_no_run(sentence: &mut String, graph: &str) -> Result<(), AllocError> {
    say(
        sentence,
        "the graph \"{}\" has no run of the date ",
        &[Text(graph)],
    )
}
