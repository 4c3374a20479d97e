//! Sentences on another text for a graph that has runs.
//!
//! No contract holds this file: the sections `told` of `worked_scripts` show what it writes.
use crate::notes::{Rest, near_graph};
use crate::parts::Part::{Date, Number, Text};
use crate::parts::{say, say_more};
use graph_file::Name;
use moment_core::Moment;
use sched_events::Refusal;
use sched_state::RunPhase;
use script_reader::Schedule;
use std::alloc::{AllocError, Global};

// Adds why the graph is not given its text, and what may be written instead; nothing where this is no cause against a change alone.
pub(crate) fn push_change(
    sentence: &mut String,
    graph: &Name,
    refusal: &Refusal,
) -> Result<(), AllocError> {
    match refusal {
        Refusal::UnknownGraph => say(
            sentence,
            "there is no graph \"{}\", and replace makes none: load does",
            &[Text(graph.as_str())],
        ),
        Refusal::InFlight(_) => sentence.push_str(
            "wait until it has ended (in a script of your own: drain), or leave its pool as it is",
        ),
        Refusal::OtherTasks(task) => say(
            sentence,
            "the graph has runs with the task \"{}\", which this text lacks: leave it in the file, with operator = \"noop\", without upstream and argv, and with its pool and pool_slots; a task of another name is a new one",
            &[Text(task.as_str())],
        ),
        Refusal::OtherSlots(task) => say(
            sentence,
            "task \"{}\" has tries, each of which has taken the slots of its task",
            &[Text(task.as_str())],
        ),
        Refusal::Redoes(reached) => push_redoes(sentence, *reached),
        _ => Ok(()),
    }
}

// Adds that a tick would make runs before the moment up to which those of the graph reach.
fn push_redoes(sentence: &mut String, reached: Moment) -> Result<(), AllocError> {
    let text = format!(in *sentence.allocator(); "{reached}")?;
    let start = text.strip_suffix("+00:00").unwrap_or("");
    say(
        sentence,
        "the runs of the graph reach to {}, and a tick would make others before that: leave schedule, start_date and catchup as they were, or write start_date = \"{}Z\", for trigger and @once a second later; from there to the next tick there is no run",
        &[Date(reached), Text(start)],
    )
}

// What the schedule says beside it.
pub(crate) fn change_rest(
    alloc: Global,
    graph: &Name,
    refusal: &Refusal,
) -> Result<Rest, AllocError> {
    match refusal {
        Refusal::UnknownGraph => near_graph(alloc, graph.as_str()),
        Refusal::InFlight(serial) => Ok(Rest::Try(*serial)),
        Refusal::OtherSlots(task) => old_slots(alloc, graph, task),
        _ => Ok(Rest::Nothing),
    }
}

fn old_slots(alloc: Global, graph: &Name, task: &Name) -> Result<Rest, AllocError> {
    let graph = graph.copy(alloc)?;
    Ok(Rest::OldSlots(graph, task.copy(alloc)?))
}

// Adds the number of slots that a task has by the text that its graph has.
pub(crate) fn push_old_slots(
    sentence: &mut String,
    schedule: &Schedule,
    graph: &Name,
    task: &Name,
) -> Result<(), AllocError> {
    let Some(graph) = schedule.graph_of(graph) else {
        return Ok(());
    };
    for one in graph.dag.spec().tasks.as_slice() {
        if one.task_id == *task {
            return say(
                sentence,
                ": leave pool_slots = {} as it is; a task of another name may have another number",
                &[Number(u64::from(one.pool_slots.get()))],
            );
        }
    }
    Ok(())
}

// Adds up to which moment a graph has runs, where it has some, and what another text leaves of those that have finished.
pub(crate) fn push_reach(
    sentence: &mut String,
    schedule: &Schedule,
    graph: &Name,
) -> Result<(), AllocError> {
    let reach = Reach::of(schedule, graph);
    let Some(end) = reach.end else {
        return Ok(());
    };
    let rest = if reach.has_finished {
        "; those that have finished stay so: new tasks are not done there, and what failed is not tried again, until clear sets them back"
    } else {
        ""
    };
    say_more(
        sentence,
        "the runs of the graph reach to {}{}",
        &[Date(end), Text(rest)],
    )
}

// How far the runs of a graph reach.
#[derive(Clone, Copy)]
struct Reach {
    // The greatest end of their intervals.
    end: Option<Moment>,
    has_finished: bool,
}

impl Reach {
    fn of(schedule: &Schedule, graph: &Name) -> Reach {
        let mut end: Option<Moment> = None;
        let mut has_finished = false;
        for run in schedule.runs() {
            if run.graph == *graph {
                end = Some(later(end, run.interval.end));
                has_finished = has_finished
                    || matches!(run.phase, RunPhase::Success | RunPhase::Failed);
            }
        }
        Reach { end, has_finished }
    }
}

fn later(before: Option<Moment>, end: Moment) -> Moment {
    match before {
        Some(before) if end < before => before,
        _ => end,
    }
}
