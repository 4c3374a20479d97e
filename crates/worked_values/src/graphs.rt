//! Graph files: what is read of one, or why it is refused. The lines of a file stand behind one another, with ` ; ` between them.
use crate::cuts::write_cuts;
use crate::expressions::write_interval;
use crate::moments::write_moment;
use crate::tasks::write_tasks;
use cron_timetable::Timetable;
use graph_file::{GraphSpec, read_graph};
use moment_core::Moment;
use std::alloc::{AllocError, Global};
use std::io;

const TOP: &str = "dag_id = \"one\"\nschedule = \"@daily\"\nstart_date = \"2024-01-01\"\n";

const TASK: &str = "[[task]]\ntask_id = \"t\"\noperator = \"noop\"\n";

/// Writes the answer to a question about a graph file: of its top (`graph`, and `top` of a file with one task), of its tasks (`tasks` behind a
/// top, `task` for more lines of one task), whether it is read (`size`, of tasks), or what it is where it is cut off (`cuts`).
pub(crate) fn write_answer(rt: &HostRuntime, word: &str, lines: &str) -> io::Result<()> {
    let text = text_of(rt.alloc(), word, lines)?;
    match word {
        "graph" | "top" => write_top(rt, text.as_str()),
        "size" => write_size(rt, text.as_str()),
        "cuts" => write_cuts(rt, text.as_str()),
        _ => write_tasks_of(rt, text.as_str()),
    }
}

// The text of the file that a question is about.
fn text_of(alloc: Global, word: &str, lines: &str) -> Result<String, AllocError> {
    let lines = expanded(alloc, lines)?;
    let lines = replaced(alloc, lines.as_str(), &[(" ; ", "\n")])?;
    file_of(alloc, word, lines.as_str())
}

/// A text in which words stand for others, one pair of them after another.
pub(crate) fn replaced(
    alloc: Global,
    text: &str,
    words: &[(&str, &str)],
) -> Result<String, AllocError> {
    let mut text = String::from_str(alloc, text)?;
    for (from, to) in words {
        text = text.as_str().replace(alloc, *from, to)?;
    }
    Ok(text)
}

// A text in which `<<COUNT times UNIT>>` stands for so many units.
fn expanded(alloc: Global, text: &str) -> Result<String, AllocError> {
    let mut made = String::new(alloc);
    for part in text.split("<<") {
        add_part(&mut made, part)?;
    }
    Ok(made)
}

fn add_part(made: &mut String, part: &str) -> Result<(), AllocError> {
    let (count, unit, rest) = repetition(part).unwrap_or((0, "", part));
    for _ in 0..count {
        made.push_str(unit)?;
    }
    made.push_str(rest)
}

// The count, the unit and what stands behind them of `COUNT times UNIT>>..`.
fn repetition(part: &str) -> Option<(usize, &str, &str)> {
    let (count, rest) = part.split_once(" times ")?;
    let (unit, rest) = rest.split_once(">>")?;
    Some((count.parse().ok()?, unit, rest))
}

// The file with these lines.
fn file_of(alloc: Global, word: &str, lines: &str) -> Result<String, AllocError> {
    match word {
        "top" => format!(in alloc; "{lines}\n{TASK}"),
        "tasks" | "size" => format!(in alloc; "{TOP}{lines}\n"),
        "task" => format!(in alloc; "{TOP}{TASK}{lines}\n"),
        _ => format!(in alloc; "{lines}\n"),
    }
}

// What the top of a file says, and how many tasks it has; or its fault.
fn write_top(rt: &HostRuntime, text: &str) -> io::Result<()> {
    match read_graph(rt.alloc(), text) {
        Ok(graph) => {
            write_days(rt, &graph)?;
            write_runs(rt, &graph)
        }
        Err(fault) => print!(rt; "{fault:?}"),
    }
}

// The id, the schedule and the first and the last day.
fn write_days(rt: &HostRuntime, graph: &GraphSpec) -> io::Result<()> {
    let (id, start) = (graph.dag_id.as_str(), graph.start_date);
    print!(rt; "dag_id {id}, schedule ")?;
    write_schedule(rt, &graph.schedule, start)?;
    print!(rt; ", start_date {start}, end_date ")?;
    write_moment(rt, graph.end_date)
}

// The kind of a timetable, and its first interval from a moment on.
fn write_schedule(rt: &HostRuntime, timetable: &Timetable, from: Moment) -> io::Result<()> {
    let kind = match timetable {
        Timetable::Cron(_) => "cron ",
        Timetable::Trigger(_) => "trigger ",
        Timetable::Once => "once ",
        Timetable::Never => "never ",
    };
    rt.print(kind)?;
    write_interval(rt, timetable.interval_from(from))
}

// How its runs come, how many of its tries may be active, and how many tasks it has.
fn write_runs(rt: &HostRuntime, graph: &GraphSpec) -> io::Result<()> {
    let (catchup, most) = (graph.catchup, graph.max_active_runs.get());
    let count = graph.tasks.as_slice().len();
    print!(rt; ", catchup {catchup}, max_active_runs {most}")?;
    write_bound(rt, graph)?;
    print!(rt; ", tasks {count}")
}

// How many of its tries may be active, where it says so.
fn write_bound(rt: &HostRuntime, graph: &GraphSpec) -> io::Result<()> {
    match graph.max_active_tasks {
        Some(bound) => print!(rt; ", max_active_tasks {}", bound.get()),
        None => Ok(()),
    }
}

// What each task of a file says, or the fault of the file.
fn write_tasks_of(rt: &HostRuntime, text: &str) -> io::Result<()> {
    match read_graph(rt.alloc(), text) {
        Ok(graph) => write_tasks(rt, graph.tasks.into_vec().as_slice()),
        Err(fault) => print!(rt; "{fault:?}"),
    }
}

// How many bytes a file has, and that it is read, or why it is refused.
fn write_size(rt: &HostRuntime, text: &str) -> io::Result<()> {
    let bytes = text.len();
    match read_graph(rt.alloc(), text) {
        Ok(_) => print!(rt; "{bytes} bytes, ok"),
        Err(fault) => print!(rt; "{bytes} bytes, {fault:?}"),
    }
}
