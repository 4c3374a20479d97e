//! Graphs of tasks: places, edges, what a task reaches, and effective weights; or why there is no graph.
use crate::dag_files::{file_of, layers};
use crate::tasks::write_names;
use dag_check::{DagFault, Direction, Graph, check};
use graph_file::{GraphSpec, Name, read_graph};
use priority_weights::effective;
use std::alloc::{AllocError, Global};
use std::io;

/// Writes the answer to a question about a graph: `WORD TASKS`, `WORD TASK of TASKS`, or `WORD COUNT in layers of WIDTH`.
pub(crate) fn write_answer(rt: &HostRuntime, word: &str, rest: &str) -> io::Result<()> {
    match layers_of(rest) {
        Some((count, width)) => {
            let tasks = layers(rt.alloc(), count, width)?;
            write_told(rt, word, "", tasks.as_str())
        }
        None => {
            let (task, tasks) = rest.split_once(" of ").unwrap_or(("", rest));
            write_told(rt, word, task, tasks)
        }
    }
}

// The count and the width of `COUNT in layers of WIDTH`.
fn layers_of(text: &str) -> Option<(u16, u16)> {
    let (count, width) = text.split_once(" in layers of ")?;
    Some((count.parse().ok()?, width.parse().ok()?))
}

// The answer of tasks that are told in words.
fn write_told(rt: &HostRuntime, word: &str, task: &str, tasks: &str) -> io::Result<()> {
    let text = file_of(rt.alloc(), tasks)?;
    write_read(rt, word, task, text.as_str())
}

// The answer of a text, where it is a file; else why not.
fn write_read(rt: &HostRuntime, word: &str, task: &str, text: &str) -> io::Result<()> {
    match read_graph(rt.alloc(), text) {
        Ok(spec) => write_checked(rt, word, task, spec),
        Err(fault) => print!(rt; "{fault:?}"),
    }
}

// The answer of a file, where it is a graph; else why not.
fn write_checked(rt: &HostRuntime, word: &str, task: &str, spec: GraphSpec) -> io::Result<()> {
    match check(rt.alloc(), spec) {
        Ok(graph) => write_of(rt, word, task, &graph),
        Err((spec, fault)) => write_refused(rt, &spec, fault),
    }
}

fn write_of(rt: &HostRuntime, word: &str, task: &str, graph: &Graph) -> io::Result<()> {
    match word {
        "places" => write_places(rt, graph),
        "edges" => write_edges(rt, graph),
        "weights" => write_weights(rt, graph),
        "ends" => write_ends(rt, graph),
        "upstream" => write_reached(rt, graph, task, Direction::Upstream),
        "downstream" => write_reached(rt, graph, task, Direction::Downstream),
        _ => write_place(rt, graph, task),
    }
}

fn write_fault(rt: &HostRuntime, fault: DagFault) -> io::Result<()> {
    match fault {
        DagFault::DoubleTask(i) => print!(rt; "DoubleTask {i}"),
        DagFault::UnknownUpstream(i) => print!(rt; "UnknownUpstream {i}"),
        DagFault::DoubleEdge(i) => print!(rt; "DoubleEdge {i}"),
        DagFault::Cycle(names) => {
            rt.print("Cycle")?;
            write_names(rt, names.into_vec().as_slice())
        }
        DagFault::Memory => rt.print("Memory"),
    }
}

// The fault, and the tasks of the file that comes back.
fn write_refused(rt: &HostRuntime, spec: &GraphSpec, fault: DagFault) -> io::Result<()> {
    write_fault(rt, fault)?;
    rt.print(" of")?;
    for task in spec.tasks.as_slice() {
        let id = task.task_id.as_str();
        print!(rt; " {id}")?;
    }
    Ok(())
}

// The name of the task of a place.
fn name_at(graph: &Graph, place: usize) -> &str {
    if place < graph.len() {
        graph.task(place).task_id.as_str()
    } else {
        "no task"
    }
}

// The tasks in the order of their places.
fn write_places(rt: &HostRuntime, graph: &Graph) -> io::Result<()> {
    let count = graph.len();
    print!(rt; "{count}:")?;
    for place in 0..count {
        write_name(rt, graph, place)?;
    }
    Ok(())
}

fn write_name(rt: &HostRuntime, graph: &Graph, place: usize) -> io::Result<()> {
    let name = name_at(graph, place);
    print!(rt; " {name}")
}

fn write_all(rt: &HostRuntime, graph: &Graph, places: &[usize]) -> io::Result<()> {
    for place in places {
        write_name(rt, graph, *place)?;
    }
    Ok(())
}

// Each task with its upstreams behind `<` and its downstreams behind `>`.
fn write_edges(rt: &HostRuntime, graph: &Graph) -> io::Result<()> {
    for place in 0..graph.len() {
        if place > 0 {
            rt.print("; ")?;
        }
        write_edges_of(rt, graph, place)?;
    }
    Ok(())
}

fn write_edges_of(rt: &HostRuntime, graph: &Graph, place: usize) -> io::Result<()> {
    if place < graph.len() {
        rt.print(name_at(graph, place))?;
        rt.print(" <")?;
        write_all(rt, graph, graph.upstreams(place))?;
        rt.print(if graph.is_leaf(place) {
            " (a leaf)"
        } else {
            " >"
        })?;
        write_all(rt, graph, graph.downstreams(place))?;
    }
    Ok(())
}

// The place of a task.
fn write_place(rt: &HostRuntime, graph: &Graph, task: &str) -> io::Result<()> {
    match place_of(rt.alloc(), graph, task) {
        Some(place) => rt.print(place),
        None => rt.print("none"),
    }
}

fn place_of(alloc: Global, graph: &Graph, task: &str) -> Option<usize> {
    let name = Name::read(alloc, task).ok()?;
    graph.place(&name)
}

// The tasks that a task reaches, in the order of their places.
fn write_reached(
    rt: &HostRuntime,
    graph: &Graph,
    task: &str,
    direction: Direction,
) -> io::Result<()> {
    match place_of(rt.alloc(), graph, task) {
        Some(place) => {
            let places = reached(rt.alloc(), graph, place, direction)?;
            write_counted(rt, graph, places.as_slice())
        }
        None => rt.print("none"),
    }
}

fn write_counted(rt: &HostRuntime, graph: &Graph, places: &[usize]) -> io::Result<()> {
    let count = places.len();
    print!(rt; "{count}:")?;
    write_all(rt, graph, places)
}

// The places that a place reaches.
fn reached(
    alloc: Global,
    graph: &Graph,
    place: usize,
    direction: Direction,
) -> Result<Vec<usize>, AllocError> {
    if place < graph.len() {
        graph.reach(alloc, place, direction)
    } else {
        Ok(Vec::new(alloc))
    }
}

fn count_reached(
    alloc: Global,
    graph: &Graph,
    place: usize,
    direction: Direction,
) -> Result<usize, AllocError> {
    Ok(reached(alloc, graph, place, direction)?.len())
}

// The effective weight of each task, in the order of their places.
fn write_weights(rt: &HostRuntime, graph: &Graph) -> io::Result<()> {
    let weights = effective(rt.alloc(), graph)?;
    for (place, weight) in weights.iter().enumerate() {
        let blank = if place == 0 { "" } else { " " };
        let name = name_at(graph, place);
        print!(rt; "{blank}{name} {weight}")?;
    }
    Ok(())
}

// The first and the last task, and how many come after the one and before the other.
fn write_ends(rt: &HostRuntime, graph: &Graph) -> io::Result<()> {
    let count = graph.len();
    if count == 0 {
        return rt.print("no task");
    }
    let last = count - 1;
    let after = count_reached(rt.alloc(), graph, 0, Direction::Downstream)?;
    let before = count_reached(rt.alloc(), graph, last, Direction::Upstream)?;
    let (next, is_leaf) = (graph.downstreams(0).len(), graph.is_leaf(last));
    let (first, end) = (name_at(graph, 0), name_at(graph, last));
    print!(rt;
        "{count} tasks, {next} next to {first}, {after} after it, {before} before {end}, leaf {is_leaf}"
    )
}
