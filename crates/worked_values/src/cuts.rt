//! Files that are cut off: what is read of what is left, and whether its tasks are a graph.
use dag_check::check;
use graph_file::read_graph;
use std::alloc::{AllocError, Global};
use std::io;

// Cuts one after another that leave the same: the bytes that the first and the last of them leave, and what these are.
#[derive(Drop)]
struct Alike {
    first: usize,
    last: usize,
    answer: String,
}

/// Writes what a file is that is cut off after so many bytes, for each number of them.
pub(crate) fn write_cuts(rt: &HostRuntime, text: &str) -> io::Result<()> {
    let answer = answer_to(rt.alloc(), "")?;
    let mut alike = Alike {
        first: 0,
        last: 0,
        answer,
    };
    write_each(rt, &mut alike, text)?;
    write_alike(rt, &alike)
}

// Writes those cuts behind which others begin that leave something else.
fn write_each(rt: &HostRuntime, alike: &mut Alike, text: &str) -> io::Result<()> {
    for end in 1..=text.len() {
        if let Some(left) = text.get(..end) {
            add(rt, alike, end, answer_to(rt.alloc(), left)?)?;
        }
    }
    Ok(())
}

// Adds the next cut: to those before it, or as the first of others, and then those before it are written.
fn add(rt: &HostRuntime, alike: &mut Alike, end: usize, answer: String) -> io::Result<()> {
    if answer == alike.answer {
        alike.last = end;
        return Ok(());
    }
    write_alike(rt, alike)?;
    rt.print(", ")?;
    *alike = Alike {
        first: end,
        last: end,
        answer,
    };
    Ok(())
}

fn write_alike(rt: &HostRuntime, alike: &Alike) -> io::Result<()> {
    let Alike {
        first,
        last,
        answer,
    } = alike;
    if first == last {
        print!(rt; "{first} {answer}")
    } else {
        print!(rt; "{first} to {last} {answer}")
    }
}

// That a text is a graph, or its fault.
fn answer_to(alloc: Global, text: &str) -> Result<String, AllocError> {
    match read_graph(alloc, text) {
        Ok(spec) => match check(alloc, spec) {
            Ok(_) => String::from_str(alloc, "ok"),
            Err((_, fault)) => format!(in alloc; "{fault:?}"),
        },
        Err(fault) => format!(in alloc; "{fault:?}"),
    }
}
