//! Actions, as a graph file has them.
use graph_file::{Action, GraphFault, GraphSpec, read_graph};
use std::alloc::{AllocError, Global};

// A graph file up to the operator of its task.
const HEAD: &str =
    "dag_id = \"page\"\nschedule = \"None\"\nstart_date = \"2024-01-01\"\n[[task]]\ntask_id = \"line\"\n";

/// The action of a task with this operator, and with these arguments as TOML writes an array. `None` where no graph file may have it.
pub(crate) fn read_action(
    alloc: Global,
    operator: &str,
    argv: &str,
) -> Result<Option<Action>, AllocError> {
    let text = format!(in alloc; "{HEAD}operator = \"{operator}\"\nargv = {argv}")?;
    action_in(alloc, text.as_str())
}

// The action of the first task of a graph file, where it is one.
fn action_in(alloc: Global, text: &str) -> Result<Option<Action>, AllocError> {
    match read_graph(alloc, text) {
        Ok(graph) => first_action(alloc, &graph),
        Err(GraphFault::Memory) => Err(AllocError),
        Err(_) => Ok(None),
    }
}

fn first_action(alloc: Global, graph: &GraphSpec) -> Result<Option<Action>, AllocError> {
    match graph.tasks.as_slice().first() {
        Some(task) => Ok(Some(task.action.copy(alloc)?)),
        None => Ok(None),
    }
}
