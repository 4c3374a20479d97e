//! The row of a graph that a record lacks.
ghost use Rattle.std.specs.Prelude.{◌≡◌, ◌&&◌, [], ◌∷◌, true, map, pos, IfOk};
ghost use Rattle.std.specs.List.{list_any};
ghost use Rattle.std.specs.Ordering.{int_eq};
ghost use Rattle.sched_state.specs.Lists.{same};
ghost use Rattle.record_rules.specs.Between.{lacked};
ghost use Rattle.record_rules.specs.Changes.{same_dag_row};
ghost use Rattle.sched_model.specs.Lists.{rises};
ghost use Rattle.sched_model.specs.Schedule.{graph_before};
ghost use Rattle.sched_model.specs.Tables.{dag_row, flag_code};

use graph_file::Name;
use record_rows::DagRow;
use record_rules::flag_code;
use sched_draft::graph_named;
use sched_state::{GraphText, LoadedGraph};
use std::alloc::{AllocError, Global};

// Whether a graph has this text and pause.
fn is_same(graph: &LoadedGraph, text: &GraphText, paused: bool) -> bool
    ensures { result ≡ (same text.now graph.now.text
        && int_eq (pos (flag_code paused)) (pos (flag_code graph.now.paused))) }
{
    text.as_str() == graph.text.as_str() && flag_code(paused) == flag_code(graph.paused)
}

// Whether the row of a graph with this id, text and pause is one of theirs.
fn is_among(graphs: &[LoadedGraph], id: &Name, text: &GraphText, paused: bool) -> bool
    requires { rises graph_before graphs.now ≡ true }
    ensures { result ≡ list_any (same_dag_row
        (record { dag_id = id.now; body = text.now; paused = pos (flag_code paused) }))
        (map dag_row graphs.now) }
{
    match graph_named(graphs, id) {
        Some(graph) => is_same(graph, text, paused),
        None => false,
    }
}

/// The row of a graph with this id, text and pause, where the rows of the graphs lack it.
pub fn dag_lacked(
    alloc: Global,
    graphs: &[LoadedGraph],
    id: &Name,
    text: &GraphText,
    paused: bool,
) -> Result<Vec<DagRow>, AllocError>
    requires { rises graph_before graphs.now ≡ true }
    ensures { IfOk result (λ rows. rows.items ≡ lacked same_dag_row (map dag_row graphs.now)
        (record { dag_id = id.now; body = text.now; paused = pos (flag_code paused) } ∷ [])) }
{
    let mut rows = Vec::new(alloc);
    if !is_among(graphs, id, text, paused) {
        rows.push(DagRow {
            dag_id: String::from_str(alloc, id.as_str())?,
            body: String::from_str(alloc, text.as_str())?,
            paused: flag_code(paused),
        })?;
    }
    Ok(rows)
}
