//! The rule of the ends of runs.
ghost use Rattle.std.specs.Prelude.{◌≡◌, ◌||◌, not, true, length, map};
ghost use Rattle.std.specs.List.{list_all};
ghost use Rattle.graph_file.specs.declared.task_specs.TaskSpec.{TaskSpec as Task};
ghost use Rattle.instance_machine.specs.Instances.{InstanceValue};
ghost use Rattle.instance_machine.specs.States.{state_of};
ghost use Rattle.sched_model.specs.Lists.{rises};
ghost use Rattle.sched_model.specs.Schedule.{graph_before, is_ended as spec_ended};
ghost use Rattle.trigger_rules.specs.States as states;
ghost use Rattle.record_rules.specs.Reading.{run_of};
ghost use Rattle.record_rules.specs.Faults as spec;

use crate::finding::graph_named;
use dag_check::Graph;
use record_rows::{Rows, RunRow};
use sched_state::{LoadedGraph, Run, RunPhase};

// The first run that has ended before one of its task instances is finished. `runs` are those of the rows.
pub(crate) fn end_fault(
    graphs: &[LoadedGraph],
    rows: &Rows,
    run_rows: &[RunRow],
    runs: &[Run],
) -> Option<usize>
    requires order { rises graph_before graphs.now ≡ true }
    requires runs { runs.now ≡ map (run_of rows.now graphs.now) run_rows.now }
    ensures { result ≡ spec.first_bad (spec.is_end_of_run graphs.now rows.now) run_rows.now }
{
    for (position, row) in run_rows.iter().enumerate() {
        if !is_right(graphs, rows, row, &runs[position]) {
            return Some(position);
        }
    }
    None
}

fn is_right(graphs: &[LoadedGraph], rows: &Rows, row: &RunRow, run: &Run) -> bool
    requires order { rises graph_before graphs.now ≡ true }
    requires run { run.now ≡ run_of rows.now graphs.now row.now }
    ensures { result ≡ spec.is_end_of_run graphs.now rows.now row.now }
{
    match graph_named(graphs, row.dag_id.as_str()) {
        Some(graph) => !is_ended(run.phase) || are_finished(&graph.dag, run),
        None => true,
    }
}

fn is_ended(phase: RunPhase) -> bool
    ensures { result ≡ spec_ended phase }
{
    matches!(phase, RunPhase::Success | RunPhase::Failed)
}

// Whether the task instances of the run are finished.
fn are_finished(graph: &Graph, run: &Run) -> bool
    requires { length run.now.instances ≡ length graph.now.tasks }
    ensures { (held : Task → InstanceValue) → run.now.instances ≡ map held graph.now.tasks
        → result ≡ list_all (λ (t : Task). states.is_finished (state_of t (held t)))
        graph.now.tasks }
{
    for place in 0..graph.len() {
        let instance = &run.instances.as_slice()[place];
        if !instance.state(graph.task(place)).is_finished() {
            return false;
        }
    }
    true
}
