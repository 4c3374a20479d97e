//! The graph of a run, and the states of its instances.
ghost use Rattle.std.specs.Prelude.{◌≡◌, MatchOption};
ghost use Rattle.sched_model.specs.Schedule.{dag_named, no_dag};
ghost use Rattle.sched_settling.specs.States.{state_in};

use dag_check::Graph;
use sched_draft::Draft;
use sched_state::Run;
use trigger_rules::State;

// The tasks and edges of the run's graph.
pub(crate) fn dag_of<'a>(draft: &'a Draft<'_>, run: &Run) -> Option<&'a Graph>
    ensures { MatchOption result (dag_named draft.now.content run.now.graph ≡ no_dag)
        (λ dag. dag_named draft.now.content run.now.graph ≡ dag.now) }
{
    draft.dag(&run.graph)
}

/// The state of the instance at a place: none where there is no such task or instance.
pub fn state_in(dag: &Graph, run: &Run, place: usize) -> State
    ensures { result ≡ state_in dag.now run.now place }
{
    match run.instances.as_slice().get(place) {
        Some(instance) if place < dag.len() => instance.state(dag.task(place)),
        _ => State::None,
    }
}
