//! What there was for a run: task instances, by the ids of their tasks.
ghost use Rattle.std.specs.Prelude.{◌≡◌, ◌<◌, true, false, MatchOption, length, slice_get, Some};
ghost use Rattle.std.specs.Option.{option_copied};
ghost use Rattle.dag_check.specs.Names.{ids_of, repeats};
ghost use Rattle.sched_model.specs.Clearing.{place_of};
ghost use Rattle.sched_model.specs.Lists.{rises};
ghost use Rattle.sched_model.specs.Schedule.{dag_among, no_dag, run_before};
ghost use Rattle.sched_model.specs.Sound.{IsSound};
ghost use Rattle.sched_state.specs.declared.runs.Run as states;
ghost use Rattle.record_writing.specs.Before.{AreNamedAlike, earlier_of, instance_named};

use dag_check::Graph;
use graph_file::Name;
use instance_machine::Instance;
use sched_draft::{Base, Draft, position_named};
use sched_state::Run;
use std::marker::Model;

/// What there was for a run: the run with its key, if there was one, and the tasks of its graph.
#[derive(Drop)]
pub(crate) struct Earlier<'a> {
    run: Option<&'a Run>,
    dag: &'a Graph,
}

impl<'a> Model for Earlier<'a> {
    ghost use Rattle.std.specs.Prelude.{◌≡◌, false};
    ghost use Rattle.std.specs.Option.{option_copied};
    ghost use Rattle.dag_check.specs.Names.{ids_of, repeats};
    ghost use Rattle.record_writing.specs.Before.{EarlierValue};

    ghost Value = { EarlierValue };

    ghost view = { λ e. record { run = option_copied e.run; tasks = e.dag.now.tasks } };

    // Each id stands once.
    ghost invariant = { λ e. repeats (ids_of e.dag.now.tasks) ≡ false };
}

impl<'a> Earlier<'a> {
    /// The run that there was, if there was one, with the tasks and edges of its graph.
    pub fn new(run: Option<&'a Run>, dag: &'a Graph) -> Earlier<'a>
        requires { repeats (ids_of dag.now.tasks) ≡ false }
        ensures { result ≡ record { run = option_copied run.entry; tasks = dag.now.tasks } }
    {
        Earlier { run, dag }
    }

    /// The instance of the task with this id. The task is looked for at a place first, where it mostly stands, which costs one comparison of
    /// ids; where it stands elsewhere it is searched for among all tasks of the graph. Where there was no run nothing is looked for.
    pub fn instance(&self, id: &Name, place: usize) -> Option<&'a Instance>
        ensures { option_copied result ≡ instance_named self.now id.now }
    {
        let run = self.run?;
        let place = place_near(self.dag, id, place)?;
        run.instances.as_slice().get(place)
    }
}

// The place of the task with this id, which is looked for at a place first.
fn place_near(dag: &Graph, id: &Name, place: usize) -> Option<usize>
    requires { repeats (ids_of dag.now.tasks) ≡ false }
    ensures { result ≡ place_of dag.now.tasks id.now }
{
    if place < dag.len() && dag.task(place).task_id == *id {
        return Some(place);
    }
    dag.place(id)
}

/// A touched run of a draft, the tasks and edges of its graph, and what the schedule under the draft has for it.
#[derive(Drop)]
pub(crate) struct TouchedRun<'a> {
    pub run: &'a Run,
    pub dag: &'a Graph,
    pub was: Earlier<'a>,
}

/// The draft's run at a position; none where its graph is not there. One binary search finds the graph in both, another one the run that there was.
pub(crate) fn touched_run<'a>(
    before: &'a Base<'_>,
    draft: &'a Draft<'_>,
    position: usize,
) -> Option<TouchedRun<'a>>
    requires base { before.now ≡ draft.now.base }
    requires sound { IsSound before.now }
    requires order { rises run_before draft.now.content.runs ≡ true }
    requires graphs { AreNamedAlike draft.now.base.graphs draft.now.content.graphs }
    requires within { position < length draft.now.content.runs }
    ensures { (r : states.Run) → slice_get draft.now.content.runs position ≡ Some r
        → MatchOption result (dag_among draft.now.content.graphs r.graph ≡ no_dag)
        (λ found. (found.run.now ≡ r) × (dag_among draft.now.content.graphs r.graph ≡ found.dag.now)
        × (found.was ≡ earlier_of before.now r)) }
{
    let run = draft.run(position);
    let graph = position_named(before.graphs, &run.graph)?;
    Some(TouchedRun {
        run,
        dag: draft.dag_at(graph),
        was: Earlier::new(draft.before(position), &before.graphs[graph].dag),
    })
}
