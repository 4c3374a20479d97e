//! Planning a load: the text is read and checked, then the bounds and the pools are asked, then the graph that is there.
ghost use Rattle.std.specs.Prelude.{◌≡◌, IfOk, IfErr, MatchResult, false, not, find, option_map};
ghost use Rattle.std.specs.Option.{option_copied};
ghost use Rattle.pool_book.specs.Pools.{has_pool};
ghost use Rattle.sched_model.specs.Schedule.{has_runs};
ghost use Rattle.sched_model.specs.Changes.{load_graph};
ghost use Rattle.sched_model.specs.Settle.{settle};
ghost use Rattle.sched_model.specs.Handout.{hand_out};
ghost use Rattle.sched_model.specs.Jobs.{handed};
ghost use Rattle.sched_events.specs.Causes.{exceeds};
ghost use Rattle.sched_core.specs.Plans.{IsPlanned, no_runs};
ghost use Rattle.sched_events.specs.Outcomes.{IsRefusal};
ghost use Rattle.sched_events.specs.SettledAndSound.{IsSoundAndSaid};
ghost use Rattle.sched_events.specs.declared.events.Event.TheVariants.{Load};
ghost use Rattle.sched_core.specs.Inside.{IsRead, IsReadFault, IsChecked, IsCheckFault, IsTaken, IsUnfit};

use crate::changes::{Change, GraphChange};
use crate::lookups::position_of;
use crate::schedules::Schedule;
use dag_check::{Graph, check};
use graph_file::{GraphFault, GraphSpec, Name, TaskSpec, read_graph};
use pool_book::Pools;
use record_restoring::is_within;
use run_planner::RunIndex;
use sched_events::Refusal;
use sched_ready::shelf_of;
use sched_state::{GraphText, Limits};
use std::alloc::{AllocError, Global};

impl Schedule {
    // What loading the text would do, or why it is refused.
    pub(crate) fn plan_load(&self, alloc: Global, text: &GraphText) -> Result<Change, Refusal>
        ensures accepted { IfOk result (IsPlanned self.now.content (Load text.now)) }
        ensures refused { IfErr result (IsRefusal self.now.content (Load text.now)) }
    {
        let dag = self.read_dag(alloc, text)?;
        let id = &dag.spec().dag_id;
        match position_of(&self.graphs, id) {
            None => {
                if self.limits.graphs() as usize <= self.graphs.len() {
                    return Err(Refusal::TooManyGraphs);
                }
                Ok(self.taken_in(alloc, text, dag)?)
            }
            Some(place) => {
                if self.graphs[place].text.is_same(text) {
                    return Ok(self.graph_change(alloc, GraphChange::Same)?);
                }
                if self.runs.has_runs(id) {
                    return Err(Refusal::GraphDiffers);
                }
                Ok(self.taken_in(alloc, text, dag)?)
            }
        }
    }

    // The graph that the text says, or the first cause against it that does not lie in the graphs that are there.
    pub(crate) fn read_dag(&self, alloc: Global, text: &GraphText) -> Result<Graph, Refusal>
        ensures taken { IfOk result (IsTaken self.now.content text.now) }
        ensures refused { IfErr result (IsUnfit self.now.content text.now) }
    {
        let spec = read(alloc, text)?;
        if exceeds(&spec, self.limits) {
            return Err(Refusal::GraphFault(GraphFault::TooMany));
        }
        let dag = checked(alloc, spec)?;
        match unknown_pool(&self.occupied.pools, dag.spec().tasks.as_slice()) {
            None => Ok(dag),
            Some(pool) => Err(Refusal::UnknownPool(pool.copy(alloc)?)),
        }
    }

    // The change that takes the text in that says this graph, which has no runs.
    pub(crate) fn taken_in(
        &self,
        alloc: Global,
        text: &GraphText,
        dag: Graph,
    ) -> Result<Change, AllocError>
        requires sound { IsSoundAndSaid (load_graph text.now dag self.now.content) }
        requires quiet { has_runs self.now.content dag.spec.dag_id ≡ false }
        ensures { IfOk result (λ change. change ≡ record {
          before = self.now.content;
          after = hand_out (settle (load_graph text.now dag self.now.content));
          answer = record no_runs {
            jobs = handed self.now.content
                (hand_out (settle (load_graph text.now dag self.now.content)));
          };
        }) }
    {
        let text = text.copy(alloc)?;
        let shelf = shelf_of(alloc, &dag)?;
        let change = GraphChange::Load(text, dag, shelf, RunIndex::new(alloc));
        self.graph_change(alloc, change)
    }
}

// The file that a text says, or why it says none.
fn read(alloc: Global, text: &GraphText) -> Result<GraphSpec, Refusal>
    ensures { MatchResult result (IsRead text.now) (IsReadFault text.now) }
{
    match read_graph(alloc, text.as_str()) {
        Ok(spec) => Ok(spec),
        Err(GraphFault::Memory) => Err(Refusal::Memory),
        Err(fault) => Err(Refusal::GraphFault(fault)),
    }
}

// The graph of a file, or why it has none.
fn checked(alloc: Global, spec: GraphSpec) -> Result<Graph, Refusal>
    ensures { MatchResult result (IsChecked spec) (IsCheckFault spec) }
{
    match check(alloc, spec) {
        Ok(dag) => Ok(dag),
        Err((_, fault)) => Err(Refusal::from(fault)),
    }
}

// Whether the graph has more tasks or more upstream names than the bounds allow.
fn exceeds(spec: &GraphSpec, limits: Limits) -> bool
    ensures { result ≡ exceeds limits spec.now }
{
    !is_within(limits, spec)
}

// The pool of the first task whose pool is not there.
fn unknown_pool<'t>(pools: &Pools, tasks: &'t [TaskSpec]) -> Option<&'t Name>
    ensures { option_copied result ≡ option_map (λ t. t.pool)
        (find (λ t. not (has_pool t.pool pools.now.pools)) tasks.now) }
{
    tasks
        .iter()
        .find(|task| pools.size(&task.pool).is_none())
        .map(|task| &task.pool)
}
