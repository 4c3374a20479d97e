//! Planning another text for a graph that is there: its runs go on by it, whether it has some or not.
ghost use Rattle.std.specs.Prelude.{◌≡◌, false, IfOk, IfErr, MatchResult, None, OnOk, Some, slice_get, true};
ghost use Rattle.record_writing.specs.record_rules.Changes.{rows_between};
ghost use Rattle.sched_state.specs.declared.graphs.LoadedGraph as states;
ghost use Rattle.sched_state.specs.Lists.{same};
ghost use Rattle.sched_model.specs.Changes.{taken_in};
ghost use Rattle.sched_model.specs.Handout.{hand_out};
ghost use Rattle.sched_model.specs.Lists.{rises};
ghost use Rattle.sched_model.specs.Schedule.{run_before};
ghost use Rattle.sched_model.specs.Settle.{settle};
ghost use Rattle.sched_model.specs.Sound.{IsSound};
ghost use Rattle.sched_draft.specs.Parts.{with_other};
ghost use Rattle.sched_events.specs.Causes.{disturbed, refused};
ghost use Rattle.sched_events.specs.Outcomes.{IsRefusal};
ghost use Rattle.sched_events.specs.SettledAndSound.{IsSettledAndSound};
ghost use Rattle.sched_events.specs.declared.events.Event.TheVariants.{Replace};
ghost use Rattle.sched_core.specs.Inside.{IsTaken, StandsAt};
ghost use Rattle.sched_core.specs.Plans.{IsPlanned};
ghost use Rattle.sched_core.specs.Replaced.{IsAftermath, IsDisturbance, OwnsRunsOf, TakeAlike, with_other_graph};

use crate::changed_rows::{dags_with, limits_with};
use crate::changes::{Change, Effect, GraphChange, Rest};
use crate::graph_texts::new_graph;
use crate::lookups::position_of;
use crate::planning::{quiet_answer, rest_of};
use crate::schedules::Schedule;
use dag_check::Graph;
use graph_file::{Name, Sequence};
use record_rows::Rows;
use record_writing::rows_of;
use run_planner::makes_anew;
use sched_clearing::span_of_all;
use sched_draft::Draft;
use sched_events::{Answer, Refusal};
use sched_handout::hand_out;
use sched_ready::{Patch, Shelf, shelves_of};
use sched_replacing::{least_moved, lost_task, reached, refit, resized_task};
use sched_settling::settle;
use sched_state::{GraphText, Job, LoadedGraph};
use std::alloc::{AllocError, Global};

// What a replaced graph leaves, but for the graph itself: the rest, the shelves, the tries that are handed out, and the rows that the schedule lacks
// then.
#[derive(Drop)]
pub(crate) struct Aftermath {
    pub rest: Rest,
    pub shelves: Vec<Shelf>,
    // None.
    pub patches: Vec<Patch>,
    pub jobs: Sequence<Job>,
    pub rows: Rows,
}

impl Schedule {
    // What another text for a graph that is there would do, or why it is refused.
    pub(crate) fn plan_replace(&self, alloc: Global, text: &GraphText) -> Result<Change, Refusal>
        ensures accepted { IfOk result (IsPlanned self.now.content (Replace text.now)) }
        ensures refused { IfErr result (IsRefusal self.now.content (Replace text.now)) }
    {
        let dag = self.read_dag(alloc, text)?;
        match position_of(&self.graphs, &dag.spec().dag_id) {
            None => Err(Refusal::UnknownGraph),
            Some(place) => self.plan_replace_at(alloc, place, text, dag),
        }
    }

    // The same, where the text says this graph, which is there at the place.
    fn plan_replace_at(
        &self,
        alloc: Global,
        place: usize,
        text: &GraphText,
        dag: Graph,
    ) -> Result<Change, Refusal>
        requires taken { IsTaken self.now.content text.now dag }
        requires stands { StandsAt dag.spec.dag_id self.now.content.graphs place }
        ensures accepted { IfOk result (IsPlanned self.now.content (Replace text.now)) }
        ensures refused { IfErr result (IsRefusal self.now.content (Replace text.now)) }
    {
        if self.graphs[place].text.is_same(text) {
            return Ok(self.graph_change(alloc, GraphChange::Same)?);
        }
        if self.runs.has_runs(&dag.spec().dag_id) {
            self.look_at_runs(alloc, place, &dag)?;
            return Ok(self.changed_to(alloc, place, text, dag)?);
        }
        Ok(self.taken_in(alloc, text, dag)?)
    }

    // Nothing in the runs of the graph stands against another text for it, which says this.
    fn look_at_runs(&self, alloc: Global, place: usize, new: &Graph) -> Result<(), Refusal>
        requires { StandsAt new.now.spec.dag_id self.now.content.graphs place }
        ensures { MatchResult result (λ done. disturbed self.now.content new.now ≡ None)
            (IsDisturbance self.now.content new.now) }
    {
        let old = &self.graphs[place].dag;
        let draft = self.draft(alloc, None, false);
        if let Some(serial) = least_moved(alloc, &draft, old, new)? {
            return Err(Refusal::InFlight(serial));
        }
        if let Some(task) = lost_task(old, new) {
            return Err(Refusal::OtherTasks(task.copy(alloc)?));
        }
        if let Some(task) = resized_task(alloc, &draft, old, new)? {
            return Err(Refusal::OtherSlots(task.copy(alloc)?));
        }
        let reached = reached(&draft, &new.spec().dag_id);
        if makes_anew(alloc, old, new, reached, &self.dates[place])? {
            return Err(Refusal::Redoes(reached));
        }
        Ok(())
    }

    // The change by which the graph at the place takes the text in, which says this, and its runs go on by it.
    fn changed_to(
        &self,
        alloc: Global,
        place: usize,
        text: &GraphText,
        dag: Graph,
    ) -> Result<Change, AllocError>
        requires taken { IsTaken self.now.content text.now dag }
        requires stands { StandsAt dag.spec.dag_id self.now.content.graphs place }
        requires other { (g : states.LoadedGraph) → slice_get self.now.content.graphs place ≡ Some g
            → same g.text text.now ≡ false }
        requires accepted { refused self.now.content (Replace text.now) ≡ None }
        requires quiet { disturbed self.now.content dag ≡ None }
        ensures { IfOk result (IsPlanned self.now.content (Replace text.now)) }
    {
        let graph = with_text_of(&self.graphs[place], text.copy(alloc)?, dag);
        let aftermath = self.aftermath(alloc, place, &graph)?;
        let effect = Effect {
            graphs: GraphChange::Replace(graph, aftermath.shelves),
            patches: aftermath.patches,
            rest: Some(aftermath.rest),
        };
        let answer = Answer {
            jobs: aftermath.jobs,
            ..quiet_answer(alloc)
        };
        Ok(self.change_of(effect, answer, aftermath.rows))
    }

    // What is left where the graph at the place is this one. The shelves are made anew, before tries are handed out and after.
    fn aftermath(
        &self,
        alloc: Global,
        place: usize,
        graph: &LoadedGraph,
    ) -> Result<Aftermath, AllocError>
        requires stands { StandsAt graph.now.dag.spec.dag_id self.now.content.graphs place }
        requires sound { IsSound (with_other_graph graph.now self.now.content) }
        requires kept { IsSettledAndSound (hand_out (settle (with_other_graph graph.now self.now.content))) }
        requires taken { TakeAlike self.now.content (with_other_graph graph.now self.now.content) }
        ensures { IfOk result (IsAftermath self.now.content graph.now) }
    {
        let mut occupied = self.occupied.copy(alloc)?;
        let mut draft = self.refitted(alloc, place, graph)?;
        settle(alloc, &mut draft)?;
        let before = shelves_of(alloc, &draft)?;
        let jobs = hand_out(alloc, &mut draft, before.as_slice(), &mut occupied)?;
        own_runs_of(alloc, &mut draft, &graph.dag.spec().dag_id)?;
        let rows = self.rows_replaced(alloc, &draft, graph)?;
        let shelves = shelves_of(alloc, &draft)?;
        Ok(Aftermath {
            rest: rest_of(draft, occupied),
            shelves,
            patches: Vec::new(alloc),
            jobs,
            rows,
        })
    }

    // The schedule as a draft, in which the graph at the place is this one, and its runs go on by it.
    fn refitted<'d>(
        &'d self,
        alloc: Global,
        place: usize,
        graph: &'d LoadedGraph,
    ) -> Result<Draft<'d>, AllocError>
        requires { StandsAt graph.now.dag.spec.dag_id self.now.content.graphs place }
        ensures base { IfOk result (λ draft. draft.base ≡ self.now.content) }
        ensures content { IfOk result (λ draft. draft.content
            ≡ with_other_graph graph.now self.now.content) }
    {
        let mut draft = Draft::over_with(alloc, self.base(), graph);
        refit(alloc, &mut draft, &self.graphs[place].dag, &graph.dag)?;
        Ok(draft)
    }

    // The rows that the schedule lacks after a draft over it in which the graph with the id of this one is this one.
    fn rows_replaced(
        &self,
        alloc: Global,
        draft: &Draft<'_>,
        graph: &LoadedGraph,
    ) -> Result<Rows, AllocError>
        requires based { draft.now.base ≡ self.now.content }
        requires graphs { draft.now.content.graphs ≡ with_other (Some graph.now) self.now.content.graphs }
        requires own { OwnsRunsOf graph.now.dag.spec.dag_id draft.now.content.runs draft.now }
        requires sound { IsSound draft.now.content }
        ensures { IfOk result (λ rows. rows ≡ rows_between self.now.content draft.now.content) }
    {
        let dags = dags_with(alloc, self.graphs.as_slice(), graph)?;
        let limits = limits_with(alloc, self.graphs.as_slice(), graph)?;
        rows_of(alloc, &self.base(), draft, dags, limits)
    }
}

// A graph that has taken the text in, which says this. Its pause is that of the old one.
fn with_text_of(old: &LoadedGraph, text: GraphText, dag: Graph) -> LoadedGraph
    ensures { result ≡ taken_in text dag old.now }
{
    LoadedGraph {
        paused: old.paused,
        ..new_graph(text, dag)
    }
}

// The runs of the graph may be changed: what was not touched stays as it is. The runs stand in the order of their keys.
fn own_runs_of(alloc: Global, draft: &mut Draft<'_>, id: &Name) -> Result<(), AllocError>
    requires { rises run_before draft.old.content.runs ≡ true }
    ensures base { OnOk result (draft.new.base ≡ draft.old.base) }
    ensures content { OnOk result (draft.new.content ≡ draft.old.content) }
    ensures own { OnOk result (OwnsRunsOf id.now draft.old.content.runs draft.new) }
{
    let span = span_of_all(draft, id);
    for position in span.start..span.end {
        draft.own(alloc, position)?;
    }
    Ok(())
}
