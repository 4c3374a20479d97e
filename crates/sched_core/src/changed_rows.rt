//! The rows of the record that a change makes differ.
ghost use Rattle.std.specs.Prelude.{◌≡◌, [], true, false, map, option_map, unwrap_or, IfOk, Some};
ghost use Rattle.sched_model.specs.Lists.{rises};
ghost use Rattle.sched_model.specs.Schedule.{graph_before, graph_among};
ghost use Rattle.sched_state.specs.declared.graphs.LoadedGraph.{LoadedGraph as Graph};
ghost use Rattle.sched_model.specs.Sound.{IsSound};
ghost use Rattle.sched_model.specs.Tables.{dag_row, limit_row};
ghost use Rattle.record_restoring.specs.record_rules.Between.{lacked};
ghost use Rattle.record_writing.specs.record_rules.Changes.{rows_between, same_dag_row, same_dag_limit_row};
ghost use Rattle.sched_draft.specs.Drafts.{HaveSameDags};
ghost use Rattle.sched_draft.specs.Parts.{with_other};
ghost use Rattle.sched_core.specs.Effects.{changed, with_change};
ghost use Rattle.sched_core.specs.Inside.{IsOver, IsLast, LeavesDags, completed};

use crate::changes::GraphChange;
use crate::graph_texts::bound_after;
use crate::schedules::Schedule;
use graph_file::Name;
use record_rows::{DagLimitRow, DagRow, Rows};
use record_writing::{dag_lacked, limit_lacked, rows_of};
use sched_draft::{Base, Draft, graph_named};
use sched_state::LoadedGraph;
use std::alloc::{AllocError, Global};

impl Schedule {
    // The schedule by its parts.
    pub(crate) fn base(&self) -> Base<'_>
        ensures { result ≡ self.now.content }
    {
        Base {
            limits: self.limits,
            graphs: self.graphs.as_slice(),
            pools: &self.occupied.pools,
            clock: self.clock,
            lanes: self.lanes,
            next: self.next,
            runs: &self.runs,
        }
    }

    // The rows that the schedule lacks after a draft over it and a change of its graphs.
    pub(crate) fn rows_changed(
        &self,
        alloc: Global,
        draft: &Draft<'_>,
        graphs: &GraphChange,
    ) -> Result<Rows, AllocError>
        requires based { draft.now.base ≡ self.now.content }
        requires over { IsOver graphs.now self.now.content draft.now.content }
        requires last { IsLast graphs.now draft.now.content }
        requires leaves { LeavesDags graphs.now }
        requires sound { IsSound (completed graphs.now draft.now.content) }
        ensures { IfOk result (λ rows. rows ≡ rows_between self.now.content
            (completed graphs.now draft.now.content)) }
    {
        let dags = dags_changed(alloc, self.graphs.as_slice(), graphs)?;
        let limits = limits_changed(alloc, self.graphs.as_slice(), graphs)?;
        rows_of(alloc, &self.base(), draft, dags, limits)
    }

    // The rows that it lacks after a change of its graphs alone.
    pub(crate) fn rows_of_graphs(
        &self,
        alloc: Global,
        graphs: &GraphChange,
    ) -> Result<Rows, AllocError>
        requires { HaveSameDags self.now.content.graphs
            (changed graphs.now self.now.content.graphs) self.now.content.runs }
        ensures { IfOk result (λ rows. rows ≡ rows_between self.now.content
            (with_change graphs.now self.now.content)) }
    {
        let dags = dags_changed(alloc, self.graphs.as_slice(), graphs)?;
        let limits = limits_changed(alloc, self.graphs.as_slice(), graphs)?;
        Ok(only(alloc, dags, limits))
    }
}

// The rows of graphs that these lack after a change.
fn dags_changed(
    alloc: Global,
    graphs: &[LoadedGraph],
    change: &GraphChange,
) -> Result<Vec<DagRow>, AllocError>
    requires { rises graph_before graphs.now ≡ true }
    ensures { IfOk result (λ rows. rows.items ≡ lacked same_dag_row (map dag_row graphs.now)
        (map dag_row (changed change.now graphs.now))) }
{
    match change {
        GraphChange::Same => Ok(Vec::new(alloc)),
        GraphChange::Load(text, dag, _, _) => {
            let id = &dag.spec().dag_id;
            dag_lacked(alloc, graphs, id, text, is_paused(graphs, id))
        }
        GraphChange::Pause(id, paused) => match graph_named(graphs, id) {
            Some(graph) => dag_lacked(alloc, graphs, id, &graph.text, *paused),
            None => Ok(Vec::new(alloc)),
        },
        GraphChange::Replace(graph, _) => dags_with(alloc, graphs, graph),
    }
}

// The rows of graphs that these lack where the one with the id of this one is this one.
pub(crate) fn dags_with(
    alloc: Global,
    graphs: &[LoadedGraph],
    other: &LoadedGraph,
) -> Result<Vec<DagRow>, AllocError>
    requires { rises graph_before graphs.now ≡ true }
    ensures { IfOk result (λ rows. rows.items ≡ lacked same_dag_row (map dag_row graphs.now)
        (map dag_row (with_other (Some other.now) graphs.now))) }
{
    let id = &other.dag.spec().dag_id;
    match graph_named(graphs, id) {
        Some(_) => dag_lacked(alloc, graphs, id, &other.text, other.paused),
        None => Ok(Vec::new(alloc)),
    }
}

// The rows of the graphs' bounds that these lack after a change.
fn limits_changed(
    alloc: Global,
    graphs: &[LoadedGraph],
    change: &GraphChange,
) -> Result<Vec<DagLimitRow>, AllocError>
    requires { rises graph_before graphs.now ≡ true }
    ensures { IfOk result (λ rows. rows.items ≡ lacked same_dag_limit_row (map limit_row graphs.now)
        (map limit_row (changed change.now graphs.now))) }
{
    match change {
        GraphChange::Same | GraphChange::Pause(_, _) => Ok(Vec::new(alloc)),
        GraphChange::Load(text, dag, _, _) => {
            let bound = bound_after(graphs, text, dag);
            limit_lacked(alloc, graphs, &dag.spec().dag_id, bound)
        }
        GraphChange::Replace(graph, _) => limits_with(alloc, graphs, graph),
    }
}

// The rows of the graphs' bounds that these lack where the one with the id of this one is this one.
pub(crate) fn limits_with(
    alloc: Global,
    graphs: &[LoadedGraph],
    other: &LoadedGraph,
) -> Result<Vec<DagLimitRow>, AllocError>
    requires { rises graph_before graphs.now ≡ true }
    ensures { IfOk result (λ rows. rows.items ≡ lacked same_dag_limit_row (map limit_row graphs.now)
        (map limit_row (with_other (Some other.now) graphs.now))) }
{
    let id = &other.dag.spec().dag_id;
    match graph_named(graphs, id) {
        Some(_) => limit_lacked(alloc, graphs, id, other.max_active_tasks.get()),
        None => Ok(Vec::new(alloc)),
    }
}

// Whether the graph with this id is there and paused.
fn is_paused(graphs: &[LoadedGraph], id: &Name) -> bool
    requires { rises graph_before graphs.now ≡ true }
    ensures { result ≡ unwrap_or (option_map (λ (g : Graph). g.paused)
        (graph_among graphs.now id.now)) false }
{
    match graph_named(graphs, id) {
        Some(graph) => graph.paused,
        None => false,
    }
}

// The rows of graphs and of their bounds alone.
fn only(alloc: Global, dags: Vec<DagRow>, dag_limits: Vec<DagLimitRow>) -> Rows
    ensures { result ≡ record {
      metas = [];
      pools = [];
      dags = dags.items;
      dag_limits = dag_limits.items;
      runs = [];
      instances = [];
      attempts = [];
    } }
{
    Rows {
        metas: Vec::new(alloc),
        pools: Vec::new(alloc),
        dags,
        dag_limits,
        runs: Vec::new(alloc),
        instances: Vec::new(alloc),
        attempts: Vec::new(alloc),
    }
}
