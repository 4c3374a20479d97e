//! The schedule in memory: what it shows, and how a planned change is done.
//!
//! A change is planned against the schedule as it is, room is reserved for it, and it is committed: only the first two can fail,
//! and neither changes what the schedule holds.
ghost use Rattle.std.specs.Prelude.{◌≡◌, ◌+◌, ◌-◌, ◌≤◌, List, [], false, length, min, IfOk, IfErr, OnOk, Some, true, vec_capacity, vec_len};
ghost use Rattle.std.specs.Option.{option_copied};
ghost use Rattle.sched_state.specs.declared.graphs.LoadedGraph as states;
ghost use Rattle.sched_model.specs.Lists.{rises};
ghost use Rattle.sched_model.specs.Schedule.{Schedule as Content, empty_schedule, graph_before, graph_named, has_runs};
ghost use Rattle.sched_model.specs.Changes.{with_graph};
ghost use Rattle.sched_events.specs.SettledAndSound.{IsSoundAndSaid};
ghost use Rattle.sched_events.specs.Outcomes.{IsStepped, IsRefusal};
ghost use Rattle.sched_creation.specs.Dates.{HaveDates};
ghost use Rattle.sched_draft.specs.Parts.{with_other};
ghost use Rattle.sched_ready.specs.Held.{AreShelvesOf, FitsShelf};
ghost use Rattle.sched_core.specs.Changes.{HasRoom};
ghost use Rattle.sched_core.specs.Effects.{changed, HoldsAfter, IsFitted};
ghost use Rattle.sched_core.specs.Inside.{IsLast};

use crate::changes::{Change, Effect, GraphChange};
use crate::dates::{note, room_for_dates};
use crate::default_pools::default_pools;
use crate::graph_texts::{new_graph, take_text};
use crate::lookups::position_of;
use crate::ordering::place_for_graph;
use crate::pausing::set_paused;
use dag_check::Graph;
use graph_file::Name;
use moment_core::Moment;
use run_lists::{RunRows, Runs};
use run_planner::RunIndex;
use sched_draft::graph_named;
use sched_events::{Answer, Event, Refusal};
use sched_handout::{ActiveTries, Occupied};
use sched_ready::{Shelf, put_all};
use sched_state::{GraphText, Limits, LoadedGraph};
use std::alloc::{AllocError, Global};
use std::marker::Model;

/// A schedule (Airflow 2, "Scheduler"): graphs with their runs and task instances, pools, and the last moment that it has seen.
///
/// Contracts see what it holds, `content`, and the `room` that is reserved.
#[derive(Drop)]
pub struct Schedule {
    pub(crate) limits: Limits,
    pub(crate) graphs: Vec<LoadedGraph>,
    // What is ready in their runs, by position, with the effective weights of their tasks.
    pub(crate) shelves: Vec<Shelf>,
    // The logical dates of their runs, by position.
    pub(crate) dates: Vec<RunIndex>,
    // What the tries without an end take, and the pools.
    pub(crate) occupied: Occupied,
    pub(crate) clock: Moment,
    pub(crate) lanes: u32,
    // The serial of the next try.
    pub(crate) next: u64,
    pub(crate) runs: Runs,
    // Neither a move nor a hand-out is possible: so each commit leaves it. One that was read from a record may be unsettled.
    pub(crate) is_settled: bool,
}

impl Model for Schedule {
    ghost use Rattle.std.specs.Prelude.{◌-◌, map, min, vec_len, vec_capacity};
    ghost use Rattle.run_planner.specs.Index.{Index};
    ghost use Rattle.sched_core.specs.Books.{IsKept, content_inside};
    ghost use Rattle.sched_core.specs.Changes.{ScheduleValue};

    ghost Value = { ScheduleValue };

    ghost view = { λ s. record {
      content = content_inside s;
      room = record {
        graphs = min (vec_capacity s.graphs - vec_len s.graphs) (min (vec_capacity s.shelves - vec_len s.shelves) (vec_capacity s.dates - vec_len s.dates));
        runs = s.runs.room;
        dates = map (λ (x : Index). x.room) s.dates.items;
      };
    } };

    ghost invariant = { IsKept };
}

impl Schedule {
    /// A schedule without graphs and lanes, whose clock stands at 1970-01-01T00:00:00Z. Its one pool is `default_pool`, of 128 slots
    /// (Airflow 2, "Pools").
    pub fn new(alloc: Global, limits: Limits) -> Result<Schedule, AllocError>
        ensures { IfOk result (λ schedule. schedule.content ≡ empty_schedule limits) }
    {
        Ok(Schedule {
            limits,
            graphs: Vec::new(alloc),
            shelves: Vec::new(alloc),
            dates: Vec::new(alloc),
            occupied: Occupied {
                in_flight: 0,
                pools: default_pools(alloc)?,
                active: ActiveTries::new(alloc),
            },
            clock: Moment::at(0),
            lanes: 0,
            next: 1,
            runs: Runs::new(alloc),
            is_settled: true,
        })
    }

    /// The last moment that the schedule has seen.
    pub fn now(&self) -> Moment
        ensures { result ≡ self.now.content.now }
    {
        self.clock
    }

    /// The limits that hold for it.
    pub fn limits(&self) -> Limits
        ensures { result ≡ self.now.content.limits }
    {
        self.limits
    }

    /// The most tries that may be without an end at once.
    pub fn lanes(&self) -> u32
        ensures { result ≡ self.now.content.lanes }
    {
        self.lanes
    }

    /// The serial of the next try.
    pub fn next_serial(&self) -> u64
        ensures { result ≡ self.now.content.next }
    {
        self.next
    }

    /// The runs, by graph id and logical date.
    pub fn runs(&self) -> RunRows<'_>
        ensures runs { result ≡ self.now.content.runs }
        ensures kept { IsSoundAndSaid self.now.content }
    {
        self.runs.iter()
    }

    /// How many runs there are.
    pub fn run_count(&self) -> usize
        ensures { result ≡ length self.now.content.runs }
    {
        self.runs.len()
    }

    /// The graphs, by id, each with its text and its pause.
    pub fn graphs(&self) -> &[LoadedGraph]
        ensures { result.now ≡ self.now.content.graphs }
    {
        self.graphs.as_slice()
    }

    /// The graph with this id, with its text and its pause.
    pub fn graph_of(&self, id: &Name) -> Option<&LoadedGraph>
        ensures { option_copied result ≡ graph_named self.now.content id.now }
    {
        graph_named(self.graphs.as_slice(), id)
    }

    /// Makes room for a change, so that it can be committed. What the schedule holds stays.
    pub fn reserve(&mut self, change: &Change) -> Result<(), AllocError>
        ensures content { self.new.content ≡ self.old.content }
        ensures room { OnOk result (HasRoom change.now self.new) }
    {
        room_for_dates(&self.graphs, &mut self.dates, &change.effect.rest)?;
        room_for_graphs(
            &mut self.graphs,
            &mut self.shelves,
            &mut self.dates,
            &change.effect.graphs,
        )?;
        match &change.effect.rest {
            Some(rest) => self.runs.reserve(&rest.edits),
            None => Ok(()),
        }
    }

    /// Does a change that was planned for this schedule, and for which there is room. This takes no memory and cannot fail.
    pub fn commit(&mut self, change: Change) -> Answer
        requires planned { change.before ≡ self.old.content }
        requires room { HasRoom change self.old }
        ensures after { self.new.content ≡ change.after }
        ensures answer { result ≡ change.answer }
    {
        let Change {
            before: _,
            effect: Effect {
                graphs,
                patches,
                rest,
            },
            answer,
            rows: _,
        } = change;
        note(&self.graphs, &mut self.dates, &rest);
        put_all(&mut self.shelves, patches);
        change_graphs(&mut self.graphs, &mut self.shelves, &mut self.dates, graphs);
        if let Some(rest) = rest {
            self.occupied = rest.occupied;
            self.clock = rest.clock;
            self.lanes = rest.lanes;
            self.next = rest.serial;
            self.runs.write(rest.edits);
        }
        self.is_settled = true;
        answer
    }

    /// Plans the event, reserves room for it and commits it. A refused event changes nothing.
    pub fn step(&mut self, alloc: Global, event: &Event) -> Result<Answer, Refusal>
        ensures accepted { IfOk result (IsStepped self.old.content event.now self.new.content) }
        ensures refused { IfErr result (λ r. IsRefusal self.old.content event.now r ×
            (self.new.content ≡ self.old.content)) }
    {
        let change = self.plan(alloc, event)?;
        self.reserve(&change)?;
        Ok(self.commit(change))
    }
}

// Makes room for the graph that a change takes in, for its shelf and for its dates.
fn room_for_graphs(
    graphs: &mut Vec<LoadedGraph>,
    shelves: &mut Vec<Shelf>,
    dates: &mut Vec<RunIndex>,
    change: &GraphChange,
) -> Result<(), AllocError>
    ensures graphs { graphs.new.items ≡ graphs.old.items }
    ensures shelves { shelves.new.items ≡ shelves.old.items }
    ensures dates { dates.new.items ≡ dates.old.items }
    ensures room { OnOk result ((gs : List LoadedGraph) → length (changed change.now gs) ≤ length gs
        + min (vec_capacity graphs.new - vec_len graphs.new) (min (vec_capacity shelves.new - vec_len shelves.new) (vec_capacity dates.new - vec_len dates.new))) }
{
    match change {
        GraphChange::Load(_, _, _, _) => {
            graphs.reserve(1)?;
            shelves.reserve(1)?;
            dates.reserve(1)
        }
        GraphChange::Same | GraphChange::Pause(_, _) | GraphChange::Replace(_, _) => Ok(()),
    }
}

// The graphs are changed so, and their shelves and dates with them.
fn change_graphs(
    graphs: &mut Vec<LoadedGraph>,
    shelves: &mut Vec<Shelf>,
    dates: &mut Vec<RunIndex>,
    change: GraphChange,
)
    requires order { rises graph_before graphs.old.items ≡ true }
    requires room { length (changed change graphs.old.items) ≤ vec_capacity graphs.old }
    requires places { length (changed change graphs.old.items) ≤ min (vec_capacity shelves.old) (vec_capacity dates.old) }
    requires shelves { length shelves.old.items ≡ length graphs.old.items }
    requires fitted { IsFitted change }
    requires long { length dates.old.items ≡ length graphs.old.items }
    ensures graphs { graphs.new.items ≡ changed change graphs.old.items }
    ensures shelves { (a : Content) → HoldsAfter change a.now graphs.old.items a.runs shelves.old.items → IsLast change a
        → AreShelvesOf a.now graphs.new.items a.runs shelves.new.items }
    ensures dates { (a : Content) → HaveDates graphs.old.items a.runs dates.old.items → IsLast change a
        → HaveDates graphs.new.items a.runs dates.new.items }
{
    match change {
        GraphChange::Same => {}
        GraphChange::Load(text, dag, shelf, index) => {
            take_in(graphs, shelves, dates, text, dag, shelf, index)
        }
        GraphChange::Pause(id, paused) => set_paused(graphs, &id, paused),
        GraphChange::Replace(graph, others) => {
            put_other(graphs, graph);
            *shelves = others;
        }
    }
}

// Takes a text in that says this, with this shelf and no date: a known graph that has another text gets the shelf in the place of its own, and a
// new one is put at its place. The bound is the one that the text says. The graph has no runs, so nothing of it is due.
fn take_in(
    graphs: &mut Vec<LoadedGraph>,
    shelves: &mut Vec<Shelf>,
    dates: &mut Vec<RunIndex>,
    text: GraphText,
    dag: Graph,
    shelf: Shelf,
    index: RunIndex,
)
    requires order { rises graph_before graphs.old.items ≡ true }
    requires room { length (with_graph text dag graphs.old.items) ≤ vec_capacity graphs.old }
    requires places { length (with_graph text dag graphs.old.items) ≤ min (vec_capacity shelves.old) (vec_capacity dates.old) }
    requires shelves { length shelves.old.items ≡ length graphs.old.items }
    requires shelf { FitsShelf dag shelf }
    requires index { index.dates ≡ [] }
    requires long { length dates.old.items ≡ length graphs.old.items }
    ensures graphs { graphs.new.items ≡ with_graph text dag graphs.old.items }
    ensures shelves { (a : Content) → AreShelvesOf a.now graphs.old.items a.runs shelves.old.items → has_runs a dag.spec.dag_id ≡ false
        → AreShelvesOf a.now graphs.new.items a.runs shelves.new.items }
    ensures dates { (a : Content) → HaveDates graphs.old.items a.runs dates.old.items → has_runs a dag.spec.dag_id ≡ false
        → HaveDates graphs.new.items a.runs dates.new.items }
{
    match position_of(graphs, &dag.spec().dag_id) {
        Some(place) => {
            if !graphs[place].text.is_same(&text) {
                take_text(&mut graphs[place], text, dag);
                shelves[place] = shelf;
            }
        }
        None => {
            let graph = new_graph(text, dag);
            let place = place_for_graph(graphs, &graph);
            let _ = graphs.insert(place, graph);
            let _ = shelves.insert(place, shelf);
            let _ = dates.insert(place, index);
        }
    }
}

// The graph with the id of this one is this one.
fn put_other(graphs: &mut Vec<LoadedGraph>, graph: LoadedGraph)
    requires { rises graph_before graphs.old.items ≡ true }
    ensures { graphs.new.items ≡ with_other (Some graph) graphs.old.items }
{
    match position_of(graphs, &graph.dag.spec().dag_id) {
        Some(place) => graphs[place] = graph,
        None => {}
    }
}
