//! A planned change.
ghost use Rattle.std.specs.Prelude.{◌≡◌};
ghost use Rattle.record_writing.specs.record_rules.Changes.{rows_between};

use crate::schedules::Schedule;
use dag_check::Graph;
use graph_file::Name;
use moment_core::Moment;
use record_rows::Rows;
use run_lists::Edits;
use run_planner::RunIndex;
use sched_events::Answer;
use sched_handout::Occupied;
use sched_ready::{Patch, Shelf};
use sched_state::{GraphText, LoadedGraph};
use std::marker::Model;
use std::snapshot::Snapshot;

// What a change does to the schedule that it was planned for: to its graphs, to its shelves, and to all else, where that does not stay.
#[derive(Drop)]
pub(crate) struct Effect {
    pub graphs: GraphChange,
    // Of the shelves, before the graphs are changed.
    pub patches: Vec<Patch>,
    pub rest: Option<Rest>,
}

// What becomes of the graphs.
#[derive(Drop)]
pub(crate) enum GraphChange {
    // They stay.
    Same,
    // A text is taken in, which says this graph, with a shelf for it, and with no date.
    Load(GraphText, Graph, Shelf, RunIndex),
    // The graph with this id is paused, or is no more.
    Pause(Name, bool),
    // The graph with the id of this one is this one. Its runs go on by it, and all shelves are these.
    Replace(LoadedGraph, Vec<Shelf>),
}

// What an event leaves, but for the graphs.
#[derive(Drop)]
pub(crate) struct Rest {
    // What the tries without an end take, and the pools.
    pub occupied: Occupied,
    pub clock: Moment,
    pub lanes: u32,
    // The serial of the next try.
    pub serial: u64,
    // What becomes of the runs.
    pub edits: Edits,
}

/// What an accepted event will do: it is made by `Schedule::plan`, and done by `Schedule::commit`.
///
/// Contracts see the schedule before it, the one after it, and the answer.
#[derive(Drop)]
pub struct Change {
    pub(crate) before: Snapshot<Schedule>,
    pub(crate) effect: Effect,
    pub(crate) answer: Answer,
    // Those that the schedule lacks after it.
    pub(crate) rows: Rows,
}

impl Model for Change {
    ghost use Rattle.sched_core.specs.Changes.{Planned};
    ghost use Rattle.sched_core.specs.Effects.{applied, IsEffect};

    ghost Value = { Planned };

    ghost view = { λ c. record { before = c.before.value.content; after = applied c.effect c.before.value.content; answer = c.answer } };

    ghost invariant = { λ c. IsEffect c.effect c.rows c.before.value.content };
}

impl Change {
    /// The rows of the record that the schedule after the event has and the one before it lacks, each table by its key (docs/RECORD.md).
    /// No row is ever taken away: put by key over the tables of the schedule before, parents first, they give the tables of the one
    /// after.
    pub fn rows(&self) -> &Rows
        ensures { result.now ≡ rows_between self.now.before self.now.after }
    {
        &self.rows
    }
}
