//! The dates of the graphs' runs, beside the graphs: room for those that a change adds, and how they are added. Each graph is found by a binary
//! search, and none is looked at to which no run is added.
ghost use Rattle.std.specs.Prelude.{◌≡◌, ◌+◌, ◌<◌, ◌≤◌, ◌||◌, ◌==◌, true, ℕ, length, map, take, vec_capacity, OnOk};
ghost use Rattle.std.specs.List.{list_any};
ghost use Rattle.run_planner.specs.Index.{Index, has_date};
ghost use Rattle.sched_model.specs.Lists.{rises};
ghost use Rattle.sched_model.specs.Schedule.{graph_before};
ghost use Rattle.sched_core.specs.Dates.{is_of, added_of, AreNoted, AreNotedAt, CanNoteAt, HaveRoom, HaveRoomTo, AreNotedWith, HaveRoomWith};

use crate::changes::Rest;
use dag_check::Graph;
use graph_file::Name;
use moment_core::Moment;
use run_lists::Edit;
use run_planner::RunIndex;
use sched_draft::position_named;
use sched_state::LoadedGraph;
use std::alloc::AllocError;

// Whether the edit adds a run of the graph with this id.
fn is_of(edit: &Edit, id: &Name) -> bool
    ensures { result ≡ is_of id.now edit.now }
{
    match edit.added() {
        Some(run) => run.graph == *id,
        None => false,
    }
}

// How many runs of the graph the edits add.
fn added_of(edits: &[Edit], id: &Name) -> usize
    ensures { result ≡ added_of id.now edits.now }
{
    edits.iter().filter(|edit| is_of(edit, id)).count()
}

// Whether the edit before this place adds a run of the graph with this id.
fn is_behind_one(edits: &[Edit], place: usize, id: &Name) -> bool
    requires { place ≤ length edits.now }
    ensures { result ≡ true → list_any (is_of id.now) (take place edits.now) ≡ true }
{
    match place.checked_sub(1) {
        Some(before) => is_of(&edits[before], id),
        None => false,
    }
}

// Makes room for the dates of all runs of a graph that the edits add, where the edit at this place adds one. If the edit before it adds one
// of that graph too, there is that room already.
fn room_at(
    graphs: &[LoadedGraph],
    dates: &mut Vec<RunIndex>,
    edits: &[Edit],
    place: usize,
) -> Result<(), AllocError>
    requires order { rises graph_before graphs.now ≡ true }
    requires long { length dates.old.items ≡ length graphs.now }
    requires within { place < length edits.now }
    requires so_far { HaveRoomTo graphs.now edits.now place dates.old.items }
    ensures dates { map (λ (x : Index). x.dates) dates.new.items ≡ map (λ (x : Index). x.dates) dates.old.items }
    ensures room { OnOk result (HaveRoomTo graphs.now edits.now (place + 1) dates.new.items) }
{
    let Some(run) = edits[place].added() else {
        return Ok(());
    };
    if is_behind_one(edits, place, &run.graph) {
        return Ok(());
    }
    let Some(graph) = position_named(graphs, &run.graph) else {
        return Ok(());
    };
    dates[graph].reserve(added_of(edits, &run.graph))
}

// Makes room in the indices of the graphs for the dates of the runs that the edits add.
fn room_in(
    graphs: &[LoadedGraph],
    dates: &mut Vec<RunIndex>,
    edits: &[Edit],
) -> Result<(), AllocError>
    requires order { rises graph_before graphs.now ≡ true }
    requires long { length dates.old.items ≡ length graphs.now }
    ensures dates { map (λ (x : Index). x.dates) dates.new.items ≡ map (λ (x : Index). x.dates) dates.old.items }
    ensures room { OnOk result (HaveRoom graphs.now edits.now dates.new.items) }
{
    for place in 0..edits.len() {
        room_at(graphs, dates, edits, place)?;
    }
    Ok(())
}

// The same for what a change makes of the runs.
pub(crate) fn room_for_dates(
    graphs: &[LoadedGraph],
    dates: &mut Vec<RunIndex>,
    rest: &Option<Rest>,
) -> Result<(), AllocError>
    requires order { rises graph_before graphs.now ≡ true }
    requires long { length dates.old.items ≡ length graphs.now }
    ensures dates { map (λ (x : Index). x.dates) dates.new.items ≡ map (λ (x : Index). x.dates) dates.old.items }
    ensures room { OnOk result (HaveRoomWith graphs.now rest.now dates.new.items) }
{
    match rest {
        Some(rest) => room_in(graphs, dates, rest.edits.as_slice()),
        None => Ok(()),
    }
}

// A date of a run of the graph is added, and behind the last one the cursor of the index is moved.
fn note_one(index: &mut RunIndex, dag: &Graph, date: Moment, is_last: bool)
    requires { 0 < index.old.room }
    ensures dates { (d : ℕ) → has_date index.new.dates d ≡ ((date == d) || has_date index.old.dates d) }
    ensures room { index.old.room ≤ index.new.room + 1 }
{
    index.add(date);
    if is_last {
        index.move_cursor(dag);
    }
}

// Whether no edit behind this place adds a run of the graph with this id, where those of one graph stand one after another.
fn is_last(edits: &[Edit], place: usize, id: &Name) -> bool
    requires { place < length edits.now }
{
    match edits.get(place + 1) {
        Some(edit) => !is_of(edit, id),
        None => true,
    }
}

// The date of the run that the edit at this place adds is added to those of its graph.
fn note_at(graphs: &[LoadedGraph], dates: &mut Vec<RunIndex>, edits: &[Edit], place: usize)
    requires order { rises graph_before graphs.now ≡ true }
    requires long { length dates.old.items ≡ length graphs.now }
    requires within { place < length edits.now }
    requires room { CanNoteAt graphs.now edits.now place dates.old.items }
    ensures noted { AreNotedAt graphs.now edits.now place dates.old.items dates.new.items }
    ensures places { vec_capacity dates.new ≡ vec_capacity dates.old }
{
    let Some(run) = edits[place].added() else {
        return;
    };
    let Some(graph) = position_named(graphs, &run.graph) else {
        return;
    };
    let is_last = is_last(edits, place, &run.graph);
    note_one(&mut dates[graph], &graphs[graph].dag, run.logical, is_last);
}

// The dates of the runs that the edits add are added.
fn note_all(graphs: &[LoadedGraph], dates: &mut Vec<RunIndex>, edits: &[Edit])
    requires order { rises graph_before graphs.now ≡ true }
    requires long { length dates.old.items ≡ length graphs.now }
    requires room { HaveRoom graphs.now edits.now dates.old.items }
    ensures noted { AreNoted graphs.now edits.now dates.old.items dates.new.items }
    ensures places { vec_capacity dates.new ≡ vec_capacity dates.old }
{
    for place in 0..edits.len() {
        note_at(graphs, dates, edits, place);
    }
}

// The dates of the runs that a change adds are added.
pub(crate) fn note(graphs: &[LoadedGraph], dates: &mut Vec<RunIndex>, rest: &Option<Rest>)
    requires order { rises graph_before graphs.now ≡ true }
    requires long { length dates.old.items ≡ length graphs.now }
    requires room { HaveRoomWith graphs.now rest.now dates.old.items }
    ensures noted { AreNotedWith graphs.now rest.now dates.old.items dates.new.items }
    ensures places { vec_capacity dates.new ≡ vec_capacity dates.old }
{
    if let Some(rest) = rest {
        note_all(graphs, dates, rest.edits.as_slice());
    }
}
