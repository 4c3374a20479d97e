//! The runs of a schedule, and how edits are written into them.
ghost use Rattle.std.specs.Prelude.{◌≡◌, ◌+◌, ◌^◌, ◌<◌, ◌≤◌, ◌&&◌, [], true, length, find, nat_lt, IfOk, OnOk, Some, slice_get};
ghost use Rattle.std.specs.List.{list_any};
ghost use Rattle.std.specs.Option.{option_copied};
ghost use Rattle.sched_state.specs.Lists.{same};
ghost use Rattle.sched_state.specs.declared.runs.Run.{Run};
ghost use Rattle.sched_model.specs.Lists.{last_passing, rises};
ghost use Rattle.sched_model.specs.Schedule.{is_at, run_before};
ghost use Rattle.run_lists.specs.Edits.{AreEditsOf, added, edited, hidden, put_in};
ghost use Rattle.run_lists.specs.Orders.{IsPositionFrom};
ghost use Rattle.run_lists.specs.Positions.{positions_where, stands, stands_in};
ghost use Rattle.run_lists.specs.Rooms.{HasPlaces, all_added};
ghost use Rattle.run_lists.specs.declared.positions.Standing.TheVariants.{Running, Queued, InFlight};

use crate::Overlay;
use crate::edits::{Edit, Edits};
use crate::ordering::{has_key, positions_of};
use crate::positions::{Standing, make_room, place, positions_in, stands};
use graph_file::Name;
use moment_core::Moment;
use sched_state::Run;
use std::alloc::{AllocError, Global};
use std::marker::Model;
use tiered_vec::TieredVec;

/// The runs of a schedule, by graph and logical date, with the positions of those that are running, of those that are queued, and of those
/// that have a try in flight.
///
/// Contracts see the runs, and for how many more there is room.
#[derive(Debug, Drop)]
pub struct Runs {
    runs: TieredVec<Run>,
    running: Vec<usize>,
    queued: Vec<usize>,
    in_flight: Vec<usize>,
}

impl Model for Runs {
    ghost use Rattle.std.specs.Prelude.{◌-◌, length, vec_capacity};
    ghost use Rattle.run_lists.specs.Positions.{IsIndex, room_of, stands};
    ghost use Rattle.run_lists.specs.Rooms.{RunsValue};
    ghost use Rattle.run_lists.specs.declared.positions.Standing.TheVariants.{Running, Queued, InFlight};

    ghost Value = { RunsValue };

    ghost view = { λ r. record {
      runs = r.runs.items;
      room = room_of r.runs.room (vec_capacity r.running - length r.runs.items) (vec_capacity r.queued - length r.runs.items)
          (vec_capacity r.in_flight - length r.runs.items);
    } };

    ghost invariant = { λ r. IsIndex (stands Running) r.runs.items r.running.items (vec_capacity r.running)
        × IsIndex (stands Queued) r.runs.items r.queued.items (vec_capacity r.queued)
        × IsIndex (stands InFlight) r.runs.items r.in_flight.items (vec_capacity r.in_flight) };
}

impl Runs {
    /// No run. This takes no memory.
    pub fn new(alloc: Global) -> Runs
        ensures { result.runs ≡ [] }
    {
        Runs {
            runs: TieredVec::new(alloc),
            running: Vec::new(alloc),
            queued: Vec::new(alloc),
            in_flight: Vec::new(alloc),
        }
    }

    /// These runs. It goes through them four times. An `Err` says that memory ran out.
    pub fn of(alloc: Global, runs: Vec<Run>) -> Result<Runs, AllocError>
        ensures { IfOk result (λ made. made.runs ≡ runs.items) }
    {
        let running = positions_in(alloc, &runs, Standing::Running)?;
        let queued = positions_in(alloc, &runs, Standing::Queued)?;
        let in_flight = positions_in(alloc, &runs, Standing::InFlight)?;
        Ok(Runs {
            runs: TieredVec::of(alloc, runs)?,
            running,
            queued,
            in_flight,
        })
    }

    /// How many runs there are: fewer than 2^62.
    pub fn len(&self) -> usize
        ensures len { result ≡ length self.now.runs }
        ensures small { result < 2 ^ 62 }
    {
        self.runs.len()
    }

    /// The run at a position.
    pub fn get(&self, position: usize) -> &Run
        requires { position < length self.now.runs }
        ensures { slice_get self.now.runs position ≡ Some result.now }
    {
        self.runs.get(position)
    }

    /// The positions of the runs that are running, in their order.
    pub fn running(&self) -> &[usize]
        ensures { result.now ≡ positions_where (stands Running) self.now.runs }
    {
        self.standing(Standing::Running)
    }

    /// The positions of the runs that have a try in flight, that is one without an end, in their order.
    pub fn with_open_tries(&self) -> &[usize]
        ensures { result.now ≡ positions_where (stands InFlight) self.now.runs }
    {
        self.standing(Standing::InFlight)
    }

    // The positions of the runs that stand so, in their order.
    fn standing(&self, standing: Standing) -> &[usize]
        ensures { result.now ≡ positions_where (stands standing) self.now.runs }
    {
        match standing {
            Standing::Running => self.running.as_slice(),
            Standing::Queued => self.queued.as_slice(),
            Standing::InFlight => self.in_flight.as_slice(),
        }
    }

    /// The positions of the runs of this graph that are running, in their order. They are found by two binary searches among the running ones.
    pub fn running_of(&self, graph: &Name) -> &[usize]
        requires { rises run_before self.now.runs ≡ true }
        ensures { result.now ≡ positions_where (stands_in graph.now Running) self.now.runs }
    {
        self.standing_of(graph, Standing::Running)
    }

    /// The same, of those that are queued.
    pub fn queued_of(&self, graph: &Name) -> &[usize]
        requires { rises run_before self.now.runs ≡ true }
        ensures { result.now ≡ positions_where (stands_in graph.now Queued) self.now.runs }
    {
        self.standing_of(graph, Standing::Queued)
    }

    // The positions of the runs of this graph that stand so, in their order.
    fn standing_of(&self, graph: &Name, standing: Standing) -> &[usize]
        requires { rises run_before self.now.runs ≡ true }
        ensures { result.now ≡ positions_where (stands_in graph.now standing) self.now.runs }
    {
        positions_of(self.standing(standing), self, graph)
    }

    // Where the runs begin that do not stand before one of this graph and date.
    fn position_from(&self, graph: &Name, logical: Moment) -> usize
        requires { rises run_before self.now.runs ≡ true }
        ensures { IsPositionFrom graph.now logical self.now.runs result }
    {
        Overlay::new(*self.running.allocator(), self).position_from(graph, logical)
    }

    /// The run of this graph and date, if there is one. It is found by a binary search.
    pub fn run_of(&self, graph: &Name, logical: Moment) -> Option<&Run>
        requires { rises run_before self.now.runs ≡ true }
        ensures { option_copied result ≡ find (is_at graph.now logical) self.now.runs }
    {
        let position = self.position_from(graph, logical);
        if position == self.len() {
            return None;
        }
        let run = self.get(position);
        if has_key(run, graph, logical) {
            Some(run)
        } else {
            None
        }
    }

    /// The last run of this graph with an earlier date, if there is one: it stands right before where one of this date stands, or would. That
    /// is found by a binary search.
    pub fn last_before(&self, graph: &Name, logical: Moment) -> Option<&Run>
        requires { rises run_before self.now.runs ≡ true }
        ensures { option_copied result ≡ last_passing (λ q. same q.graph graph.now && nat_lt q.logical logical) self.now.runs }
    {
        let position = self.position_from(graph, logical);
        if position == 0 {
            return None;
        }
        let run = self.get(position - 1);
        if run.graph == *graph { Some(run) } else { None }
    }

    /// Whether there is a run of this graph. Where its runs begin, or would, is found by a binary search.
    pub fn has_runs(&self, graph: &Name) -> bool
        requires { rises run_before self.now.runs ≡ true }
        ensures { result ≡ list_any (λ r. same r.graph graph.now) self.now.runs }
    {
        let first = self.position_from(graph, Moment::at(0));
        first < self.len() && self.get(first).graph == *graph
    }

    /// Makes room for the runs that the edits add. What room there was is kept, also where memory runs out, which is what an `Err` says.
    pub fn reserve(&mut self, edits: &Edits) -> Result<(), AllocError>
        ensures runs { self.new.runs ≡ self.old.runs }
        ensures places { OnOk result (HasPlaces edits.now self.new.room) }
        ensures kept { self.old.room ≤ self.new.room }
    {
        let added = edits.edits.iter().filter(|edit| edit.is_new).count();
        let count = self.runs.len() + added;
        make_room(&mut self.running, count)?;
        make_room(&mut self.queued, count)?;
        make_room(&mut self.in_flight, count)?;
        self.runs.reserve(added)
    }

    /// Writes the edits, which are of these runs, and for which there is room. This takes no memory. The first edit is written first, at its
    /// position among all runs.
    pub fn write(&mut self, edits: Edits)
        requires edits { AreEditsOf self.old.runs edits }
        requires places { HasPlaces edits self.old.room }
        ensures runs { self.new.runs ≡ edited edits self.old.runs }
        ensures room { self.old.room ≤ self.new.room + all_added edits }
    {
        for edit in edits.edits {
            self.put(edit);
        }
    }

    // The edit is written at its position among all runs.
    fn put(&mut self, edit: Edit)
        requires within { edit.at + hidden edit.is_new ≤ length self.old.runs }
        requires place { added edit.is_new ≤ self.old.room }
        ensures runs { self.new.runs ≡ put_in edit.is_new edit.at edit.run (λ _. edit.run) self.old.runs }
        ensures room { self.old.room ≤ self.new.room + added edit.is_new }
    {
        let Edit {
            at,
            is_new,
            run,
            ..
        } = edit;
        let running = stands(&run, Standing::Running);
        let queued = stands(&run, Standing::Queued);
        let in_flight = stands(&run, Standing::InFlight);
        place(&mut self.running, is_new, at, running);
        place(&mut self.queued, is_new, at, queued);
        place(&mut self.in_flight, is_new, at, in_flight);
        if is_new {
            self.runs.insert(at, run);
        } else {
            self.runs.set(at, run);
        }
    }
}
