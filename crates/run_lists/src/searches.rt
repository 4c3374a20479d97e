//! Runs by their keys: a binary search over all runs, each of which is found by one among the edits.
ghost use Rattle.std.specs.Prelude.{◌≡◌, true, false, OnOk, OnErr, MatchOption};
ghost use Rattle.std.specs.List.{list_any};
ghost use Rattle.sched_state.specs.Lists.{insert_by};
ghost use Rattle.sched_model.specs.Lists.{rises};
ghost use Rattle.sched_model.specs.Schedule.{is_at, run_before};
ghost use Rattle.run_lists.specs.Orders.{IsFirstOf, IsPositionFor, IsPositionFrom, IsRunAt, IsSpanOf, position_in_order};
ghost use Rattle.run_lists.specs.Touched.{touched_with};

use crate::Overlay;
use crate::ordering::{has_key, key_before};
use graph_file::Name;
use moment_core::Moment;
use sched_state::Run;
use std::alloc::AllocError;
use std::ops::Range;

impl Overlay<'_> {
    // Where a run of this graph and date would be put in: before the first run that it would stand before.
    fn position_for(&self, graph: &Name, logical: Moment) -> usize
        requires { rises run_before self.now.runs ≡ true }
        ensures { IsPositionFor graph.now logical self.now.runs result }
    {
        let mut low = 0;
        let mut high = self.len();
        while low < high {
            let middle = low + (high - low) / 2;
            if key_before(graph, logical, self.get(middle)) {
                high = middle;
            } else {
                low = middle + 1;
            }
        }
        low
    }

    /// The position of the run of this graph and date, and `None` exactly where there is no such run.
    pub fn find(&self, graph: &Name, logical: Moment) -> Option<usize>
        requires { rises run_before self.now.runs ≡ true }
        ensures { MatchOption result (list_any (is_at graph.now logical) self.now.runs ≡ false)
            (λ position. IsRunAt graph.now logical self.now.runs position) }
    {
        let after = self.position_for(graph, logical);
        if after > 0 && has_key(self.get(after - 1), graph, logical) {
            Some(after - 1)
        } else {
            None
        }
    }

    // Where the runs begin that do not stand before one of this graph and date.
    pub(crate) fn position_from(&self, graph: &Name, logical: Moment) -> usize
        requires { rises run_before self.now.runs ≡ true }
        ensures { IsPositionFrom graph.now logical self.now.runs result }
    {
        let after = self.position_for(graph, logical);
        if after > 0 && has_key(self.get(after - 1), graph, logical) {
            after - 1
        } else {
            after
        }
    }

    /// Where the runs of this graph begin, or would: they stand from there on, one after another.
    pub fn first_of(&self, graph: &Name) -> usize
        requires { rises run_before self.now.runs ≡ true }
        ensures { IsFirstOf graph.now self.now.runs result }
    {
        self.position_from(graph, Moment::at(0))
    }

    /// The positions of the runs of this graph with a date from the first to the last, both among them: they stand one after another.
    pub fn span_of(&self, graph: &Name, first: Moment, last: Moment) -> Range<usize>
        requires { rises run_before self.now.runs ≡ true }
        ensures { IsSpanOf graph.now first last self.now.runs result.start result.end }
    {
        self.position_from(graph, first)..self.position_for(graph, last)
    }

    /// A run is put in at its place in the order, and touched; those behind it stand one position further on. Where a run with its key is
    /// there already it is put in behind it. An `Err` says that memory ran out, and nothing has changed.
    pub fn add(&mut self, run: Run) -> Result<(), AllocError>
        requires { rises run_before self.old.runs ≡ true }
        ensures ok { OnOk result (self.new ≡ record self.old {
          runs = insert_by run_before run self.old.runs;
          touched = touched_with (position_in_order run self.old.runs) self.old.touched;
        }) }
        ensures err { OnErr result (self.new ≡ self.old) }
    {
        let position = self.position_for(&run.graph, run.logical);
        self.insert(position, run)
    }
}
