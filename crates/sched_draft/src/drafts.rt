//! The draft, and the small changes that it takes.
ghost use Rattle.std.specs.Prelude.{◌≡◌, ◌≢◌, ◌<◌, ◌≤◌, [], false, true, find, length, IfOk, MatchOption, OnOk, OnErr, Some, slice_get};
ghost use Rattle.std.specs.BTreeSet.{insert_key};
ghost use Rattle.std.specs.List.{list_any};
ghost use Rattle.std.specs.Option.{option_copied};
ghost use Rattle.std.specs.Ordering.{nat_cmp};
ghost use Rattle.instance_machine.specs.Instances.{map_tries};
ghost use Rattle.instance_machine.specs.Reports.{reported_try, lost_try};
ghost use Rattle.trigger_rules.specs.declared.verdicts.Verdict.TheVariants.{Wait};
ghost use Rattle.run_lists.specs.Edits.{AreEditsOf, edited};
ghost use Rattle.run_lists.specs.Orders.{IsFirstOf, IsRunAt, IsSpanOf, position_in_order};
ghost use Rattle.run_lists.specs.Overlays.{AreAllTouched};
ghost use Rattle.run_lists.specs.Positions.{positions_where, stands};
ghost use Rattle.run_lists.specs.Touched.{touched_with};
ghost use Rattle.run_lists.specs.declared.positions.Standing.TheVariants.{Running};
ghost use Rattle.sched_state.specs.Lists.{insert_by};
ghost use Rattle.sched_state.specs.declared.runs.Run.{Run};
ghost use Rattle.run_lists.specs.sched_model.Clearing.{set_to};
ghost use Rattle.run_lists.specs.sched_model.Lists.{at, rises};
ghost use Rattle.run_lists.specs.sched_model.Schedule.{is_at, run_before};
ghost use Rattle.run_lists.specs.sched_model.Changes.{set_now};
ghost use Rattle.run_lists.specs.sched_model.Handout.{in_instance, last_serial};
ghost use Rattle.sched_draft.specs.Books.{pools_in};
ghost use Rattle.sched_draft.specs.Drafts.{IsOwn};
ghost use Rattle.sched_draft.specs.Parts.{decided_as, in_phase, instances_at, handed_at, with_instances, with_other, with_pause};

use crate::bases::Base;
use graph_file::{Bounded, Name, Sequence};
use instance_machine::{Instance, Stage};
use moment_core::Moment;
use pool_book::Pools;
use run_lists::{Edits, Overlay, Runs};
use sched_state::{Limits, LoadedGraph, Run, RunPhase};
use std::alloc::{AllocError, Global};
use std::marker::Model;
use std::ops::Range;
use trigger_rules::Verdict;

/// A schedule that is being made over one that is there. Its graphs are those of that schedule, of which one may have another pause, or may
/// be another one with its id, and its pools those of a book; of the runs it holds the changed and added ones. What the book has of taken
/// slots is not looked at.
#[derive(Drop)]
pub struct Draft<'a> {
    base: Base<'a>,
    limits: Limits,
    pub(crate) graphs: &'a [LoadedGraph],
    // The graph with this id is paused or not as `paused` says, whatever it says itself.
    pub(crate) named: Option<&'a Name>,
    pub(crate) paused: bool,
    // The graph with the id of this one is this one.
    pub(crate) other: Option<&'a LoadedGraph>,
    pools: &'a Pools,
    clock: Moment,
    lanes: u32,
    next: u64,
    runs: Overlay<'a>,
}

impl<'a> Model for Draft<'a> {
    ghost use Rattle.std.specs.Prelude.{◌≡◌, true};
    ghost use Rattle.std.specs.Option.{option_copied};
    ghost use Rattle.run_lists.specs.sched_model.Lists.{rises};
    ghost use Rattle.run_lists.specs.sched_model.Schedule.{graph_before};
    ghost use Rattle.sched_draft.specs.Books.{pools_in};
    ghost use Rattle.sched_draft.specs.Drafts.{DraftValue};
    ghost use Rattle.sched_draft.specs.Parts.{with_other, with_pause};

    ghost Value = { DraftValue };

    ghost view = { λ d. record {
      base = record d.base { runs = d.runs.base };
      content = record {
        limits = d.limits;
        graphs = with_pause (option_copied d.named) d.paused (with_other (option_copied d.other) d.graphs.now);
        pools = pools_in d.pools.now.pools;
        now = d.clock;
        lanes = d.lanes;
        next = d.next;
        runs = d.runs.runs;
      };
      touched = d.runs.touched;
    } };

    ghost invariant = { λ d. (rises graph_before d.graphs.now ≡ true) × (d.graphs.now ≡ d.base.graphs) };
}

// The instance has this verdict, or none, and none of its tries counts.
fn set(instance: &mut Instance, verdict: Option<Verdict>)
    requires { verdict ≢ Some Wait }
    ensures { instance.new ≡ set_to verdict instance.old }
{
    instance.clear();
    if let Some(verdict) = verdict {
        instance.decide(verdict);
    }
}

impl<'a> Draft<'a> {
    /// The schedule that is there, in which the graph with the id `named` is paused or not as `paused` says. This takes no memory.
    pub fn over(alloc: Global, base: Base<'a>, named: Option<&'a Name>, paused: bool) -> Draft<'a>
        ensures { result ≡ record {
          base = base.entry;
          content = record base.entry
              { graphs = with_pause (option_copied named.entry) paused base.entry.graphs };
          touched = [];
        } }
    {
        Draft::made(alloc, base, named, paused, None)
    }

    /// The schedule that is there, in which the graph with the id of this one is this one. Its runs are as they are. This takes no memory.
    pub fn over_with(alloc: Global, base: Base<'a>, other: &'a LoadedGraph) -> Draft<'a>
        ensures { result ≡ record {
          base = base.entry;
          content = record base.entry
              { graphs = with_other (Some other.entry.now) base.entry.graphs };
          touched = [];
        } }
    {
        Draft::made(alloc, base, None, false, Some(other))
    }

    // The schedule that is there, with another pause of one graph, and another graph in the place of one.
    fn made(
        alloc: Global,
        base: Base<'a>,
        named: Option<&'a Name>,
        paused: bool,
        other: Option<&'a LoadedGraph>,
    ) -> Draft<'a>
        ensures { result ≡ record {
          base = base.entry;
          content = record base.entry {
            graphs = with_pause (option_copied named.entry) paused
                (with_other (option_copied other.entry) base.entry.graphs);
          };
          touched = [];
        } }
    {
        let runs = Overlay::new(alloc, base.runs);
        Draft {
            limits: base.limits,
            graphs: base.graphs,
            named,
            paused,
            other,
            pools: base.pools,
            clock: base.clock,
            lanes: base.lanes,
            next: base.next,
            runs,
            base,
        }
    }

    /// The last moment that it has seen.
    pub fn clock(&self) -> Moment
        ensures { result ≡ self.now.content.now }
    {
        self.clock
    }

    /// The most tries that may be open at once.
    pub fn lanes(&self) -> u32
        ensures { result ≡ self.now.content.lanes }
    {
        self.lanes
    }

    /// The book of its pools: their names and sizes are those of the draft.
    pub fn pools(&self) -> &'a Pools
        ensures { pools_in result.now.pools ≡ self.now.content.pools }
    {
        self.pools
    }

    /// The serial of the next try.
    pub fn next_serial(&self) -> u64
        ensures { result ≡ self.now.content.next }
    {
        self.next
    }

    /// The runs of the schedule under it, as they are.
    pub fn runs_below(&self) -> &'a Runs
        ensures { result.now.runs ≡ self.now.base.runs }
    {
        self.runs.runs_below()
    }

    /// How many runs there are.
    pub fn run_count(&self) -> usize
        ensures { result ≡ length self.now.content.runs }
    {
        self.runs.len()
    }

    /// The positions of the runs that are running, in their order. It looks at those of the schedule under it, and at the runs that are its own.
    /// An `Err` says that memory ran out.
    pub fn running(&self, alloc: Global) -> Result<Vec<usize>, AllocError>
        ensures { IfOk result (λ positions. positions.items ≡ positions_where (stands Running) self.now.content.runs) }
    {
        self.runs.running(alloc)
    }

    /// The run at a position.
    pub fn run(&self, position: usize) -> &Run
        requires { position < length self.now.content.runs }
        ensures { slice_get self.now.content.runs position ≡ Some result.now }
    {
        self.runs.get(position)
    }

    /// Where the runs of this graph begin, or would: they stand from there on, one after another. It is found by binary searches.
    pub fn first_of(&self, graph: &Name) -> usize
        requires { rises run_before self.now.content.runs ≡ true }
        ensures { IsFirstOf graph.now self.now.content.runs result }
    {
        self.runs.first_of(graph)
    }

    /// The positions of the runs of this graph with a date from the first to the last, both among them: they stand one after another. They are found
    /// by binary searches.
    pub fn span_of(&self, graph: &Name, first: Moment, last: Moment) -> Range<usize>
        requires { rises run_before self.now.content.runs ≡ true }
        ensures { IsSpanOf graph.now first last self.now.content.runs result.start result.end }
    {
        self.runs.span_of(graph, first, last)
    }

    /// The position of the run of this graph and date.
    pub fn find(&self, graph: &Name, logical: Moment) -> Option<usize>
        requires { rises run_before self.now.content.runs ≡ true }
        ensures { MatchOption result (list_any (is_at graph.now logical) self.now.content.runs ≡ false)
            (IsRunAt graph.now logical self.now.content.runs) }
    {
        self.runs.find(graph, logical)
    }

    /// The run that was there with the key of the one at a position, as it was.
    pub fn before(&self, position: usize) -> Option<&Run>
        requires within { position < length self.now.content.runs }
        requires order { rises run_before self.now.content.runs ≡ true }
        ensures { (r : Run) → slice_get self.now.content.runs position ≡ Some r
            → option_copied result ≡ find (is_at r.graph r.logical) self.now.base.runs }
    {
        self.runs.before(position)
    }

    /// The positions of the runs that were changed or added.
    pub fn touched(&self, alloc: Global) -> Result<Vec<usize>, AllocError>
        ensures positions { IfOk result (λ positions. positions.items ≡ self.now.touched) }
        ensures over { AreAllTouched self.now.touched self.now.base.runs self.now.content.runs }
    {
        self.runs.touched(alloc)
    }

    /// The edits that make its runs of those that are there.
    pub fn into_edits(self) -> Edits
        ensures edits { AreEditsOf self.entry.base.runs result }
        ensures runs { edited result self.entry.base.runs ≡ self.entry.content.runs }
    {
        let Draft { runs, .. } = self;
        runs.into_edits()
    }

    /// The clock is set.
    pub fn set_clock(&mut self, moment: Moment)
        ensures { self.new ≡ record self.old { content = set_now moment self.old.content } }
    {
        self.clock = moment;
    }

    /// There are so many lanes.
    pub fn set_lanes(&mut self, lanes: u32)
        ensures { self.new ≡ record self.old { content = record self.old.content { lanes = lanes } } }
    {
        self.lanes = lanes;
    }

    /// The pools are those of another book.
    pub fn set_pools(&mut self, pools: &'a Pools)
        ensures { self.new ≡ record self.old
            { content = record self.old.content { pools = pools_in pools.now.pools } } }
    {
        self.pools = pools;
    }

    /// The run at a position may be changed from now on: it is copied, unless it is the draft's own. Without memory nothing changes.
    pub fn own(&mut self, alloc: Global, position: usize) -> Result<(), AllocError>
        requires { position < length self.old.content.runs }
        ensures ok { OnOk result (self.new ≡ record self.old
            { touched = insert_key nat_cmp self.old.touched position }) }
        ensures own { OnOk result (IsOwn position self.new) }
        ensures err { OnErr result (self.new ≡ self.old) }
    {
        self.runs.own(alloc, position)
    }

    /// The run at a position gets another phase.
    pub fn set_phase(&mut self, position: usize, phase: RunPhase)
        requires { IsOwn position self.old }
        ensures { self.new ≡ record self.old {
          content = record self.old.content
              { runs = at (in_phase phase) position self.old.content.runs };
        } }
    {
        self.runs.set_phase(position, phase);
    }

    /// The run at a position gets other instances.
    pub fn set_instances(&mut self, position: usize, instances: Sequence<Instance>)
        requires { IsOwn position self.old }
        ensures { self.new ≡ record self.old {
          content = record self.old.content
              { runs = at (with_instances instances) position self.old.content.runs };
        } }
    {
        self.runs.set_instances(position, instances);
    }

    /// The instance at a place of a run is decided.
    pub fn decide(&mut self, position: usize, place: usize, verdict: Verdict)
        requires own { IsOwn position self.old }
        requires instance { place < instances_at position self.old.content }
        requires verdict { verdict ≢ Wait }
        ensures { self.new ≡ record self.old {
          content = record self.old.content
              { runs = at (in_instance (decided_as verdict) place) position self.old.content.runs };
        } }
    {
        self.runs.instance_mut(position, place).decide(verdict);
    }

    /// The instance at a place of a run has this verdict, or none, from now on, and its tries so far count for nothing.
    pub fn set(&mut self, position: usize, place: usize, verdict: Option<Verdict>)
        requires own { IsOwn position self.old }
        requires instance { place < instances_at position self.old.content }
        requires verdict { verdict ≢ Some Wait }
        ensures { self.new ≡ record self.old {
          content = record self.old.content
              { runs = at (in_instance (set_to verdict) place) position self.old.content.runs };
        } }
    {
        set(self.runs.instance_mut(position, place), verdict);
    }

    /// The instance at a place of a run gets a try with the next serial.
    pub fn hand(
        &mut self,
        position: usize,
        place: usize,
        slots: Bounded<1, 1_000>,
    ) -> Result<(), AllocError>
        requires own { IsOwn position self.old }
        requires instance { place < instances_at position self.old.content }
        requires serial { self.old.content.next ≤ last_serial }
        ensures { OnOk result (self.new ≡ record self.old
            { content = handed_at position place slots self.old.content }) }
    {
        self.runs
            .instance_mut(position, place)
            .hand_out(self.next, slots)?;
        self.next += 1;
        Ok(())
    }

    /// The try with this serial of the instance at a place of a run takes in what a worker reports of it, where it is its turn.
    pub fn report_at(&mut self, position: usize, place: usize, serial: u64, stage: Stage)
        requires own { IsOwn position self.old }
        requires instance { place < instances_at position self.old.content }
        ensures { self.new ≡ record self.old {
          content = record self.old.content {
            runs = at (in_instance (map_tries (reported_try serial stage self.old.content.now)) place) position
                self.old.content.runs;
          };
        } }
    {
        self.runs
            .instance_mut(position, place)
            .report(serial, stage, self.clock);
    }

    /// The open tries of the instance at a place of a run are lost.
    pub fn lose_at(&mut self, position: usize, place: usize)
        requires own { IsOwn position self.old }
        requires instance { place < instances_at position self.old.content }
        ensures { self.new ≡ record self.old {
          content = record self.old.content
              { runs = at (in_instance (map_tries (lost_try self.old.content.now)) place) position self.old.content.runs };
        } }
    {
        self.runs.instance_mut(position, place).lose(self.clock);
    }

    /// A run is added at its place in the order. Without memory nothing changes.
    pub fn insert(&mut self, run: Run) -> Result<(), AllocError>
        requires { rises run_before self.old.content.runs ≡ true }
        ensures ok { OnOk result (self.new ≡ record self.old {
          content = record self.old.content
              { runs = insert_by run_before run self.old.content.runs };
          touched = touched_with (position_in_order run self.old.content.runs) self.old.touched;
        }) }
        ensures err { OnErr result (self.new ≡ self.old) }
    {
        self.runs.add(run)
    }
}
