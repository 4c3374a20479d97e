//! Runs over the runs that are there.
//!
//! An overlay holds one list of edits, one for each touched run, in the order of their positions. A read asks it first, and else the runs
//! that are there. A run is changed in two steps: `own` copies it and may want memory, the changes after it cannot fail.
ghost use Rattle.std.specs.Prelude.{◌≡◌, ◌<◌, ◌≤◌, [], true, false, length, find, OnOk, OnErr, IfOk, Some, slice_get};
ghost use Rattle.std.specs.BTreeSet.{insert_key};
ghost use Rattle.std.specs.List.{insert};
ghost use Rattle.std.specs.List.Sorted.{IsStrictlySortedBy};
ghost use Rattle.std.specs.Option.{option_copied};
ghost use Rattle.std.specs.Ordering.{nat_cmp};
ghost use Rattle.dag_check.specs.Orders.{is_in};
ghost use Rattle.sched_state.specs.declared.runs.Run.{Run};
ghost use Rattle.sched_model.specs.Lists.{at, rises};
ghost use Rattle.sched_model.specs.Schedule.{run_before, is_at};
ghost use Rattle.run_lists.specs.Changes.{in_phase, instances_at, with_instances};
ghost use Rattle.run_lists.specs.Edits.{AreEditsOf, edited, positions_in};
ghost use Rattle.run_lists.specs.Overlays.{IsOwned, IsAdded, IsInstanceAt, AreAllTouched};
ghost use Rattle.run_lists.specs.Positions.{positions_where, stands};
ghost use Rattle.run_lists.specs.Touched.{touched_with};
ghost use Rattle.run_lists.specs.declared.positions.Standing.TheVariants.{Running};

use crate::edits::{Edit, Edits, all_added, base_position, find, move_up, place_of, positions};
use crate::positions::place_edit;
use crate::runs::Runs;
use graph_file::Sequence;
use instance_machine::Instance;
use sched_state::{Run, RunPhase};
use std::alloc::{AllocError, Global};
use std::marker::Model;

/// Runs that an event is making: those that are there, of which some are hidden by their changed copies, and added ones.
///
/// Contracts see the runs that are there, those that are made of them, and the positions of the touched ones among these. Each call finds
/// a run by one binary search among the edits, of which there is one for each touched run.
#[derive(Drop)]
pub struct Overlay<'a> {
    base: &'a Runs,
    edits: Vec<Edit>,
}

impl<'a> Model for Overlay<'a> {
    ghost use Rattle.run_lists.specs.Overlays.{OverlayValue};
    ghost use Rattle.run_lists.specs.Edits.{AreEditsOf, edited, positions_in};

    ghost Value = { OverlayValue };

    ghost view = { λ o. record {
      base = o.base.now.runs;
      runs = edited o.edits.items o.base.now.runs;
      touched = positions_in o.edits.items;
    } };

    ghost invariant = { λ o. AreEditsOf o.base.now.runs o.edits.items };
}

impl<'a> Overlay<'a> {
    ghost use Rattle.std.specs.Borrow.{sem};
    ghost use Rattle.run_lists.specs.Lending.{lends_instance};

    /// The runs as they are: no run is touched. This takes no memory.
    pub fn new(alloc: Global, base: &'a Runs) -> Overlay<'a>
        ensures { result ≡ record { base = base.now.runs; runs = base.now.runs; touched = [] } }
    {
        Overlay {
            base,
            edits: Vec::new(alloc),
        }
    }

    /// The runs that are there, as they are.
    pub fn runs_below(&self) -> &'a Runs
        ensures { result.now.runs ≡ self.now.base }
    {
        self.base
    }

    /// How many runs there are. It looks at the last edit alone.
    pub fn len(&self) -> usize
        ensures { result ≡ length self.now.runs }
    {
        self.base.len() + all_added(&self.edits)
    }

    /// The run at a position.
    pub fn get(&self, position: usize) -> &Run
        requires { position < length self.now.runs }
        ensures { slice_get self.now.runs position ≡ Some result.now }
    {
        match find(&self.edits, position) {
            Ok(place) => &self.edits[place].run,
            Err(place) => self.base.get(base_position(&self.edits, place, position)),
        }
    }

    /// The run that was there with the key of the one at a position, as it was; `None` for a run that is added. It is found by position,
    /// and not by its key.
    pub fn before(&self, position: usize) -> Option<&Run>
        requires within { position < length self.now.runs }
        requires order { rises run_before self.now.runs ≡ true }
        ensures { (r : Run) → slice_get self.now.runs position ≡ Some r
            → option_copied result ≡ find (is_at r.graph r.logical) self.now.base }
    {
        match find(&self.edits, position) {
            Ok(place) => {
                let edit = &self.edits[place];
                if edit.is_new {
                    None
                } else {
                    Some(self.base.get(edit.from))
                }
            }
            Err(place) => Some(self.base.get(base_position(&self.edits, place, position))),
        }
    }

    /// The run at a position may be changed from now on: it is touched. It is copied, unless it was touched before, and the edits behind it
    /// are moved. An `Err` says that memory ran out, and nothing has changed.
    pub fn own(&mut self, alloc: Global, position: usize) -> Result<(), AllocError>
        requires { position < length self.old.runs }
        ensures ok { OnOk result (self.new ≡ record self.old
            { touched = insert_key nat_cmp self.old.touched position }) }
        ensures own { OnOk result (is_in self.new.touched position ≡ true) }
        ensures err { OnErr result (self.new ≡ self.old) }
    {
        own(alloc, self.base, &mut self.edits, position)?;
        Ok(())
    }

    /// The run at a touched position gets another phase. This takes no memory.
    pub fn set_phase(&mut self, position: usize, phase: RunPhase)
        requires { is_in self.old.touched position ≡ true }
        ensures { self.new ≡ record self.old { runs = at (in_phase phase) position self.old.runs } }
    {
        let place = place_of(&self.edits, position);
        let edit = &mut self.edits[place];
        edit.run.phase = phase;
    }

    /// The run at a touched position gets other instances. This takes no memory.
    pub fn set_instances(&mut self, position: usize, instances: Sequence<Instance>)
        requires { is_in self.old.touched position ≡ true }
        ensures { self.new ≡ record self.old
            { runs = at (with_instances instances) position self.old.runs } }
    {
        let place = place_of(&self.edits, position);
        let edit = &mut self.edits[place];
        edit.run.instances = instances;
    }

    /// The instance at a place of the run at a touched position, to be changed. This takes no memory.
    pub fn instance_mut(&mut self, position: usize, place: usize) -> &mut Instance
        requires own { is_in self.old.touched position ≡ true }
        requires instance { place < instances_at position self.old.runs }
        ensures* writes_back { sem 𝓛 (lends_instance self.entry position place result) }
        ensures value { IsInstanceAt position place result.now self.old.runs }
    {
        let owned = place_of(&self.edits, position);
        let edit = &mut self.edits[owned];
        edit.run.instances.item_mut(place)
    }

    // A run is put in at a position, and touched; those from there on stand one position further on, whether they are touched or not. The
    // edits behind it are moved. An `Err` says that memory ran out, and nothing has changed.
    pub(crate) fn insert(&mut self, position: usize, run: Run) -> Result<(), AllocError>
        requires { position ≤ length self.old.runs }
        ensures ok { OnOk result (self.new ≡ record self.old {
          runs = insert self.old.runs position run;
          touched = touched_with position self.old.touched;
        }) }
        ensures err { OnErr result (self.new ≡ self.old) }
    {
        add(self.base, &mut self.edits, position, run)
    }

    /// The positions of the touched runs, in their order. An `Err` says that memory ran out. That they rise, and that each other run was there as
    /// it is, holds in any case.
    pub fn touched(&self, alloc: Global) -> Result<Vec<usize>, AllocError>
        ensures positions { IfOk result (λ positions. positions.items ≡ self.now.touched) }
        ensures order { IsStrictlySortedBy nat_cmp self.now.touched }
        ensures over { AreAllTouched self.now.touched self.now.base self.now.runs }
    {
        positions(alloc, &self.edits)
    }

    /// The positions of the runs that are running, in their order. It copies the positions of those that were there, and looks at the touched
    /// runs. An `Err` says that memory ran out.
    pub fn running(&self, alloc: Global) -> Result<Vec<usize>, AllocError>
        ensures { IfOk result (λ positions. positions.items ≡ positions_where (stands Running) self.now.runs) }
    {
        let mut positions = self.base.running().to_vec(alloc)?;
        // So no position can pass the greatest number.
        prove!(self.base.len() <= usize::MAX / 4);
        let mut place = self.edits.len();
        while place > 0 {
            place -= 1;
            place_edit(&mut positions, &self.edits[place])?;
        }
        Ok(positions)
    }

    /// The edits that make these runs of those that are there, at the touched positions. This takes no memory.
    pub fn into_edits(self) -> Edits
        ensures edits { AreEditsOf self.entry.base result }
        ensures runs { edited result self.entry.base ≡ self.entry.runs }
        ensures touched { positions_in result ≡ self.entry.touched }
    {
        let Overlay { edits, .. } = self;
        Edits { edits }
    }
}

// The place of the edit of a position, which is made where it isn't there: the run is copied. Without memory nothing changes.
fn own(
    alloc: Global,
    base: &Runs,
    edits: &mut Vec<Edit>,
    position: usize,
) -> Result<usize, AllocError>
    requires edits { AreEditsOf base.now.runs edits.old.items }
    requires within { position < length (edited edits.old.items base.now.runs) }
    ensures ok { IfOk result (λ place. IsOwned position place edits.old.items edits.new.items
        base.now.runs) }
    ensures err { OnErr result (edits.new.items ≡ edits.old.items) }
{
    match find(edits, position) {
        Ok(place) => Ok(place),
        Err(place) => {
            let from = base_position(edits, place, position);
            let run = base.get(from).copy(alloc)?;
            edits.insert(
                place,
                Edit {
                    at: position,
                    from,
                    is_new: false,
                    run,
                },
            )?;
            Ok(place)
        }
    }
}

// A run is put in at a position. Without memory nothing changes.
fn add(base: &Runs, edits: &mut Vec<Edit>, position: usize, run: Run) -> Result<(), AllocError>
    requires edits { AreEditsOf base.now.runs edits.old.items }
    requires within { position ≤ length (edited edits.old.items base.now.runs) }
    ensures ok { OnOk result (IsAdded position run edits.old.items edits.new.items base.now.runs) }
    ensures err { OnErr result (edits.new.items ≡ edits.old.items) }
{
    // So no edit's position can pass the greatest number.
    prove!(base.len() <= usize::MAX / 4);
    let place = place_of(edits, position);
    let from = base_position(edits, place, position);
    edits.insert(
        place,
        Edit {
            at: position,
            from,
            is_new: true,
            run,
        },
    )?;
    move_up(edits, place + 1);
    Ok(())
}
