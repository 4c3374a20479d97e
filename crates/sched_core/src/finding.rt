//! Tries, found by their serials, and what they give back when they end.
ghost use Rattle.std.specs.Prelude.{◌≡◌, ◌&&◌, ◌==◌, true, find, flat_map, is_some, length, option_map, IfOk, IfSome};
ghost use Rattle.std.specs.Option.{option_copied};
ghost use Rattle.instance_machine.specs.Instances.{InstanceValue};
ghost use Rattle.instance_machine.specs.Reports.{report_try};
ghost use Rattle.sched_handout.specs.Occupied.{AreOccupied};
ghost use Rattle.sched_model.specs.Causes.{open_try};
ghost use Rattle.sched_model.specs.Changes.{report};
ghost use Rattle.sched_model.specs.States.{is_open};
ghost use Rattle.sched_settling.specs.Marks.{are_within};
ghost use Rattle.sched_settling.specs.Touched.{runs_at};
ghost use Rattle.sched_events.specs.SettledAndSound.{IsSoundAndSaid};
ghost use Rattle.sched_core.specs.Books.{IsCounted};
ghost use Rattle.sched_core.specs.Finding.{IsFoundIn, IsFoundAt, tries_in};

use crate::schedules::Schedule;
use instance_machine::{Instance, Stage, Try};
use pool_book::Slots;
use run_lists::Runs;
use sched_draft::graph_named;
use sched_handout::Occupied;
use std::alloc::{AllocError, Global};

// A try, and where it stands.
#[derive(Clone, Copy)]
pub(crate) struct Found {
    // That of its run.
    pub position: usize,
    // That of its instance.
    pub place: usize,
    pub one: Try,
}

// Whether the try has no end, and this serial.
fn is_open_as(one: &Try, serial: u64) -> bool
    ensures { result ≡ (is_open one.now && one.now.serial == serial) }
{
    one.ended.is_none() && one.serial == serial
}

// The try without an end that has this serial, among these.
fn open_among(tries: &[Try], serial: u64) -> Option<&Try>
    ensures { option_copied result ≡ find (λ t. is_open t && t.serial == serial) tries.now }
{
    tries.iter().find(|one| is_open_as(one, serial))
}

// The same, among the tries of these instances, with the place of its instance.
fn open_in(instances: &[Instance], serial: u64) -> Option<(usize, Try)>
    ensures one { option_map (λ f. f.1) result ≡ find (λ t. is_open t && t.serial == serial)
        (flat_map (λ (i : InstanceValue). i.tries) instances.now) }
    ensures place { IfSome result (IsFoundIn serial instances.now) }
{
    for (place, instance) in instances.iter().enumerate() {
        if let Some(one) = open_among(instance.tries(), serial) {
            return Some((place, *one));
        }
    }
    None
}

// The same, among those of the runs at these positions.
fn open_at(runs: &Runs, positions: &[usize], serial: u64) -> Option<Found>
    requires { are_within (length runs.now.runs) positions.now ≡ true }
    ensures one { option_map (λ f. f.one) result ≡ find (λ t. is_open t && t.serial == serial)
        (flat_map tries_in (runs_at runs.now.runs positions.now)) }
    ensures place { IfSome result (IsFoundAt serial runs.now.runs) }
{
    for position in positions {
        let instances = runs.get(*position).instances.as_slice();
        if let Some((place, one)) = open_in(instances, serial) {
            return Some(Found {
                position: *position,
                place,
                one,
            });
        }
    }
    None
}

impl Schedule {
    // The try without an end that has this serial. It looks at the runs that have a try in flight.
    pub(crate) fn open_try(&self, serial: u64) -> Option<Found>
        ensures one { option_map (λ f. f.one) result ≡ open_try self.now.content serial }
        ensures place { IfSome result (IsFoundAt serial self.now.content.runs) }
        ensures kept { IsSoundAndSaid self.now.content }
        ensures counted { IsCounted self.now.content }
    {
        open_at(&self.runs, self.runs.with_open_tries(), serial)
    }

    // What is occupied after a report on the try that was found: a try that ends gives its lane and its slots back.
    pub(crate) fn occupied_after(
        &self,
        alloc: Global,
        found: &Found,
        serial: u64,
        stage: Stage,
    ) -> Result<Occupied, AllocError>
        requires found { IsFoundAt serial self.now.content.runs found.now }
        requires turn { is_some (report_try stage self.now.content.now found.now.one) ≡ true }
        ensures { IfOk result (AreOccupied (report serial stage self.now.content)) }
    {
        let mut occupied = self.occupied.copy(alloc)?;
        let Stage::Ended(_) = stage else {
            return Ok(occupied);
        };
        let run = self.runs.get(found.position);
        let Some(graph) = graph_named(self.graphs.as_slice(), &run.graph) else {
            return Ok(occupied);
        };
        let task = graph.dag.task(found.place);
        occupied.give_back(&run.graph, &task.pool, Slots::of(found.one.slots.get()));
        Ok(occupied)
    }
}
