//! Planning an event: refused for its first cause, or a change that does exactly its step.
ghost use Rattle.std.specs.Prelude.{◌≡◌, ◌≤◌, IfOk, IfErr, OnOk, map};
ghost use Rattle.std.specs.Option.{option_copied};
ghost use Rattle.sched_draft.specs.Drafts.{SameDags};
ghost use Rattle.sched_model.specs.Settle.{settle};
ghost use Rattle.sched_model.specs.Handout.{hand_out};
ghost use Rattle.sched_model.specs.Jobs.{handed};
ghost use Rattle.sched_model.specs.Sound.{IsSound};
ghost use Rattle.sched_events.specs.SettledAndSound.{IsSoundAndSaid, IsSettled, IsSettledAndSound};
ghost use Rattle.sched_events.specs.Outcomes.{IsRefusal};
ghost use Rattle.sched_events.specs.declared.events.Event.TheVariants.{Tick, Pause, Unpause, Resize, Report, Restart};
ghost use Rattle.sched_core.specs.Plans.{IsPlanned, no_runs, run_id};
ghost use Rattle.sched_model.specs.States.{open_tries};
ghost use Rattle.sched_handout.specs.Occupied.{AreOccupied};
ghost use Rattle.sched_draft.specs.Books.{IsBookOf};
ghost use Rattle.sched_core.specs.Books.{IsCounted};
ghost use Rattle.sched_core.specs.Effects.{applied, with_change, IsEffect, IsQuiet, IsRestOf, IsFitted};
ghost use Rattle.sched_core.specs.Inside.{IsOver, IsLast, LeavesDags, completed, drafted_as, over};

use crate::changes::{Change, Effect, GraphChange, Rest};
use crate::losing::lose_all;
use crate::schedules::Schedule;
use graph_file::{Name, Sequence};
use instance_machine::Stage;
use moment_core::Moment;
use pool_book::{PoolFault, Pools, Slots};
use record_rows::Rows;
use sched_creation::{add, named_by_tick};
use sched_draft::{Draft, graph_named};
use sched_events::{Answer, Event, Refusal, RunId};
use sched_handout::{Occupied, hand_out};
use sched_ready::patches_of;
use sched_settling::{settle, settle_touched};
use sched_state::Run;
use std::alloc::{AllocError, Global};
use std::snapshot::Snapshot;

impl Schedule {
    /// What the event would do, or why it is refused. The schedule is only looked at.
    ///
    /// A refusal is the first cause in the order of `Refusal` that stands; want of memory can come in its place, or in the place of
    /// a change.
    pub fn plan(&self, alloc: Global, event: &Event) -> Result<Change, Refusal>
        ensures accepted { IfOk result (IsPlanned self.now.content event.now) }
        ensures refused { IfErr result (IsRefusal self.now.content event.now) }
    {
        match event {
            Event::Load(text) => self.plan_load(alloc, text),
            Event::Tick(moment) => self.plan_tick(alloc, *moment),
            Event::Trigger(id) => self.plan_trigger(alloc, id),
            Event::Backfill {
                graph,
                from,
                to,
                reset,
            } => self.plan_backfill(alloc, graph, *from, *to, *reset),
            Event::Clear(clearing) => self.plan_clear(alloc, clearing),
            Event::Pause(id) => self.plan_pause(alloc, id),
            Event::Unpause(id) => self.plan_unpause(alloc, id),
            Event::Resize(name, size) => self.plan_resize(alloc, name, *size),
            Event::Report(serial, stage) => self.plan_report(alloc, *serial, *stage),
            Event::Restart(lanes) => self.plan_restart(alloc, *lanes),
            Event::Replace(text) => self.plan_replace(alloc, text),
            Event::Mark {
                graph,
                logical,
                task,
            } => self.plan_mark(alloc, graph, *logical, task),
        }
    }

    // A change of the graphs after which nothing else follows, for a schedule that is settled.
    fn quiet_change(&self, alloc: Global, graphs: GraphChange) -> Result<Change, AllocError>
        requires sound { IsSoundAndSaid (with_change graphs self.now.content) }
        requires quiet { IsQuiet graphs self.now.content }
        requires fitted { IsFitted graphs }
        requires settled { IsSettled self.now.content }
        ensures { IfOk result (λ change. change ≡ record {
          before = self.now.content;
          after = with_change graphs
              self.now.content;
          answer = no_runs;
        }) }
    {
        let rows = self.rows_of_graphs(alloc, &graphs)?;
        let patches = Vec::new(alloc);
        let effect = Effect {
            graphs,
            patches,
            rest: None,
        };
        Ok(self.change_of(effect, quiet_answer(alloc), rows))
    }

    // The change that makes this of the graphs, and what follows of it: nothing where the schedule is settled.
    pub(crate) fn graph_change(
        &self,
        alloc: Global,
        graphs: GraphChange,
    ) -> Result<Change, AllocError>
        requires sound { IsSoundAndSaid (with_change graphs self.now.content) }
        requires quiet { IsQuiet graphs self.now.content }
        requires fitted { IsFitted graphs }
        requires over { IsOver graphs self.now.content self.now.content }
        ensures { IfOk result (λ change. change ≡ record {
          before = self.now.content;
          after = hand_out (settle (with_change graphs self.now.content));
          answer = record no_runs {
            jobs = handed self.now.content
                (hand_out (settle (with_change graphs self.now.content)));
          };
        }) }
    {
        if self.is_settled {
            return self.quiet_change(alloc, graphs);
        }
        let draft = self.draft(alloc, None, false);
        self.finish(alloc, draft, graphs, quiet_answer(alloc))
    }

    // The schedule as a draft, in which the graph with the id `named` is paused or not as `paused` says.
    pub(crate) fn draft<'d>(
        &'d self,
        alloc: Global,
        named: Option<&'d Name>,
        paused: bool,
    ) -> Draft<'d>
        ensures { result ≡ drafted_as (option_copied named.entry) paused self.now.content }
    {
        Draft::over(alloc, self.base(), named, paused)
    }

    // A draft over the schedule is settled: it looks at the runs that were touched, where the schedule is settled.
    fn settle_draft(&self, alloc: Global, draft: &mut Draft<'_>) -> Result<(), AllocError>
        requires based { draft.old.base ≡ self.now.content }
        requires sound { IsSound draft.old.content }
        requires dags { SameDags draft.old.base draft.old.content }
        ensures base { OnOk result (draft.new.base ≡ draft.old.base) }
        ensures settled { OnOk result (draft.new.content ≡ settle draft.old.content) }
    {
        if self.is_settled {
            return settle_touched(alloc, draft);
        }
        settle(alloc, draft)
    }

    // The change that ends in this draft, settled and handed out, with this answer and the tries that are handed out. A text is taken in
    // after that, a pause stands in the draft already. The tries without an end are those of the schedule.
    pub(crate) fn finish(
        &self,
        alloc: Global,
        draft: Draft<'_>,
        graphs: GraphChange,
        answer: Answer,
    ) -> Result<Change, AllocError>
        requires based { draft.base ≡ self.now.content }
        requires sound { IsSound draft.content }
        requires over { IsOver graphs self.now.content draft.content }
        requires later { self.now.content.now ≤ draft.content.now }
        requires last { IsLast graphs draft.content }
        requires leaves { LeavesDags graphs }
        requires fitted { IsFitted graphs }
        requires kept { IsSettledAndSound (completed graphs (hand_out (settle draft.content))) }
        requires pools { draft.content.pools ≡ self.now.content.pools }
        requires open { open_tries draft.content ≡ open_tries self.now.content }
        requires next { draft.content.next ≡ self.now.content.next }
        ensures { IfOk result (λ change. change ≡ record {
          before = self.now.content;
          after = completed graphs (hand_out (settle draft.entry.content));
          answer = record answer { jobs = handed self.now.content (hand_out (settle draft.entry.content)) };
        }) }
    {
        let occupied = self.occupied.copy(alloc)?;
        self.finish_with(alloc, draft, occupied, graphs, answer)
    }

    // The same, where these are the numbers of the draft.
    fn finish_with(
        &self,
        alloc: Global,
        draft: Draft<'_>,
        occupied: Occupied,
        graphs: GraphChange,
        answer: Answer,
    ) -> Result<Change, AllocError>
        requires based { draft.base ≡ self.now.content }
        requires sound { IsSound draft.content }
        requires over { IsOver graphs self.now.content draft.content }
        requires later { self.now.content.now ≤ draft.content.now }
        requires last { IsLast graphs draft.content }
        requires leaves { LeavesDags graphs }
        requires fitted { IsFitted graphs }
        requires kept { IsSettledAndSound (completed graphs (hand_out (settle draft.content))) }
        requires counted { IsCounted draft.content }
        requires occupied { AreOccupied draft.content occupied }
        requires next { draft.content.next ≡ self.now.content.next }
        ensures { IfOk result (λ change. change ≡ record {
          before = self.now.content;
          after = completed graphs (hand_out (settle draft.entry.content));
          answer = record answer { jobs = handed self.now.content (hand_out (settle draft.entry.content)) };
        }) }
    {
        let mut draft = draft;
        let mut occupied = occupied;
        self.settle_draft(alloc, &mut draft)?;
        let jobs = hand_out(alloc, &mut draft, self.shelves.as_slice(), &mut occupied)?;
        let rows = self.rows_changed(alloc, &draft, &graphs)?;
        let patches = patches_of(alloc, self.shelves.as_slice(), &draft)?;
        let effect = Effect {
            graphs,
            patches,
            rest: Some(rest_of(draft, occupied)),
        };
        Ok(self.change_of(effect, Answer { jobs, ..answer }, rows))
    }

    // The change that has this effect and this answer, and brings these rows.
    pub(crate) fn change_of(&self, effect: Effect, answer: Answer, rows: Rows) -> Change
        requires { IsEffect effect rows self.now.content }
        ensures { result ≡ record {
          before = self.now.content;
          after = applied effect self.now.content;
          answer = answer;
        } }
    {
        Change {
            before: Snapshot::of(self),
            effect,
            answer,
            rows,
        }
    }

    fn plan_tick(&self, alloc: Global, moment: Moment) -> Result<Change, Refusal>
        ensures accepted { IfOk result (IsPlanned self.now.content (Tick moment)) }
        ensures refused { IfErr result (IsRefusal self.now.content (Tick moment)) }
    {
        if moment.secs() < self.clock.secs() {
            return Err(Refusal::ClockBack(self.clock));
        }
        let mut draft = self.draft(alloc, None, false);
        let named = named_by_tick(alloc, &draft, self.dates.as_slice(), moment)?;
        if (self.limits.runs() as usize) < self.runs.len() + named.runs.len() {
            return Err(Refusal::RecordFull);
        }
        let made = ids_of(alloc, &named.runs)?;
        draft.set_clock(moment);
        add(&mut draft, named.runs)?;
        let answer = Answer {
            made,
            more: named.more,
            ..quiet_answer(alloc)
        };
        Ok(self.finish(alloc, draft, GraphChange::Same, answer)?)
    }

    fn plan_pause(&self, alloc: Global, id: &Name) -> Result<Change, Refusal>
        ensures accepted { IfOk result (IsPlanned self.now.content (Pause id.now)) }
        ensures refused { IfErr result (IsRefusal self.now.content (Pause id.now)) }
    {
        if graph_named(self.graphs.as_slice(), id).is_none() {
            return Err(Refusal::UnknownGraph);
        }
        let change = GraphChange::Pause(id.copy(alloc)?, true);
        if self.is_settled {
            return Ok(self.quiet_change(alloc, change)?);
        }
        let draft = self.draft(alloc, Some(id), true);
        Ok(self.finish(alloc, draft, change, quiet_answer(alloc))?)
    }

    fn plan_unpause(&self, alloc: Global, id: &Name) -> Result<Change, Refusal>
        ensures accepted { IfOk result (IsPlanned self.now.content (Unpause id.now)) }
        ensures refused { IfErr result (IsRefusal self.now.content (Unpause id.now)) }
    {
        if graph_named(self.graphs.as_slice(), id).is_none() {
            return Err(Refusal::UnknownGraph);
        }
        let draft = self.draft(alloc, Some(id), false);
        let change = GraphChange::Pause(id.copy(alloc)?, false);
        Ok(self.finish(alloc, draft, change, quiet_answer(alloc))?)
    }

    fn plan_resize(&self, alloc: Global, name: &Name, size: Slots) -> Result<Change, Refusal>
        ensures accepted { IfOk result (IsPlanned self.now.content (Resize name.now size)) }
        ensures refused { IfErr result (IsRefusal self.now.content (Resize name.now size)) }
    {
        let pools = &self.occupied.pools;
        if pools.size(name).is_none() && self.limits.pools() as usize <= pools.len() {
            return Err(Refusal::PoolFault(PoolFault::TooManyPools));
        }
        let mut pools = pools.copy(alloc)?;
        // The name and the size are in their ranges, as those of each pool are.
        let (_name, _size) = (name.as_str(), size.get());
        let name = name.copy(alloc)?;
        pools.resize(name, size)?;
        Ok(self.over(alloc, &pools)?)
    }

    // The change that puts the pools of this book in the place of the schedule's own, and hands out what fits then.
    fn over<'d>(&'d self, alloc: Global, pools: &'d Pools) -> Result<Change, AllocError>
        requires sound { IsSound (over pools.now.pools self.now.content) }
        requires kept { IsSettledAndSound (hand_out
            (settle (over pools.now.pools self.now.content))) }
        requires book { IsBookOf (over pools.now.pools self.now.content) pools.now.pools }
        ensures { IfOk result (λ change. change ≡ record {
          before = self.now.content;
          after = hand_out (settle (over pools.now.pools self.now.content));
          answer = record no_runs { jobs = handed self.now.content (hand_out (settle (over pools.now.pools self.now.content))) };
        }) }
    {
        let mut draft = self.draft(alloc, None, false);
        draft.set_pools(pools);
        let occupied = Occupied {
            in_flight: self.occupied.in_flight,
            pools: pools.copy(alloc)?,
            active: self.occupied.active.copy(alloc)?,
        };
        self.finish_with(
            alloc,
            draft,
            occupied,
            GraphChange::Same,
            quiet_answer(alloc),
        )
    }

    fn plan_report(&self, alloc: Global, serial: u64, stage: Stage) -> Result<Change, Refusal>
        ensures accepted { IfOk result (IsPlanned self.now.content (Report serial stage)) }
        ensures refused { IfErr result (IsRefusal self.now.content (Report serial stage)) }
    {
        let Some(found) = self.open_try(serial) else {
            return Err(Refusal::NotInFlight(serial));
        };
        if !found.one.takes(stage) {
            return Err(Refusal::OutOfTurn(serial));
        }
        let mut draft = self.draft(alloc, None, false);
        draft.own(alloc, found.position)?;
        draft.report_at(found.position, found.place, serial, stage);
        let occupied = self.occupied_after(alloc, &found, serial, stage)?;
        Ok(self.finish_with(
            alloc,
            draft,
            occupied,
            GraphChange::Same,
            quiet_answer(alloc),
        )?)
    }

    fn plan_restart(&self, alloc: Global, lanes: u32) -> Result<Change, Refusal>
        ensures accepted { IfOk result (IsPlanned self.now.content (Restart lanes)) }
        ensures refused { IfErr result (IsRefusal self.now.content (Restart lanes)) }
    {
        if self.limits.lanes() < lanes {
            return Err(Refusal::LanesTooMany);
        }
        let mut draft = self.draft(alloc, None, false);
        lose_all(alloc, &mut draft)?;
        draft.set_lanes(lanes);
        let occupied = self.occupied.vacant(alloc)?;
        Ok(self.finish_with(
            alloc,
            draft,
            occupied,
            GraphChange::Same,
            quiet_answer(alloc),
        )?)
    }
}

// What a draft leaves, but for the graphs: these are the numbers of its tries without an end.
pub(crate) fn rest_of(draft: Draft<'_>, occupied: Occupied) -> Rest
    requires { AreOccupied draft.content occupied }
    ensures { IsRestOf draft.entry occupied result }
{
    Rest {
        occupied,
        clock: draft.clock(),
        lanes: draft.lanes(),
        serial: draft.next_serial(),
        edits: draft.into_edits(),
    }
}

// The answer of an event that makes no run, sets nothing back and hands out no try.
pub(crate) fn quiet_answer(alloc: Global) -> Answer
    ensures { result ≡ no_runs }
{
    Answer {
        made: Sequence::new(Vec::new(alloc)),
        more: false,
        cleared: 0,
        jobs: Sequence::new(Vec::new(alloc)),
    }
}

// Which runs these are.
pub(crate) fn ids_of(alloc: Global, runs: &[Run]) -> Result<Sequence<RunId>, AllocError>
    ensures { IfOk result (λ ids. ids ≡ map run_id runs.now) }
{
    let mut ids = Vec::new(alloc);
    for run in runs {
        ids.push(RunId {
            graph: run.graph.copy(alloc)?,
            logical: run.logical,
            kind: run.kind,
        })?;
    }
    Ok(Sequence::new(ids))
}
