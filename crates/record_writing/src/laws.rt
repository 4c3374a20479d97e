//! Which schedules have rows, and what an event changes of them.
ghost use Rattle.std.specs.Prelude.{◌≡◌, None};
ghost use Rattle.record_rules.specs.Changes.{rows_between, put_rows};
ghost use Rattle.record_writing.specs.Ranges.{FitsTables};
ghost use Rattle.sched_model.specs.Schedule.{Schedule};
ghost use Rattle.sched_model.specs.Sound.{IsSound};
ghost use Rattle.sched_model.specs.Tables.{tables};
ghost use Rattle.sched_events.specs.Causes.{refused};
ghost use Rattle.sched_events.specs.Events.{IsInRange};
ghost use Rattle.sched_events.specs.SettledAndSound.{IsSoundAndSaid};
ghost use Rattle.sched_events.specs.Steps.{step};
ghost use Rattle.sched_events.specs.declared.events.Event.{Event};

/// The numbers of a sound schedule are in the range of the record's columns.
pub fn sound_schedules_fit()
    ensures { (a : Schedule) → IsSound a → FitsTables a }
{}

/// The rows that an accepted event changes, put by key over the tables of the schedule before it, give the tables of the one after it.
pub fn rows_of_an_event_are_put()
    ensures { (e : Event) (a : Schedule) → IsInRange e → refused a e ≡ None → IsSoundAndSaid a
        → put_rows (rows_between a (step e a)) (tables a) ≡ tables (step e a) }
{}
