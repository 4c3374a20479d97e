//! The laws of lists of events, of what a run leaves in its record, and of a record that is opened again.
ghost use Rattle.std.specs.Prelude.{◌≡◌, ◌⊎◌, ◌++◌, ℕ, List, [], Result, IfErr};
ghost use Rattle.sqlite.specs.Effect.{Database};
ghost use Rattle.sqlite.specs.Held.{Held, state};
ghost use Rattle.record_rows.specs.Rows.{Rows};
ghost use Rattle.record_rules.specs.Reading.{schedule_of};
ghost use Rattle.meta_store.specs.record_tables.Holds.{Stores};
ghost use Rattle.meta_store.specs.Stores.{HasRows, Migrates, OpensBy};
ghost use Rattle.meta_store.specs.Transactions.{Transacts};
ghost use Rattle.sched_model.specs.Schedule.{Schedule};
ghost use Rattle.sched_state.specs.Limits.{Bounds};
ghost use Rattle.sched_events.specs.Outcomes.{IsStepped};
ghost use Rattle.sched_events.specs.SettledAndSound.{IsSoundAndSaid};
ghost use Rattle.sched_events.specs.Steps.{step, steps, AreAccepted};
ghost use Rattle.sched_events.specs.declared.answers.Answer.{Answer};
ghost use Rattle.sched_events.specs.declared.events.Event.{Event};
ghost use Rattle.sched_events.specs.declared.events.Event.TheVariants.{Restart};
ghost use Rattle.director.specs.Directors.{Follows, Keeps, Opens, RestartsIn, StepsIn};
ghost use Rattle.director.specs.Faults.{IsRefused};
ghost use Rattle.director.specs.Leaves.{accepted_in, Leaves, tried_behind, tried_in};
ghost use Rattle.director.specs.Lists.{Answers, accepted};
ghost use Rattle.director.specs.Written.{WrittenEvent, came_of};
ghost use Rattle.director.specs.declared.faults.Fault.{Fault};

use record_rules::tables_have_no_fault;
use sqlite::Alter;

/// After a list of events the schedule is that after those which were answered and not refused, each of them accepted at the schedule that it
/// comes to.
pub fn answered_events_are_stepped()
    ensures steps { (a b : Schedule) (es : List Event) (rs : List (Result Answer Fault))
        → Answers a es rs b → b ≡ steps (accepted es rs) a }
    ensures accepted { (a b : Schedule) (es : List Event) (rs : List (Result Answer Fault))
        → Answers a es rs b → AreAccepted (accepted es rs) a }
{}

/// What a run leaves in its record, also where a fault of the disk has shut it, is told stretch by stretch. Of no step it is what was there; of one step it
/// follows from what `Director::write` ensures; and of two stretches, the first of which follows the schedule, it is that of both.
pub fn what_a_run_leaves_is_told_stretch_by_stretch<S: Alter>()
    ensures none { (a : Schedule) (s : Held S)
        → Leaves [] [] a (state S.Store s) (state S.Store s) }
    ensures one { (a : Schedule) (e : Event) (r : Result WrittenEvent Fault) (old new : Held S)
        → Transacts (StepsIn e a) (state S.Store old) (state S.Store new) r
        → IfErr r (λ f. IsRefused f → new ≡ old)
        → Leaves (accepted_in e (came_of r)) (tried_in e (came_of r)) a (state S.Store old)
        (state S.Store new) }
    ensures both { (a b : Schedule) (es more earlier later : List Event) (s t u : Held S)
        → b ≡ steps es a → Follows a (state S.Store s) b (state S.Store t)
        → Leaves es earlier a (state S.Store s) (state S.Store t)
        → Leaves more later b (state S.Store t) (state S.Store u)
        → Leaves (es ++ more) (tried_behind more earlier later) a (state S.Store s)
        (state S.Store u) }
{}

/// Where a record stores a schedule, what is opened of it is that schedule, restarted.
pub fn a_record_is_opened_as_it_was_left()
    ensures { (a b : Schedule) (db : Database) (lanes : ℕ) (given : Answer) → IsSoundAndSaid a
        → Keeps a db → Opens a.limits lanes db b given → IsStepped a (Restart lanes) b given }
{
    tables_have_no_fault();
}

/// What an opening makes of a record, also one that is stopped in the middle: a record of version 2 with the rows that were there, or one that stores the
/// schedule that they are read as, restarted. A record of version 2 is not migrated, so of it an opening makes the latter alone.
pub fn an_opening_keeps_the_rows_or_restarts_them()
    ensures either { (limits : Bounds) (lanes : ℕ) (old new : Database) (rows : Rows)
        → HasRows old rows → OpensBy (RestartsIn limits lanes) old new
        → Stores new rows ⊎ Keeps (step (Restart lanes) (schedule_of limits rows)) new }
    ensures second { (limits : Bounds) (lanes : ℕ) (old new : Database) (rows : Rows)
        → Stores old rows → OpensBy (RestartsIn limits lanes) old new
        → Keeps (step (Restart lanes) (schedule_of limits rows)) new }
    ensures unmigrated { (old new : Database) (rows : Rows) → Stores old rows
        → Migrates old new → ⊥ }
{}
