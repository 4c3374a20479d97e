//! Laws of backfills: which runs they name (Airflow 2, "DAG Runs": backfill).
ghost use Rattle.std.specs.Prelude.{◌≡◌, ℕ, ◌&&◌, ◌||◌, not, List};
ghost use Rattle.std.specs.List.{list_any};
ghost use Rattle.sched_model.specs.run_planner.Index.{has_date};
ghost use Rattle.sched_model.specs.run_planner.Spans.{starts};
ghost use Rattle.sched_model.specs.Changes.{advance};
ghost use Rattle.sched_model.specs.NamedRuns.{is_for, named_by_backfill, present_in, spanned};
ghost use Rattle.sched_model.specs.Schedule.{Schedule, has_run_at};

/// A backfill names a run for each interval of its span that has none, and for no other date; the dates that are present are those of the
/// others. So after it each interval of the span has its run.
pub fn backfills_name_the_missing_dates()
    ensures named { (a : Schedule) (id : List ℕ) (low high date : ℕ)
        → list_any (is_for id date) (named_by_backfill a id low high)
        ≡ (has_date (starts (spanned a id low high)) date && not (has_run_at a id date)) }
    ensures present { (a : Schedule) (id : List ℕ) (low high date : ℕ)
        → has_date (present_in a id low high) date
        ≡ (has_date (starts (spanned a id low high)) date && has_run_at a id date) }
    ensures after { (a : Schedule) (id : List ℕ) (low high date : ℕ)
        → has_run_at (advance (named_by_backfill a id low high) a) id date
        ≡ (has_date (starts (spanned a id low high)) date || has_run_at a id date) }
{}
