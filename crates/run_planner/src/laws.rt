//! Laws of the definitions: each is the contract of an empty function, so that the gate proves it.
ghost use Rattle.std.specs.Prelude.{◌≡◌, ◌≢◌, ◌↔◌, ℕ, ◌<◌, ◌≤◌, true, List, [], Option, Some, option_to_list};
ghost use Rattle.std.specs.List.{Contains};
ghost use Rattle.moment_core.specs.Moments.{seconds_end};
ghost use Rattle.cron_timetable.specs.declared.timetables.Interval.{Interval};
ghost use Rattle.cron_timetable.specs.declared.timetables.Timetable.{Timetable};
ghost use Rattle.cron_timetable.specs.Intervals.{ManualInterval};
ghost use Rattle.graph_file.specs.declared.graph_specs.GraphSpec.{GraphSpec};
ghost use Rattle.run_planner.specs.Anew.{wanted_anew};
ghost use Rattle.run_planner.specs.Due.{due_intervals, starts_rise, wanted_intervals};
ghost use Rattle.run_planner.specs.ByHand.{manual_intervals};
ghost use Rattle.run_planner.specs.Index.{has_date};
ghost use Rattle.run_planner.specs.Spans.{span_intervals, starts};
ghost use Rattle.run_planner.specs.Latest.{IsDue};

/// What is listed as due for a timetable are its intervals that start from the first date on and not past the last one, and have
/// ended: those, and no others.
pub fn due_intervals_are_intervals()
    ensures { (x : Timetable) (first t : ℕ) (last : Option ℕ) (i : Interval) → t < seconds_end →
        Contains (due_intervals x first last t) i ↔ IsDue x first last t i }
{}

/// Due intervals are listed by start, each start once.
pub fn due_intervals_rise()
    ensures { (timetable : Timetable) (first t : ℕ) (last : Option ℕ) →
        starts_rise (due_intervals timetable first last t) ≡ true }
{}

/// The interval of a run by hand is the timetable's: of a cron schedule the one whose end is the greatest tick that has come.
pub fn a_run_by_hand_has_the_last_interval()
    ensures { (x : Timetable) (t : ℕ) (r : Option Interval) → t < seconds_end → ManualInterval x t r
        → option_to_list r ≡ manual_intervals x t }
{}

/// What a span of a graph holds are its intervals that start within it and have ended: those, and no others. They are listed by start.
pub fn a_span_holds_its_intervals()
    ensures ticks { (g : GraphSpec) (low high t : ℕ) (i : Interval)
        → g.schedule ≢ Timetable.Once → t < seconds_end
        → Contains (span_intervals g low high t) i ↔ IsDue g.schedule low (Some high) t i }
    ensures once { (g : GraphSpec) (low high t : ℕ) (i : Interval)
        → g.schedule ≡ Timetable.Once → t < seconds_end
        → Contains (span_intervals g low high t) i
        ↔ (IsDue Timetable.Once g.start_date (Some high) t i × (low ≤ i.start)) }
    ensures rise { (g : GraphSpec) (low high t : ℕ)
        → starts_rise (span_intervals g low high t) ≡ true }
{}

/// Where another text of a graph wants nothing anew at a moment, no later tick wants a run by it for an interval that had ended by then and
/// that the old text did not want there. Other runs may have come in between.
pub fn no_later_tick_makes_a_run_anew()
    ensures { (old new : GraphSpec) (m t : ℕ) (dates later : List ℕ) (i : Interval) → m ≤ t
        → t < seconds_end → wanted_anew old new m dates ≡ []
        → ((d : ℕ) → has_date dates d ≡ true → has_date later d ≡ true)
        → Contains (wanted_intervals new t later) i → i.end ≤ m
        → has_date (starts (wanted_intervals old m dates)) i.start ≡ true }
{}
