//! The set of the logical dates of a graph's runs.
//!
//! Beside the set stands a cursor: where a walk over the graph's due intervals may begin, since each start before has a run. It is not
//! seen, and changes no answer.
ghost use Rattle.std.specs.Prelude.{◌≡◌, ◌==◌, ◌||◌, ℕ, ◌+◌, ◌<◌, ◌≤◌, [], OnOk, IfSome, true};
ghost use Rattle.run_planner.specs.Index.{has_date};
ghost use Rattle.run_planner.specs.Walks.{HasPassed};

use crate::walking::next_start;
use cron_timetable::Timetable;
use dag_check::Graph;
use graph_file::GraphSpec;
use moment_core::Moment;
use std::alloc::{AllocError, Global};
use std::marker::Model;

/// The set of the logical dates of a graph's runs, found by binary search.
///
/// Contracts see its dates, and for how many more there is room.
#[derive(Drop)]
pub struct RunIndex {
    dates: Vec<u64>,
    passed: Option<Passed>,
}

// No start of the timetable from `start` to below `cursor` is without a run.
#[derive(Clone, Copy)]
struct Passed {
    timetable: Timetable,
    start: Moment,
    cursor: Moment,
}

impl Model for RunIndex {
    ghost use Rattle.std.specs.Prelude.{◌-◌, vec_len, vec_capacity};
    ghost use Rattle.std.specs.List.Sorted.{IsNonDecreasingBy};
    ghost use Rattle.std.specs.Option.{ForSome};
    ghost use Rattle.run_planner.specs.Index.{Index};
    ghost use Rattle.run_planner.specs.Walks.{HasPassed};

    ghost Value = { Index };

    ghost view = { λ r. record { dates = r.dates.items; room = vec_capacity r.dates - vec_len r.dates } };

    ghost invariant = { λ r. IsNonDecreasingBy (λ x. x) r.dates.items
        × ForSome r.passed (λ p. HasPassed r.dates.items p.timetable p.start p.cursor) };
}

impl RunIndex {
    /// No date. This takes no memory.
    pub fn new(alloc: Global) -> RunIndex
        ensures { result.dates ≡ [] }
    {
        RunIndex {
            dates: Vec::new(alloc),
            passed: None,
        }
    }

    /// Whether a run has this logical date.
    pub fn has(&self, date: Moment) -> bool
        ensures { result ≡ has_date self.now.dates date }
    {
        self.has_at(date.secs())
    }

    // Whether a run has its logical date so many seconds after 1970.
    pub(crate) fn has_at(&self, secs: u64) -> bool
        ensures { result ≡ has_date self.now.dates secs }
    {
        self.dates.binary_search(&secs).is_ok()
    }

    /// Makes room for `n` dates more. What room there was is kept, also where memory runs out.
    pub fn reserve(&mut self, n: usize) -> Result<(), AllocError>
        ensures dates { self.new.dates ≡ self.old.dates }
        ensures room { OnOk result (n ≤ self.new.room) }
        ensures kept { self.old.room ≤ self.new.room }
    {
        self.dates.reserve(n)
    }

    /// Adds a date, for which there is room. One that is there already changes nothing.
    pub fn add(&mut self, date: Moment)
        requires { 0 < self.old.room }
        ensures added { (d : ℕ) → has_date self.new.dates d
            ≡ ((date == d) || has_date self.old.dates d) }
        ensures there { has_date self.old.dates date ≡ true → self.new ≡ self.old }
        ensures room { self.old.room ≤ self.new.room + 1 }
    {
        match self.dates.binary_search(&date.secs()) {
            Ok(_) => {}
            Err(at) => {
                let _ = self.dates.insert(at, date.secs());
            }
        }
    }

    /// Takes over the timetable and the start date of a graph, where they are others, and passes over the starts of that timetable
    /// that have a run, up to the first without one. What the index holds stays as it is; [`due`](crate::due) of a graph with this
    /// timetable and start date begins its walk there. This takes no memory.
    pub fn move_cursor(&mut self, graph: &Graph)
        ensures { self.new ≡ self.old }
    {
        let spec = graph.spec();
        let cursor = self.first_open(spec);
        self.passed = Some(Passed {
            timetable: spec.schedule,
            start: spec.start_date,
            cursor,
        });
    }

    // Where a walk over the due intervals of a graph may begin.
    pub(crate) fn cursor_for(&self, graph: &GraphSpec) -> Moment
        ensures { HasPassed self.now.dates graph.now.schedule graph.now.start_date result }
    {
        match &self.passed {
            Some(passed) => {
                if passed.timetable == graph.schedule && passed.start == graph.start_date {
                    passed.cursor
                } else {
                    graph.start_date
                }
            }
            None => graph.start_date,
        }
    }

    // The first start of a graph's timetable from the cursor on that has no run, or where the walk to it ends.
    fn first_open(&self, graph: &GraphSpec) -> Moment
        ensures { HasPassed self.now.dates graph.now.schedule graph.now.start_date result }
    {
        let mut cursor = self.cursor_for(graph);
        'walk: loop {
            match self.after_run(&graph.schedule, cursor) {
                None => return cursor,
                Some(next) => cursor = next,
            }
        }
    }

    // From where on the interval after the first one from the cursor on may start, where that one has a run.
    fn after_run(&self, timetable: &Timetable, cursor: Moment) -> Option<Moment>
        ensures passed { IfSome result (λ m. (start : ℕ)
            → HasPassed self.now.dates timetable.now start cursor
            → HasPassed self.now.dates timetable.now start m) }
        ensures rises { IfSome result (λ m. cursor < m) }
    {
        let interval = timetable.interval_from(cursor)?;
        if self.has(interval.start) {
            next_start(timetable, &interval)
        } else {
            None
        }
    }
}
