//! Walking over the due intervals of a timetable, the oldest first.
//!
//! Easy to get wrong: the intervals of a trigger timetable are empty, so a walk that went on from an interval's end would find the
//! same one for ever.
ghost use Rattle.std.specs.Prelude.{◌≡◌, ◌<◌, [], ◌∷◌, IfSome, MatchOption};
ghost use Rattle.run_planner.specs.Due.{is_up_to};
ghost use Rattle.run_planner.specs.Walks.{due_from, left_from, IsNextStart};

use cron_timetable::{Interval, Timetable};
use moment_core::Moment;

// A due interval, and from where on the next one may start, if one can.
pub(crate) struct Step {
    pub(crate) interval: Interval,
    pub(crate) next: Option<Moment>,
}

// The first due interval of a timetable that starts from `from` on; from none on there is none.
pub(crate) fn first_due(
    timetable: &Timetable,
    from: Option<Moment>,
    last: &Option<Moment>,
    now: Moment,
) -> Option<Step>
    ensures first { let all = due_from timetable.now from last.now now in
        MatchOption result (all ≡ [])
        (λ s. all ≡ s.interval ∷ due_from timetable.now s.next last.now now) }
    ensures falls { IfSome result (λ s. left_from s.next < left_from from) }
{
    let until = now.secs();
    let interval = timetable.interval_from(from?)?;
    if interval.end.secs() <= until && is_up_to(last, interval.start) {
        let next = next_start(timetable, &interval);
        Some(Step { interval, next })
    } else {
        None
    }
}

// From where on the interval after this one may start, if one can.
pub(crate) fn next_start(timetable: &Timetable, interval: &Interval) -> Option<Moment>
    ensures { IsNextStart timetable.now interval.now result }
{
    match timetable {
        Timetable::Cron(_) => Some(interval.end),
        Timetable::Trigger(_) => interval.start.checked_plus(1),
        Timetable::Once | Timetable::Never => None,
    }
}

// Whether a start is not past the last date, where there is one.
pub(crate) fn is_up_to(last: &Option<Moment>, start: Moment) -> bool
    ensures { result ≡ is_up_to last.now start }
{
    match last {
        None => true,
        Some(last) => start.secs() <= last.secs(),
    }
}
