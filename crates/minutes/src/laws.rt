//! Laws of the minutes.
ghost use Rattle.std.specs.Prelude.{◌≡◌, ◌<◌, ◌≤◌, ◌++◌, ◌∷◌, [], ℕ, List, None, false, length, map, slice_index_or};
ghost use Rattle.ruled_dispatch.specs.ReportsRule.{told_by};
ghost use Rattle.ruled_dispatch.specs.declared.items.WorkerReport.{WorkerReport};
ghost use Rattle.sched_events.specs.Causes.{refused};
ghost use Rattle.sched_events.specs.Events.{IsInRange};
ghost use Rattle.sched_events.specs.Promises.{serials_in};
ghost use Rattle.sched_events.specs.SettledAndSound.{IsSoundAndSaid};
ghost use Rattle.sched_events.specs.Steps.{step, steps, answer_to, handed_along, AreAccepted};
ghost use Rattle.sched_events.specs.declared.events.Event.{Event};
ghost use Rattle.sched_model.specs.Schedule.{Schedule};
ghost use Rattle.sched_state.specs.declared.jobs.Job.{Job};
ghost use Rattle.minutes.specs.Logs.{times, AreLogs};
ghost use Rattle.minutes.specs.Minutes.{along, answered, answered_part, is_restart, of_lines, of_worker, report_part, reports_in, BeginWithRestart};

use sched_events::each_serial_is_handed_out_once;

/// What the minutes say grows at its end where an event is accepted more.
pub fn minutes_grow_by_an_event()
    ensures schedule { (es : List Event) (e : Event) (a : Schedule)
        → steps (es ++ e ∷ []) a ≡ step e (steps es a) }
    ensures accepted { (es : List Event) (e : Event) (a : Schedule) → AreAccepted es a
        → IsInRange e → refused (steps es a) e ≡ None → AreAccepted (es ++ e ∷ []) a }
    ensures handed { (es : List Event) (e : Event) (a : Schedule) → handed_along (es ++ e ∷ []) a
        ≡ handed_along es a ++ (answer_to e (steps es a)).jobs }
    ensures answered { (es : List Event) (e : Event) (a : Schedule) → answered (es ++ e ∷ []) a
        ≡ answered es a ++ answered_part e (steps es a) }
    ensures reports { (es : List Event) (e : Event)
        → reports_in (es ++ e ∷ []) ≡ reports_in es ++ report_part e }
    ensures begun { (lanes : ℕ) (es : List Event) (e : Event) → 0 < length es
        → is_restart e ≡ false → BeginWithRestart lanes es → BeginWithRestart lanes (es ++ e ∷ []) }
{}

/// The events that are answered are those that lines name, in their order.
pub fn answered_events_are_those_of_lines()
    ensures { (es : List Event) (a : Schedule) → map (λ p. p.0) (answered es a) ≡ of_lines es }
{}

/// No serial is handed out twice.
pub fn serials_of_the_minutes_are_handed_out_once()
    ensures { (es : List Event) (a : Schedule) (serial : ℕ) → AreAccepted es a → IsSoundAndSaid a
        → times serial (serials_in (handed_along es a)) ≤ 1 }
{
    each_serial_is_handed_out_once();
}

/// Where the logs have the jobs that the minutes hand out, and what was heard of each worker is of jobs of its log, the reports in the minutes
/// whose serial stands in a worker's log are those that were heard of it, in their order.
pub fn each_report_is_its_workers_own()
    ensures { (es : List Event) (a : Schedule) (logs : List (List Job)) (heard : List WorkerReport)
        → AreAccepted es a → IsSoundAndSaid a → AreLogs es a logs heard
        → (k : ℕ) → k < length logs
        → of_worker (serials_in (slice_index_or logs k [])) es ≡ told_by k heard }
{
    serials_of_the_minutes_are_handed_out_once();
}
