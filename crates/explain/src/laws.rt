//! The laws of reasons.
ghost use Rattle.std.specs.Prelude.{◌≡◌, ◌≢◌, ℕ, List, [], None, Ok, true};
ghost use Rattle.sched_model.specs.Schedule.{Schedule};
ghost use Rattle.sched_core.specs.sched_events.Causes.{refused};
ghost use Rattle.sched_core.specs.sched_events.Events.{IsInRange};
ghost use Rattle.sched_core.specs.sched_events.Steps.{step};
ghost use Rattle.sched_core.specs.sched_events.SettledAndSound.{IsSoundAndSaid, IsSettledAndSound};
ghost use Rattle.sched_core.specs.sched_events.declared.events.Event.{Event};
ghost use Rattle.explain.specs.Reasons.{is_waiting, reasons, explained};
ghost use Rattle.explain.specs.Subjects.{SubjectValue, IsSubjectOf, state_of_subject};

/// In a settled schedule each task instance that is not finished, queued or running has a reason.
pub fn who_waits_has_a_reason()
    ensures { (a : Schedule) (s : SubjectValue) → IsSettledAndSound a → IsSubjectOf a s
        → is_waiting (state_of_subject s) ≡ true → reasons a s ≢ [] }
{}

/// In a settled schedule each task instance that is asked about and is there has a reason: it is finished, or a try of it is in flight, or it
/// waits for something. Each accepted event leaves such a schedule.
pub fn each_instance_has_a_reason()
    ensures settled { (a : Schedule) (graph : List ℕ) (date : ℕ) (task : List ℕ)
        → IsSettledAndSound a → explained a graph date task ≢ Ok [] }
    ensures stepped { (e : Event) (a : Schedule) (graph : List ℕ) (date : ℕ) (task : List ℕ)
        → IsInRange e → refused a e ≡ None → IsSoundAndSaid a
        → explained (step e a) graph date task ≢ Ok [] }
{}
