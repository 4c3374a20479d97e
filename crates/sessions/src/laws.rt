//! Laws of a history.
ghost use Rattle.std.specs.Prelude.{◌≡◌, ◌+◌, ◌<◌, ◌++◌, ◌∷◌, [], ℕ, Bool, List, Result, Err, All, OnErr, false, true, length, map, sum_by};
ghost use Rattle.ruled_dispatch.specs.declared.items.Report.{Report};
ghost use Rattle.ruled_dispatch.specs.declared.items.WorkerReport.{WorkerReport};
ghost use Rattle.sched_events.specs.Steps.{steps, AreAccepted};
ghost use Rattle.sched_events.specs.declared.answers.Answer.{Answer};
ghost use Rattle.sched_events.specs.declared.events.Event.{Event};
ghost use Rattle.sched_model.specs.Schedule.{Schedule};
ghost use Rattle.director.specs.Faults.{IsFaultOfStore};
ghost use Rattle.director.specs.declared.faults.Fault.{Fault};
ghost use Rattle.minutes.specs.Minutes.{answered, reports_in, BeginWithRestart};
ghost use Rattle.sessions.specs.History.{accepted, any_missed, heard_in, is_restarted, missed_in, nones_in, told_in, tries_in, waits_in, ArePolled, AreRight, IsRight, Reported, Restarted, Step, Told};

/// What a history that is right says of the events in it: each was accepted at the schedule that it came to; those of lines were told, each with its answer.
/// The reports among them are what was heard, but for what was missed; in the order in which it was heard, if none was missed. A restart that begins a run is
/// its first event, and no other is a restart.
pub fn a_right_history_is_of_its_events()
    ensures accepted { (h : List Step) (a : Schedule) → AreRight h a → AreAccepted (accepted h) a }
    ensures answered { (h : List Step) (a : Schedule) → AreRight h a
        → answered (accepted h) a ≡ told_in h }
    ensures heard { (h : List Step) (a : Schedule) (weight : Report → ℕ) → AreRight h a
        → sum_by weight (map (λ t. t.report) (heard_in h))
        ≡ sum_by weight (reports_in (accepted h)) + sum_by weight (missed_in h) }
    ensures in_order { (h : List Step) (a : Schedule) → AreRight h a → any_missed h ≡ false
        → map (λ t. t.report) (heard_in h) ≡ reports_in (accepted h) }
    ensures missed { (h : List Step) → any_missed h ≡ true → 0 < length (missed_in h) }
    ensures begun { (lanes : ℕ) (faults : List Fault) (came : Result Answer Fault) (h : List Step) (a : Schedule)
        → AreRight (Restarted lanes faults came ∷ h) a → OnErr came (h ≡ [])
        → All (λ x. is_restarted x ≡ false) h
        → BeginWithRestart lanes (accepted (Restarted lanes faults came ∷ h)) }
    ensures apart { (h k : List Step) (a : Schedule) → AreRight (h ++ k) a
        → AreRight h a × AreRight k (steps (accepted h) a) }
{}

/// What the counts of a history say: where the reports that are there were heard, just one was asked for that was not there, and none was waited for; an event
/// of a line is tried once; and a report that the store or want of memory stood against in the end three times.
pub fn counts_say_how_often()
    ensures polled { (h : List Step) → ArePolled h → (nones_in h ≡ 1) × (waits_in h ≡ 0) }
    ensures once { (e : Event) (came : Result Answer Fault) → tries_in (Told e came ∷ []) ≡ 1 }
    ensures thrice { (waited : Bool) (t : WorkerReport) (faults : List Fault) (fault : Fault) (a : Schedule)
        → IsRight (Reported waited t faults (Err fault)) a → IsFaultOfStore fault
        → tries_in (Reported waited t faults (Err fault) ∷ []) ≡ 3 }
{}
