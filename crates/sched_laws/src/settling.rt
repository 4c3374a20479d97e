//! Laws of settling.
ghost use Rattle.std.specs.Prelude.{◌≡◌, ℕ, ◌≤◌, List, None, Some, IsTrue, true};
ghost use Rattle.graph_file.specs.declared.task_specs.TaskSpec.{TaskSpec};
ghost use Rattle.sched_model.specs.instance_machine.Instances.{InstanceValue};
ghost use Rattle.sched_model.specs.instance_machine.States.{state_of};
ghost use Rattle.sched_model.specs.trigger_rules.States.{is_finished};
ghost use Rattle.sched_model.specs.sched_state.Lists.{repeat};
ghost use Rattle.sched_model.specs.Changes.{advance};
ghost use Rattle.sched_model.specs.NamedRuns.{NamedRun};
ghost use Rattle.sched_model.specs.Schedule.{Schedule};
ghost use Rattle.sched_model.specs.Settle.{move, moves_left, settle, Settles};
ghost use Rattle.sched_model.specs.Sound.{IsSound, are_new};
ghost use Rattle.sched_laws.specs.Instances.{instance_of};
ghost use Rattle.sched_laws.specs.Seen.{sights};

/// Settling ends in a schedule in which no move is possible, it gets there by first moves alone, and it is the only one so
/// reached. More turns than there are moves change nothing.
pub fn settling_is_determined()
    ensures ends { (a : Schedule) → move (settle a) ≡ None }
    ensures reached { (a : Schedule) → Settles a (settle a) }
    ensures unique { (a b : Schedule) → Settles a b → settle a ≡ b }
    ensures enough { (a : Schedule) (n : ℕ) → moves_left a ≤ n → repeat n move a ≡ settle a }
{}

/// Where no move is possible settling changes nothing, and a first move changes nothing of where it ends.
pub fn settling_goes_by_moves()
    ensures still { (a : Schedule) → move a ≡ None → settle a ≡ a }
    ensures moved { (a b : Schedule) → move a ≡ Some b → settle a ≡ settle b }
{}

/// Of an instance the moves see whether it is undecided, and its state where that is an end.
pub fn moves_see_what_is_seen()
    ensures { (a b : Schedule) → a.graphs ≡ b.graphs → sights a ≡ sights b → move a ≡ None
        → move b ≡ None }
{}

/// What has finished is left as it is when runs are added, moves are made and tries are handed out.
pub fn advancing_leaves_what_has_finished()
    ensures { (ns : List NamedRun) (a : Schedule) (id : List ℕ) (date : ℕ) (task : List ℕ)
        (e : TaskSpec × InstanceValue) → IsTrue (are_new a ns) → IsSound a
        → instance_of a id date task ≡ Some e → is_finished (state_of e.0 e.1) ≡ true
        → instance_of (advance ns a) id date task ≡ Some e }
{}
