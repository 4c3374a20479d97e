//! Laws of replacing: what another text makes of a graph that has runs. What has finished stays finished; no run, no try and no serial goes;
//! and what is taken of the pools stays as it is.
ghost use Rattle.std.specs.Prelude.{◌≡◌, ℕ, List, None, Some, IsTrue, true, false};
ghost use Rattle.std.specs.List.Sorted.{IsPermutation};
ghost use Rattle.graph_file.specs.declared.task_specs.TaskSpec.{TaskSpec};
ghost use Rattle.dag_check.specs.Graphs.{Dag};
ghost use Rattle.sched_model.specs.instance_machine.Instances.{InstanceValue};
ghost use Rattle.sched_model.specs.instance_machine.States.{state_of};
ghost use Rattle.sched_model.specs.instance_machine.declared.tries.Try.{Try};
ghost use Rattle.sched_model.specs.sched_state.Lists.{same};
ghost use Rattle.sched_model.specs.sched_state.declared.graphs.LoadedGraph.{LoadedGraph};
ghost use Rattle.sched_model.specs.sched_state.declared.runs.Run.{Run};
ghost use Rattle.sched_model.specs.trigger_rules.States.{is_failed, is_finished};
ghost use Rattle.sched_model.specs.trigger_rules.declared.states.State.{State};
ghost use Rattle.sched_model.specs.trigger_rules.declared.states.State.TheVariants as state;
ghost use Rattle.sched_model.specs.Causes.{is_unknown_graph, least_moved, lost_task, resized_task, tries_of};
ghost use Rattle.sched_model.specs.Changes.{new_graph, load_graph};
ghost use Rattle.sched_model.specs.Replacing.{kept_as, would_wake, refitted, replace_graph};
ghost use Rattle.sched_model.specs.Schedule.{Schedule, dates_of, graph_named, has_runs};
ghost use Rattle.sched_model.specs.Sound.{IsSound, is_bounded, is_sound_graph, Says, AllSay};
ghost use Rattle.sched_model.specs.States.{active_tries, in_flight, occupied};
ghost use Rattle.sched_laws.specs.Instances.{instance_of, state_of_task, IsStillFinished};
ghost use Rattle.sched_laws.specs.Runs.{runs_named};
ghost use Rattle.sched_laws.specs.Tries.{try_of};

/// An instance keeps its tries, and what has finished stays finished: a success, a skip and `upstream_failed` as they are, and a failure as
/// a failure, or as `upstream_failed` where the new task has tries left for it. A try that is at work is at work.
pub fn what_has_finished_stays_finished()
    ensures tries { (old new : TaskSpec) (i : InstanceValue) → (kept_as old new i).tries ≡ i.tries }
    ensures finished { (old new : TaskSpec) (i : InstanceValue)
        → is_finished (state_of old i) ≡ true
        → is_finished (state_of new (kept_as old new i)) ≡ true }
    ensures good { (old new : TaskSpec) (i : InstanceValue) → is_finished (state_of old i) ≡ true
        → is_failed (state_of old i) ≡ false
        → state_of new (kept_as old new i) ≡ state_of old i }
    ensures failed { (old new : TaskSpec) (i : InstanceValue) → would_wake old new i ≡ false
        → is_failed (state_of old i) ≡ true
        → state_of new (kept_as old new i) ≡ state.Failed }
    ensures set_aside { (old new : TaskSpec) (i : InstanceValue) → would_wake old new i ≡ true
        → state_of new (kept_as old new i) ≡ state.UpstreamFailed }
    ensures queued { (old new : TaskSpec) (i : InstanceValue) → state_of old i ≡ state.Queued
        → state_of new (kept_as old new i) ≡ state.Queued }
    ensures running { (old new : TaskSpec) (i : InstanceValue) → state_of old i ≡ state.Running
        → state_of new (kept_as old new i) ≡ state.Running }
{}

/// Where no task is lost, each instance of the schedule, by its graph, its date and its task, is what becomes of it by the task as it is now; so what
/// has finished has still finished.
pub fn each_instance_goes_on_by_its_task()
    ensures each { (text : List ℕ) (dag : Dag) (a : Schedule) (id : List ℕ) (date : ℕ)
        (task : List ℕ) (e : TaskSpec × InstanceValue)
        → IsTrue (is_sound_graph a (new_graph text dag)) → lost_task a dag ≡ None → IsSound a
        → AllSay a.graphs → Says text dag → instance_of a id date task ≡ Some e
        → (t : TaskSpec)
        × (instance_of (replace_graph text dag a) id date task ≡ Some (t, kept_as e.0 t e.1)) }
    ensures finished { (text : List ℕ) (dag : Dag) (a : Schedule) (id : List ℕ) (date : ℕ)
        (task : List ℕ) (s : State) → IsTrue (is_sound_graph a (new_graph text dag))
        → lost_task a dag ≡ None → IsSound a → AllSay a.graphs → Says text dag
        → state_of_task a id date task ≡ Some s → is_finished s ≡ true
        → IsStillFinished s (state_of_task (replace_graph text dag a) id date task) }
{}

/// A text that no task of the graph is lost by, and that changes the slots of no task with a try, keeps a sound schedule sound. Here, and
/// of tries below, each graph is what its text says: a text that is there already is not taken in, so it may not bring other tasks.
pub fn replacing_keeps_soundness()
    ensures { (text : List ℕ) (dag : Dag) (a : Schedule)
        → IsTrue (is_sound_graph a (new_graph text dag)) → IsTrue (is_bounded (new_graph text dag))
        → is_unknown_graph a dag.spec.dag_id ≡ false → lost_task a dag ≡ None
        → resized_task a dag ≡ None → IsSound a → AllSay a.graphs → Says text dag
        → IsSound (replace_graph text dag a) }
{}

/// Where the graph has no run, a text is taken in as by a load. The text that a graph has already changes nothing.
pub fn replacing_is_loading_without_runs()
    ensures loaded { (text : List ℕ) (dag : Dag) (a : Schedule) → has_runs a dag.spec.dag_id ≡ false
        → replace_graph text dag a ≡ load_graph text dag a }
    ensures again { (text : List ℕ) (dag : Dag) (a : Schedule) (g : LoadedGraph) → IsSound a
        → AllSay a.graphs → Says text dag → graph_named a dag.spec.dag_id ≡ Some g
        → IsTrue (same g.text text) → replace_graph text dag a ≡ a }
{}

/// No run goes or comes, and each stays as it was named and in its phase; so each date stays.
pub fn replacing_keeps_the_runs()
    ensures runs { (text : List ℕ) (dag : Dag) (a : Schedule)
        → runs_named (replace_graph text dag a) ≡ runs_named a }
    ensures phase { (a : Schedule) (dag : Dag) (r : Run) → (refitted a dag r).phase ≡ r.phase }
    ensures dates { (text : List ℕ) (dag : Dag) (a : Schedule) (id : List ℕ)
        → dates_of (replace_graph text dag a) id ≡ dates_of a id }
{}

/// Where no task is lost, the tries are those that were there, and each is that of its task, with its number.
pub fn replacing_keeps_the_tries()
    ensures all { (text : List ℕ) (dag : Dag) (a : Schedule)
        → IsTrue (is_sound_graph a (new_graph text dag)) → lost_task a dag ≡ None → IsSound a
        → IsPermutation (tries_of a) (tries_of (replace_graph text dag a)) }
    ensures each { (text : List ℕ) (dag : Dag) (a : Schedule) (id : List ℕ) (date : ℕ)
        (task : List ℕ) (n : ℕ) (t : Try) → IsTrue (is_sound_graph a (new_graph text dag))
        → lost_task a dag ≡ None → IsSound a → AllSay a.graphs → Says text dag
        → try_of a id date task n ≡ Some t
        → try_of (replace_graph text dag a) id date task n ≡ Some t }
{}

/// Where no try without an end would take slots of another pool either, what is taken stays: of each pool, of each graph, and in all. Each try
/// takes as many slots as it took.
pub fn replacing_keeps_what_is_taken()
    ensures occupied { (text : List ℕ) (dag : Dag) (a : Schedule) (p : List ℕ)
        → IsTrue (is_sound_graph a (new_graph text dag)) → lost_task a dag ≡ None
        → least_moved a dag ≡ None → IsSound a → AllSay a.graphs → Says text dag
        → occupied (replace_graph text dag a) p ≡ occupied a p }
    ensures active { (text : List ℕ) (dag : Dag) (a : Schedule) (id : List ℕ)
        → IsTrue (is_sound_graph a (new_graph text dag)) → lost_task a dag ≡ None → IsSound a
        → AllSay a.graphs → Says text dag
        → active_tries (replace_graph text dag a) id ≡ active_tries a id }
    ensures in_flight { (text : List ℕ) (dag : Dag) (a : Schedule)
        → IsTrue (is_sound_graph a (new_graph text dag)) → lost_task a dag ≡ None → IsSound a
        → AllSay a.graphs → Says text dag → in_flight (replace_graph text dag a) ≡ in_flight a }
{}
