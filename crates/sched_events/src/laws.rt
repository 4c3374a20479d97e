//! Laws of the steps.
ghost use Rattle.std.specs.Prelude.{◌≡◌, ℕ, ◌-◌, ◌||◌, ◌++◌, ◌≤◌, List, Bool, [], ◌∷◌, None, Some, Ok, IsTrue, true, false};
ghost use Rattle.std.specs.List.{list_any, range_with_len};
ghost use Rattle.std.specs.List.Sorted.{IsPermutation};
ghost use Rattle.graph_file.specs.Graphs.{graph_of};
ghost use Rattle.graph_file.specs.declared.graph_specs.GraphSpec.{GraphSpec};
ghost use Rattle.run_planner.specs.Index.{has_date};
ghost use Rattle.run_planner.specs.Spans.{starts};
ghost use Rattle.instance_machine.specs.declared.tries.Try.{Try};
ghost use Rattle.trigger_rules.specs.States.{is_finished};
ghost use Rattle.trigger_rules.specs.declared.states.State.{State};
ghost use Rattle.trigger_rules.specs.declared.states.State.TheVariants as state;
ghost use Rattle.sched_state.specs.declared.clearings.Clearing.{Clearing};
ghost use Rattle.sched_state.specs.Limits.{Bounds};
ghost use Rattle.sched_state.specs.Lists.{same};
ghost use Rattle.sched_state.specs.declared.graphs.LoadedGraph.{LoadedGraph};
ghost use Rattle.sched_laws.specs.sched_model.Schedule.{Schedule, empty_schedule, graph_named, has_pool, has_run_at, has_runs, size_of};
ghost use Rattle.sched_laws.specs.sched_model.Settle.{move};
ghost use Rattle.sched_laws.specs.sched_model.Handout.{hand_one};
ghost use Rattle.sched_laws.specs.sched_model.Jobs.{handed};
ghost use Rattle.sched_laws.specs.sched_model.Clearing.{cleared_by, named_pairs};
ghost use Rattle.sched_laws.specs.sched_model.NamedRuns.{is_for, named_by_backfill, spanned};
ghost use Rattle.sched_laws.specs.sched_model.Changes.{set_paused, resize};
ghost use Rattle.sched_laws.specs.Instances.{state_of_task, IsStillFinished};
ghost use Rattle.sched_laws.specs.Runs.{runs_named};
ghost use Rattle.sched_laws.specs.Tries.{IsLaterTry, try_of};
ghost use Rattle.sched_events.specs.Events.{named_by, IsInRange};
ghost use Rattle.sched_events.specs.Causes.{refused};
ghost use Rattle.sched_events.specs.Promises.{serials_in, AreDistinct, LeadsTo, KeepsPromises};
ghost use Rattle.sched_events.specs.Steps.{step, steps, named_along, handed_along, AreAccepted};
ghost use Rattle.sched_events.specs.SettledAndSound.{IsSoundAndSaid, IsSettledAndSound};
ghost use Rattle.sched_events.specs.declared.events.Event.{Event};
ghost use Rattle.sched_events.specs.declared.events.Event.TheVariants.{Load, Backfill, Clear, Pause, Unpause, Resize, Replace, Mark};

/// After each step neither a move nor a hand-out is possible, and the step of an accepted event keeps a schedule: it stays sound, and
/// each graph is what its text says. Nothing more is asked of the schedule before it, so one that was read from a record may be unsettled.
pub fn steps_keep_the_schedule()
    ensures settled { (e : Event) (a : Schedule) → move (step e a) ≡ None }
    ensures handed { (e : Event) (a : Schedule) → hand_one (step e a) ≡ None }
    ensures kept { (e : Event) (a : Schedule) → IsInRange e → refused a e ≡ None
        → IsSoundAndSaid a → IsSettledAndSound (step e a) }
{}

/// The runs after a step are those before it and the named ones, each with its graph, its logical date, its interval, and how it came to be.
/// So a graph has a run for a date where it had one, or one is named.
pub fn steps_add_the_named_runs()
    ensures runs { (e : Event) (a : Schedule)
        → IsPermutation (named_by e a ++ runs_named a) (runs_named (step e a)) }
    ensures dates { (e : Event) (a : Schedule) (id : List ℕ) (date : ℕ)
        → has_run_at (step e a) id date
        ≡ (list_any (is_for id date) (named_by e a) || has_run_at a id date) }
{}

/// A pause changes that graph alone, no run and no try; and the pause that a graph has already changes nothing.
pub fn pauses_change_one_graph()
    ensures pause { (id : List ℕ) (a : Schedule) → IsSettledAndSound a
        → step (Pause id) a ≡ set_paused id true a }
    ensures paused { (id : List ℕ) (a : Schedule) (g : LoadedGraph) → IsSettledAndSound a
        → graph_named a id ≡ Some g → g.paused ≡ true → step (Pause id) a ≡ a }
    ensures unpaused { (id : List ℕ) (a : Schedule) (g : LoadedGraph) → IsSettledAndSound a
        → graph_named a id ≡ Some g → g.paused ≡ false → step (Unpause id) a ≡ a }
{}

/// Of a pool that is made no larger, or is made, only the size changes: no run and no try. The size that a pool has already changes
/// nothing. Where a pool is made larger, what waits for it may go out.
pub fn resizes_change_one_pool()
    ensures smaller { (name : List ℕ) (size : ℕ) (a : Schedule) → IsSettledAndSound a
        → size ≤ size_of a name → step (Resize name size) a ≡ resize name size a }
    ensures made { (name : List ℕ) (size : ℕ) (a : Schedule) → IsSettledAndSound a
        → has_pool a name ≡ false → step (Resize name size) a ≡ resize name size a }
    ensures same { (name : List ℕ) (size : ℕ) (a : Schedule) → IsSettledAndSound a
        → has_pool a name ≡ true → size_of a name ≡ size → step (Resize name size) a ≡ a }
{}

/// After a backfill each interval of its span that has ended has a run, and no other date of the graph has got one.
pub fn backfills_fill_their_span()
    ensures { (id : List ℕ) (from to : ℕ) (reset : Bool) (a : Schedule) (date : ℕ)
        → has_run_at (step (Backfill id from to reset) a) id date
        ≡ (has_date (starts (spanned a id from to)) date || has_run_at a id date) }
{}

/// A backfill of a span in which each interval has its run changes nothing where it does not reset, and neither does a clear that names no
/// instance.
pub fn repairs_of_nothing_change_nothing()
    ensures backfill { (id : List ℕ) (from to : ℕ) (a : Schedule) → IsSettledAndSound a
        → named_by_backfill a id from to ≡ [] → step (Backfill id from to false) a ≡ a }
    ensures clear { (c : Clearing) (a : Schedule) → IsSettledAndSound a
        → named_pairs a (cleared_by a c) ≡ [] → step (Clear c) a ≡ a }
{}

/// The text that a graph has already changes nothing, and one for a graph without runs changes what a load would.
pub fn the_same_text_changes_nothing()
    ensures loaded { (a : Schedule) (text : List ℕ) (spec : GraphSpec) (g : LoadedGraph)
        → IsSettledAndSound a → graph_of text ≡ Ok spec → graph_named a spec.dag_id ≡ Some g
        → IsTrue (same g.text text) → step (Load text) a ≡ a }
    ensures replaced { (a : Schedule) (text : List ℕ) (spec : GraphSpec) (g : LoadedGraph)
        → IsSettledAndSound a → graph_of text ≡ Ok spec → graph_named a spec.dag_id ≡ Some g
        → IsTrue (same g.text text) → step (Replace text) a ≡ a }
    ensures without_runs { (a : Schedule) (text : List ℕ) (spec : GraphSpec)
        → graph_of text ≡ Ok spec → has_runs a spec.dag_id ≡ false
        → step (Replace text) a ≡ step (Load text) a }
{}

/// A list of accepted events keeps the schedule.
pub fn lists_of_steps_keep_the_schedule()
    ensures kept { (es : List Event) (a : Schedule) → AreAccepted es a → IsSettledAndSound a
        → IsSettledAndSound (steps es a) }
    ensures sound { (es : List Event) (a : Schedule) → AreAccepted es a → IsSoundAndSaid a
        → IsSoundAndSaid (steps es a) }
{}

/// The runs after a list of events are those before it and those that the events name, each event at the schedule that it comes to.
pub fn lists_of_steps_add_their_runs()
    ensures runs { (es : List Event) (a : Schedule)
        → IsPermutation (named_along es a ++ runs_named a) (runs_named (steps es a)) }
    ensures dates { (es : List Event) (a : Schedule) (id : List ℕ) (date : ℕ)
        → has_run_at (steps es a) id date
        ≡ (list_any (is_for id date) (named_along es a) || has_run_at a id date) }
{}

/// Each try that is there stays, in its run and of its task and with its number: with its serial and its slots, and with its start and its
/// end once they are there.
pub fn tries_go_on()
    ensures step { (e : Event) (a : Schedule) (id : List ℕ) (date : ℕ) (task : List ℕ) (n : ℕ)
        (t : Try) → IsInRange e → refused a e ≡ None → IsSoundAndSaid a
        → try_of a id date task n ≡ Some t
        → (u : Try) × (try_of (step e a) id date task n ≡ Some u) × IsLaterTry t u }
    ensures steps { (es : List Event) (a : Schedule) (id : List ℕ) (date : ℕ) (task : List ℕ)
        (n : ℕ) (t : Try) → AreAccepted es a → IsSoundAndSaid a
        → try_of a id date task n ≡ Some t
        → (u : Try) × (try_of (steps es a) id date task n ≡ Some u) × IsLaterTry t u }
{}

/// What has finished has still finished after another text for its graph, and all that follows it: by graph, date and task with the state that it
/// had, or, where it failed and the new text has tries left for it, as upstream_failed.
pub fn another_text_leaves_what_has_finished()
    ensures { (text : List ℕ) (a : Schedule) (id : List ℕ) (date : ℕ) (task : List ℕ) (s : State)
        → refused a (Replace text) ≡ None → IsSoundAndSaid a
        → state_of_task a id date task ≡ Some s → is_finished s ≡ true
        → IsStillFinished s (state_of_task (step (Replace text) a) id date task) }
{}

/// A task that is marked is skipped in its run, also after all that follows the mark.
pub fn a_marked_task_is_skipped()
    ensures { (id : List ℕ) (date : ℕ) (task : List ℕ) (a : Schedule)
        → refused a (Mark id date task) ≡ None → IsSoundAndSaid a
        → state_of_task (step (Mark id date task) a) id date task ≡ Some state.Skipped }
{}

/// The next serial never falls, and the serials of the tries that accepted events hand out are those that were next, one after another. So a
/// serial is never used twice: of the answers to a list of accepted events at most one has it among its jobs, and once.
pub fn each_serial_is_handed_out_once()
    ensures rises { (e : Event) (a : Schedule) → a.next ≤ (step e a).next }
    ensures rises_along { (es : List Event) (a : Schedule) → a.next ≤ (steps es a).next }
    ensures handed { (e : Event) (a : Schedule) → IsInRange e → refused a e ≡ None
        → IsSoundAndSaid a → serials_in (handed a (step e a))
        ≡ range_with_len a.next ((step e a).next - a.next) }
    ensures handed_along { (es : List Event) (a : Schedule) → AreAccepted es a → IsSoundAndSaid a
        → serials_in (handed_along es a) ≡ range_with_len a.next ((steps es a).next - a.next) }
    ensures once { (es : List Event) (a : Schedule) → AreAccepted es a → IsSoundAndSaid a
        → AreDistinct (serials_in (handed_along es a)) }
{}

/// A step is its event's own change, with the runs that the event names; then moves, each the first that is possible, until none is; then
/// hand-outs, each of the first in rank of the eligible that fit, within the bounds, until nothing eligible fits.
pub fn steps_end_in_hand_outs()
    ensures { (e : Event) (a : Schedule) → LeadsTo e a (step e a) }
{}

/// The promise of the scheduler, one event after another: after each accepted event the runs are those before it and the named ones; the
/// schedule is settled, and nothing eligible fits; at each hand-out the bounds held; serials of tries are distinct and below the next one; each
/// try goes on; and the tries that the answer hands out have the serials that were next. From the empty schedule on this holds of every list
/// of accepted events.
pub fn accepted_events_keep_the_promises()
    ensures each { (e : Event) (a : Schedule) → IsInRange e → refused a e ≡ None
        → IsSoundAndSaid a → KeepsPromises e a (step e a) }
    ensures from_the_first { (limits : Bounds) (es : List Event) (e : Event) → 1 ≤ limits.pools
        → AreAccepted (es ++ e ∷ []) (empty_schedule limits)
        → KeepsPromises e (steps es (empty_schedule limits))
        (step e (steps es (empty_schedule limits))) }
{}

/// A list of events in two parts is the one and then the other.
pub fn lists_of_steps_go_in_parts()
    ensures { (es fs : List Event) (a : Schedule) → steps (es ++ fs) a ≡ steps fs (steps es a) }
{}
