//! Laws of the definitions: each is the contract of an empty function, so that the gate proves it. Most say what follows for the runs that
//! were not touched.
ghost use Rattle.std.specs.Prelude.{◌≡◌, ℕ, ◌+◌, ◌==◌, ◌||◌, true, false, List, [], sum_by, flat_map, Contains, Some, slice_get};
ghost use Rattle.std.specs.BTreeSet.{insert_key};
ghost use Rattle.std.specs.List.{list_any};
ghost use Rattle.std.specs.Option.{option_to_list};
ghost use Rattle.std.specs.Ordering.{nat_cmp};
ghost use Rattle.dag_check.specs.Orders.{is_in};
ghost use Rattle.sched_state.specs.declared.runs.Run.{Run};
ghost use Rattle.sched_model.specs.Lists.{last_passing, rises};
ghost use Rattle.sched_model.specs.Schedule.{is_at, run_before};
ghost use Rattle.sched_model.specs.States.{is_earlier};
ghost use Rattle.run_lists.specs.declared.edits.Edit.{Edit};
ghost use Rattle.run_lists.specs.Edits.{AreEditsOf, adds, edited};
ghost use Rattle.run_lists.specs.Marks.{Mark, Over, Kept, touched_runs, replaced_runs, is_touched_at, touched_in, HasKeyOf};
ghost use Rattle.run_lists.specs.Past.{neighbour, follows_touched};

/// A number that is summed up over the runs changes by what the touched runs give.
pub fn sums_go_by_touched_runs()
    ensures { (f : Run → ℕ) (ms : List Mark) (a b : List Run) → Over ms a b
        → sum_by f b + sum_by f (replaced_runs ms) ≡ sum_by f a + sum_by f (touched_runs ms) }
{}

/// A run that is not touched was there, as it is.
pub fn other_runs_were_there()
    ensures { (ms : List Mark) (a b : List Run) (n : ℕ) (r : Run) → Over ms a b
        → slice_get b n ≡ Some r → is_touched_at n ms ≡ false → Contains a r }
{}

/// No run is lost: each that was there is there, with its key.
pub fn no_run_is_lost()
    ensures { (ms : List Mark) (a b : List Run) (r : Run) → Over ms a b → Contains a r
        → (s : Run) × Contains b s × HasKeyOf r s }
{}

/// Where the runs that were not touched give nothing, a list that is made of all runs is the one made of the touched runs.
pub fn lists_go_by_touched_runs()
    ensures { (f : Run → List ℕ) (ms : List Mark) (a b : List Run) → Over ms a b
        → ((n : ℕ) (r : Run) → slice_get ms n ≡ Some (Kept r) → f r ≡ [])
        → flat_map f b ≡ flat_map f (touched_runs ms) }
{}

/// The runs at the touched positions are the touched runs, in their order.
pub fn touched_runs_stand_at_their_positions()
    ensures { (ms : List Mark) (a b : List Run) → Over ms a b
        → flat_map (λ n. option_to_list (slice_get b n)) (touched_in ms) ≡ touched_runs ms }
{}

/// A position that is put in is touched, and each other position is touched that was, and no more.
pub fn one_position_more_is_touched()
    ensures { (m n : ℕ) (ns : List ℕ) → is_in (insert_key nat_cmp ns n) m ≡ (n == m || is_in ns m) }
{}

/// A run of a graph and date is there after edits exactly if one was there before, or the edits add one.
pub fn keys_go_by_added_runs()
    ensures { (id : List ℕ) (date : ℕ) (es : List Edit) (rs : List Run) → AreEditsOf rs es
        → list_any (is_at id date) (edited es rs)
        ≡ (list_any (adds id date) es || list_any (is_at id date) rs) }
{}

/// The last earlier run of a run's graph stands right before it.
pub fn the_past_stands_before()
    ensures { (b : List Run) (n : ℕ) (r : Run) → rises run_before b ≡ true
        → slice_get b n ≡ Some r → last_passing (is_earlier r) b ≡ neighbour (λ q. q) r n b }
{}

/// The past of a run is as it was, where the run before it isn't touched.
pub fn the_past_goes_by_touched_runs()
    ensures { (ms : List Mark) (a b : List Run) (n : ℕ) (r : Run) → Over ms a b
        → rises run_before b ≡ true → slice_get b n ≡ Some r → follows_touched r n ms ≡ false
        → last_passing (is_earlier r) a ≡ last_passing (is_earlier r) b }
{}

/// The runs that were there stand in their order, where those that are there do.
pub fn the_order_was_kept()
    ensures { (ms : List Mark) (a b : List Run) → Over ms a b → rises run_before b ≡ true
        → rises run_before a ≡ true }
{}
