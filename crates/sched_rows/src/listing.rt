//! Graphs and pools as they come, and what a schedule begins with.
ghost use Rattle.std.specs.Prelude.{◌≡◌, [], ◌∷◌, codes, true, false};
ghost use Rattle.sched_state.specs.Limits.{ceilings};
ghost use Rattle.sched_model.specs.Rows.{resized};
ghost use Rattle.sched_model.specs.Changes.{set_paused};
ghost use Rattle.sched_model.specs.Schedule.{empty_schedule, size_of, has_pool};
ghost use Rattle.sched_rows.specs.Days.{graphs_seen, pools_seen, a_and_c, loaded};

/// A new graph is not paused, and stands by its id. One that is known takes its text in and stays paused.
pub fn graphs_stand_by_their_ids()
    ensures new { graphs_seen (loaded (codes "new") (codes "b") a_and_c)
        ≡ (codes "a", [], false) ∷ (codes "b", codes "new", false) ∷ (codes "c", [], true) ∷ [] }
    ensures first { graphs_seen (loaded (codes "new") (codes "B") a_and_c)
        ≡ (codes "B", codes "new", false) ∷ (codes "a", [], false) ∷ (codes "c", [], true) ∷ [] }
    ensures again { graphs_seen (loaded (codes "new") (codes "c") a_and_c)
        ≡ (codes "a", [], false) ∷ (codes "c", codes "new", true) ∷ [] }
    ensures paused { graphs_seen (set_paused (codes "a") true a_and_c) ≡ (codes "a", [], true) ∷ (codes "c", [], true) ∷ [] }
    ensures unpaused { graphs_seen (set_paused (codes "c") false a_and_c) ≡ (codes "a", [], false) ∷ (codes "c", [], false) ∷ [] }
{}

/// At first there is the default pool alone, of 128 slots, and the moment 0, no lane, and the serial 1.
pub fn a_schedule_begins_with_one_pool()
    ensures pools { pools_seen (empty_schedule ceilings) ≡ (codes "default_pool", 128) ∷ [] }
    ensures now { (empty_schedule ceilings).now ≡ 0 }
    ensures lanes { (empty_schedule ceilings).lanes ≡ 0 }
    ensures next { (empty_schedule ceilings).next ≡ 1 }
    ensures graphs { graphs_seen (empty_schedule ceilings) ≡ [] }
{}

/// A pool that is not known is made, and stands by its name. A known one gets the size, and no other.
pub fn pools_stand_by_their_names()
    ensures made { pools_seen (resized (codes "p") 3 (empty_schedule ceilings)) ≡ (codes "default_pool", 128) ∷ (codes "p", 3) ∷ [] }
    ensures before { pools_seen (resized (codes "b") 3 (empty_schedule ceilings)) ≡ (codes "b", 3) ∷ (codes "default_pool", 128) ∷ [] }
    ensures again { pools_seen (resized (codes "p") 5 (resized (codes "p") 3 (empty_schedule ceilings)))
        ≡ (codes "default_pool", 128) ∷ (codes "p", 5) ∷ [] }
    ensures of_default { pools_seen (resized (codes "default_pool") 1 (resized (codes "p") 3 (empty_schedule ceilings)))
        ≡ (codes "default_pool", 1) ∷ (codes "p", 3) ∷ [] }
    ensures size { size_of (empty_schedule ceilings) (codes "default_pool") ≡ 128 }
    ensures no_size { size_of (empty_schedule ceilings) (codes "p") ≡ 0 }
    ensures there { has_pool (empty_schedule ceilings) (codes "default_pool") ≡ true }
    ensures not_there { has_pool (empty_schedule ceilings) (codes "p") ≡ false }
{}
