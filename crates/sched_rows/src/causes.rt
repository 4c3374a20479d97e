//! Why an event is refused, at the bounds.
ghost use Rattle.std.specs.Prelude.{◌≡◌, [], ◌∷◌, codes, true, false, Some, None};
ghost use Rattle.sched_state.specs.Limits.{ceilings};
ghost use Rattle.sched_model.specs.Causes.{has_too_many_lanes, is_unknown_graph, is_unknown_task, is_bad_span, has_too_many_graphs, has_too_many_pools, is_full_with};
ghost use Rattle.sched_model.specs.Schedule.{empty_schedule};
ghost use Rattle.sched_model.specs.Rows.{a_day, daily};
ghost use Rattle.sched_rows.specs.Days.{a_and_c, chain_done, from_task, with_graphs, with_pools, with_runs, one_and_one_queued};

/// There may be as many lanes as the limit says.
pub fn lanes_go_up_to_their_limit()
    ensures most { has_too_many_lanes (empty_schedule ceilings) 64 ≡ false }
    ensures more { has_too_many_lanes (empty_schedule ceilings) 65 ≡ true }
{}

/// A graph is known by its id, and a task by its id in its graph. Where no task is named, none is missing.
pub fn names_are_known_or_not()
    ensures known_graph { is_unknown_graph a_and_c (codes "c") ≡ false }
    ensures unknown_graph { is_unknown_graph a_and_c (codes "b") ≡ true }
    ensures no_task { is_unknown_task chain_done (from_task None false false false) ≡ false }
    ensures known_task { is_unknown_task chain_done (from_task (Some (codes "d")) false false false) ≡ false }
    ensures unknown_task { is_unknown_task chain_done (from_task (Some (codes "x")) false false false) ≡ true }
{}

/// A span of one moment is one, and one that ends before it starts is not.
pub fn spans_do_not_go_back()
    ensures moment { is_bad_span 5 5 ≡ false }
    ensures forward { is_bad_span 5 6 ≡ false }
    ensures backward { is_bad_span 6 5 ≡ true }
{}

/// At the limit a graph or pool that is there may change, and none comes beside it. Runs may come up to the limit.
pub fn limits_bound_what_comes()
    ensures known_graph { has_too_many_graphs (with_graphs 2 a_and_c) (codes "a") ≡ false }
    ensures new_graph { has_too_many_graphs (with_graphs 2 a_and_c) (codes "b") ≡ true }
    ensures graph_below { has_too_many_graphs (with_graphs 3 a_and_c) (codes "b") ≡ false }
    ensures known_pool { has_too_many_pools (with_pools 1 (empty_schedule ceilings)) (codes "default_pool") ≡ false }
    ensures new_pool { has_too_many_pools (with_pools 1 (empty_schedule ceilings)) (codes "p") ≡ true }
    ensures pool_below { has_too_many_pools (with_pools 2 (empty_schedule ceilings)) (codes "p") ≡ false }
    ensures last_run { is_full_with (with_runs 3 one_and_one_queued) (daily (codes "g") a_day ∷ []) ≡ false }
    ensures one_run_more { is_full_with (with_runs 2 one_and_one_queued) (daily (codes "g") a_day ∷ []) ≡ true }
    ensures no_run { is_full_with (with_runs 2 one_and_one_queued) [] ≡ false }
{}
