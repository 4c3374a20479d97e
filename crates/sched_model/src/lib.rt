//! The abstract schedule with its task instances: what a schedule is, and what each event makes of it.
//!
//! The definitions stand in `specs/`, in the subject's own words; every promise of the layers above is made in them. All are total,
//! also on schedules that no program holds. Nothing here runs: the functions in `rows` are empty, and their contracts are small worked
//! schedules, which the check computes. The laws of the definitions are those of `sched_laws`. Easy to get wrong: what is recomputed
//! here (states, slots, weights) is never part of a schedule.
//!
//! In come a schedule and what an event says, out comes the schedule after it: `advance (named_by_tick a t) (set_now t a)` is the schedule `a`
//! after a tick at `t`. A proof in a crate above says of its code that it gives this.
//!
//! After every event's own change, `advance` adds the runs that it names, makes moves until none is possible, and hands out tries until
//! nothing that is ready fits.
#![tactic(auto)]

mod rows;

pub use rows::{
    a_clear_names_what_comes_after, another_text_goes_by_ids, bad_leaves_fail_a_run,
    first_to_end_decides, one_lane_hands_out_one_by_one, one_run_at_a_time,
    rank_goes_by_weight_date_graph_and_task, reports_come_in_turn, retries_wait_for_their_delay,
    rows_of_the_tables, slots_bound_a_pool, the_past_holds_back, what_failed_is_set_aside,
    worked_schedules_are_sound,
};
