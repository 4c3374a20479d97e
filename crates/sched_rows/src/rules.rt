//! The trigger rules: when a task runs, as Airflow 2's page 'DAGs' has it; when it is upstream_failed or skipped, by this scheduler's own table.
//! A clause is named for the states of the upstreams.
ghost use Rattle.std.specs.Prelude.{◌≡◌, [], ◌∷◌};
ghost use Rattle.graph_file.specs.declared.rules.Rule.TheVariants as rule;
ghost use Rattle.trigger_rules.specs.Rules.{rule_verdict};
ghost use Rattle.trigger_rules.specs.declared.states.State.TheVariants as state;
ghost use Rattle.trigger_rules.specs.declared.verdicts.Verdict.TheVariants as verdict;

/// Without upstreams a task runs, under the rules that would else wait, skip or fail, too.
pub fn a_task_without_upstreams_runs()
    ensures all_success { rule_verdict rule.AllSuccess [] ≡ verdict.Run }
    ensures all_failed { rule_verdict rule.AllFailed [] ≡ verdict.Run }
    ensures one_success { rule_verdict rule.OneSuccess [] ≡ verdict.Run }
    ensures one_done { rule_verdict rule.OneDone [] ≡ verdict.Run }
{}

/// `all_success`: every upstream is a success; one that is skipped skips it, one that failed makes it upstream_failed, and this goes first.
pub fn all_success()
    ensures success_success { rule_verdict rule.AllSuccess (state.Success ∷ state.Success ∷ []) ≡ verdict.Run }
    ensures success_none { rule_verdict rule.AllSuccess (state.Success ∷ state.None ∷ []) ≡ verdict.Wait }
    ensures skipped_none { rule_verdict rule.AllSuccess (state.Skipped ∷ state.None ∷ []) ≡ verdict.Skip }
    ensures failed_none { rule_verdict rule.AllSuccess (state.Failed ∷ state.None ∷ []) ≡ verdict.UpstreamFailed }
    ensures upstream_failed_none { rule_verdict rule.AllSuccess (state.UpstreamFailed ∷ state.None ∷ []) ≡ verdict.UpstreamFailed }
    ensures skipped_failed { rule_verdict rule.AllSuccess (state.Skipped ∷ state.Failed ∷ []) ≡ verdict.UpstreamFailed }
{}

/// `all_failed`: every upstream is failed or upstream_failed; one that is a success or skipped skips it.
pub fn all_failed()
    ensures failed_upstream_failed { rule_verdict rule.AllFailed (state.Failed ∷ state.UpstreamFailed ∷ []) ≡ verdict.Run }
    ensures failed_none { rule_verdict rule.AllFailed (state.Failed ∷ state.None ∷ []) ≡ verdict.Wait }
    ensures success_none { rule_verdict rule.AllFailed (state.Success ∷ state.None ∷ []) ≡ verdict.Skip }
    ensures skipped_none { rule_verdict rule.AllFailed (state.Skipped ∷ state.None ∷ []) ≡ verdict.Skip }
{}

/// `all_done`: every upstream has ended, however.
pub fn all_done()
    ensures success_failed_skipped_upstream_failed { rule_verdict rule.AllDone (state.Success ∷ state.Failed ∷ state.Skipped ∷ state.UpstreamFailed ∷ []) ≡ verdict.Run }
    ensures success_running { rule_verdict rule.AllDone (state.Success ∷ state.Running ∷ []) ≡ verdict.Wait }
    ensures failed_up_for_retry { rule_verdict rule.AllDone (state.Failed ∷ state.UpForRetry ∷ []) ≡ verdict.Wait }
{}

/// `all_skipped`: every upstream is skipped; one that has ended otherwise skips it.
pub fn all_skipped()
    ensures skipped_skipped { rule_verdict rule.AllSkipped (state.Skipped ∷ state.Skipped ∷ []) ≡ verdict.Run }
    ensures skipped_none { rule_verdict rule.AllSkipped (state.Skipped ∷ state.None ∷ []) ≡ verdict.Wait }
    ensures success_none { rule_verdict rule.AllSkipped (state.Success ∷ state.None ∷ []) ≡ verdict.Skip }
    ensures failed_none { rule_verdict rule.AllSkipped (state.Failed ∷ state.None ∷ []) ≡ verdict.Skip }
    ensures upstream_failed_none { rule_verdict rule.AllSkipped (state.UpstreamFailed ∷ state.None ∷ []) ≡ verdict.Skip }
{}

/// `one_failed`: one upstream is failed or upstream_failed, whatever the others do; where all have ended otherwise, it is skipped.
pub fn one_failed()
    ensures failed_none { rule_verdict rule.OneFailed (state.Failed ∷ state.None ∷ []) ≡ verdict.Run }
    ensures upstream_failed_none { rule_verdict rule.OneFailed (state.UpstreamFailed ∷ state.None ∷ []) ≡ verdict.Run }
    ensures success_none { rule_verdict rule.OneFailed (state.Success ∷ state.None ∷ []) ≡ verdict.Wait }
    ensures success_skipped { rule_verdict rule.OneFailed (state.Success ∷ state.Skipped ∷ []) ≡ verdict.Skip }
{}

/// `one_success`: one upstream is a success, whatever the others do; where none is, it is skipped if all are skipped, and else upstream_failed.
pub fn one_success()
    ensures success_none { rule_verdict rule.OneSuccess (state.Success ∷ state.None ∷ []) ≡ verdict.Run }
    ensures failed_none { rule_verdict rule.OneSuccess (state.Failed ∷ state.None ∷ []) ≡ verdict.Wait }
    ensures failed_failed { rule_verdict rule.OneSuccess (state.Failed ∷ state.Failed ∷ []) ≡ verdict.UpstreamFailed }
    ensures skipped_failed { rule_verdict rule.OneSuccess (state.Skipped ∷ state.Failed ∷ []) ≡ verdict.UpstreamFailed }
    ensures skipped_skipped { rule_verdict rule.OneSuccess (state.Skipped ∷ state.Skipped ∷ []) ≡ verdict.Skip }
{}

/// `one_done`: one upstream is a success or failed, whatever the others do; where all are skipped or upstream_failed, it is skipped.
pub fn one_done()
    ensures success_none { rule_verdict rule.OneDone (state.Success ∷ state.None ∷ []) ≡ verdict.Run }
    ensures failed_none { rule_verdict rule.OneDone (state.Failed ∷ state.None ∷ []) ≡ verdict.Run }
    ensures skipped_none { rule_verdict rule.OneDone (state.Skipped ∷ state.None ∷ []) ≡ verdict.Wait }
    ensures upstream_failed_none { rule_verdict rule.OneDone (state.UpstreamFailed ∷ state.None ∷ []) ≡ verdict.Wait }
    ensures skipped_upstream_failed { rule_verdict rule.OneDone (state.Skipped ∷ state.UpstreamFailed ∷ []) ≡ verdict.Skip }
{}

/// `none_failed`: every upstream is a success or skipped; one that failed makes it upstream_failed.
pub fn none_failed()
    ensures success_skipped { rule_verdict rule.NoneFailed (state.Success ∷ state.Skipped ∷ []) ≡ verdict.Run }
    ensures skipped_skipped { rule_verdict rule.NoneFailed (state.Skipped ∷ state.Skipped ∷ []) ≡ verdict.Run }
    ensures skipped_none { rule_verdict rule.NoneFailed (state.Skipped ∷ state.None ∷ []) ≡ verdict.Wait }
    ensures failed_none { rule_verdict rule.NoneFailed (state.Failed ∷ state.None ∷ []) ≡ verdict.UpstreamFailed }
    ensures upstream_failed_none { rule_verdict rule.NoneFailed (state.UpstreamFailed ∷ state.None ∷ []) ≡ verdict.UpstreamFailed }
{}

/// `none_failed_min_one_success`: as `none_failed`, with one success at least; where all are skipped it is, too.
pub fn none_failed_min_one_success()
    ensures success_skipped { rule_verdict rule.NoneFailedMinOneSuccess (state.Success ∷ state.Skipped ∷ []) ≡ verdict.Run }
    ensures success_none { rule_verdict rule.NoneFailedMinOneSuccess (state.Success ∷ state.None ∷ []) ≡ verdict.Wait }
    ensures skipped_skipped { rule_verdict rule.NoneFailedMinOneSuccess (state.Skipped ∷ state.Skipped ∷ []) ≡ verdict.Skip }
    ensures failed_none { rule_verdict rule.NoneFailedMinOneSuccess (state.Failed ∷ state.None ∷ []) ≡ verdict.UpstreamFailed }
    ensures upstream_failed_success { rule_verdict rule.NoneFailedMinOneSuccess (state.UpstreamFailed ∷ state.Success ∷ []) ≡ verdict.UpstreamFailed }
{}

/// `none_skipped`: every upstream has ended and is not skipped; one that is skips it.
pub fn none_skipped()
    ensures success_failed_upstream_failed { rule_verdict rule.NoneSkipped (state.Success ∷ state.Failed ∷ state.UpstreamFailed ∷ []) ≡ verdict.Run }
    ensures success_none { rule_verdict rule.NoneSkipped (state.Success ∷ state.None ∷ []) ≡ verdict.Wait }
    ensures skipped_none { rule_verdict rule.NoneSkipped (state.Skipped ∷ state.None ∷ []) ≡ verdict.Skip }
{}

/// `always`: it runs, whatever its upstreams do.
pub fn always()
    ensures none_none { rule_verdict rule.Always (state.None ∷ state.None ∷ []) ≡ verdict.Run }
    ensures failed_none { rule_verdict rule.Always (state.Failed ∷ state.None ∷ []) ≡ verdict.Run }
{}
