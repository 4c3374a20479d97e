//! What a trigger rule makes of the upstreams' states.
ghost use Rattle.std.specs.Prelude.{◌≡◌, List};
ghost use Rattle.trigger_rules.specs.Counts.{counts_of};
ghost use Rattle.trigger_rules.specs.Rules.{decide, rule_verdict};
ghost use Rattle.trigger_rules.specs.Inside as inside;
ghost use Rattle.trigger_rules.specs.declared.states.State.{State};

use crate::counts::Counts;
use graph_file::Rule;

/// What a task does by its rule.
#[derive(Clone, Copy, Debug, PartialEq, Eq)]
pub enum Verdict {
    /// It waits for further upstreams to end.
    Wait,
    Run,
    /// It is skipped.
    Skip,
    /// It is upstream_failed.
    UpstreamFailed,
}

/// What the rule makes of upstreams in these states. A task without upstreams runs under each rule.
pub fn verdict_of(rule: Rule, counts: &Counts) -> Verdict
    ensures { (s : List State) → counts.now ≡ counts_of s → result ≡ rule_verdict rule s }
{
    if counts.total() == 0 {
        return Verdict::Run;
    }
    by_counts(rule, counts)
}

// The row of the rule, read off the counts.
fn by_counts(rule: Rule, counts: &Counts) -> Verdict
    ensures { result ≡ inside.by_counts rule counts.now }
{
    let success = counts.success();
    let skipped = counts.skipped();
    let bad = counts.bad();
    let done = counts.done();
    let unfinished = counts.unfinished();
    match rule {
        Rule::AllSuccess => decided(bad + skipped + unfinished == 0, bad > 0, skipped > 0),
        Rule::AllFailed => decided(
            success + skipped + unfinished == 0,
            false,
            success + skipped > 0,
        ),
        Rule::AllDone => decided(unfinished == 0, false, false),
        Rule::AllSkipped => decided(success + bad + unfinished == 0, false, success + bad > 0),
        Rule::OneFailed => decided(bad > 0, false, unfinished == 0 && bad == 0),
        Rule::OneSuccess => decided(
            success > 0,
            unfinished == 0 && success == 0 && bad > 0,
            success + bad + unfinished == 0,
        ),
        Rule::OneDone => decided(done > 0, false, unfinished == 0 && done == 0),
        Rule::NoneFailed => decided(bad + unfinished == 0, bad > 0, false),
        Rule::NoneFailedMinOneSuccess => decided(
            unfinished == 0 && bad == 0 && success > 0,
            bad > 0,
            success + bad + unfinished == 0,
        ),
        Rule::NoneSkipped => decided(skipped + unfinished == 0, false, skipped > 0),
        Rule::Always => Verdict::Run,
    }
}

// The first column that holds.
fn decided(runs: bool, fails: bool, skips: bool) -> Verdict
    ensures { result ≡ decide runs fails skips }
{
    if runs {
        Verdict::Run
    } else if fails {
        Verdict::UpstreamFailed
    } else if skips {
        Verdict::Skip
    } else {
        Verdict::Wait
    }
}
