//! Laws of the trigger rules.
ghost use Rattle.std.specs.Prelude.{◌≡◌, ◌≢◌, List};
ghost use Rattle.graph_file.specs.declared.rules.Rule.{Rule};
ghost use Rattle.graph_file.specs.declared.rules.Rule.TheVariants.{AllSuccess};
ghost use Rattle.trigger_rules.specs.Rules.{rule_verdict};
ghost use Rattle.trigger_rules.specs.Progress.{GoOn};
ghost use Rattle.trigger_rules.specs.declared.states.State.{State};
ghost use Rattle.trigger_rules.specs.declared.verdicts.Verdict.TheVariants.{Wait};

/// Under every rule but `all_success` a verdict stands once it is there: whatever the upstreams that have not ended do then, it is
/// the same. Under `all_success` a skipped upstream makes the task skipped, and one that fails later makes it upstream_failed.
pub fn a_verdict_stands()
    ensures { (r : Rule) (s t : List State) → r ≢ AllSuccess → GoOn s t → rule_verdict r s ≢ Wait
        → rule_verdict r t ≡ rule_verdict r s }
{}
