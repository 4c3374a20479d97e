//! Law of the record's rules: they say of a schedule what soundness says of it.
ghost use Rattle.sched_model.specs.Schedule.{Schedule};
ghost use Rattle.sched_model.specs.Sound.{IsSound, AllSay};
ghost use Rattle.sched_laws.specs.Rules.{FollowsRules};

/// A schedule whose graphs are what their texts say is sound exactly where it follows the rules by which the record's tables are checked.
pub fn the_rules_say_soundness()
    ensures rules { (a : Schedule) → IsSound a → FollowsRules a }
    ensures sound { (a : Schedule) → AllSay a.graphs → FollowsRules a → IsSound a }
{}
