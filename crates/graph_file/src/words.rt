//! The words that a key takes, where they are few.
ghost use Rattle.std.specs.Prelude.{◌≡◌, is_some, map, true};
ghost use Rattle.std.specs.List.{list_all};
ghost use Rattle.graph_file.specs.Operators.{operator_of};
ghost use Rattle.graph_file.specs.Rules.{rule_of, weight_rule_of};
ghost use Rattle.graph_file.specs.Schedules.{cron_timetable_of};
ghost use Rattle.graph_file.specs.Words as spec;

use crate::keys::Role;

static OPERATORS: [&str; 3] = ["noop", "command", "exit"];

static RULES: [&str; 11] = [
    "all_success",
    "all_failed",
    "all_done",
    "all_skipped",
    "one_failed",
    "one_success",
    "one_done",
    "none_failed",
    "none_failed_min_one_success",
    "none_skipped",
    "always",
];

static WEIGHT_RULES: [&str; 3] = ["downstream", "upstream", "absolute"];

static TIMETABLES: [&str; 2] = ["interval", "trigger"];

impl Role {
    /// The words of an operator, a rule or a timetable; none of any other role.
    pub fn words(self) -> &'static [&'static str]
        ensures { map (λ word. word.now) result.now ≡ spec.words_of self }
    {
        match self {
            Role::Operator => OPERATORS.as_slice(),
            Role::Rule => RULES.as_slice(),
            Role::WeightRule => WEIGHT_RULES.as_slice(),
            Role::Timetable => TIMETABLES.as_slice(),
            Role::Free
            | Role::Name
            | Role::Names
            | Role::Moment
            | Role::Range(_, _)
            | Role::Timeout(_, _)
            | Role::Schedule
            | Role::Arguments => &[],
        }
    }
}

/// Each of these words is read as what it is a word of.
pub fn words_are_read()
    ensures operators { list_all (λ word. is_some (operator_of word)) (spec.words_of Role.Operator) ≡ true }
    ensures rules { list_all (λ word. is_some (rule_of word)) (spec.words_of Role.Rule) ≡ true }
    ensures weight_rules { list_all (λ word. is_some (weight_rule_of word)) (spec.words_of Role.WeightRule) ≡ true }
    ensures timetables { list_all (λ word. is_some (cron_timetable_of word)) (spec.words_of Role.Timetable) ≡ true }
{}
