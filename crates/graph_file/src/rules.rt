//! When a task runs by the states of its upstreams, and how its weight is summed.
ghost use Rattle.std.specs.Prelude.{◌≡◌};
ghost use Rattle.graph_file.specs.Rules.{rule_of, weight_rule_of};

/// A trigger rule, by the word that Airflow 2 has for it. What each makes of the upstreams' states is no business of a
/// graph file.
#[derive(Clone, Copy, Debug, PartialEq, Eq)]
pub enum Rule {
    /// `all_success`, the default.
    AllSuccess,
    /// `all_failed`.
    AllFailed,
    /// `all_done`.
    AllDone,
    /// `all_skipped`.
    AllSkipped,
    /// `one_failed`.
    OneFailed,
    /// `one_success`.
    OneSuccess,
    /// `one_done`.
    OneDone,
    /// `none_failed`.
    NoneFailed,
    /// `none_failed_min_one_success`.
    NoneFailedMinOneSuccess,
    /// `none_skipped`.
    NoneSkipped,
    /// `always`.
    Always,
}

impl Rule {
    /// The trigger rule of a word, which is compared as it stands.
    pub fn read(text: &str) -> Option<Rule>
        ensures { result ≡ rule_of text.now }
    {
        match text {
            "all_success" => Some(Rule::AllSuccess),
            "all_failed" => Some(Rule::AllFailed),
            "all_done" => Some(Rule::AllDone),
            "all_skipped" => Some(Rule::AllSkipped),
            "one_failed" => Some(Rule::OneFailed),
            "one_success" => Some(Rule::OneSuccess),
            "one_done" => Some(Rule::OneDone),
            "none_failed" => Some(Rule::NoneFailed),
            "none_failed_min_one_success" => Some(Rule::NoneFailedMinOneSuccess),
            "none_skipped" => Some(Rule::NoneSkipped),
            "always" => Some(Rule::Always),
            _ => None,
        }
    }
}

/// A weight rule, by the word that Airflow 2 has for it: whose weights are summed into a task's own.
#[derive(Clone, Copy, Debug, PartialEq, Eq)]
pub enum WeightRule {
    /// `downstream`, the default: those of the tasks that come after it.
    Downstream,
    /// `upstream`: those of the tasks that come before it.
    Upstream,
    /// `absolute`: none.
    Absolute,
}

impl WeightRule {
    /// The weight rule of a word, which is compared as it stands.
    pub fn read(text: &str) -> Option<WeightRule>
        ensures { result ≡ weight_rule_of text.now }
    {
        match text {
            "downstream" => Some(WeightRule::Downstream),
            "upstream" => Some(WeightRule::Upstream),
            "absolute" => Some(WeightRule::Absolute),
            _ => None,
        }
    }
}
