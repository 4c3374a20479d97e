//! The rule of the queue of reports: what a worker told is what was heard of it and then what the queue holds of it, in order
//! (`IsInOrder` of specs/ReportsRule.antt).
//!
//! Each step of a thread is one of these: `SplitTeller` and `JoinTeller` make passes and take them back, `Tells` and `Hears` move a
//! report, and `Compares` looks at the queue's length. That each of them keeps the rule is proved in proofs/ReportSteps.antt.
use crate::items::{Report, WorkerReport};
use crossbeam_queue::protocol::{Join, Lesson, Outcome, Protocol, Split};
use std::collections::LinkedList;

/// What a pass has done with the queue of reports. It is seen in proofs alone: no value of it is made.
pub(crate) struct ReportActivity {
    /// Whether it may hear.
    pub hears: bool,
    /// What it heard, in its order.
    pub heard: LinkedList<WorkerReport>,
    /// How many passes that tell were made of it: these have the numbers below.
    pub made: u64,
    /// What the passes told in all that it took back.
    pub returned: LinkedList<NumberedReports>,
    /// Whether it may tell.
    pub tells: bool,
    /// The number under which it tells.
    pub number: u64,
    /// What it told, in its order.
    pub told: LinkedList<Report>,
}

/// What was told under a number. It is seen in proofs alone: no value of it is made.
pub(crate) struct NumberedReports {
    /// The number.
    pub number: u64,
    /// What was told, in its order.
    pub told: LinkedList<Report>,
}

/// Reports of one worker come in the order told, none is lost, and none is heard that was not told.
pub(crate) struct StaysInOrder;

impl Protocol<WorkerReport, ReportActivity> for StaysInOrder {
    ghost use Rattle.std.specs.Prelude.{[]};
    ghost use Rattle.ruled_dispatch.specs.ReportsRule.{hearer, IsInOrder};

    ghost holds = { IsInOrder };

    ghost first = { hearer [] 0 [] };
}

/// A pass that tells is made of the one that hears, and gets the next number.
pub(crate) struct SplitTeller;

impl Split<ReportActivity> for SplitTeller {
    ghost use Rattle.std.specs.Prelude.{◌+◌, []};
    ghost use Rattle.ruled_dispatch.specs.ReportsRule.{hearer, teller};

    ghost left = { λ v. hearer v.heard (v.made + 1) v.returned };

    ghost right = { λ v. teller v.made [] };
}

/// The pass that hears takes back one that tells, and what it told.
pub(crate) struct JoinTeller;

impl Join<ReportActivity> for JoinTeller {
    ghost use Rattle.std.specs.Prelude.{◌∷◌, ◌++◌, []};
    ghost use Rattle.ruled_dispatch.specs.ReportsRule.{hearer, idle, told_under};

    ghost both = { λ v w. hearer v.heard v.made (v.returned ++ told_under w ∷ []) };

    ghost spent = { idle };
}

/// A report goes into the queue, or the queue is found full.
pub(crate) struct Tells;

impl Outcome<WorkerReport, ReportActivity> for Tells {
    ghost use Rattle.std.specs.Prelude.{◌≡◌, ◌∷◌, ◌++◌, []};
    ghost use Rattle.ruled_dispatch.specs.ReportsRule.{teller};

    ghost then = { λ v x w. w ≡ teller v.number (v.told ++ x.report ∷ []) };
}

impl Lesson<WorkerReport, ReportActivity> for Tells {
    ghost use Rattle.std.specs.Prelude.{⊤};

    ghost fact = { λ v items. ⊤ };
}

/// A report of one of the workers comes out of the queue, or the queue is found empty.
pub(crate) struct Hears;

impl Outcome<WorkerReport, ReportActivity> for Hears {
    ghost use Rattle.std.specs.Prelude.{◌≡◌, ◌<◌, ◌∷◌, ◌++◌, []};
    ghost use Rattle.ruled_dispatch.specs.ReportsRule.{hearer};

    ghost then = { λ v x w. (x.worker < v.made) × (w ≡ hearer (v.heard ++ x ∷ []) v.made v.returned) };
}

impl Lesson<WorkerReport, ReportActivity> for Hears {
    ghost use Rattle.std.specs.Prelude.{⊤};

    ghost fact = { λ v items. ⊤ };
}

/// The pass that hears, with all passes back, looks at how many reports are left. Nothing changes.
pub(crate) struct Compares;

impl Lesson<WorkerReport, ReportActivity> for Compares {
    ghost use Rattle.ruled_dispatch.specs.ReportsRule.{TellsOfAll};

    ghost fact = { TellsOfAll };
}
