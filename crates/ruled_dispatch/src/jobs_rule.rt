//! The rule of the queue of jobs: what was sent is what was taken and what the queue holds (`IsBalanced` of specs/JobsRule.antt).
//!
//! Each step of a thread is one of these: `SplitPass` and `JoinPass` make passes and take them back, `Sends` and `Takes` move an item,
//! and `Counts` looks at the queue's length. That each of them keeps the rule is proved in proofs/JobSteps.antt.
use crate::items::JobOrStop;
use crossbeam_queue::protocol::{Join, Lesson, Outcome, Protocol, Split};
use std::collections::LinkedList;

/// What a pass has done with the queue of jobs. It is seen in proofs alone: no value of it is made.
pub(crate) struct JobActivity {
    /// Its parts of the right to know what all passes did together.
    pub parts: u64,
    /// 1 where it may send, else 0.
    pub senders: u64,
    /// What it sent, in its order.
    pub sent: LinkedList<JobOrStop>,
    /// What it took, in its order.
    pub taken: LinkedList<JobOrStop>,
}

/// Nothing that was sent is lost, and nothing is taken that was not sent.
pub(crate) struct NothingIsLost;

impl Protocol<JobOrStop, JobActivity> for NothingIsLost {
    ghost use Rattle.std.specs.Prelude.{[]};
    ghost use Rattle.ruled_dispatch.specs.JobsRule.{activity, all_parts, IsBalanced};

    ghost holds = { IsBalanced };

    ghost first = { activity all_parts 1 [] [] };
}

/// A pass that only takes is made of the director's, and gets one of its parts.
pub(crate) struct SplitPass;

impl Split<JobActivity> for SplitPass {
    ghost use Rattle.std.specs.Prelude.{◌-◌, []};
    ghost use Rattle.ruled_dispatch.specs.JobsRule.{activity};

    ghost left = { λ v. activity (v.parts - 1) v.senders v.sent v.taken };

    ghost right = { λ v. activity 1 0 [] [] };
}

/// A pass gets the parts of another, and what it did.
pub(crate) struct JoinPass;

impl Join<JobActivity> for JoinPass {
    ghost use Rattle.std.specs.Prelude.{[]};
    ghost use Rattle.ruled_dispatch.specs.JobsRule.{activity, joined};

    ghost both = { joined };

    ghost spent = { activity 0 0 [] [] };
}

/// An item goes into the queue, or the queue is found full.
pub(crate) struct Sends;

impl Outcome<JobOrStop, JobActivity> for Sends {
    ghost use Rattle.std.specs.Prelude.{◌≡◌, [], ◌∷◌, ◌++◌};
    ghost use Rattle.ruled_dispatch.specs.JobsRule.{activity};

    ghost then = { λ v x w. w ≡ activity v.parts v.senders (v.sent ++ x ∷ []) v.taken };
}

impl Lesson<JobOrStop, JobActivity> for Sends {
    ghost use Rattle.ruled_dispatch.specs.JobsRule.{AreAmong};

    ghost fact = { λ v items. AreAmong items v.sent };
}

/// An item comes out of the queue, or the queue is found empty.
pub(crate) struct Takes;

impl Outcome<JobOrStop, JobActivity> for Takes {
    ghost use Rattle.std.specs.Prelude.{◌≡◌, [], ◌∷◌, ◌++◌};
    ghost use Rattle.ruled_dispatch.specs.JobsRule.{activity};

    ghost then = { λ v x w. w ≡ activity v.parts v.senders v.sent (v.taken ++ x ∷ []) };
}

impl Lesson<JobOrStop, JobActivity> for Takes {
    ghost use Rattle.std.specs.Prelude.{⊤};

    ghost fact = { λ v items. ⊤ };
}

/// A pass that has every part looks at how many items are left. Nothing changes.
pub(crate) struct Counts;

impl Lesson<JobOrStop, JobActivity> for Counts {
    ghost use Rattle.ruled_dispatch.specs.JobsRule.{AccountsFor};

    ghost fact = { AccountsFor };
}
