//! What reports of workers, and a restart, do to a try.
ghost use Rattle.std.specs.Prelude.{◌≡◌, ℕ, is_some};
ghost use Rattle.instance_machine.specs.Reports as spec;
ghost use Rattle.instance_machine.specs.Reports.{reported, report_try};

use crate::instances::Instance;
use crate::tries::{End, Outcome, Stage, Try};
use moment_core::Moment;

/// Why a report is refused.
#[derive(Clone, Copy, Debug, PartialEq, Eq)]
pub enum ReportFault {
    /// No try is open, or it has begun already, or not yet, or it is reported lost.
    OutOfTurn,
}

impl Instance {
    /// Takes in what a worker reports of its open try. A refused report changes nothing.
    /// No crate above calls this: drafts go by [`Instance::report`].
    pub fn apply_report(&mut self, stage: Stage, now: Moment) -> Result<(), ReportFault>
        ensures { reported stage now self.old self.new result }
    {
        let last = self.tries().last().copied().ok_or(ReportFault::OutOfTurn)?;
        let last = after_report(last, stage, now).ok_or(ReportFault::OutOfTurn)?;
        self.set_last(last);
        Ok(())
    }
}

impl Try {
    /// Whether it is its turn to report this: an open try begins once, ends after that, and is never reported lost.
    pub fn takes(&self, stage: Stage) -> bool
        ensures { (now : ℕ) → result ≡ is_some (report_try stage now self.now) }
    {
        if self.ended.is_some() {
            return false;
        }
        match stage {
            Stage::Started => self.started.is_none(),
            Stage::Ended(outcome) => self.started.is_some() && outcome != Outcome::Lost,
        }
    }
}

// The try after a report, where it is its turn.
fn after_report(last: Try, stage: Stage, now: Moment) -> Option<Try>
    ensures { result ≡ report_try stage now last }
{
    if !last.takes(stage) {
        return None;
    }
    match stage {
        Stage::Started => Some(Try {
            started: Some(now),
            ..last
        }),
        Stage::Ended(outcome) => Some(Try {
            ended: Some(End {
                moment: now,
                outcome,
            }),
            ..last
        }),
    }
}

// The try after a report of the one with this serial.
pub(crate) fn reported_try(old: &Try, serial: u64, stage: Stage, now: Moment) -> Try
    ensures { result ≡ spec.reported_try serial stage now old.now }
{
    if old.serial == serial {
        if let Some(new) = after_report(*old, stage, now) {
            return new;
        }
    }
    *old
}

// The try after a restart at this moment.
pub(crate) fn lost_try(old: Try, now: Moment) -> Try
    ensures { result ≡ spec.lost_try now old }
{
    match old.ended {
        Some(_) => old,
        None => Try {
            ended: Some(End {
                moment: now,
                outcome: Outcome::Lost,
            }),
            ..old
        },
    }
}
