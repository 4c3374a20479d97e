//! Values as the numbers of columns, and numbers of columns as values. A number that is no code or no moment has none.
ghost use Rattle.std.specs.Prelude.{◌≡◌, ◌≢◌, Bool, Option, pos, option_map, IfSome, Some};
ghost use Rattle.graph_file.specs.Lists.{when};
ghost use Rattle.instance_machine.specs.declared.tries.Outcome.{Outcome};
ghost use Rattle.sched_laws.specs.sched_model.Tables.{kind_code, phase_code, verdict_code, outcome_code, flag_code};
ghost use Rattle.sched_laws.specs.sched_state.declared.runs.RunKind.{RunKind};
ghost use Rattle.sched_laws.specs.sched_state.declared.runs.RunPhase.{RunPhase};
ghost use Rattle.record_rules.specs.Numbers.{natural, is_moment_column, is_between};
ghost use Rattle.record_rules.specs.Reading as spec;
ghost use Rattle.trigger_rules.specs.declared.verdicts.Verdict.{Verdict};
ghost use Rattle.trigger_rules.specs.declared.verdicts.Verdict.TheVariants as verdict;

use instance_machine::Outcome;
use moment_core::Moment;
use sched_state::{RunKind, RunPhase};
use trigger_rules::Verdict;

/// The seconds of a moment.
pub fn seconds(moment: Moment) -> i64
    ensures { result ≡ pos moment }
{
    moment.secs() as i64
}

/// The moment of a column.
pub fn moment_of(column: i64) -> Option<Moment>
    ensures { result ≡ when (is_moment_column column) (natural column) }
{
    Moment::from_secs(column)
}

/// The code of a flag.
pub fn flag_code(flag: bool) -> i64
    ensures { result ≡ pos (flag_code flag) }
{
    if flag { 1 } else { 0 }
}

/// The flag of a code.
pub fn flag_of(code: i64) -> bool
    ensures { result ≡ spec.flag_of (natural code) }
{
    code > 0
}

/// The code of a kind of run.
pub fn kind_code(kind: RunKind) -> i64
    ensures { result ≡ pos (kind_code kind) }
{
    match kind {
        RunKind::Scheduled => 0,
        RunKind::Manual => 1,
        RunKind::Backfill => 2,
    }
}

/// The kind of run of a code.
pub fn kind_of(code: i64) -> Option<RunKind>
    ensures { result ≡ when (is_between 0 2 code) (spec.kind_of (natural code)) }
{
    match code {
        0 => Some(RunKind::Scheduled),
        1 => Some(RunKind::Manual),
        2 => Some(RunKind::Backfill),
        _ => None,
    }
}

/// The code of a run's phase.
pub fn phase_code(phase: RunPhase) -> i64
    ensures { result ≡ pos (phase_code phase) }
{
    match phase {
        RunPhase::Queued => 0,
        RunPhase::Running => 1,
        RunPhase::Success => 2,
        RunPhase::Failed => 3,
    }
}

/// The phase of a code.
pub fn phase_of(code: i64) -> Option<RunPhase>
    ensures { result ≡ when (is_between 0 3 code) (spec.phase_of (natural code)) }
{
    match code {
        0 => Some(RunPhase::Queued),
        1 => Some(RunPhase::Running),
        2 => Some(RunPhase::Success),
        3 => Some(RunPhase::Failed),
        _ => None,
    }
}

/// The code of a verdict; 0 where there is none yet.
pub fn verdict_code(verdict: Option<Verdict>) -> i64
    ensures { result ≡ pos (verdict_code verdict) }
{
    match verdict {
        None | Some(Verdict::Wait) => 0,
        Some(Verdict::Run) => 1,
        Some(Verdict::Skip) => 2,
        Some(Verdict::UpstreamFailed) => 3,
    }
}

/// The verdict of a code, which is itself absent where there is none yet.
pub fn verdict_of(code: i64) -> Option<Option<Verdict>>
    ensures value { result ≡ when (is_between 0 3 code) (spec.verdict_of (natural code)) }
    ensures decided { IfSome result (λ decided. decided ≢ Some verdict.Wait) }
{
    match code {
        0 => Some(None),
        1 => Some(Some(Verdict::Run)),
        2 => Some(Some(Verdict::Skip)),
        3 => Some(Some(Verdict::UpstreamFailed)),
        _ => None,
    }
}

/// The code of a try's outcome.
pub fn outcome_code(outcome: Outcome) -> i64
    ensures { result ≡ pos (outcome_code outcome) }
{
    match outcome {
        Outcome::Success => 0,
        Outcome::Failed => 1,
        Outcome::Skipped => 2,
        Outcome::Lost => 3,
    }
}

/// The outcome of a code.
pub fn outcome_of(code: i64) -> Option<Outcome>
    ensures { result ≡ when (is_between 0 3 code) (spec.outcome_of (natural code)) }
{
    match code {
        0 => Some(Outcome::Success),
        1 => Some(Outcome::Failed),
        2 => Some(Outcome::Skipped),
        3 => Some(Outcome::Lost),
        _ => None,
    }
}

/// A value is read back of its code.
pub fn codes_are_read_back()
    ensures flag { (flag : Bool) → spec.flag_of (flag_code flag) ≡ flag }
    ensures kind { (kind : RunKind) → spec.kind_of (kind_code kind) ≡ kind }
    ensures phase { (phase : RunPhase) → spec.phase_of (phase_code phase) ≡ phase }
    ensures verdict { (decided : Option Verdict) → decided ≢ Some verdict.Wait
        → spec.verdict_of (verdict_code decided) ≡ decided }
    ensures outcome { (outcome : Outcome) → spec.outcome_of (outcome_code outcome) ≡ outcome }
{}
