//! A law of the definitions: the contract of an empty function.
ghost use Rattle.std.specs.Prelude.{◌≡◌, ◌<◌, ◌≤◌, ℕ, List, length, sum_by, slice_index_or};
ghost use Rattle.ruled_dispatch.specs.declared.items.WorkerReport.{WorkerReport};
ghost use Rattle.workers.specs.declared.crews.WorkerEnd.{WorkerEnd};
ghost use Rattle.workers.specs.Logs.{reports_of};
ghost use Rattle.workers.specs.Accounted.{AreHeard, times, reports_about};

use crate::crews::Gate;
use operators::Operator;

/// Where what was heard of each worker is what its log says, and each serial stands in the logs once at most, what was heard of the jobs
/// of a log is what this log says, whoever told it.
pub fn reports_belong_to_one_log<G: Gate, O: Operator>()
    ensures { (ends : List (WorkerEnd G O)) (heard : List WorkerReport) → AreHeard heard ends
        → ((serial : ℕ) → sum_by (λ e. times serial e.log.items) ends ≤ 1)
        → (k : ℕ) (e : WorkerEnd G O) → k < length ends → reports_about (slice_index_or ends k e).log.items heard ≡ reports_of (slice_index_or ends k e).log.items }
{}
