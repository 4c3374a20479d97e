//! The numbers that stand for words in the record, and the order of its rows (docs/RECORD.md).
ghost use Rattle.std.specs.Prelude.{◌≡◌, [], ◌∷◌, codes, map, true, false, Some, None};
ghost use Rattle.trigger_rules.specs.declared.verdicts.Verdict.TheVariants as verdict;
ghost use Rattle.instance_machine.specs.declared.tries.Outcome.TheVariants as outcome;
ghost use Rattle.record_rows.specs.Rows.{InstanceRow};
ghost use Rattle.sched_state.specs.declared.runs.RunKind.TheVariants as kind;
ghost use Rattle.sched_state.specs.declared.runs.RunPhase.TheVariants as phase;
ghost use Rattle.sched_model.specs.Tables.{kind_code, phase_code, verdict_code, outcome_code, flag_code, tables};
ghost use Rattle.sched_rows.specs.Days.{b_before_a};

/// A word has its number.
pub fn words_have_their_numbers()
    ensures scheduled { kind_code kind.Scheduled ≡ 0 }
    ensures manual { kind_code kind.Manual ≡ 1 }
    ensures backfill { kind_code kind.Backfill ≡ 2 }
    ensures queued { phase_code phase.Queued ≡ 0 }
    ensures running { phase_code phase.Running ≡ 1 }
    ensures run_success { phase_code phase.Success ≡ 2 }
    ensures run_failed { phase_code phase.Failed ≡ 3 }
    ensures undecided { verdict_code None ≡ 0 }
    ensures run { verdict_code (Some verdict.Run) ≡ 1 }
    ensures skip { verdict_code (Some verdict.Skip) ≡ 2 }
    ensures upstream_failed { verdict_code (Some verdict.UpstreamFailed) ≡ 3 }
    ensures success { outcome_code outcome.Success ≡ 0 }
    ensures failed { outcome_code outcome.Failed ≡ 1 }
    ensures skipped { outcome_code outcome.Skipped ≡ 2 }
    ensures lost { outcome_code outcome.Lost ≡ 3 }
    ensures no { flag_code false ≡ 0 }
    ensures yes { flag_code true ≡ 1 }
{}

/// Instances stand by task id, wherever their tasks stand in the file.
pub fn rows_stand_by_key()
    ensures { map (λ (r : InstanceRow). r.task_id) (tables b_before_a).instances ≡ codes "a" ∷ codes "b" ∷ [] }
{}
