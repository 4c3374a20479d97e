//! Reports as words: `WORKER:SERIAL:STAGE`, the stage one of `started`, `success`, `skipped`, `failed` and `lost`.
use instance_machine::{Outcome, Stage};
use ruled_dispatch::{Report, WorkerReport};
use std::io;

/// The report that a word is, if it is one, and the number of who is to tell it.
pub(crate) fn read_report(word: &str) -> Option<(usize, Report)> {
    let (worker, rest) = word.split_once(':')?;
    let (serial, stage) = rest.split_once(':')?;
    let report = Report {
        serial: serial.parse().ok()?,
        stage: stage_named(stage)?,
    };
    Some((worker.parse().ok()?, report))
}

/// Writes who told it, its serial and its stage.
pub(crate) fn write_heard<R: Print>(rt: &R, heard: &WorkerReport) -> io::Result<()> {
    let worker = heard.worker;
    print!(rt; "{worker}:")?;
    write_report(rt, &heard.report)
}

/// Writes its serial and its stage.
pub(crate) fn write_report<R: Print>(rt: &R, report: &Report) -> io::Result<()> {
    let serial = report.serial;
    let stage = stage_name(report.stage);
    print!(rt; "{serial}:{stage}")
}

fn stage_named(name: &str) -> Option<Stage> {
    match name {
        "started" => Some(Stage::Started),
        "success" => Some(Stage::Ended(Outcome::Success)),
        "skipped" => Some(Stage::Ended(Outcome::Skipped)),
        "failed" => Some(Stage::Ended(Outcome::Failed)),
        "lost" => Some(Stage::Ended(Outcome::Lost)),
        _ => None,
    }
}

fn stage_name(stage: Stage) -> &'static str {
    match stage {
        Stage::Started => "started",
        Stage::Ended(Outcome::Success) => "success",
        Stage::Ended(Outcome::Skipped) => "skipped",
        Stage::Ended(Outcome::Failed) => "failed",
        Stage::Ended(Outcome::Lost) => "lost",
    }
}
