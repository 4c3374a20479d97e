//! What a person is told on standard error.
//!
//! No contract holds this file: `tools/words-in-a-shell` shows what it writes.
use answer_lines::Shown;
use command_words::Command;
use fault_sentences::{Asked, note_of, one_line};
use sqlite::{Error, ErrorCode};
use std::alloc::AllocError;
use std::fs;
use std::io::{self, ErrorKind};

/// Tells a person this. Where memory runs out for it, it is dropped.
pub fn tell(rt: &HostRuntime, text: &str) {
    if let Ok(line) = one_line(rt.alloc(), text) {
        let _ = eprint!(rt; "{line}");
    }
}

/// Tells what is to be told of a fault of the program's own words, or of a record that is not opened.
pub fn tell_fault(rt: &HostRuntime, words: &[String], shown: Shown<'_>) {
    if let Ok(Some(text)) = fault_text(rt, words, shown) {
        tell(rt, text.as_str());
    }
}

fn fault_text(
    rt: &HostRuntime,
    words: &[String],
    shown: Shown<'_>,
) -> Result<Option<String>, AllocError> {
    let Some(note) = note_of(rt.alloc(), Asked::Own(words), None, shown)? else {
        return Ok(None);
    };
    match note.sentence(rt.alloc(), None)? {
        Some(text) => Ok(Some(format!(in rt.alloc(); "dagsched: {text}")?)),
        None => Ok(None),
    }
}

/// Tells why SQLite does not open the file at this path.
pub fn tell_unopened(rt: &HostRuntime, path: &str, error: Error) {
    let text = match error {
        Error::SqliteFailure(ErrorCode::DatabaseBusy) => {
            format!(in rt.alloc();
                "dagsched: {path}: another program has it open: wait until it ends, or give it this command as a line of its script, a service by ask"
            )
        }
        Error::SqliteFailure(ErrorCode::CannotOpen) => unopened_text(rt, path),
        error => format!(in rt.alloc(); "dagsched: {path}: {error}"),
    };
    if let Ok(text) = text {
        tell(rt, text.as_str());
    }
}

// What the system says of a path that cannot be opened.
fn unopened_text(rt: &HostRuntime, path: &str) -> Result<String, AllocError> {
    let alloc = rt.alloc();
    if path.is_empty() {
        return String::from_str(alloc, "dagsched: the path of the record is empty");
    }
    match fs::metadata(rt, path) {
        Ok(found) if found.is_dir() => format!(in alloc; "dagsched: {path}: it is a folder"),
        Ok(_) => match fs::open(rt, path) {
            Ok(_) => refused_text(rt, path),
            Err(error) => format!(in alloc; "dagsched: {path}: {error}"),
        },
        Err(error) if error.kind() != ErrorKind::NotFound => {
            format!(in alloc; "dagsched: {path}: {error}")
        }
        Err(_) => unmade_text(rt, path),
    }
}

// Why SQLite does not open a file that can be read.
fn refused_text(rt: &HostRuntime, path: &str) -> Result<String, AllocError> {
    let alloc = rt.alloc();
    let journal = format!(in alloc; "{path}-journal")?;
    if fs::metadata(rt, journal.as_str()).is_ok_and(|found| found.len() > 0) {
        return format!(in alloc;
            "dagsched: {path}: another program left {journal}: open the file with sqlite3 once"
        );
    }
    format!(in alloc;
        "dagsched: {path}: it, or {path}-wal, may not be written or has a second name (a hard link), or {path}-wal is a link"
    )
}

// Why there is no file at a path, and none can be made.
fn unmade_text(rt: &HostRuntime, path: &str) -> Result<String, AllocError> {
    let alloc = rt.alloc();
    let folder = match path.rsplit_once('/') {
        Some(("", _)) => "/",
        Some((folder, _)) => folder,
        None => ".",
    };
    match fs::metadata(rt, folder) {
        Ok(_) => format!(in alloc; "dagsched: {path}: it is not there, and cannot be made"),
        Err(error) => format!(in alloc; "dagsched: {path}: the folder {folder}: {error}"),
    }
}

/// Tells of a file that was made for a record, so that a path that is misspelled is seen at once.
pub fn tell_made(rt: &HostRuntime, path: &str) {
    if let Ok(text) = format!(in rt.alloc();
        "dagsched: {path} was not there, so a new record was made"
    ) {
        tell(rt, text.as_str());
    }
}

/// Tells of a record of version 1 that was made one of version 2, so that nobody goes on with an older program.
pub fn tell_migrated(rt: &HostRuntime, path: &str) {
    if let Ok(text) = format!(in rt.alloc();
        "dagsched: {path} is a record of version 2 now: older programs do not open it"
    ) {
        tell(rt, text.as_str());
    }
}

/// Tells that the answer to a command could not be written.
pub fn tell_unanswered(rt: &HostRuntime, error: &io::Error) {
    if let Ok(text) = format!(in rt.alloc();
        "dagsched: the answer could not be written, so look whether the command was done: {error}"
    ) {
        tell(rt, text.as_str());
    }
}

/// Tells that a command was done on a record that is gone.
pub fn tell_unkept(rt: &HostRuntime, command: &Command) {
    if !matches!(command, Command::Run(_)) {
        tell(
            rt,
            "dagsched: there is no --record PATH before the command, so it was done on a new record in memory, and nothing is kept",
        );
    }
}
