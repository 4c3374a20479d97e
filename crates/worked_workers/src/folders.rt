//! Words that change what stands at the base folder, and that look at it. A name is that of something under it.
use std::alloc::{AllocError, Global};
use std::rt::Files;
use std::{env, fs, io, process};

/// Does a word, if it is one of these, and writes what comes of it.
pub(crate) fn write_turn<R: Files + Print + Alloc>(
    rt: &R,
    alloc: Global,
    base: &str,
    word: &str,
) -> io::Result<bool> {
    let (verb, name) = word.split_once(':').unwrap_or((word, ""));
    let path = path_of(alloc, base, name)?;
    write_turn_at(rt, alloc, base, verb, path.as_str())
}

fn write_turn_at<R: Files + Print + Alloc>(
    rt: &R,
    alloc: Global,
    base: &str,
    verb: &str,
    path: &str,
) -> io::Result<bool> {
    match verb {
        "folder" => write_done(rt, " made", fs::create_dir(rt, path)),
        "file" => write_done(rt, " made", make_file(rt, path)),
        "link" => write_done(rt, " linked", rt.symlink(base, path)),
        "locked" => write_done(rt, " locked", lock(rt, path)),
        "gone" => write_done(rt, " removed", rt.remove_dir_all(alloc, path)),
        "there" => write_found(rt, path),
        "text" => write_text(rt, path),
        _ => return Ok(false),
    }?;
    Ok(true)
}

/// The path of the base folder: one of this process, under the system's own folder for such files.
pub(crate) fn base_folder(rt: &HostRuntime) -> io::Result<String> {
    let number = process::id(rt.process());
    let above = env::temp_dir(rt)?;
    let above = above.as_str();
    Ok(format!(in rt.alloc(); "{above}/worked-workers-{number}")?)
}

/// The path of what has this name under the base folder, that of the folder itself where there is no name.
pub(crate) fn path_of(alloc: Global, base: &str, name: &str) -> Result<String, AllocError> {
    if name.is_empty() {
        String::from_str(alloc, base)
    } else {
        format!(in alloc; "{base}/{name}")
    }
}

fn make_file<R: Files>(rt: &R, path: &str) -> io::Result<()> {
    let _file = fs::create(rt, path)?;
    Ok(())
}

// Takes the right to write in a folder from all but root.
fn lock<R: Files>(rt: &R, path: &str) -> io::Result<()> {
    let found = fs::metadata(rt, path)?;
    let mut permissions = found.permissions();
    permissions.set_readonly(true);
    fs::set_permissions(rt, path, permissions)
}

fn write_done<R: Print>(rt: &R, done: &str, made: io::Result<()>) -> io::Result<()> {
    match made {
        Ok(()) => rt.print(done),
        Err(_) => rt.print(" refused"),
    }
}

// Writes whether there is a folder, or a file.
fn write_found<R: Files + Print>(rt: &R, path: &str) -> io::Result<()> {
    match fs::symlink_metadata(rt, path) {
        Ok(found) if found.is_dir() => rt.print(" a-folder"),
        Ok(_) => rt.print(" a-file"),
        Err(_) => rt.print(" nothing"),
    }
}

// Writes the text of a file, or how many bytes it has where they are many.
fn write_text<R: Files + Print + Alloc>(rt: &R, path: &str) -> io::Result<()> {
    match fs::read_to_string(rt, path) {
        Ok(text) if text.len() < 100 => print!(rt; " {text:?}"),
        Ok(text) => print!(rt; " {}-bytes", text.len()),
        Err(_) => rt.print(" no-text"),
    }
}
