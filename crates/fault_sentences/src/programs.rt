//! Sentences on programs that the system does not start.
//!
//! No contract holds this file: the sections `told` of `worked_scripts` show what it writes.
use crate::doubts::has_doubt;
use crate::parts::Part::Text;
use crate::parts::say_more;
use graph_file::{Operator, TaskSpec};
use std::alloc::{Alloc, AllocError, Global};
use std::collections::HashSet;
use std::io::{self, ErrorKind, Read};
use std::os::unix::fs::PermissionsExt;
use std::rt::Files;
use std::{fs, str};

// The system looks at so many bytes of a file for the line that names its interpreter.
const MOST_BYTES: usize = 256;

// A folder that lacks so many of the programs of a load is read, so that it is not asked for each of the others.
const MOST_MISSES: u32 = 8;

// The names of a folder that has more are not read on.
const MOST_NAMES: usize = 1_024;

// What is said of a task of a graph, and of a try.
const OF_TASK: &str = "task \"{}\": its program {} {}{}";

const OF_TIMEOUT: &str = "task \"{}\": {}, by which execution_timeout ends its program, {}{}";

const OF_TRY: &str = "{}: its program {} {}{}";

// The bits of a mode of which one lets somebody run a file.
const RUN_BITS: u32 = 0o111;

// Why the system does not start a program.
#[derive(Clone, Copy)]
enum Lack {
    // It has a name, and no folder of PATH has a program of this name.
    Nowhere,
    // There is no file.
    File,
    // It is a folder.
    Folder,
    // Nobody may run it.
    Right,
    // Its first line ends with a carriage return.
    Return,
    // There is no file that its first line names.
    Interpreter,
    // It is a text, and its first line names no file.
    Line,
}

impl Lack {
    // What is said of it behind the program's name.
    fn text(self) -> &'static str {
        match self {
            Lack::Nowhere => "is no program in a folder of PATH, which is ",
            Lack::File => "is not there",
            Lack::Folder => "is a folder",
            Lack::Right => "may not be run: chmod +x gives the right",
            Lack::Return => {
                "has a carriage return at the end of its first line: save it with plain newlines"
            }
            Lack::Interpreter => "names a program in its first line that is not there",
            Lack::Line =>
                "is a text whose first line does not name what runs it, as #!/bin/sh does",
        }
    }
}

/// Where programs are looked for: the system, and the folders of PATH.
#[derive(Clone, Copy)]
pub(crate) struct Search<'a, R: Files> {
    pub rt: &'a R,
    pub path: &'a str,
}

impl<R: Files + Alloc + Clone + Drop> Search<'_, R> {
    /// Adds the first of these tasks whose program the system does not start, or what ends that in time, or nothing. One whose arguments were told of is
    /// passed over.
    pub fn push_task(&self, sentence: &mut String, tasks: &[TaskSpec]) -> Result<(), AllocError> {
        let alloc = *sentence.allocator();
        let mut seen = HashSet::new(alloc);
        let mut folders = folders_of(alloc, self.path)?;
        for task in tasks {
            let (program, timer) = (program_of(task), timer_of(task));
            if seen.insert(program)?
                && self.push_lack(sentence, &mut folders, OF_TASK, task, program)?
            {
                return Ok(());
            }
            if seen.insert(timer)?
                && self.push_lack(sentence, &mut folders, OF_TIMEOUT, task, timer)?
            {
                return Ok(());
            }
        }
        Ok(())
    }

    // Adds why the system does not start this program of a task: whether something is added.
    fn push_lack(
        &self,
        sentence: &mut String,
        folders: &mut Vec<Folder<'_>>,
        text: &str,
        task: &TaskSpec,
        program: &str,
    ) -> Result<bool, AllocError> {
        match self.lack_of(*sentence.allocator(), folders, program)? {
            Some(lack) if !has_doubt(task) => {
                self.push(sentence, text, task.task_id.as_str(), program, lack)?;
                Ok(true)
            }
            _ => Ok(false),
        }
    }

    /// Adds why the system does not start the program of this try, or nothing.
    pub fn push_try(
        &self,
        sentence: &mut String,
        name: &str,
        program: &str,
    ) -> Result<(), AllocError> {
        let alloc = *sentence.allocator();
        let mut folders = folders_of(alloc, self.path)?;
        match self.lack_of(alloc, &mut folders, program)? {
            Some(lack) => self.push(sentence, OF_TRY, name, program, lack),
            None => Ok(()),
        }
    }

    fn push(
        &self,
        sentence: &mut String,
        text: &str,
        owner: &str,
        program: &str,
        lack: Lack,
    ) -> Result<(), AllocError> {
        let rest = match lack {
            Lack::Nowhere => self.path,
            _ => "",
        };
        let (program, why) = (Text(program), Text(lack.text()));
        say_more(sentence, text, &[Text(owner), program, why, Text(rest)])
    }

    // Why the system does not start a program, as far as that is seen.
    fn lack_of(
        &self,
        alloc: Global,
        folders: &mut Vec<Folder<'_>>,
        program: &str,
    ) -> Result<Option<Lack>, AllocError> {
        if program.is_empty() {
            return Ok(None);
        }
        if program.contains('/') {
            return Ok(lack_at(self.rt, program));
        }
        match self.file_of(alloc, folders.as_mut_slice(), program)? {
            Some(file) => Ok(lack_in(self.rt, file.as_str())),
            None => Ok(Some(Lack::Nowhere)),
        }
    }

    // The first file of this name that may be run, in the folders of PATH. Where none has it by its names each is asked for it: some systems give a file
    // by another name too.
    fn file_of(
        &self,
        alloc: Global,
        folders: &mut [Folder<'_>],
        name: &str,
    ) -> Result<Option<String>, AllocError> {
        match first_file(self.rt, alloc, folders, name)? {
            Some(file) => Ok(Some(file)),
            None => {
                let mut folders = folders_of(alloc, self.path)?;
                first_file(self.rt, alloc, folders.as_mut_slice(), name)
            }
        }
    }
}

// A folder of PATH, and what is known of it.
#[derive(Drop)]
struct Folder<'a> {
    path: &'a str,
    // How many programs it has lacked.
    misses: u32,
    // Its names, once it was read.
    names: Option<HashSet<String>>,
}

impl Folder<'_> {
    // Whether it may have a file of this name.
    fn may_have(&self, name: &str) -> bool {
        match &self.names {
            Some(names) => names.contains(name),
            None => true,
        }
    }

    // Counts a program that it lacks. After some it is read, if that can be.
    fn miss<R: Files + Alloc + Clone + Drop>(&mut self, rt: &R, alloc: Global) {
        self.misses = self.misses.saturating_add(1);
        if self.misses == MOST_MISSES {
            self.names = names_in(rt, alloc, self.path);
        }
    }
}

// The folders of a path, of which nothing is known.
fn folders_of(alloc: Global, path: &str) -> Result<Vec<Folder<'_>>, AllocError> {
    let mut folders = Vec::new(alloc);
    for path in path.split(':') {
        folders.push(Folder {
            path,
            misses: 0,
            names: None,
        })?;
    }
    Ok(folders)
}

// The names in a folder, where all can be read and are not too many. One that is not there has none; the empty one is the working folder.
fn names_in<R: Files + Alloc + Clone + Drop>(
    rt: &R,
    alloc: Global,
    folder: &str,
) -> Option<HashSet<String>> {
    let mut names = HashSet::new(alloc);
    let entries = match fs::read_dir(rt, if folder.is_empty() { "." } else { folder }) {
        Ok(entries) => entries,
        Err(error) if is_gone(error.kind()) => return Some(names),
        Err(_) => return None,
    };
    for entry in entries {
        let entry = entry.ok()?;
        let name = String::from_str(alloc, entry.file_name()).ok()?;
        names.insert(name).ok()?;
        if names.len() > MOST_NAMES {
            return None;
        }
    }
    Some(names)
}

/// The program of a task, or nothing.
pub(crate) fn program_of(task: &TaskSpec) -> &str {
    match (task.action.operator(), task.action.argv().first()) {
        (Operator::Command, Some(program)) => program.as_str(),
        _ => "",
    }
}

// The program that ends the program of a task in time, or nothing.
fn timer_of(task: &TaskSpec) -> &str {
    match task.action.timeout() {
        Some(_) => "timeout",
        None => "",
    }
}

// The first file of this name that may be run, in folders that may have it.
fn first_file<R: Files + Alloc + Clone + Drop>(
    rt: &R,
    alloc: Global,
    folders: &mut [Folder<'_>],
    name: &str,
) -> Result<Option<String>, AllocError> {
    for folder in folders {
        if folder.may_have(name) {
            let file = file_in(alloc, folder.path, name)?;
            if may_run(rt, file.as_str()) {
                return Ok(Some(file));
            }
            folder.miss(rt, alloc);
        }
    }
    Ok(None)
}

// The file of this name in a folder. The empty folder is the working folder.
fn file_in(alloc: Global, folder: &str, name: &str) -> Result<String, AllocError> {
    let mut file = String::from_str(alloc, folder)?;
    if !folder.is_empty() {
        file.push('/')?;
    }
    file.push_str(name)?;
    Ok(file)
}

fn may_run<R: Files>(rt: &R, file: &str) -> bool {
    match fs::metadata(rt, file) {
        Ok(found) => found.is_file() && found.permissions().mode() & RUN_BITS != 0,
        Err(_) => false,
    }
}

fn lack_at<R: Files>(rt: &R, file: &str) -> Option<Lack> {
    match fs::metadata(rt, file) {
        Ok(found) if found.is_dir() => Some(Lack::Folder),
        Ok(found) if found.permissions().mode() & RUN_BITS == 0 => Some(Lack::Right),
        Ok(found) if found.is_file() => lack_in(rt, file),
        Err(error) if is_gone(error.kind()) => Some(Lack::File),
        _ => None,
    }
}

fn is_gone(kind: ErrorKind) -> bool {
    matches!(kind, ErrorKind::NotFound | ErrorKind::NotADirectory)
}

// What the first line of a file lacks. Nothing is known of one that cannot be read: it may be run all the same.
fn lack_in<R: Files>(rt: &R, file: &str) -> Option<Lack> {
    let mut bytes = [0; MOST_BYTES];
    let count = read_head(rt, file, &mut bytes).ok()?;
    lack_of_head(rt, bytes.get(..count)?)
}

fn read_head<R: Files>(rt: &R, file: &str, bytes: &mut [u8]) -> io::Result<usize> {
    let mut file = fs::open(rt, file)?;
    file.read(bytes)
}

// The same of the first bytes of a file.
fn lack_of_head<R: Files>(rt: &R, head: &[u8]) -> Option<Lack> {
    let line = head.split(|byte| *byte == b'\n').next().unwrap_or(head);
    match line.strip_prefix(b"#!") {
        Some(_) if line.len() == MOST_BYTES => None,
        Some(rest) if rest.ends_with(b"\r") => Some(Lack::Return),
        Some(rest) => lack_of_name(rt, str::from_utf8(rest).ok()?),
        None if is_text(head) => Some(Lack::Line),
        None => None,
    }
}

// The same of what a first line has behind the `#!`.
fn lack_of_name<R: Files>(rt: &R, rest: &str) -> Option<Lack> {
    let name = rest.split([' ', '\t']).find(|word| !word.is_empty());
    match name {
        Some(name) => match fs::metadata(rt, name) {
            Err(error) if is_gone(error.kind()) => Some(Lack::Interpreter),
            _ => None,
        },
        None => Some(Lack::Line),
    }
}

// Whether these bytes are those of a text.
fn is_text(bytes: &[u8]) -> bool {
    for byte in bytes {
        if !matches!(*byte, b' '..=0x7e | 0x80..=0xff | b'\t' | b'\n' | b'\r') {
            return false;
        }
    }
    true
}
