//! The folders of tries.
ghost use Rattle.std.specs.Prelude.{◌≡◌, IfOk, IfErr, string_bytes};
ghost use Rattle.operators.specs.Commands.{folder_path};

use crate::BeginFault;
use std::alloc::{AllocError, Global};
use std::marker::Model;
use std::rt::Files;
use std::{fs, io};

/// The folder of a try that is taken up. Contracts see its path.
///
/// It is no `Drop`, and `remove` alone takes it apart: code that lets go of one without removing the folder does not compile.
pub(crate) struct TryFolder {
    path: String,
}

impl Model for TryFolder {
    ghost use Rattle.std.specs.Prelude.{ℕ, List, string_bytes};

    ghost Value = { List ℕ };

    ghost view = { λ f. string_bytes f.path };
}

impl TryFolder {
    /// Makes the folder of the try with this serial, or takes one that is there. A file or a link in its place is none.
    pub fn make<R: Files>(
        rt: &R,
        alloc: Global,
        base: &str,
        serial: u64,
    ) -> Result<TryFolder, BeginFault>
        ensures path { IfOk result (λ folder. folder ≡ folder_path base.now serial) }
        ensures fault { IfErr result (λ fault. fault ≡ BeginFault.Busy → ⊥) }
    {
        let Ok(path) = path_of(alloc, base, serial) else {
            return Err(BeginFault::Memory);
        };
        if !is_made(rt, path.as_str()) {
            return Err(BeginFault::Scratch);
        }
        Ok(TryFolder { path })
    }

    /// Its path.
    pub fn path(&self) -> &str
        ensures { result.now ≡ self.now }
    {
        self.path.as_str()
    }

    /// Removes it with all that is in it, as far as the system lets it. Nothing outside it is touched: a link is removed and not followed.
    pub fn remove<R: Files>(self, rt: &R, alloc: Global) {
        let TryFolder { path } = self;
        let _ = rt.remove_dir_all(alloc, path.as_str());
    }
}

// The path of the folder of the try with this serial.
fn path_of(alloc: Global, base: &str, serial: u64) -> Result<String, AllocError>
    ensures { IfOk result (λ path. string_bytes path ≡ folder_path base.now serial) }
{
    let number = serial.to_string(alloc)?;
    let mut path = String::from_str(alloc, base)?;
    path.push_str("/try-")?;
    path.push_str(number.as_str())?;
    Ok(path)
}

// Makes the folder, and whether there is one then.
fn is_made<R: Files>(rt: &R, path: &str) -> bool {
    match fs::create_dir(rt, path) {
        Ok(()) => true,
        Err(e) if e.kind() == io::ErrorKind::AlreadyExists => {
            match fs::symlink_metadata(rt, path) {
                Ok(found) => found.is_dir(),
                Err(_) => false,
            }
        }
        Err(_) => false,
    }
}
