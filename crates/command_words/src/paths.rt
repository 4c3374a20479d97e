//! The paths of files.
ghost use Rattle.std.specs.Prelude.{◌≡◌, IfOk};

use std::alloc::{AllocError, Global};
use std::marker::Model;

/// The path of a file or a folder, as a word gives it; it may be empty. Contracts see its bytes.
#[derive(Debug, Drop)]
pub struct FilePath {
    text: String,
}

impl Model for FilePath {
    ghost use Rattle.std.specs.Prelude.{ℕ, List, string_bytes};

    ghost Value = { List ℕ };

    ghost view = { λ p. string_bytes p.text };
}

impl FilePath {
    /// The path that this text is. An `Err` says that memory ran out.
    pub fn new(alloc: Global, text: &str) -> Result<FilePath, AllocError>
        ensures { IfOk result (λ p. p ≡ text.now) }
    {
        let text = String::from_str(alloc, text)?;
        Ok(FilePath { text })
    }

    /// Its text.
    pub fn as_str(&self) -> &str
        ensures { result.now ≡ self.now }
    {
        self.text.as_str()
    }
}
