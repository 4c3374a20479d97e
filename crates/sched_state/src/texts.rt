//! The text of a graph file.
ghost use Rattle.std.specs.Prelude.{◌≡◌, string_bytes, IfOk};
ghost use Rattle.sched_state.specs.Lists.{same};

use std::alloc::{AllocError, Global};
use std::marker::Model;

/// A text, as it was given. Contracts see its bytes.
#[derive(Debug, Drop)]
pub struct GraphText {
    text: String,
}

impl Model for GraphText {
    ghost use Rattle.std.specs.Prelude.{ℕ, List, string_bytes};

    ghost Value = { List ℕ };

    ghost view = { λ t. string_bytes t.text };
}

impl GraphText {
    /// A copy of this text.
    pub fn new(alloc: Global, text: &str) -> Result<GraphText, AllocError>
        ensures { IfOk result (λ t. t ≡ text.now) }
    {
        let text = String::from_str(alloc, text)?;
        Ok(GraphText { text })
    }

    /// This text, which is taken over without memory.
    pub fn from_string(text: String) -> GraphText
        ensures { result ≡ string_bytes text }
    {
        GraphText { text }
    }

    /// A second text with the same bytes.
    pub fn copy(&self, alloc: Global) -> Result<GraphText, AllocError>
        ensures { IfOk result (λ t. t ≡ self.now) }
    {
        GraphText::new(alloc, self.as_str())
    }

    /// Whether the other text has the same bytes.
    pub fn is_same(&self, other: &GraphText) -> bool
        ensures { result ≡ same self.now other.now }
    {
        self.as_str() == other.as_str()
    }

    /// The text.
    pub fn as_str(&self) -> &str
        ensures { result.now ≡ self.now }
    {
        self.text.as_str()
    }
}
