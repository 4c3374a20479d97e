//! How the text of a graph file is taken in.
ghost use Rattle.std.specs.Prelude.{◌≡◌};
ghost use Rattle.command_words.specs.Commands.{taken};

use sched_events::Event;
use sched_state::GraphText;

/// How the text of a graph file is taken in.
#[derive(Clone, Copy, Debug, PartialEq, Eq)]
pub enum Taking {
    /// `load`: as a new graph, or in the place of one that has no runs.
    Load,
    /// `replace`: in the place of the graph with its id, whose runs go on by it.
    Replace,
}

impl Taking {
    /// The event that takes in this text.
    pub fn event(self, text: GraphText) -> Event
        ensures { result ≡ taken self text }
    {
        match self {
            Taking::Load => Event::Load(text),
            Taking::Replace => Event::Replace(text),
        }
    }
}
