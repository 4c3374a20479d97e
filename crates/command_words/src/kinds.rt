//! The commands by their names.
ghost use Rattle.std.specs.Prelude.{◌≡◌};
ghost use Rattle.command_words.specs.Commands as spec;

/// A command's name.
#[derive(Clone, Copy, Debug, PartialEq, Eq)]
pub(crate) enum CommandKind {
    Run,
    List,
    Explain,
    Trigger,
    Pause,
    Unpause,
    Backfill,
    Clear,
    Mark,
    Resize,
    Load,
    Replace,
    Tick,
    Drain,
}

impl CommandKind {
    /// The command that a word names.
    pub(crate) fn named(name: &str) -> Option<CommandKind>
        ensures { result ≡ spec.kind_named name.now }
    {
        match name {
            "run" => Some(CommandKind::Run),
            "list" => Some(CommandKind::List),
            "explain" => Some(CommandKind::Explain),
            "trigger" => Some(CommandKind::Trigger),
            "pause" => Some(CommandKind::Pause),
            "unpause" => Some(CommandKind::Unpause),
            _ => later_kind(name),
        }
    }
}

// The command that a word names, if it is none of the first six.
fn later_kind(name: &str) -> Option<CommandKind>
    ensures { result ≡ spec.later_kind name.now }
{
    match name {
        "backfill" => Some(CommandKind::Backfill),
        "clear" => Some(CommandKind::Clear),
        "mark" => Some(CommandKind::Mark),
        "resize" => Some(CommandKind::Resize),
        "load" => Some(CommandKind::Load),
        "replace" => Some(CommandKind::Replace),
        "tick" => Some(CommandKind::Tick),
        "drain" => Some(CommandKind::Drain),
        _ => None,
    }
}
