//! What a task does: its operator, and the arguments that this one takes.
ghost use Rattle.std.specs.Prelude.{◌≡◌};
ghost use Rattle.std.specs.Char.{is_ascii_digit};
ghost use Rattle.std.specs.List.{list_all};
ghost use Rattle.graph_file.specs.Operators.{operator_of, status_of};

/// What a task does, by the word that a graph file has for it.
#[derive(Clone, Copy, Debug, PartialEq, Eq)]
pub enum Operator {
    /// `noop`: nothing, and it succeeds. It takes no argument.
    Noop,
    /// `command`: it starts a program with arguments.
    Command,
    /// `exit`: it ends its tries with the statuses that are its arguments.
    Exit,
}

impl Operator {
    /// The operator of a word, which is compared as it stands.
    pub fn read(text: &str) -> Option<Operator>
        ensures { result ≡ operator_of text.now }
    {
        match text {
            "noop" => Some(Operator::Noop),
            "command" => Some(Operator::Command),
            "exit" => Some(Operator::Exit),
            _ => None,
        }
    }
}

/// The status that a text writes in one to three digits, from 0 to 255.
pub fn read_status(text: &str) -> Option<u8>
    ensures { result ≡ status_of text.now }
{
    if text.len() > 3 || !are_digits(text.as_bytes()) {
        return None;
    }
    text.parse().ok()
}

fn are_digits(bytes: &[u8]) -> bool
    ensures { result ≡ list_all is_ascii_digit bytes.now }
{
    bytes.iter().all(|byte| byte.is_ascii_digit())
}
