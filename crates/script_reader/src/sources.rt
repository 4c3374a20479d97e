//! Where the texts of `load PATH` and `replace PATH` come from.
ghost use Rattle.std.specs.Prelude.{◌≢◌, List, ◌∷◌, [], Ok, Err, IfErr, MatchResult, string_bytes};
ghost use Rattle.script_reader.specs.Done.{AnswersMore, FileAnswer};

use script_commands::SourceFault;

/// Files by their paths. What they answered is a relation between two of their states, so who implements it need not keep it.
pub trait Sources: Drop {
    /// From one state to another they gave these answers, each beside its path, in order: texts, or why a file is not read.
    ghost gives: { Self → List FileAnswer → Self → Type 0 };

    /// Where nothing is done, they gave none.
    ghost begins: { (s : Self) → gives s [] s };

    /// The text of the file at this path, of at most 1,048,576 bytes. It is never `NoEnd`, which a script alone says.
    fn text(&mut self, path: &str) -> Result<String, SourceFault>
        ensures given { MatchResult result
            (λ text. AnswersMore gives ((path.now, Ok (string_bytes text)) ∷ []) self.old self.new)
            (λ fault. AnswersMore gives ((path.now, Err fault) ∷ []) self.old self.new) }
        ensures file { IfErr result (λ fault. fault ≢ SourceFault.NoEnd) };
}
