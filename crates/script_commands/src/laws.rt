//! Laws of the definitions, each the contract of a function that does nothing.
ghost use Rattle.std.specs.Prelude.{◌≡◌};
ghost use Rattle.script_commands.specs.Lines.{line_limit};

use crate::lines::LINE_LIMIT;

/// The limit of the code is that of the definitions.
pub fn the_limit_is_that_of_the_definitions()
    ensures { LINE_LIMIT ≡ line_limit }
{}
