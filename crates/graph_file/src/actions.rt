//! An operator with its arguments, and how long a try of it may take.
ghost use Rattle.std.specs.Prelude.{◌≡◌, true, is_some, IfOk};
ghost use Rattle.graph_file.specs.Operators.{takes, takes_timeout};

use crate::{Bounded, Operator, Sequence};
use std::alloc::{AllocError, Global};
use std::marker::Model;

/// An argument of an operator: a text. Contracts see its bytes.
#[derive(Debug, Drop)]
pub struct Argument {
    text: String,
}

impl Model for Argument {
    ghost use Rattle.std.specs.Prelude.{ℕ, List, string_bytes};

    ghost Value = { List ℕ };

    ghost view = { λ a. string_bytes a.text };
}

impl Argument {
    /// A copy of this text.
    pub fn new(alloc: Global, text: &str) -> Result<Argument, AllocError>
        ensures { IfOk result (λ argument. argument ≡ text.now) }
    {
        let text = String::from_str(alloc, text)?;
        Ok(Argument { text })
    }

    /// An equal argument.
    pub fn copy(&self, alloc: Global) -> Result<Argument, AllocError>
        ensures { IfOk result (λ argument. argument ≡ self.now) }
    {
        Argument::new(alloc, self.as_str())
    }

    /// The text.
    pub fn as_str(&self) -> &str
        ensures { result.now ≡ self.now }
    {
        self.text.as_str()
    }
}

/// An operator with arguments that it takes, and how many seconds a try of it may take, if that is said. Contracts see the three.
///
/// `noop` takes none. `command` takes 1 to 64 of at most 65,536 bytes in all, none with a NUL byte, and the first, the
/// program, is not empty. `exit` takes 1 to 16, each a status from 0 to 255 in one to three digits. Of `command` alone may be said how long
/// its tries may take.
#[derive(Debug, Drop)]
pub struct Action {
    operator: Operator,
    argv: Sequence<Argument>,
    timeout: Option<Bounded<1, 31_536_000>>,
}

impl Model for Action {
    ghost use Rattle.std.specs.Prelude.{◌≡◌, true, is_some};
    ghost use Rattle.graph_file.specs.Operators.{Call, takes, takes_timeout};

    ghost Value = { Call };

    ghost view = { λ a. record { operator = a.operator; argv = a.argv; timeout = a.timeout } };

    ghost invariant = { λ a. (takes a.operator a.argv ≡ true)
        × (takes_timeout a.operator (is_some a.timeout) ≡ true) };
}

impl Action {
    /// The operator with arguments, and perhaps a number of seconds, that the caller knows it to take.
    pub fn new(
        operator: Operator,
        argv: Sequence<Argument>,
        timeout: Option<Bounded<1, 31_536_000>>,
    ) -> Action
        requires taken { takes operator argv ≡ true }
        requires timed { takes_timeout operator (is_some timeout) ≡ true }
        ensures { result ≡ record { operator = operator; argv = argv; timeout = timeout } }
    {
        Action {
            operator,
            argv,
            timeout,
        }
    }

    /// An equal operator with equal arguments.
    pub fn copy(&self, alloc: Global) -> Result<Action, AllocError>
        ensures { IfOk result (λ action. action ≡ self.now) }
    {
        let mut argv = Vec::new(alloc);
        for argument in self.argv() {
            argv.push(argument.copy(alloc)?)?;
        }
        Ok(Action::new(self.operator, Sequence::new(argv), self.timeout))
    }

    /// The operator.
    pub fn operator(&self) -> Operator
        ensures { result ≡ self.now.operator }
    {
        self.operator
    }

    /// How many seconds a try may take, if that is said.
    pub fn timeout(&self) -> Option<Bounded<1, 31_536_000>>
        ensures { result ≡ self.now.timeout }
    {
        self.timeout
    }

    /// Its arguments.
    pub fn argv(&self) -> &[Argument]
        ensures argv { result.now ≡ self.now.argv }
        ensures taken { takes self.now.operator result.now ≡ true }
    {
        self.argv.as_slice()
    }
}
