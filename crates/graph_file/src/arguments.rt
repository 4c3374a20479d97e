//! Whether an operator takes the arguments that a table has.
ghost use Rattle.std.specs.Prelude.{◌≡◌, ◌&&◌, map, length, sum_by, nat_le, is_some};
ghost use Rattle.std.specs.List.{list_all};
ghost use Rattle.toml.specs.View.{view};
ghost use Rattle.graph_file.specs.Values as values;
ghost use Rattle.graph_file.specs.Operators as spec;

use crate::tables::text_of;
use crate::{Operator, read_status};
use toml::Value;

// Whether the operator takes these arguments.
pub(crate) fn takes(operator: Operator, argv: &[Value]) -> bool
    ensures { result ≡ spec.takes operator (map values.text_of (map view argv.now)) }
{
    match operator {
        Operator::Noop => argv.is_empty(),
        Operator::Command => is_command(argv),
        Operator::Exit => are_statuses(argv),
    }
}

// Whether it may be said, where `said` says that it is, how long a try of the operator takes at most.
pub(crate) fn takes_timeout(operator: Operator, said: bool) -> bool
    ensures { result ≡ spec.takes_timeout operator said }
{
    match operator {
        Operator::Noop | Operator::Exit => !said,
        Operator::Command => true,
    }
}

fn is_command(argv: &[Value]) -> bool
    ensures { result
        ≡ ((spec.names_program (map values.text_of (map view argv.now))
        && nat_le (length argv.now) 64)
        && (nat_le (sum_by (λ v. length (values.text_of (view v))) argv.now) 65536 && list_all
        (λ v. spec.has_no_nul (values.text_of (view v))) argv.now)) }
{
    names_program(argv) && argv.len() <= 64 && total_fits(argv, 65_536) && have_no_nul(argv)
}

fn names_program(argv: &[Value]) -> bool
    ensures { result ≡ spec.names_program (map values.text_of (map view argv.now)) }
{
    match argv.first() {
        Some(program) => !text_of(program).is_empty(),
        None => false,
    }
}

// Whether the texts have at most so many bytes in all.
fn total_fits(argv: &[Value], most: usize) -> bool
    ensures { result ≡ nat_le (sum_by (λ v. length (values.text_of (view v))) argv.now) most }
{
    let mut left = most;
    for argument in argv {
        let len = text_of(argument).len();
        if len > left {
            return false;
        }
        left -= len;
    }
    true
}

fn have_no_nul(argv: &[Value]) -> bool
    ensures { result ≡ list_all (λ v. spec.has_no_nul (values.text_of (view v))) argv.now }
{
    argv.iter().all(|argument| has_no_nul(text_of(argument)))
}

fn has_no_nul(text: &str) -> bool
    ensures { result ≡ spec.has_no_nul text.now }
{
    text.as_bytes().iter().all(|byte| *byte != 0)
}

fn are_statuses(argv: &[Value]) -> bool
    ensures { result
        ≡ ((nat_le 1 (length argv.now) && nat_le (length argv.now) 16)
        && list_all (λ v. is_some (spec.status_of (values.text_of (view v)))) argv.now) }
{
    1 <= argv.len() && argv.len() <= 16 && each_is_status(argv)
}

fn each_is_status(argv: &[Value]) -> bool
    ensures { result ≡ list_all (λ v. is_some (spec.status_of (values.text_of (view v)))) argv.now }
{
    argv.iter()
        .all(|argument| read_status(text_of(argument)).is_some())
}
