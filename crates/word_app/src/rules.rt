//! The words and options of commands.
ghost use Rattle.std.specs.Prelude.{◌≡◌, false};
ghost use Rattle.clap.specs.Words.{rule_of};
ghost use Rattle.word_app.specs.Rules as spec;

use clap::builder::ValueParser;
use clap::{Arg, ArgAction, value_parser};
use std::alloc::Global;

/// A word that must be there. Help shows it under the name `shown`.
pub(crate) fn word<'a>(alloc: Global, id: &'a str, shown: &'a str, help: &'a str) -> Arg<'a>
    ensures rule { rule_of result ≡ spec.word id.entry.now }
    ensures here { result.global ≡ false }
{
    Arg::new(alloc, id)
        .required(true)
        .value_name(shown)
        .help(help)
}

/// `--id`.
pub(crate) fn flag<'a>(alloc: Global, id: &'a str, help: &'a str) -> Arg<'a>
    ensures rule { rule_of result ≡ spec.flag id.entry.now }
    ensures here { result.global ≡ false }
{
    Arg::new(alloc, id)
        .long(id)
        .action(ArgAction::SetTrue)
        .help(help)
}

/// `--id VALUE`.
pub(crate) fn option<'a>(alloc: Global, id: &'a str, shown: &'a str, help: &'a str) -> Arg<'a>
    ensures rule { rule_of result ≡ spec.option id.entry.now }
    ensures here { result.global ≡ false }
{
    Arg::new(alloc, id).long(id).value_name(shown).help(help)
}

/// `DAG`.
pub(crate) fn dag_word<'a>(alloc: Global) -> Arg<'a>
    ensures rule { rule_of result ≡ spec.dag_word }
    ensures here { result.global ≡ false }
{
    word(
        alloc,
        "dag",
        "DAG",
        "The graph's id, as `dag_id` in its file",
    )
}

/// `POOL`.
pub(crate) fn pool_word<'a>(alloc: Global) -> Arg<'a>
    ensures rule { rule_of result ≡ spec.pool_word }
    ensures here { result.global ≡ false }
{
    word(
        alloc,
        "pool",
        "POOL",
        "The pool's name; an unknown pool is made",
    )
}

/// `SIZE`, 0 to 1,000,000.
pub(crate) fn size_word<'a>(alloc: Global) -> Arg<'a>
    ensures rule { rule_of result ≡ spec.size_word }
    ensures here { result.global ≡ false }
{
    let size = word(
        alloc,
        "size",
        "SIZE",
        "How many slots it gets, 0 to 1000000",
    );
    size.value_parser(value_parser!(u32).range(0..=1_000_000))
}

/// `--workers N`, 1 to 16.
pub(crate) fn workers_option<'a>(alloc: Global) -> Arg<'a>
    ensures rule { rule_of result ≡ spec.workers }
    ensures here { result.global ≡ false }
{
    let workers = option(
        alloc,
        "workers",
        "N",
        "How many workers perform tries, 1 to 16",
    );
    workers
        .value_parser(value_parser!(u32).range(1..=16))
        .default_value("2")
}

/// `--lanes N`, 0 to 64.
pub(crate) fn lanes_option<'a>(alloc: Global) -> Arg<'a>
    ensures rule { rule_of result ≡ spec.lanes }
    ensures here { result.global ≡ false }
{
    let lanes = option(
        alloc,
        "lanes",
        "N",
        "The most tries in flight at once, 0 to 64",
    );
    lanes
        .value_parser(value_parser!(u32).range(0..=64))
        .default_value("4")
}

/// `--scratch DIR`.
pub(crate) fn scratch_option<'a>(alloc: Global) -> Arg<'a>
    ensures rule { rule_of result ≡ spec.scratch }
    ensures here { result.global ≡ false }
{
    let scratch = option(
        alloc,
        "scratch",
        "DIR",
        "Where each try of a program gets a folder",
    );
    scratch.default_value("dagsched-scratch")
}

/// `--logs DIR`, where DIR is not empty.
pub(crate) fn logs_option<'a>(alloc: Global) -> Arg<'a>
    ensures rule { rule_of result ≡ spec.logs }
    ensures here { result.global ≡ false }
{
    let logs = option(
        alloc,
        "logs",
        "DIR",
        "Where each try of a program gets a log; without it what it writes is lost",
    );
    logs.value_parser(ValueParser::NonEmptyString)
}
