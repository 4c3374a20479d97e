//! What the matches of a command say, value by value.
//!
//! Easy to get wrong: clap lets no words through that lack one of these values, but its contract does not say so of a command under another
//! one. So a value that is not there has a reading too, as the definitions have it.
ghost use Rattle.std.specs.Prelude.{◌≡◌, ◌≢◌, ◌≤◌, Ok, Err, IfOk, IfErr, option_map, option_and_then};
ghost use Rattle.clap.specs.Words.{first_of, one_of, found_of, rows_of};
ghost use Rattle.command_words.specs.Values as spec;

use crate::commands::UsageFault;
use crate::paths::FilePath;
use clap::ArgMatches;
use graph_file::{Name, NameFault};
use moment_core::Moment;
use std::alloc::Global;

// The first value of an argument, where it has one.
pub(crate) fn value_at<'a>(matches: &ArgMatches<'a>, id: &str) -> Option<&'a str>
    ensures { option_map (λ s. s.now) result ≡ first_of id.now (rows_of (found_of matches.now)) }
{
    matches.get_str(id)
}

/// The value of an argument, the empty text where it has none.
pub(crate) fn text_at<'a>(matches: &ArgMatches<'a>, id: &str) -> &'a str
    ensures { result.now ≡ spec.text_at id.now (rows_of (found_of matches.now)) }
{
    match value_at(matches, id) {
        Some(text) => text,
        None => "",
    }
}

/// Whether a flag is given.
pub(crate) fn flag_at(matches: &ArgMatches<'_>, id: &str) -> bool
    ensures { result ≡ spec.flag_at id.now (rows_of (found_of matches.now)) }
{
    text_at(matches, id) == "true"
}

/// Whether an argument is `skipped`, the one state with which a task instance is marked.
pub(crate) fn skipped_at(matches: &ArgMatches<'_>, id: &str) -> Result<(), UsageFault>
    ensures { result ≡ spec.skipped_of (spec.text_at id.now (rows_of (found_of matches.now))) }
{
    if text_at(matches, id) == "skipped" {
        Ok(())
    } else {
        Err(UsageFault::BadState)
    }
}

/// The number of an argument, the least in the range where it has none.
pub(crate) fn number_at(matches: &ArgMatches<'_>, id: &str, low: u32, high: u32) -> u32
    requires { low ≤ high }
    ensures value { result ≡ spec.number_at low high id.now (rows_of (found_of matches.now)) }
    ensures low { low ≤ result }
    ensures high { result ≤ high }
{
    ranged(low, high, number_in(matches, id))
}

fn number_in(matches: &ArgMatches<'_>, id: &str) -> Option<u32>
    ensures { result ≡ option_and_then spec.number_of (one_of id.now (rows_of (found_of matches.now))) }
{
    matches.get_one::<u32>(id)
}

fn ranged(low: u32, high: u32, number: Option<u32>) -> u32
    requires { low ≤ high }
    ensures value { result ≡ spec.ranged low high number }
    ensures low { low ≤ result }
    ensures high { result ≤ high }
{
    match number {
        Some(n) => { if low <= n && n <= high { n } else { low } }
        None => low,
    }
}

/// The name of an argument.
pub(crate) fn name_at(alloc: Global, matches: &ArgMatches<'_>, id: &str) -> Result<Name, UsageFault>
    ensures ok { IfOk result (λ n. spec.name_at id.now (rows_of (found_of matches.now)) ≡ Ok n) }
    ensures refused { IfErr result (λ e. e ≢ UsageFault.Memory → spec.name_at id.now (rows_of (found_of matches.now)) ≡ Err e) }
{
    name_of(alloc, text_at(matches, id))
}

fn name_of(alloc: Global, text: &str) -> Result<Name, UsageFault>
    ensures ok { IfOk result (λ n. spec.name_of text.now ≡ Ok n) }
    ensures refused { IfErr result (λ e. e ≢ UsageFault.Memory → spec.name_of text.now ≡ Err e) }
{
    match Name::read(alloc, text) {
        Ok(name) => Ok(name),
        Err(NameFault::BadName) => Err(UsageFault::BadName),
        Err(NameFault::Memory) => Err(UsageFault::Memory),
    }
}

/// The name that a text is, where there is one.
pub(crate) fn some_name(alloc: Global, text: Option<&str>) -> Result<Option<Name>, UsageFault>
    ensures ok { IfOk result (λ n. spec.some_name (option_map (λ s. s.now) text.entry) ≡ Ok n) }
    ensures refused { IfErr result (λ e. e ≢ UsageFault.Memory → spec.some_name (option_map (λ s. s.now) text.entry) ≡ Err e) }
{
    match text {
        Some(text) => {
            let name = name_of(alloc, text)?;
            Ok(Some(name))
        }
        None => Ok(None),
    }
}

/// The moment of an argument.
pub(crate) fn moment_at(matches: &ArgMatches<'_>, id: &str) -> Result<Moment, UsageFault>
    ensures { result ≡ spec.moment_at id.now (rows_of (found_of matches.now)) }
{
    moment_of(text_at(matches, id))
}

/// The moment that a text is.
pub(crate) fn moment_of(text: &str) -> Result<Moment, UsageFault>
    ensures { result ≡ spec.moment_of text.now }
{
    match Moment::read(text) {
        Ok(moment) => Ok(moment),
        Err(fault) => Err(UsageFault::BadMoment(fault)),
    }
}

/// The path that a text is.
pub(crate) fn path_of(alloc: Global, text: &str) -> Result<FilePath, UsageFault>
    ensures ok { IfOk result (λ path. path ≡ text.now) }
    ensures refused { IfErr result (λ e. e ≡ UsageFault.Memory) }
{
    match FilePath::new(alloc, text) {
        Ok(path) => Ok(path),
        Err(_) => Err(UsageFault::Memory),
    }
}

/// The path that a text is, where there is one.
pub(crate) fn some_path(alloc: Global, text: Option<&str>) -> Result<Option<FilePath>, UsageFault>
    ensures ok { IfOk result (λ path. path ≡ option_map (λ s. s.now) text.entry) }
    ensures refused { IfErr result (λ e. e ≡ UsageFault.Memory) }
{
    match text {
        Some(text) => {
            let path = path_of(alloc, text)?;
            Ok(Some(path))
        }
        None => Ok(None),
    }
}
