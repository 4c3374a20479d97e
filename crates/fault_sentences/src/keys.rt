//! Sentences on the keys of a graph's text and their values.
//!
//! No contract holds this file: the sections `told` of `worked_scripts` show what it writes.
use crate::airflow::{key_text, value_text};
use crate::fields::push_fault;
use crate::moments::moment_text;
use crate::parts::Part::Text;
use crate::parts::{push_words, say};
use cron_timetable::CronFault;
use graph_file::{GraphFault, Key, Kind, Operator, Place, Role, is_name};
use moment_core::Moment;
use std::alloc::{AllocError, Global};
use strsim::levenshtein;
use toml::{Table, Value};

// How many letters of a word may be others than those that were probably meant, and how many it may have to be compared.
const MOST_EDITS: usize = 2;

const MOST_LETTERS: usize = 64;

// The words that a schedule may be, beside cron expressions.
static SCHEDULES: [&str; 8] = [
    "@hourly",
    "@daily",
    "@weekly",
    "@monthly",
    "@quarterly",
    "@yearly",
    "@once",
    "None",
];

// Adds what is said of a name in the table at a place that is no key there.
pub(crate) fn push_unknown(
    sentence: &mut String,
    place: Place,
    name: &str,
    table: &Table,
) -> Result<(), AllocError> {
    if let Some(said) = key_text(name) {
        return say(
            sentence,
            "unknown key \"{}\": {}",
            &[Text(name), Text(said)],
        );
    }
    match misplaced(place, name, table) {
        Some(said) => say(sentence, "\"{}\" {}", &[Text(name), Text(said)])?,
        None => say(sentence, "unknown key \"{}\"", &[Text(name)])?,
    }
    let keys = names_of(*sentence.allocator(), place)?;
    push_hint(sentence, name, keys.as_slice())
}

// The names of the keys of a place.
fn names_of(alloc: Global, place: Place) -> Result<Vec<&'static str>, AllocError> {
    let mut names = Vec::new(alloc);
    for key in place.keys() {
        names.push(key.name())?;
    }
    Ok(names)
}

// What is said of a name that is no key where it stands.
fn misplaced(place: Place, name: &str, table: &Table) -> Option<&'static str> {
    match table.get(name) {
        Some(value) if has_table(value) => Some(table_text(place, name)),
        _ => other_place(place, name),
    }
}

// Whether a value is a table or has some.
fn has_table(value: &Value) -> bool {
    match value.as_array() {
        Some(items) => has_table_in(items.as_slice()),
        None => value.is_table(),
    }
}

fn has_table_in(items: &[Value]) -> bool {
    for item in items {
        if item.is_table() {
            return true;
        }
    }
    false
}

// What is said of a table that no graph file has.
fn table_text(place: Place, name: &str) -> &'static str {
    match place {
        Place::Top if name == "pool" || name == "pools" => {
            "is no table here: a pool is made by the command resize NAME SLOTS, before the load"
        }
        Place::Top => {
            "is no table here: the only one is [[task]], and the keys of the graph stand above it"
        }
        Place::Task(_) => "is no table here: a task has none",
    }
}

// What is said of a key that stands at the wrong place.
fn other_place(place: Place, name: &str) -> Option<&'static str> {
    match place {
        Place::Top if is_key_of(Place::Task(0), name) => {
            Some("is a key of a task: it stands below a [[task]]")
        }
        Place::Task(_) if is_key_of(Place::Top, name) => {
            Some("is a key of the graph: it stands above the first [[task]]")
        }
        _ => None,
    }
}

pub(crate) fn is_key_of(place: Place, name: &str) -> bool {
    for key in place.keys() {
        if key.name() == name {
            return true;
        }
    }
    false
}

// Adds which of these words was probably meant.
pub(crate) fn push_hint(
    sentence: &mut String,
    word: &str,
    words: &[&str],
) -> Result<(), AllocError> {
    match nearest(*sentence.allocator(), word, words)? {
        Some(meant) => say(sentence, "; did you mean \"{}\"?", &[Text(meant)]),
        None => Ok(()),
    }
}

// The nearest of these words, where few of its letters are others: the first of several.
pub(crate) fn nearest<'a>(
    alloc: Global,
    word: &str,
    words: &[&'a str],
) -> Result<Option<&'a str>, AllocError> {
    if word.len() > MOST_LETTERS {
        return Ok(None);
    }
    let mut found = None;
    let mut fewest = MOST_EDITS + 1;
    for other in words {
        let edits = levenshtein(alloc, word, other)?;
        if edits < fewest {
            found = Some(*other);
            fewest = edits;
        }
    }
    Ok(found)
}

// Adds what is said of the value at a key, or of its lack.
pub(crate) fn push_key(
    sentence: &mut String,
    fault: GraphFault,
    key: Key,
    table: &Table,
) -> Result<(), AllocError> {
    let name = key.name();
    match (fault, table.get(name)) {
        (GraphFault::MissingKey(_), _) => push_lack(sentence, key),
        (GraphFault::WrongType(_), Some(value)) => push_kind(sentence, key, value),
        (GraphFault::BadName(_), Some(value)) => say(
            sentence,
            "{}: \"{}\" is no name: a name has 1 to 250 letters, digits, _, - and ., all ASCII",
            &[Text(name), Text(misnamed(value))],
        ),
        (_, value) => push_value(sentence, key, value, table),
    }
}

// Adds that a key is missing, and what its value may be where that is a word.
fn push_lack(sentence: &mut String, key: Key) -> Result<(), AllocError> {
    let (words, more) = match key.role() {
        Role::Schedule => (SCHEDULES.as_slice(), ", or a cron expression, as 0 2 * * *"),
        role => (role.words(), ""),
    };
    let rest = if words.is_empty() {
        ""
    } else {
        ": it is one of "
    };
    say(sentence, "{} is missing{}", &[Text(key.name()), Text(rest)])?;
    push_words(sentence, words)?;
    sentence.push_str(more)
}

// Adds why a schedule is refused.
pub(crate) fn push_schedule(
    sentence: &mut String,
    schedule: &str,
    fault: CronFault,
) -> Result<(), AllocError> {
    let (name, words) = (Key::Schedule.name(), SCHEDULES.as_slice());
    if fault == CronFault::UnknownPreset {
        return push_word(sentence, name, schedule, words);
    }
    say(sentence, "{} \"{}\": ", &[Text(name), Text(schedule)])?;
    match nearest(*sentence.allocator(), schedule, words)? {
        Some(meant) => write!(sentence, "{fault}; did you mean \"{meant}\"?"),
        None => push_fault(sentence, schedule, fault),
    }
}

// Adds that a value is of another type than its key's.
fn push_kind(sentence: &mut String, key: Key, value: &Value) -> Result<(), AllocError> {
    let wanted = match key.kind() {
        Kind::Text => "a string",
        Kind::Flag => "true or false",
        Kind::Whole => "a whole number",
        Kind::Texts => "an array of strings",
        Kind::Tables => "an array of tables",
    };
    say(
        sentence,
        "{}: {} is wanted",
        &[Text(key.name()), Text(wanted)],
    )?;
    push_found(sentence, key.kind(), value)
}

// Adds what stands there in place of a value of this kind, and what was probably meant.
fn push_found(sentence: &mut String, wanted: Kind, value: &Value) -> Result<(), AllocError> {
    match value {
        Value::String(text) => { say(sentence, ", and \"{}\" is a string", &[Text(text.as_str())]) }
        Value::Integer(number) => write!(sentence, ", and {number} is an integer"),
        Value::Boolean(flag) => write!(sentence, ", and {flag} is a boolean"),
        _ => sentence.push_str(other_text(wanted, value)),
    }
}

// The same of a value that is not shown.
fn other_text(wanted: Kind, value: &Value) -> &'static str {
    match (value, wanted) {
        (Value::Datetime(_), Kind::Text) => ", and this is a date: put it in quotes",
        (Value::Datetime(_), _) => ", and this is a date or a time",
        (Value::Float(_), _) => ", and this is a number with a point",
        (Value::Array(_), Kind::Texts | Kind::Tables) => ", and this is another array",
        (Value::Array(_), _) => ", and this is an array",
        (Value::Table(_), Kind::Tables) => ": write [[task]], with two brackets",
        (Value::Table(_), _) => ", and this is a table",
        _ => "",
    }
}

// The text, or the first of the texts, that is no name.
fn misnamed(value: &Value) -> &str {
    match value.as_array() {
        Some(items) => misnamed_in(items.as_slice()),
        None => value.as_str().unwrap_or(""),
    }
}

fn misnamed_in(items: &[Value]) -> &str {
    for item in items {
        match item.as_str() {
            Some(text) if !is_name(text) => return text,
            _ => {}
        }
    }
    ""
}

// Adds that a value is none of those that its key takes.
fn push_value(
    sentence: &mut String,
    key: Key,
    value: Option<&Value>,
    table: &Table,
) -> Result<(), AllocError> {
    let (name, text) = (key.name(), text_of(value));
    match key.role() {
        Role::Range(low, high) => push_range(sentence, name, number_of(value), low, high),
        Role::Timeout(low, high) => push_timeout(sentence, name, number_of(value), low, high),
        Role::Moment => {
            let why = moment_text(Moment::read(text).err());
            say(
                sentence,
                "{}: \"{}\" is no moment: {}",
                &[Text(name), Text(text), Text(why)],
            )
        }
        Role::Arguments => say(
            sentence,
            "{}: {}",
            &[Text(name), Text(arguments_text(table))],
        ),
        role => push_word(sentence, name, text, role.words()),
    }
}

fn number_of(value: Option<&Value>) -> i64 {
    match value {
        Some(value) => value.as_integer().unwrap_or(0),
        None => 0,
    }
}

// Adds that a number is out of its range.
fn push_range(
    sentence: &mut String,
    name: &str,
    number: i64,
    low: i64,
    high: i64,
) -> Result<(), AllocError> {
    write!(sentence, "{name}: {number} is not from {low} to {high}")
}

// The same of a time for a try, or that its operator has none.
fn push_timeout(
    sentence: &mut String,
    name: &str,
    number: i64,
    low: i64,
    high: i64,
) -> Result<(), AllocError> {
    if number < low || high < number {
        return push_range(sentence, name, number, low, high);
    }
    say(
        sentence,
        "{}: noop and exit end at once, so only command takes it",
        &[Text(name)],
    )
}

pub(crate) fn text_of(value: Option<&Value>) -> &str {
    match value {
        Some(value) => value.as_str().unwrap_or(""),
        None => "",
    }
}

// Which arguments the operator of a task takes.
fn arguments_text(table: &Table) -> &'static str {
    match Operator::read(text_of(table.get(Key::Operator.name()))) {
        Some(Operator::Noop) => "noop takes no arguments",
        Some(Operator::Command) => {
            "command takes 1 to 64 arguments of at most 65,536 bytes in all, without NUL bytes, the first of which is the program"
        }
        Some(Operator::Exit) => "exit takes 1 to 16 arguments, each a status from 0 to 255",
        None => "these arguments do not fit the operator",
    }
}

// Adds that a word is none of these, and which was probably meant; or that it does not fit the schedule.
fn push_word<'a>(
    sentence: &mut String,
    name: &'a str,
    word: &'a str,
    words: &[&'a str],
) -> Result<(), AllocError> {
    if words.contains(&word) {
        return say(
            sentence,
            "{}: \"{}\" wants a schedule that has ticks, and None and @once have none",
            &[Text(name), Text(word)],
        );
    }
    if let Some(said) = value_text(word) {
        return say(
            sentence,
            "{} \"{}\": {}",
            &[Text(name), Text(word), Text(said)],
        );
    }
    say(sentence, "{}: \"{}\" is ", &[Text(name), Text(word)])?;
    match nearest(*sentence.allocator(), word, words)? {
        Some(meant) => say(
            sentence,
            "unknown; did you mean \"{}\"? The words are ",
            &[Text(meant)],
        )?,
        None => sentence.push_str("none of ")?,
    }
    push_words(sentence, words)
}
