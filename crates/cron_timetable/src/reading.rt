//! Reading a cron text: five fields, or a preset in their place.
ghost use Rattle.std.specs.Prelude.{◌≡◌, Some, None, MatchOption, MatchResult};
ghost use Rattle.cron_timetable.specs.Grammar as spec;
ghost use Rattle.cron_timetable.specs.Grammar.{field_of, preset_text, fields_of_words, fields_of, IsRead, FaultOf};
ghost use Rattle.text_words.specs.Words.{words};

use crate::elements::element;
use crate::field_sets::FieldSet;
use crate::fields::Field;
use crate::pieces::{cut, same_bytes};
use crate::{Cron, CronFault};
use moment_core::Moment;
use text_words::next_word;

impl Cron {
    /// Reads five fields (minute, hour, day of month, month, day of week) with blanks between them, or a preset.
    ///
    /// By crontab(5) a field is a list of values, names (three letters, in any case) and ranges with commas between them, where
    /// `/` and a step may follow `*`, a value or a range. The presets are Airflow's `@hourly`, `@daily`, `@weekly`, `@monthly`,
    /// `@quarterly` and `@yearly`. Blanks are spaces and tabs; those at the ends do not count.
    pub fn read(text: &str) -> Result<Cron, CronFault>
        ensures { MatchResult result (IsRead text.now) (FaultOf text.now) }
    {
        let cron = fields(text.as_bytes())?;
        if cron.next_at_or_after(Moment::at(0)).is_some() {
            Ok(cron)
        } else {
            Err(CronFault::NeverFires)
        }
    }
}

// What a text says, before it is asked whether it has a tick.
#[tactic(auto, unfolding(crate::specs::Grammar::fields_of))]
pub(crate) fn fields(text: &[u8]) -> Result<Cron, CronFault>
    ensures { result ≡ fields_of text.now }
{
    let (word, rest) = next_word(text).ok_or(CronFault::FieldCount)?;
    if word[0] != b'@' {
        return fields_of_text(text);
    }
    if next_word(rest).is_some() {
        return Err(CronFault::UnknownPreset);
    }
    fields_of_text(preset(word).ok_or(CronFault::UnknownPreset)?)
}

// The five fields that a preset stands for.
#[tactic(auto, unfolding(crate::specs::Grammar::preset_text))]
fn preset(word: &[u8]) -> Option<&'static [u8]>
    ensures { MatchOption result (preset_text word.now ≡ None)
        (λ t. preset_text word.now ≡ Some t.now) }
{
    if same_bytes(word, b"@hourly") {
        Some(b"0 * * * *")
    } else if same_bytes(word, b"@daily") {
        Some(b"0 0 * * *")
    } else if same_bytes(word, b"@weekly") {
        Some(b"0 0 * * 0")
    } else if same_bytes(word, b"@monthly") {
        Some(b"0 0 1 * *")
    } else if same_bytes(word, b"@quarterly") {
        Some(b"0 0 1 */3 *")
    } else if same_bytes(word, b"@yearly") {
        Some(b"0 0 1 1 *")
    } else {
        None
    }
}

// What a text of five fields says.
fn fields_of_text(text: &[u8]) -> Result<Cron, CronFault>
    ensures { result ≡ fields_of_words (words text.now) }
{
    let (minutes, rest) = next_word(text).ok_or(CronFault::FieldCount)?;
    let (hours, rest) = next_word(rest).ok_or(CronFault::FieldCount)?;
    let (days, rest) = next_word(rest).ok_or(CronFault::FieldCount)?;
    let (months, rest) = next_word(rest).ok_or(CronFault::FieldCount)?;
    let (weekdays, rest) = next_word(rest).ok_or(CronFault::FieldCount)?;
    if next_word(rest).is_some() {
        return Err(CronFault::FieldCount);
    }
    five_fields(minutes, hours, days, months, weekdays)
}

// What five fields say.
#[tactic(auto, unfolding(crate::specs::Grammar::five_fields))]
fn five_fields(
    minutes: &[u8],
    hours: &[u8],
    days: &[u8],
    months: &[u8],
    weekdays: &[u8],
) -> Result<Cron, CronFault>
    ensures { result ≡ spec.five_fields minutes.now hours.now days.now months.now weekdays.now }
{
    let minutes = field_set(Field::Minute, minutes)?;
    let hours = field_set(Field::Hour, hours)?;
    let days = field_set(Field::DayOfMonth, days)?;
    let months = field_set(Field::Month, months)?;
    let weekdays = field_set(Field::DayOfWeek, weekdays)?;
    Ok(Cron::of_sets(minutes, hours, days, months, weekdays))
}

// The union of the sets of a field's elements.
fn field_set(field: Field, text: &[u8]) -> Result<FieldSet, CronFault>
    ensures { result ≡ field_of field text.now }
{
    let mut set = FieldSet::of_bits(0);
    let mut rest = text;
    'elements: loop {
        match cut(rest, b',') {
            Some((first, more)) => {
                let span = element(field, first)?;
                set = set.union(span.set(field));
                rest = more;
            }
            None => {
                let span = element(field, rest)?;
                return Ok(set.union(span.set(field)));
            }
        }
    }
}
