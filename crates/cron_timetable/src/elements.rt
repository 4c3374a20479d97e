//! The elements of a field: a base, or a base, `/` and a step.
//!
//! Easy to get wrong: in the day of the week 7 is read as 0 before a step or alone, and 0 as 7 at the end of a range.
ghost use Rattle.std.specs.Prelude.{◌≡◌, ◌<◌, IfOk};
ghost use Rattle.cron_timetable.specs.Elements.{value_of, step_of, range_of, single_of, base_of, element_of, in_span, in_element};
ghost use Rattle.cron_timetable.specs.Sets.{set_of};

use crate::faults::CronFault;
use crate::field_sets::FieldSet;
use crate::fields::Field;
use crate::pieces::{cut, number, same_bytes};

/// Every `step`-th value from `first` to `last`.
#[derive(Clone, Copy)]
pub(crate) struct Span {
    first: u32,
    last: u32,
    step: u32,
}

impl Span {
    // Whether n is one of the values.
    fn contains(&self, n: u32) -> bool
        requires { 0 < self.now.step }
        ensures { result ≡ in_span self.now n }
    {
        self.first <= n && n <= self.last && (n - self.first) % self.step == 0
    }

    // Whether n is in the element's set, in which Sunday is 0.
    fn holds(&self, field: Field, n: u32) -> bool
        requires { 0 < self.now.step }
        ensures { result ≡ in_element field self.now n }
    {
        if field.is_day_of_week() {
            n < 7 && (self.contains(n) || n == 0 && self.contains(7))
        } else {
            self.contains(n)
        }
    }

    // The element's set.
    pub(crate) fn set(&self, field: Field) -> FieldSet
        requires { 0 < self.now.step }
        ensures { result ≡ set_of (in_element field self.now) }
    {
        let mut bits = 0;
        for n in 0..64 {
            if self.holds(field, n) {
                bits |= 1 << n;
            }
        }
        FieldSet::of_bits(bits)
    }
}

// One element.
#[tactic(auto, unfolding(crate::specs::Elements::element_of))]
pub(crate) fn element(field: Field, text: &[u8]) -> Result<Span, CronFault>
    ensures value { result ≡ element_of field text.now }
    ensures steps { IfOk result (λ s. 0 < s.step) }
{
    match cut(text, b'/') {
        Some((base_text, step_text)) => {
            let (first, last) = base(field, true, base_text)?;
            let step = step(step_text)?;
            Ok(Span { first, last, step })
        }
        None => {
            let (first, last) = base(field, false, text)?;
            Ok(Span {
                first,
                last,
                step: 1,
            })
        }
    }
}

// The ends of a base, of which `steps` says that a step follows.
#[tactic(auto, unfolding(crate::specs::Elements::base_of))]
fn base(field: Field, steps: bool, text: &[u8]) -> Result<(u32, u32), CronFault>
    ensures { result ≡ base_of field steps text.now }
{
    if same_bytes(text, b"*") {
        return Ok((field.least(), field.greatest()));
    }
    match cut(text, b'-') {
        Some((from, to)) => range(field, from, to),
        None => single(field, steps, text),
    }
}

// The ends of a range.
#[tactic(auto, unfolding(crate::specs::Elements::range_of))]
fn range(field: Field, from: &[u8], to: &[u8]) -> Result<(u32, u32), CronFault>
    ensures { result ≡ range_of field from.now to.now }
{
    let first = value(field, from)?;
    let named = value(field, to)?;
    let last = if field.is_day_of_week() && named == 0 {
        7
    } else {
        named
    };
    if first <= last {
        Ok((first, last))
    } else {
        Err(CronFault::BadRange)
    }
}

// The ends of one value, from which a step goes on to the field's last one.
#[tactic(auto, unfolding(crate::specs::Elements::single_of))]
fn single(field: Field, steps: bool, text: &[u8]) -> Result<(u32, u32), CronFault>
    ensures { result ≡ single_of field steps text.now }
{
    let named = value(field, text)?;
    let first = if field.is_day_of_week() && named == 7 {
        0
    } else {
        named
    };
    let last = if steps { field.greatest() } else { first };
    Ok((first, last))
}

// A value of a field: one to four digits, or a name.
#[tactic(auto, unfolding(crate::specs::Elements::value_of))]
fn value(field: Field, text: &[u8]) -> Result<u32, CronFault>
    ensures { result ≡ value_of field text.now }
{
    let value = match number(text, 4) {
        Some(value) => value,
        None => field.value_named(text).ok_or(CronFault::BadNumber)?,
    };
    if field.least() <= value && value <= field.greatest_written() {
        Ok(value)
    } else {
        Err(CronFault::OutOfField)
    }
}

// A step: one to three digits, and not 0.
#[tactic(auto, unfolding(crate::specs::Elements::step_of))]
fn step(text: &[u8]) -> Result<u32, CronFault>
    ensures value { result ≡ step_of text.now }
    ensures positive { IfOk result (λ s. 0 < s) }
{
    match number(text, 3) {
        Some(step) if step > 0 => Ok(step),
        _ => Err(CronFault::BadStep),
    }
}
