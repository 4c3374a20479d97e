//! Schedules: reading one, what the word of its timetable makes of it, and why one is refused.
//!
//! Easy to get wrong: `trigger` beside a cron text that is refused is no bad value. The cron text's own fault is answered.
ghost use Rattle.std.specs.Prelude.{◌≡◌};
ghost use Rattle.toml.specs.View.{table_view, view};
ghost use Rattle.graph_file.specs.Schedules as spec;
ghost use Rattle.cron_timetable.specs.Grammar.{fields_of};
ghost use Rattle.graph_file.specs.Schedules.{timetable_of, firing, cron_timetable_of, with_timetable, is_without_ticks};

use crate::keys::{Key, Role};
use crate::tables::value_at;
use cron_timetable::{Cron, CronFault, Timetable};
use toml::{Table, Value};

/// Which of Airflow 2's two timetables a cron text has.
#[derive(Clone, Copy)]
pub enum CronTimetable {
    /// `interval`, the default: a run for each two neighbouring ticks, as of Airflow's `CronDataIntervalTimetable`.
    Interval,
    /// `trigger`: a run at each tick, as of its `CronTriggerTimetable`.
    Trigger,
}

impl CronTimetable {
    /// The timetable of a word, which is compared as it stands.
    pub fn read(text: &str) -> Option<CronTimetable>
        ensures { result ≡ cron_timetable_of text.now }
    {
        match text {
            "interval" => Some(CronTimetable::Interval),
            "trigger" => Some(CronTimetable::Trigger),
            _ => None,
        }
    }

    /// A schedule with this timetable. One without ticks stays as it is.
    pub fn of(self, schedule: Timetable) -> Timetable
        ensures { result ≡ with_timetable self schedule }
    {
        match (self, schedule) {
            (CronTimetable::Trigger, Timetable::Cron(cron)) => Timetable::Trigger(cron),
            (_, schedule) => schedule,
        }
    }
}

// Whether a run at each tick is wanted of a schedule that has none.
pub(crate) fn lacks_ticks(timetable: Option<CronTimetable>, schedule: &str) -> bool
    ensures { result ≡ spec.lacks_ticks timetable schedule.now }
{
    matches!(timetable, Some(CronTimetable::Trigger)) && is_without_ticks(schedule)
}

fn is_without_ticks(schedule: &str) -> bool
    ensures { result ≡ is_without_ticks schedule.now }
{
    matches!(schedule, "None" | "@once")
}

// The timetable of a text: `None`, `@once`, or a cron text.
pub(crate) fn read_timetable(text: &str) -> Result<Timetable, CronFault>
    ensures { result ≡ timetable_of text.now }
{
    match text {
        "None" => Ok(Timetable::Never),
        "@once" => Ok(Timetable::Once),
        _ => read_cron(text),
    }
}

fn read_cron(text: &str) -> Result<Timetable, CronFault>
    ensures { result ≡ firing (fields_of text.now) }
{
    match Cron::read(text) {
        Ok(cron) => Ok(Timetable::Cron(cron)),
        Err(fault) => Err(fault),
    }
}

// Why the first schedule at these keys that is refused is refused.
pub(crate) fn cron_fault(keys: &[Key], table: &Table) -> Option<CronFault>
    ensures { result ≡ spec.cron_fault keys.now (table_view table.now) }
{
    for key in keys {
        if let Some(fault) = cron_fault_at(*key, table) {
            return Some(fault);
        }
    }
    None
}

fn cron_fault_at(key: Key, table: &Table) -> Option<CronFault>
    ensures { result ≡ spec.cron_fault_at (table_view table.now) key }
{
    match value_at(table, key) {
        Some(value) => schedule_fault(key.role(), value),
        None => None,
    }
}

fn schedule_fault(role: Role, value: &Value) -> Option<CronFault>
    ensures { result ≡ spec.schedule_fault role (view value.now) }
{
    match role {
        Role::Schedule => match value.as_str() {
            Some(text) => read_timetable(text).err(),
            None => None,
        },
        _ => None,
    }
}
