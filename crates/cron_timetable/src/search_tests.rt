//! The number of turns of the searches.
ghost use Rattle.std.specs.Prelude.{◌<◌};

use crate::Cron;
use crate::field_sets::FieldSet;
use crate::reading::fields;
use moment_core::{END, Moment};
use std::test::Fail;

#[test]
fn finds_a_leap_day_in_few_turns(rt: HostRuntime) -> Result<(), Fail> {
    let cron = Cron::read("0 0 29 2 *").map_err(|_| "refused")?;
    let march = Moment::read("2096-03-01").map_err(|_| "no moment")?;
    let leap_day = Moment::read("2104-02-29").map_err(|_| "no moment")?;
    let (next, turns) = cron.search(march);
    assert_eq!(rt; next, Some(leap_day));
    assert!(rt; turns < 30, "{turns}");
    let (last, turns) = cron.search_back(leap_day);
    assert_eq!(rt; last, Moment::read("2096-02-29").ok());
    assert!(rt; turns < 30, "{turns}");
    Ok(())
}

// The ticks of a date and of the Sundays of its month, through the whole range.
const TICKS: u32 = 230 * 6;

// The greatest number of turns from one tick to the next.
fn most_turns(cron: &Cron) -> u64 {
    let mut from = Moment::at(0);
    let mut most = 0;
    for _tick in 0..TICKS {
        let (tick, turns) = cron.search(from);
        most = most.max(turns);
        let Some(after) = tick.and_then(|tick| tick.checked_plus(60)) else {
            return most;
        };
        from = after;
    }
    most
}

// The greatest number of turns from one tick to the one before.
fn most_turns_back(cron: &Cron) -> u64 {
    let mut from = Moment::at(END - 1);
    let mut most = 0;
    for _tick in 0..TICKS {
        let (tick, turns) = cron.search_back(from);
        most = most.max(turns);
        let Some(before) = tick else {
            return most;
        };
        from = before;
    }
    most
}

// One minute of a date, or of the weekdays too.
fn date(month: u32, day: u32, weekdays: u64) -> Cron
    requires month { month < 64 }
    requires day { day < 64 }
{
    Cron::of_sets(
        FieldSet::of_bits(1 << 58),
        FieldSet::of_bits(1 << 23),
        FieldSet::of_bits(1 << day),
        FieldSet::of_bits(1 << month),
        FieldSet::of_bits(weekdays),
    )
}

// Every date of a year, alone and with the Sundays of its month. The 30th of February never comes.
#[test]
fn takes_few_turns_through_the_whole_range(rt: HostRuntime) {
    for month in 1..=12 {
        for day in 1..=31 {
            for weekdays in [0x7f, 1] {
                let cron = date(month, day, weekdays);
                let most = most_turns(&cron).max(most_turns_back(&cron));
                let fires = cron.next_at_or_after(Moment::at(0)).is_some();
                assert!(rt;
                    most < if fires { 30 } else { 1_000 },
                    "{month} {day} {weekdays}: {most}"
                );
            }
        }
    }
}

// The months without a 31st are passed one by one.
#[test]
fn finds_out_that_nothing_fires(rt: HostRuntime) -> Result<(), Fail> {
    let never = fields(b"0 0 31 2,4,6,9,11 *").map_err(|_| "refused")?;
    let (tick, turns) = never.search(Moment::at(0));
    assert_eq!(rt; tick, None);
    assert!(rt; turns < 3_000, "{turns}");
    Ok(())
}
