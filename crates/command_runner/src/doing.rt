//! What a command does to its record. Nothing here has an output or a console.
ghost use Rattle.sqlite.specs.Held.{state};
ghost use Rattle.command_runner.specs.Events.{HasCome};
ghost use Rattle.command_runner.specs.Looks.{IsRead};

use director::{Director, Fault, Limits, Schedule, Store, Written};
use sched_events::Event;
use sqlite::Alter;
use std::alloc::Global;

// What came of an event, with the record that was opened for it.
#[derive(Drop)]
pub(crate) enum Came<S: Alter> {
    // The event stands in the record, or why it does not.
    Stepped(Director<S>, Result<Written<S>, Fault>),
    // Why the record is not opened.
    Unopened(Store<S>, Fault),
}

// Opens the record without lanes, which makes one of version 1 one of version 2, and steps the event.
pub(crate) fn step_event<S: Alter>(alloc: Global, store: Store<S>, event: &Event) -> Came<S>
    ensures { HasCome (state S.Store) store event.now result }
{
    match Director::open(alloc, store, 0, Limits::full()) {
        Ok(mut director) => {
            // what is known of the schedule that was opened
            let _ = director.schedule().runs();
            let written = director.write(alloc, event);
            Came::Stepped(director, written)
        }
        Err((store, fault)) => Came::Unopened(store, fault),
    }
}

// Reads the schedule that the record holds.
pub(crate) fn read_schedule<S: Alter>(
    alloc: Global,
    store: &mut Store<S>,
) -> Result<Schedule, Fault>
    ensures { IsRead (state S.Store) store.old store.new result }
{
    match store.load(alloc, Limits::full()) {
        Ok(schedule) => {
            // what is known of the schedule that was read
            let _ = schedule.runs();
            Ok(schedule)
        }
        Err(fault) => Err(Fault::from(fault)),
    }
}
