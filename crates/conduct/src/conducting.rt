//! A run, from a director to what came of it.
ghost use Rattle.std.specs.Prelude.{◌≡◌, ◌<◌, ◌≤◌, All, None, false, length, map};
ghost use Rattle.sqlite.specs.Held.{state};
ghost use Rattle.operators.specs.Kits.{IsKit};
ghost use Rattle.sessions.specs.History.{readings_in};
ghost use Rattle.workers.specs.Shows.{shows};
ghost use Rattle.conduct.specs.Ends.{AreKept};
ghost use Rattle.conduct.specs.Run.{IsConducted};

use crate::closing::close;
use crate::equipment::{Equipment, equip};
use crate::threads::manage;
use kept::{Keep, Kept};
use operators::Operator;
use sched_events::Event;
use sessions::{Clock, ConductFault, Director, Lines};
use slot_desk::Total;
use sqlite::Alter;
use std::alloc::Global;
use std::marker::Brand;
use std::sync::Wait;
use std::sync::ledger::{Blank, Ledger};
use std::thread::Threads;
use workers::{Crew, Gate, WorkerEnd};

/// What came of a run.
#[derive(Drop)]
pub struct Conducted<S: Alter, G: Gate, O: Operator> {
    /// The director, as the minutes left it.
    pub director: Director<S>,
    /// The events that were accepted in the run, in their order: the restart, the events of the lines, and what workers reported.
    pub minutes: Kept<Event>,
    /// What became of the crews, in their order, also where the run ended with a fault. Before an event was stepped there may be none.
    pub ends: Vec<WorkerEnd<G, O>>,
    /// What the desk held, or why the run ended otherwise.
    pub outcome: Result<Total, ConductFault>,
}

/// Runs the schedule: restarts it with so many lanes, follows the lines, hands each try to one of the workers, and steps what they report,
/// until the lines are over and no try is in flight. Each crew works on a thread of its own.
///
/// It waits for the lines, for the tries and for the threads. A report, and the restart, are stepped up to three times where the record or
/// want of memory stands against them; an event of a line once. At the end, and on a fault, each worker is stopped and joined. `keep` says
/// whether the minutes and the workers' logs are kept.
pub fn conduct<
    S: Alter + Drop,
    G: Gate + Send,
    O: Operator + Send,
    L: Lines<S>,
    C: Clock,
    R: Threads + Wait + Sync,
>(
    rt: &R,
    alloc: Global,
    director: Director<S>,
    lane_count: u32,
    crews: Vec<Crew<G, O>>,
    lines: &mut L,
    clock: &mut C,
    keep: Keep,
) -> Conducted<S, G, O>
    requires lanes { (lane_count ≤ 64) × (lane_count ≤ director.schedule.content.limits.lanes) }
    requires crews { length crews.items ≤ 16 }
    requires kits { All (λ c. IsKit O.kind_of c.kit) crews.items }
    requires sound { L.failed lines.old ≡ None }
    ensures conducted { IsConducted (state S.Store) (shows O.kind_of O.runs_of O.refused_of O.taken) lane_count (map (λ c. c.kit) crews.items) director result
        (λ told waits. L.tells lines.old told waits lines.new × C.gives clock.old (readings_in told) clock.new) ((lines.new ≡ lines.old) × (clock.new ≡ clock.old)) (L.failed lines.new) (L.over lines.new) }
    ensures keep { AreKept keep result.minutes result.ends.items }
{
    // what is known of the schedule that is run
    let _ = director.schedule().runs();
    let workers = crews.len();
    if workers == 0 {
        return Conducted {
            director,
            minutes: Kept::new(alloc, keep),
            ends: Vec::new(alloc),
            outcome: Err(ConductFault::NoWorker),
        };
    }
    conduct_at::<Brand, S, G, O, L, C, R>(
        rt,
        alloc,
        Blank::new(workers as u64),
        director,
        lane_count,
        crews,
        lines,
        clock,
        keep,
    )
}

// The same where there are crews, at a desk that the ledger names.
fn conduct_at<
    D: Ledger + Send + Sync,
    S: Alter + Drop,
    G: Gate + Send,
    O: Operator + Send,
    L: Lines<S>,
    C: Clock,
    R: Threads + Wait + Sync,
>(
    rt: &R,
    alloc: Global,
    blank: Blank,
    director: Director<S>,
    lane_count: u32,
    crews: Vec<Crew<G, O>>,
    lines: &mut L,
    clock: &mut C,
    keep: Keep,
) -> Conducted<S, G, O>
    requires name { blank.name ≡ D.name }
    requires parts { (blank.parts ≡ D.parts) × (blank.parts ≡ length crews.items) }
    requires lanes { (lane_count ≤ 64) × (lane_count ≤ director.schedule.content.limits.lanes) }
    requires crews { (0 < length crews.items) × (length crews.items ≤ 16) }
    requires kits { All (λ c. IsKit O.kind_of c.kit) crews.items }
    requires sound { L.failed lines.old ≡ None }
    ensures conducted { IsConducted (state S.Store) (shows O.kind_of O.runs_of O.refused_of O.taken) lane_count (map (λ c. c.kit) crews.items) director result
        (λ told waits. L.tells lines.old told waits lines.new × C.gives clock.old (readings_in told) clock.new) ((lines.new ≡ lines.old) × (clock.new ≡ clock.old)) (L.failed lines.new) (L.over lines.new) }
    ensures keep { AreKept keep result.minutes result.ends.items }
{
    // what is known of the schedule that is run
    let _ = director.schedule().runs();
    let count = crews.len();
    let Ok(equipment) = equip::<D, G, O>(alloc, blank, lane_count, count, keep) else {
        return Conducted {
            director,
            minutes: Kept::new(alloc, keep),
            ends: Vec::new(alloc),
            outcome: Err(ConductFault::Memory),
        };
    };
    let Equipment {
        lanes,
        desk,
        pass,
        workers,
        room,
    } = equipment;
    let managed = manage(
        rt, alloc, &lanes, &desk, lane_count, director, pass, workers, crews, lines, clock,
    );
    close(rt, alloc, lanes, desk, room, managed)
}
