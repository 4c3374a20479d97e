//! The threads of a run: the workers are started in a scope, the session is served on this thread, and the workers are joined.
//!
//! The lines and the clock are lent into the scope, and come out of it beside what came of it (`Lent`), so that what is said of them there can be said
//! of the references that the caller has.
ghost use Rattle.std.specs.Prelude.{◌≡◌, map};
ghost use Rattle.sqlite.specs.Held.{state};
ghost use Rattle.sessions.specs.History.{readings_in};
ghost use Rattle.workers.specs.Shows.{shows};
ghost use Rattle.conduct.specs.Ends.{AreKept};
ghost use Rattle.conduct.specs.Served.{IsReady, IsManaged};

use crate::equipment::Workers;
use crate::serving::{Served, Started, serve};
use operators::Operator;
use ruled_dispatch::{DirectorPass, Lanes};
use sessions::{Clock, ConductFault, Director, Lines, Parted};
use slot_desk::SlotDesk;
use sqlite::Alter;
use std::alloc::Global;
use std::sync::Wait;
use std::sync::ledger::Ledger;
use std::thread;
use std::thread::{Scope, Threads};
use workers::{Crew, Gate, Worked, join_all, start_all};

/// What came of the threads: what is left of the session, how it ended, and what each worker that was started gave back.
#[derive(Drop)]
pub(crate) struct Managed<D: Ledger, S: Alter, G: Gate, O: Operator> {
    pub parted: Parted<S>,
    pub outcome: Result<(), ConductFault>,
    pub results: Vec<Worked<D, G, O>>,
}

// The same, with the lines and the clock that were lent.
#[derive(Drop)]
struct Lent<'l, 'c, D: Ledger, S: Alter, G: Gate, O: Operator, L: Lines<S>, C: Clock> {
    parted: Parted<S>,
    outcome: Result<(), ConductFault>,
    results: Vec<Worked<D, G, O>>,
    lines: &'l mut L,
    clock: &'c mut C,
}

/// Starts the workers, serves the session, stops the workers and joins them.
pub(crate) fn manage<
    D: Ledger + Send + Sync,
    S: Alter + Drop,
    G: Gate + Send,
    O: Operator + Send,
    L: Lines<S>,
    C: Clock,
    R: Threads + Wait + Sync,
>(
    rt: &R,
    alloc: Global,
    lanes: &Lanes,
    desk: &SlotDesk<D>,
    lane_count: u32,
    director: Director<S>,
    pass: DirectorPass,
    workers: Workers<D, G, O>,
    crews: Vec<Crew<G, O>>,
    lines: &mut L,
    clock: &mut C,
) -> Managed<D, S, G, O>
    requires { IsReady O.kind_of lanes.now lane_count director pass workers crews.items
        (L.failed lines.old) }
    ensures managed { IsManaged (state S.Store) (shows O.kind_of O.runs_of O.refused_of O.taken) lanes.now lane_count director pass workers crews.items result.parted result.outcome result.results.items
        (λ told waits. L.tells lines.old told waits lines.new × C.gives clock.old (readings_in told) clock.new) ((lines.new ≡ lines.old) × (clock.new ≡ clock.old)) (L.failed lines.new) (L.over lines.new) }
    ensures keep { AreKept workers.keep result.parted.minutes (map (λ r. r.0) result.results.items) }
{
    let Lent {
        parted,
        outcome,
        results,
        lines: lent_lines,
        clock: lent_clock,
    } = in_scope(
        rt, alloc, lanes, desk, lane_count, director, pass, workers, crews, lines, clock,
    );
    release(lent_lines, lent_clock);
    Managed {
        parted,
        outcome,
        results,
    }
}

// Lets two references go.
fn release<L, C>(lines: &mut L, clock: &mut C)
    ensures { (lines.new ≡ lines.old) × (clock.new ≡ clock.old) }
{}

// Opens the scope.
fn in_scope<
    'l,
    'c,
    D: Ledger + Send + Sync,
    S: Alter + Drop,
    G: Gate + Send,
    O: Operator + Send,
    L: Lines<S>,
    C: Clock,
    R: Threads + Wait + Sync,
>(
    rt: &R,
    alloc: Global,
    lanes: &Lanes,
    desk: &SlotDesk<D>,
    lane_count: u32,
    director: Director<S>,
    pass: DirectorPass,
    workers: Workers<D, G, O>,
    crews: Vec<Crew<G, O>>,
    lines: &'l mut L,
    clock: &'c mut C,
) -> Lent<'l, 'c, D, S, G, O, L, C>
    requires { IsReady O.kind_of lanes.now lane_count director pass workers crews.items
        (L.failed lines.old) }
    ensures lent { (result.lines.ghost_name ≡ lines.entry.ghost_name) × (result.clock.ghost_name ≡ clock.entry.ghost_name) }
    ensures managed { IsManaged (state S.Store) (shows O.kind_of O.runs_of O.refused_of O.taken) lanes.now lane_count director pass workers crews.items result.parted result.outcome result.results.items
        (λ told waits. L.tells lines.old told waits result.lines.now × C.gives clock.old (readings_in told) result.clock.now) ((result.lines.now ≡ lines.old) × (result.clock.now ≡ clock.old)) (L.failed result.lines.now) (L.over result.lines.now) }
    ensures keep { AreKept workers.keep result.parted.minutes (map (λ r. r.0) result.results.items) }
{
    thread::scope(
        thread::scope_env(),
        rt,
        move |scope| -> Lent<'_, '_, D, S, G, O, L, C>
            requires { IsReady O.kind_of lanes.now lane_count director pass workers crews.items
                (L.failed lines.now) }
            ensures lent { (result.lines.ghost_name ≡ lines.entry.ghost_name) × (result.clock.ghost_name ≡ clock.entry.ghost_name) }
            ensures managed { IsManaged (state S.Store) (shows O.kind_of O.runs_of O.refused_of O.taken) lanes.entry.now lane_count director pass workers crews.items result.parted result.outcome result.results.items
                (λ told waits. L.tells lines.entry.now told waits result.lines.now × C.gives clock.entry.now (readings_in told) result.clock.now) ((result.lines.now ≡ lines.entry.now) × (result.clock.now ≡ clock.entry.now)) (L.failed result.lines.now) (L.over result.lines.now) }
            ensures keep { AreKept workers.keep result.parted.minutes (map (λ r. r.0) result.results.items) }
        {
            run(
                scope, rt, alloc, lanes, desk, lane_count, director, pass, workers, crews, lines,
                clock,
            )
        },
    )
}

// What is done in the scope.
fn run<
    'l,
    'c,
    's,
    E,
    D: Ledger + Send + Sync + 's,
    S: Alter + Drop,
    G: Gate + Send + 's,
    O: Operator + Send + 's,
    L: Lines<S>,
    C: Clock,
    R: Threads + Wait + Sync,
>(
    scope: &Scope<'s, E>,
    rt: &'s R,
    alloc: Global,
    lanes: &'s Lanes,
    desk: &'s SlotDesk<D>,
    lane_count: u32,
    director: Director<S>,
    pass: DirectorPass,
    workers: Workers<D, G, O>,
    crews: Vec<Crew<G, O>>,
    lines: &'l mut L,
    clock: &'c mut C,
) -> Lent<'l, 'c, D, S, G, O, L, C>
    requires { IsReady O.kind_of lanes.now lane_count director pass workers crews.items
        (L.failed lines.old) }
    ensures lent { (result.lines.ghost_name ≡ lines.entry.ghost_name) × (result.clock.ghost_name ≡ clock.entry.ghost_name) }
    ensures managed { IsManaged (state S.Store) (shows O.kind_of O.runs_of O.refused_of O.taken) lanes.now lane_count director pass workers crews.items result.parted result.outcome result.results.items
        (λ told waits. L.tells lines.old told waits result.lines.now × C.gives clock.old (readings_in told) result.clock.now) ((result.lines.now ≡ lines.old) × (result.clock.now ≡ clock.old)) (L.failed result.lines.now) (L.over result.lines.now) }
    ensures keep { AreKept workers.keep result.parted.minutes (map (λ r. r.0) result.results.items) }
{
    let Workers {
        mut handles,
        passes,
        shares,
        keep,
    } = workers;
    let are_all = start_all(
        scope,
        rt,
        alloc,
        lanes,
        desk,
        &mut handles,
        passes,
        shares,
        crews,
        keep,
    );
    let started = Started {
        workers: handles.len(),
        are_all,
    };
    let Served { parted, outcome } = serve(
        rt, alloc, lanes, lane_count, started, director, pass, lines, clock, keep,
    );
    let results = join_all(rt, handles);
    Lent {
        parted,
        outcome,
        results,
        lines,
        clock,
    }
}
