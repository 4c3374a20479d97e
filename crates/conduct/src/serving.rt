//! A session is served while workers run, and the workers are then stopped.
ghost use Rattle.std.specs.Prelude.{◌≡◌, ◌≤◌, [], Err, true, false, None, MatchBool};
ghost use Rattle.sqlite.specs.Held.{state};
ghost use Rattle.ruled_dispatch.specs.Lanes.{sent_of, heard_of, IsDirectorOf};
ghost use Rattle.sessions.specs.History.{readings_in};
ghost use Rattle.conduct.specs.Faults.{all_started};
ghost use Rattle.conduct.specs.Served.{IsFollowed, IsServed};
ghost use Rattle.sessions.specs.declared.faults.ConductFault.TheVariants as fault;

use kept::Keep;
use ruled_dispatch::{DirectorPass, Lanes};
use sessions::{Clock, ConductFault, Director, Lines, Parted, Session};
use sqlite::Alter;
use std::alloc::Global;
use std::sync::Wait;

/// How many workers were started, and whether these are all.
#[derive(Clone, Copy, Debug, PartialEq, Eq)]
pub(crate) struct Started {
    pub workers: usize,
    pub are_all: bool,
}

/// What is left of a session that was served, and how it ended.
#[derive(Drop)]
pub struct Served<S: Alter> {
    pub parted: Parted<S>,
    pub outcome: Result<(), ConductFault>,
}

/// Serves a session of the director, if all workers were started, and sends each that was a stop. `keep` says whether the minutes are kept. The session borrows
/// the lanes, so it is made and taken apart here.
pub(crate) fn serve<S: Alter, L: Lines<S>, C: Clock, R: Wait>(
    rt: &R,
    alloc: Global,
    lanes: &Lanes,
    lane_count: u32,
    started: Started,
    director: Director<S>,
    pass: DirectorPass,
    lines: &mut L,
    clock: &mut C,
    keep: Keep,
) -> Served<S>
    requires pass { IsDirectorOf lanes.now pass }
    requires unused { (sent_of pass ≡ []) × (heard_of pass ≡ []) }
    requires lanes { lane_count ≤ director.schedule.content.limits.lanes }
    requires sound { L.failed lines.old ≡ None }
    ensures served { IsServed (state S.Store) lanes.now lane_count started.workers director pass result.parted result.outcome
        (λ told waits. L.tells lines.old told waits lines.new × C.gives clock.old (readings_in told) clock.new) ((lines.new ≡ lines.old) × (clock.new ≡ clock.old)) (L.failed lines.new) (L.over lines.new) }
    ensures all { all_started result.outcome ≡ true → started.are_all ≡ true }
    ensures keep { result.parted.minutes.keep ≡ keep }
{
    let mut session = Session::new(alloc, director, lanes, pass, keep);
    let outcome = serve_all(
        rt,
        alloc,
        lane_count,
        started.are_all,
        &mut session,
        lines,
        clock,
    );
    session.stop(rt, started.workers);
    Served {
        parted: session.part(),
        outcome,
    }
}

// Serves the session, if all workers were started.
fn serve_all<S: Alter, L: Lines<S>, C: Clock, R: Wait>(
    rt: &R,
    alloc: Global,
    lane_count: u32,
    are_all: bool,
    session: &mut Session<'_, S>,
    lines: &mut L,
    clock: &mut C,
) -> Result<(), ConductFault>
    requires lanes { lane_count ≤ session.old.stepper.director.schedule.content.limits.lanes }
    requires sound { L.failed lines.old ≡ None }
    ensures { MatchBool are_all
        (IsFollowed (state S.Store) lane_count L.tells C.gives session.old session.new lines.old lines.new clock.old clock.new (L.failed lines.new) (L.over lines.new) result)
        ((session.new ≡ session.old) × (lines.new ≡ lines.old) × (clock.new ≡ clock.old) × (result ≡ Err fault.SpawnRefused)) }
{
    if !are_all {
        return Err(ConductFault::SpawnRefused);
    }
    session.serve(rt, alloc, lane_count, lines, clock)
}
