//! Scripts run by teams: for each worker a list of operators, and a gate.
ghost use Rattle.std.specs.Prelude.{◌≡◌, ◌≤◌, All, IfErr, IfOk, IsTrue, length, map};
ghost use Rattle.std.specs.Io.KnownBytes.{Appends};
ghost use Rattle.sqlite.specs.Held.{state};
ghost use Rattle.sqlite.specs.State.{HasCleanDisk, Survives};
ghost use Rattle.operators.specs.Kits.{IsKit};
ghost use Rattle.sched_state.specs.Limits.{ceilings};
ghost use Rattle.conduct.specs.Ends.{AreKept};
ghost use Rattle.conduct.specs.sessions.director.Directors.{RestartsIn};
ghost use Rattle.conduct.specs.sessions.director.Faults.{IsGivenFault, IsOpenFault, IsRefused};
ghost use Rattle.conduct.specs.sessions.director.meta_store.Stores.{CommitsBy, IsKeptOrMigrated, Migrates, OpensBy};
ghost use Rattle.workers.specs.Shows.{shows};
ghost use Rattle.script_runner.specs.Teams.{AreKitsOf, IsTeamRun, IsWhole};

use crate::running::{Ran, RunOptions, Unopened, run_on};
use conduct::{Clock, Fault, Store};
use operators::{Kit, Operator};
use script_reader::{Console, Script, Sources};
use sqlite::Alter;
use std::alloc::{AllocError, Global};
use std::io::{BufRead, Write};
use std::sync::Wait;
use std::thread::Threads;
use workers::{Crew, Gate};

/// Runs a script on a record with a worker for each of these lists of operators, of which each has one of each kind: what `run_on` does with crews of
/// such kits.
pub fn run_team<
    S: Alter + Drop,
    G: Gate + Send,
    O: Operator + Send,
    R: BufRead + Drop,
    W: Write + Drop,
    F: Sources,
    P: Console,
    C: Clock,
    T: Threads + Wait + Sync,
>(
    rt: &T,
    alloc: Global,
    store: Store<S>,
    options: RunOptions,
    team: Vec<(Vec<O>, G)>,
    script: Script<R, W, F, P>,
    clock: &mut C,
) -> Result<Ran<S, G, O, F, W>, Unopened<S, R, W, F, P>>
    requires lanes { options.lanes ≤ 64 }
    requires workers { length team.items ≤ 16 }
    requires whole { All (λ w. IsWhole O.kind_of w.0.items) team.items }
    ensures run { IfOk result (λ ran. IsTeamRun (state S.Store) (shows O.kind_of O.runs_of O.refused_of O.taken) (R.Read.remaining script.input)
        (λ given. F.gives script.sources given ran.sources) (λ moments. C.gives clock.old moments clock.new)
        (λ shown. Appends (W.contents script.output) (W.contents ran.output) shown)
        ((ran.sources ≡ script.sources) × (clock.new ≡ clock.old)) options.lanes (map (λ w. w.0.items) team.items) (state S.Store store) ran.store ran.minutes.items ran.ends.items ran.outcome ran.told ran.status) }
    ensures keep { IfOk result (λ ran. AreKept options.keep ran.minutes ran.ends.items) }
    ensures fault { IfErr result (λ e. HasCleanDisk (state S.Store e.store)
        → IsOpenFault ceilings 0 (state S.Store store).now e.fault) }
    ensures given { IfErr result (λ e. HasCleanDisk (state S.Store e.store)
        → IsGivenFault (state S.Store store) (state S.Store e.store) e.fault) }
    ensures kept { IfErr result (λ e. HasCleanDisk (state S.Store e.store)
        → IsTrue (state S.Store e.store).is_open
        → IsKeptOrMigrated (state S.Store store) (state S.Store e.store)) }
    ensures crash { IfErr result (λ e. Survives (state S.Store store) (state S.Store e.store)
        (CommitsBy (OpensBy (RestartsIn ceilings 0)) (state S.Store store))) }
    ensures refused_crash { IfErr result (λ e. IsRefused e.fault
        → Survives (state S.Store store) (state S.Store e.store)
        (CommitsBy Migrates (state S.Store store))) }
    ensures untouched { IfErr result (λ e. (e.script.input ≡ script.input) × (e.script.output ≡ script.output)
        × (e.script.sources ≡ script.sources) × (e.script.console ≡ script.console) × (clock.new ≡ clock.old)) }
{
    let Ok(crews) = make_crews(alloc, team) else {
        return Err(Unopened {
            store,
            fault: Fault::Memory,
            script,
        });
    };
    run_on(rt, alloc, store, options, crews, script, clock)
}

// A crew for each list of operators.
fn make_crews<G: Gate, O: Operator>(
    alloc: Global,
    team: Vec<(Vec<O>, G)>,
) -> Result<Vec<Crew<G, O>>, AllocError>
    requires { All (λ w. IsWhole O.kind_of w.0.items) team.items }
    ensures kits { IfOk result (λ crews. All (λ c. IsKit O.kind_of c.kit) crews.items) }
    ensures made { IfOk result (λ crews. AreKitsOf O.kind_of (map (λ w. w.0.items) team.items) (map (λ c. c.kit) crews.items)) }
    ensures count { IfOk result (λ crews. length crews.items ≡ length team.items) }
{
    let mut crews = Vec::new(alloc);
    for (operators, gate) in team {
        let Ok(kit) = Kit::new(operators) else {
            unreachable!()
        };
        crews.push(Crew { kit, gate })?;
    }
    Ok(crews)
}
