//! A script that is run on a record, by workers.
ghost use Rattle.std.specs.Prelude.{◌≡◌, ◌≤◌, true, All, IfOk, IfErr, IsTrue, OnOk, length, map};
ghost use Rattle.std.specs.Io.KnownBytes.{Appends};
ghost use Rattle.sqlite.specs.Held.{state};
ghost use Rattle.sqlite.specs.State.{HasCleanDisk, Survives};
ghost use Rattle.operators.specs.Kits.{IsKit};
ghost use Rattle.sched_state.specs.Limits.{ceilings};
ghost use Rattle.conduct.specs.Ends.{AreKept};
ghost use Rattle.conduct.specs.sessions.director.Directors.{RestartsIn};
ghost use Rattle.conduct.specs.sessions.director.Faults.{IsGivenFault, IsOpenFault, IsRefused};
ghost use Rattle.conduct.specs.sessions.director.meta_store.Stores.{CommitsBy, IsKeptOrMigrated, Migrates, OpensBy};
ghost use Rattle.script_reader.specs.Ends.{end_status, last_text};
ghost use Rattle.workers.specs.Shows.{shows};
ghost use Rattle.script_runner.specs.Runs.{IsRun};

use conduct::{
    Clock, ConductFault, Conducted, Director, Fault, Keep, Kept, Limits, Store, conduct,
};
use operators::Operator;
use sched_events::Event;
use script_reader::{Closed, Console, Script, ScriptReader, Sources};
use slot_desk::Total;
use sqlite::Alter;
use std::alloc::Global;
use std::io::{BufRead, Read, Write};
use std::sync::Wait;
use std::thread::Threads;
use workers::{Crew, Gate, WorkerEnd};

/// How a script is run.
#[derive(Clone, Copy, Debug, PartialEq, Eq)]
pub struct RunOptions {
    /// The most tries that may be in flight, at most 64. With none nothing is handed out.
    pub lanes: u32,
    /// Whether the accepted events and the workers' logs are kept, for whoever reads them in the end. Then each event and each try takes memory.
    pub keep: Keep,
}

/// What came of a script.
#[derive(Drop)]
pub struct Ran<S: Alter, G: Gate, O: Operator, F: Sources, W: Write + Drop> {
    /// The record.
    pub store: Store<S>,
    /// How it went: the greatest status of the answers and of the end. 0 where all was accepted, 1 where an event was refused or a question has no
    /// answer, 2 where a line is no command, 3 for a fault of the record, 4 for any other.
    pub status: u8,
    /// Whether all that was put where the answers go is written: the answers, and the line of the fault that the run ended with.
    pub told: bool,
    /// The events that were accepted, in their order, from the restart on.
    pub minutes: Kept<Event>,
    /// What became of the crews, in their order, also where the run ended with a fault. Before an event was stepped there may be none.
    pub ends: Vec<WorkerEnd<G, O>>,
    /// What the desk held, or why the run ended otherwise.
    pub outcome: Result<Total, ConductFault>,
    /// Where the texts of `load PATH` and `replace PATH` came from.
    pub sources: F,
    /// Where the answers went.
    pub output: W,
}

/// A record that was not opened, so that no script was run on it. It is as it was, or of version 2 where it was of version 1.
#[derive(Drop)]
pub struct Unopened<S: Alter, R: Read + Drop, W: Write + Drop, F: Sources, P: Console> {
    /// The record.
    pub store: Store<S>,
    /// Why it is not opened.
    pub fault: Fault,
    /// The script, of which nothing was read or answered.
    pub script: Script<R, W, F, P>,
}

/// Opens a record within the greatest limits, without lanes, which makes one of version 1 one of version 2, and runs a script on it with workers, one for
/// each crew, each on a thread of its own.
///
/// The output is flushed before each command is read. The script's console tells a person what the answers do not. Where the record is not opened, it is
/// given back with the script, and the script, its sources and the clock are as they were.
pub fn run_on<
    S: Alter + Drop,
    G: Gate + Send,
    O: Operator + Send,
    R: BufRead + Drop,
    W: Write + Drop,
    F: Sources,
    P: Console,
    C: Clock,
    T: Threads + Wait + Sync,
>(
    rt: &T,
    alloc: Global,
    store: Store<S>,
    options: RunOptions,
    crews: Vec<Crew<G, O>>,
    script: Script<R, W, F, P>,
    clock: &mut C,
) -> Result<Ran<S, G, O, F, W>, Unopened<S, R, W, F, P>>
    requires lanes { options.lanes ≤ 64 }
    requires crews { length crews.items ≤ 16 }
    requires kits { All (λ c. IsKit O.kind_of c.kit) crews.items }
    ensures run { IfOk result (λ ran. IsRun (state S.Store) (shows O.kind_of O.runs_of O.refused_of O.taken) (R.Read.remaining script.input)
        (λ given. F.gives script.sources given ran.sources) (λ moments. C.gives clock.old moments clock.new)
        (λ shown. Appends (W.contents script.output) (W.contents ran.output) shown)
        ((ran.sources ≡ script.sources) × (clock.new ≡ clock.old)) options.lanes (map (λ c. c.kit) crews.items) (state S.Store store) ran.store ran.minutes.items ran.ends.items ran.outcome ran.told ran.status) }
    ensures keep { IfOk result (λ ran. AreKept options.keep ran.minutes ran.ends.items) }
    ensures fault { IfErr result (λ e. HasCleanDisk (state S.Store e.store)
        → IsOpenFault ceilings 0 (state S.Store store).now e.fault) }
    ensures given { IfErr result (λ e. HasCleanDisk (state S.Store e.store)
        → IsGivenFault (state S.Store store) (state S.Store e.store) e.fault) }
    ensures kept { IfErr result (λ e. HasCleanDisk (state S.Store e.store)
        → IsTrue (state S.Store e.store).is_open
        → IsKeptOrMigrated (state S.Store store) (state S.Store e.store)) }
    ensures crash { IfErr result (λ e. Survives (state S.Store store) (state S.Store e.store)
        (CommitsBy (OpensBy (RestartsIn ceilings 0)) (state S.Store store))) }
    ensures refused_crash { IfErr result (λ e. IsRefused e.fault
        → Survives (state S.Store store) (state S.Store e.store)
        (CommitsBy Migrates (state S.Store store))) }
    ensures untouched { IfErr result (λ e. (e.script.input ≡ script.input) × (e.script.output ≡ script.output)
        × (e.script.sources ≡ script.sources) × (e.script.console ≡ script.console) × (clock.new ≡ clock.old)) }
{
    let mut reader = match ScriptReader::new(alloc, script) {
        Ok(reader) => reader,
        Err(script) => {
            return Err(Unopened {
                store,
                fault: Fault::Memory,
                script,
            });
        }
    };
    match Director::open(alloc, store, 0, Limits::full()) {
        Ok(director) => {
            // what is known of the schedule that was opened
            let _ = director.schedule().runs();
            let conducted = conduct(
                rt,
                alloc,
                director,
                options.lanes,
                crews,
                &mut reader,
                clock,
                options.keep,
            );
            Ok(close(reader, conducted))
        }
        Err((store, fault)) => Err(Unopened {
            store,
            fault,
            script: reader.into_script(),
        }),
    }
}

// Ends a script that was run.
fn close<
    S: Alter,
    G: Gate,
    O: Operator,
    R: BufRead + Drop,
    W: Write + Drop,
    F: Sources,
    P: Console,
>(reader: ScriptReader<R, W, F, P>, conducted: Conducted<S, G, O>) -> Ran<S, G, O, F, W>
    ensures store { result.store ≡ conducted.director.store }
    ensures told { result.told ≡ true → (reader.answers.is_written ≡ true)
        × Appends (W.contents reader.answers.output) (W.contents result.output) (last_text conducted.outcome) }
    ensures well { OnOk conducted.outcome (result.told ≡ reader.answers.is_written) }
    ensures status { result.status ≡ end_status result.told reader.answers.status conducted.outcome }
    ensures minutes { result.minutes ≡ conducted.minutes }
    ensures ends { result.ends ≡ conducted.ends }
    ensures outcome { result.outcome ≡ conducted.outcome }
    ensures sources { result.sources ≡ reader.sources }
{
    let Conducted {
        director,
        minutes,
        ends,
        outcome,
    } = conducted;
    let Closed {
        status,
        told,
        sources,
        output,
    } = reader.close(director.schedule(), &outcome);
    Ran {
        store: director.close(),
        status,
        told,
        minutes,
        ends,
        outcome,
        sources,
        output,
    }
}
