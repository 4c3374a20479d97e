//! What the next start finds.
ghost use Rattle.std.specs.Prelude.{◌≡◌, ℕ, false, IsTrue};
ghost use Rattle.sqlite_wal.specs.Recovery.{Image};
ghost use Rattle.sqlite.specs.Closing.{IsCopied};
ghost use Rattle.sqlite.specs.Effect.{Database, IsDatabase};
ghost use Rattle.sqlite.specs.Files.{file_state};
ghost use Rattle.sqlite.specs.State.{HasCleanDisk, Survives};
ghost use Rattle.sched_model.specs.Schedule.{Schedule};
ghost use Rattle.sched_state.specs.Limits.{Bounds};
ghost use Rattle.sched_events.specs.declared.events.Event.{Event};
ghost use Rattle.meta_store.specs.Stores.{Begins, CommitsBy, Migrates, OpensBy};
ghost use Rattle.director.specs.Directors.{RestartsIn, StepsIn};
ghost use Rattle.director.specs.Crashes.{IsConnection, IsFoundAround, IsLeftOf, IsOpenedOn, MayBeLeft};

use sqlite::{Connection, FileStore};
use sqlite_disk::{Disk, Files};

/// Databases with the same trees are one: the trees say the schema.
pub fn a_database_is_its_trees()
    ensures { (a b : Database) → IsDatabase a → IsDatabase b → a.trees ≡ b.trees → a ≡ b }
{}

/// Where a crash comes while no transaction is open, the next start finds just the database that was there.
pub fn the_next_start_finds_what_is_there<D: Disk, E: Disk>(
    before: &Connection<FileStore<D>>,
    found: &Connection<FileStore<E>>,
)
    ensures { (left : Image) → IsConnection before.now → HasCleanDisk (file_state before.now)
        → IsTrue (file_state before.now).is_open → before.now.in_transaction ≡ false
        → MayBeLeft before.now left → IsOpenedOn left found.now
        → ∥ (file_state found.now).now ≡ (file_state before.now).now ∥₁ }
{}

/// Where the files of a database were closed in order while no transaction was open (`IsCopied`), the next start finds just the database that was there, also
/// after a crash, and from the database file alone.
pub fn the_next_start_finds_what_was_closed<D: Disk, E: Disk>(
    closed: &Connection<FileStore<D>>,
    files: &Files<D>,
    found: &Connection<FileStore<E>>,
)
    ensures { (left : Image) → IsConnection closed.now → closed.now.in_transaction ≡ false
        → IsCopied closed.now files.now → IsLeftOf D.Disk files.now left
        → IsOpenedOn left found.now
        → ∥ (file_state found.now).now ≡ (file_state closed.now).now ∥₁ }
{}

/// After a crash in an event, in an opening, in a migration or in the making of a record (`crash` in `transacts` of `Director::step`, of `open`, of
/// `Store::migrate` and of `Store::create`), the next start finds the database before it, or one that it makes: one that stores the schedule after the event, or after the restart, if
/// the one before had that before; a record of version 2, if the one before was of version 1; or a new record, if the one before had nothing.
pub fn the_next_start_finds_before_or_after<D: Disk, E: Disk>(
    old: &Connection<FileStore<D>>,
    new: &Connection<FileStore<D>>,
    found: &Connection<FileStore<E>>,
)
    ensures event { (a : Schedule) (e : Event) (left : Image) → IsConnection old.now → IsTrue (file_state old.now).is_open
        → old.now.in_transaction ≡ false → IsConnection new.now → HasCleanDisk (file_state new.now)
        → Survives (file_state old.now) (file_state new.now) (CommitsBy (StepsIn e a) (file_state old.now))
        → MayBeLeft new.now left → IsOpenedOn left found.now
        → ∥ IsFoundAround (StepsIn e a) (file_state old.now).now (file_state found.now).now ∥₁ }
    ensures opening { (limits : Bounds) (lanes : ℕ) (left : Image) → IsConnection old.now → IsTrue (file_state old.now).is_open
        → old.now.in_transaction ≡ false → IsConnection new.now → HasCleanDisk (file_state new.now)
        → Survives (file_state old.now) (file_state new.now) (CommitsBy (OpensBy (RestartsIn limits lanes)) (file_state old.now))
        → MayBeLeft new.now left → IsOpenedOn left found.now
        → ∥ IsFoundAround (OpensBy (RestartsIn limits lanes)) (file_state old.now).now (file_state found.now).now ∥₁ }
    ensures migrating { (left : Image) → IsConnection old.now → IsTrue (file_state old.now).is_open
        → old.now.in_transaction ≡ false → IsConnection new.now → HasCleanDisk (file_state new.now)
        → Survives (file_state old.now) (file_state new.now) (CommitsBy Migrates (file_state old.now))
        → MayBeLeft new.now left → IsOpenedOn left found.now
        → ∥ IsFoundAround Migrates (file_state old.now).now (file_state found.now).now ∥₁ }
    ensures making { (left : Image) → IsConnection old.now → IsTrue (file_state old.now).is_open
        → old.now.in_transaction ≡ false → IsConnection new.now → HasCleanDisk (file_state new.now)
        → Survives (file_state old.now) (file_state new.now) (CommitsBy Begins (file_state old.now))
        → MayBeLeft new.now left → IsOpenedOn left found.now
        → ∥ IsFoundAround Begins (file_state old.now).now (file_state found.now).now ∥₁ }
{}
