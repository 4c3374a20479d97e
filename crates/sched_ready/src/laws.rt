//! The law of patches.
ghost use Rattle.std.specs.Prelude.{List};
ghost use Rattle.sched_model.specs.Schedule.{Schedule};
ghost use Rattle.sched_ready.specs.Held.{AreShelvesOf, IsLater};
ghost use Rattle.sched_ready.specs.Patched.{ArePatches, patched};
ghost use Rattle.sched_ready.specs.Shelves.{ShelfValue};
ghost use Rattle.sched_ready.specs.declared.patches.Patch.{Patch};

/// Whatever shelves hold what is due in one schedule, with the patches for another they hold what is due in that one.
pub fn patched_shelves_are_of_what_follows()
    ensures { (a b : Schedule) (ps : List Patch) (ss : List ShelfValue)
        → AreShelvesOf a.now a.graphs a.runs ss → ArePatches a b ps → IsLater a b
        → AreShelvesOf b.now a.graphs b.runs (patched ps ss) }
{}
