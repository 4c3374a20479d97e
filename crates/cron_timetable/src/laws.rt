//! Laws of the definitions: each is the contract of an empty function, so that the gate proves it.
ghost use Rattle.std.specs.Prelude.{◌≡◌, ℕ, ◌<◌, ◌≤◌, Bool, false, List, Option};
ghost use Rattle.cron_timetable.specs.Sets.{has, set_of};
ghost use Rattle.cron_timetable.specs.Fields.{Fields};
ghost use Rattle.cron_timetable.specs.Ticks.{IsNextTick, IsLastTick};
ghost use Rattle.cron_timetable.specs.Intervals.{IntervalFrom, ManualInterval};
ghost use Rattle.cron_timetable.specs.Grammar.{IsRead, FaultOf};
ghost use Rattle.cron_timetable.specs.declared.faults.CronFault.{CronFault};
ghost use Rattle.cron_timetable.specs.declared.timetables.Interval.{Interval};
ghost use Rattle.cron_timetable.specs.declared.timetables.Timetable.{Timetable};

/// A set holds exactly those numbers below 64 that pass the test that it is made of.
pub fn a_set_holds_what_passes()
    ensures below { (p : ℕ → Bool) (n : ℕ) → n < 64 → has (set_of p) n ≡ p n }
    ensures above { (p : ℕ → Bool) (n : ℕ) → 64 ≤ n → has (set_of p) n ≡ false }
{}

/// A text is read as one expression, or refused for one fault, and never both.
pub fn a_text_has_one_reading()
    ensures read { (text : List ℕ) (c d : Fields) → IsRead text c → IsRead text d → c ≡ d }
    ensures refused { (text : List ℕ) (e f : CronFault) → FaultOf text e → FaultOf text f → e ≡ f }
    ensures never_both { (text : List ℕ) (c : Fields) (e : CronFault) → IsRead text c
        → FaultOf text e → ⊥ }
{}

/// A search has one answer.
pub fn a_search_has_one_answer()
    ensures next { (c : Fields) (t : ℕ) (r s : Option ℕ) → IsNextTick c t r → IsNextTick c t s
        → r ≡ s }
    ensures last { (c : Fields) (t : ℕ) (r s : Option ℕ) → IsLastTick c t r → IsLastTick c t s
        → r ≡ s }
{}

/// A timetable has one interval from a moment on, and one for a run by hand.
pub fn a_timetable_has_one_interval()
    ensures from { (x : Timetable) (t : ℕ) (r s : Option Interval) →
        IntervalFrom x t r → IntervalFrom x t s → r ≡ s }
    ensures manual { (x : Timetable) (t : ℕ) (r s : Option Interval) →
        ManualInterval x t r → ManualInterval x t s → r ≡ s }
{}
