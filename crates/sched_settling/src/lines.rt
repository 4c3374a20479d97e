//! What is known of the runs of one graph.
ghost use Rattle.std.specs.Prelude.{◌≡◌, ◌+◌, ◌<◌, [], ◌∷◌, true, IfSome, MatchOption, MatchResult, length};
ghost use Rattle.sched_model.specs.Lists.{rises};
ghost use Rattle.sched_settling.specs.Marks.{DatesRise, IsGapFor, IsLineAt, IsNextDate, NoDate, IsTouchedFirst, KeptComesFirst, comes_first, dates_from, dates_left, id_before, ids_of, kept_dates};

use graph_file::Name;
use moment_core::Moment;
use run_lists::Runs;
use std::collections::VecDeque;

/// Of the graph with this id: how many of its runs are running, and at which logical dates its queued ones may stand. These are the kept dates, and
/// those of touched runs. The kept dates are read where they are needed: they are those of the runs of the schedule under the draft at
/// the kept positions, from a place on.
#[derive(Drop)]
pub(crate) struct GraphRuns<'a> {
    pub id: &'a Name,
    pub active: usize,
    pub runs: &'a Runs,
    pub kept: &'a [usize],
    pub from: usize,
    pub touched: VecDeque<Moment>,
}

// The place of the line of the graph with this id, by a binary search, or the one at which it would stand.
pub(crate) fn place_of(lines: &[GraphRuns<'_>], id: &Name) -> Result<usize, usize>
    requires { rises id_before (ids_of lines.now) ≡ true }
    ensures { MatchResult result (IsLineAt lines.now id.now) (IsGapFor lines.now id.now) }
{
    lines.binary_search_by(|line| line.id.cmp(id))
}

// The first kept date that is left.
fn kept_date(line: &GraphRuns<'_>) -> Option<Moment>
    requires { DatesRise line.now }
    ensures date { MatchOption result (kept_dates line.now ≡ [])
        (λ date. kept_dates line.now ≡ date ∷ dates_from line.now (line.now.from + 1)) }
    ensures inside { IfSome result (λ date. line.now.from < length line.now.kept.now) }
{
    let position = *line.kept.get(line.from)?;
    Some(line.runs.get(position).logical)
}

// Whether the date comes before the kept ones that are left.
fn comes_first(line: &GraphRuns<'_>, date: Moment) -> bool
    requires { DatesRise line.now }
    ensures { result ≡ comes_first date (kept_dates line.now) }
{
    match kept_date(line) {
        Some(kept) => date < kept,
        None => true,
    }
}

// The first touched date, where it comes before the kept ones that are left.
fn touched_date(line: &GraphRuns<'_>) -> Option<Moment>
    requires { DatesRise line.now }
    ensures { MatchOption result (KeptComesFirst line.now) (IsTouchedFirst line.now) }
{
    let date = *line.touched.front()?;
    if comes_first(line, date) {
        Some(date)
    } else {
        None
    }
}

// The first of the dates that are left, which is taken out.
pub(crate) fn take_date(line: &mut GraphRuns<'_>) -> Option<Moment>
    requires { DatesRise line.old }
    ensures id { line.new.id.now ≡ line.old.id.now }
    ensures active { line.new.active ≡ line.old.active }
    ensures rise { DatesRise line.new }
    ensures next { MatchOption result (NoDate line.old) (IsNextDate line.old line.new) }
    ensures fewer { IfSome result (λ date. dates_left line.new < dates_left line.old) }
{
    if let Some(date) = touched_date(line) {
        line.touched.pop_front();
        return Some(date);
    }
    let date = kept_date(line)?;
    line.from += 1;
    Some(date)
}
