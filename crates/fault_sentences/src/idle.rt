//! What a command does with runs, and sentences on one that was accepted and changed nothing.
//!
//! No contract holds this file: the sections `told` of `worked_scripts` show what it writes.
use crate::held::Done;
use crate::moments::DATES_HINT;
use crate::notes::{Rest, push_clock};
use crate::parts::Part::{Date, Text};
use crate::parts::say;
use cron_timetable::{Interval, Timetable};
use graph_file::Name;
use moment_core::Moment;
use sched_events::{Answer, Event};
use sched_state::{LoadedGraph, Run};
use script_reader::Schedule;
use std::alloc::{AllocError, Global};

// What a command does with the runs of a graph.
#[derive(Clone, Copy)]
pub(crate) enum Work {
    // Those that are not there are made.
    Backfill,
    // Those that are not there are made, and the others are set back.
    Reset,
    // The task instances that are named are set back.
    Clear,
    // Those of them alone that have failed.
    ClearFailed,
    // A task of one of them is passed over.
    Mark,
    // One is made by hand.
    Trigger,
}

impl Work {
    // Whether runs are made that are not there.
    pub fn makes_runs(self) -> bool {
        matches!(self, Work::Backfill | Work::Reset | Work::Trigger)
    }

    // What is to be said of the runs that are there, or of their task instances.
    fn text(self) -> &'static str {
        match self {
            Work::Backfill => "; --reset sets their task instances back",
            Work::Reset => ", and each task instance of these was in the state none",
            Work::Clear => "each task instance named was in the state none",
            Work::ClearFailed => "no task instance named was failed or upstream_failed",
            Work::Mark | Work::Trigger => "",
        }
    }
}

// What the schedule says beside an event that was done with runs of a graph: why it has changed nothing, or what holds its runs back.
pub(crate) fn done_rest(alloc: Global, event: &Event, answer: &Answer) -> Result<Rest, AllocError> {
    let Some((graph, from, to, work)) = work_of(event, answer) else {
        return Ok(Rest::Nothing);
    };
    let made = answer.made.as_slice().len();
    let done = Done {
        graph: graph.copy(alloc)?,
        from,
        to,
        work,
        made,
        alone: alone_in(alloc, event)?,
    };
    if made == 0 && answer.cleared == 0 && !matches!(work, Work::Mark) {
        Ok(Rest::Idle(done))
    } else {
        Ok(Rest::Done(done))
    }
}

// The task that a clear has named without what comes after it.
fn alone_in(alloc: Global, event: &Event) -> Result<Option<Name>, AllocError> {
    match event {
        Event::Clear(clearing) if !clearing.downstream => match &clearing.task {
            Some(task) => Ok(Some(task.copy(alloc)?)),
            None => Ok(None),
        },
        _ => Ok(None),
    }
}

// What an event was to do with the runs of which graph, from which date to which.
fn work_of<'a>(event: &'a Event, answer: &Answer) -> Option<(&'a Name, Moment, Moment, Work)> {
    match event {
        Event::Backfill {
            graph,
            from,
            to,
            reset,
        } => {
            let work = if *reset { Work::Reset } else { Work::Backfill };
            Some((graph, *from, *to, work))
        }
        Event::Clear(clearing) => {
            let work = if clearing.only_failed {
                Work::ClearFailed
            } else {
                Work::Clear
            };
            Some((&clearing.graph, clearing.from, clearing.to, work))
        }
        Event::Mark { graph, logical, .. } => Some((graph, *logical, *logical, Work::Mark)),
        Event::Trigger(graph) => {
            let logical = answer.made.as_slice().first()?.logical;
            Some((graph, logical, logical, Work::Trigger))
        }
        _ => None,
    }
}

impl Done {
    // Adds why nothing was changed, which the schedule after it says.
    pub fn push_why(&self, sentence: &mut String, schedule: &Schedule) -> Result<(), AllocError> {
        if !self.work.makes_runs() {
            return self.push_uncleared(sentence, schedule);
        }
        let Some(graph) = schedule.graph_of(&self.graph) else {
            return Ok(());
        };
        match self.first_interval(graph) {
            Some(first) => self.push_unfilled(sentence, schedule, first.end),
            None => self.push_no_interval(sentence, graph),
        }
    }

    // Adds why no run was made, where the first interval in the span ends at this moment.
    fn push_unfilled(
        &self,
        sentence: &mut String,
        schedule: &Schedule,
        end: Moment,
    ) -> Result<(), AllocError> {
        if schedule.now() < end {
            say(
                sentence,
                "no interval that starts in this span has ended: the first of them ends at {}, and only a tick moves the clock",
                &[Date(end)],
            )?;
        } else {
            say(
                sentence,
                "each interval that starts in this span and has ended has its run already{}",
                &[Text(self.work.text())],
            )?;
        }
        push_clock(sentence, schedule)
    }

    // The first interval of the graph's schedule that starts in the span.
    fn first_interval(&self, graph: &LoadedGraph) -> Option<Interval> {
        let spec = graph.dag.spec();
        let from = match spec.schedule {
            Timetable::Once if spec.start_date < self.from => return None,
            Timetable::Once => spec.start_date,
            _ => self.from,
        };
        let first = spec.schedule.interval_from(from)?;
        if first.start <= self.to {
            Some(first)
        } else {
            None
        }
    }

    // Adds that no interval of the graph's schedule starts in the span.
    fn push_no_interval(
        &self,
        sentence: &mut String,
        graph: &LoadedGraph,
    ) -> Result<(), AllocError> {
        match graph.dag.spec().schedule {
            Timetable::Never => say(
                sentence,
                "the graph's schedule is None, which has no intervals: trigger {} makes a run",
                &[Text(self.graph.as_str())],
            ),
            _ => say(
                sentence,
                "no interval of the graph's schedule starts from {} to {}: a day alone is its first second",
                &[Date(self.from), Date(self.to)],
            ),
        }
    }

    // Adds why no task instance was set back.
    fn push_uncleared(&self, sentence: &mut String, schedule: &Schedule) -> Result<(), AllocError> {
        let (text, hint) = if self.covers_one(schedule) {
            (
                "nothing was set back: in the graph's runs from {} to {} {}",
                self.work.text(),
            )
        } else {
            (
                "no run of the graph has a date from {} to {}: {}",
                DATES_HINT,
            )
        };
        say(
            sentence,
            text,
            &[Date(self.from), Date(self.to), Text(hint)],
        )
    }

    // Whether the command was about a run that is there.
    fn covers_one(&self, schedule: &Schedule) -> bool {
        for run in schedule.runs() {
            if self.covers(run) {
                return true;
            }
        }
        false
    }

    // Whether the command was about this run.
    pub fn covers(&self, run: &Run) -> bool {
        run.graph == self.graph && self.from <= run.logical && run.logical <= self.to
    }
}
