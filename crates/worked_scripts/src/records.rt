//! A schedule and its record, and whether they are the same at the end.
use crate::recording::Recorder;
use crate::replaying::{are_led_to, is_read_as, made_by, shown};
use director::{Director, Fault};
use meta_store::Store;
use sched_core::{Answer, Event, Limits, Schedule};
use sqlite::Alter;
use std::alloc::{AllocError, Global};
use std::{io, mem};

/// A schedule and its record, with the events that were done to them.
#[derive(Drop)]
pub(crate) struct Directed<S: Alter> {
    director: Director<S>,
    limits: Limits,
    events: Vec<Event>,
}

impl<S: Alter + Drop> Directed<S> {
    /// A new record, before the first event.
    pub fn new<R: Recorder<Pages = S>>(
        alloc: Global,
        recorder: &R,
        limits: Limits,
    ) -> Result<Directed<S>, AllocError> {
        Ok(Directed {
            director: new_or_again(alloc, recorder, limits)?,
            limits,
            events: Vec::new(alloc),
        })
    }

    /// A record of its own that the same events have made.
    pub fn record<R: Recorder<Pages = S>>(
        &self,
        alloc: Global,
        recorder: &R,
    ) -> Result<Store<S>, AllocError> {
        made_by(
            alloc,
            new_director(alloc, recorder, self.limits)?,
            &self.events,
        )
    }

    /// The schedule.
    pub fn schedule(&self) -> &Schedule {
        self.director.schedule()
    }

    /// The limits within which it began.
    pub fn limits(&self) -> Limits {
        self.limits
    }

    /// The answer to the restart by which the record was opened.
    pub fn opened(&self) -> &Answer {
        self.director.opened()
    }

    /// Does an event, and keeps a copy of it.
    pub fn step(&mut self, alloc: Global, event: &Event) -> Result<Answer, Fault> {
        self.keep(alloc, event)?;
        let answered = self.director.step(alloc, event);
        if answered.is_err() {
            self.events.pop();
        }
        answered
    }

    fn keep(&mut self, alloc: Global, event: &Event) -> Result<(), AllocError> {
        self.events.push(event.copy(alloc)?)?;
        Ok(())
    }

    /// Closes the record, and opens it again with so many lanes, and once more where memory ran out.
    pub fn reopened(self, alloc: Global, lanes: u32) -> Result<Directed<S>, AllocError> {
        let Directed {
            director,
            limits,
            events,
        } = self;
        Ok(Directed {
            director: reopened_or_again(alloc, director, lanes, limits)?,
            limits,
            events: with_restart(events, lanes)?,
        })
    }

    // Whether the record is read back as the schedule, and the same events in one list lead to it too; none if no event was done to it.
    fn is_kept<R: Recorder<Pages = S>>(
        self,
        alloc: Global,
        recorder: &R,
    ) -> io::Result<Option<bool>> {
        if self.events.is_empty() {
            return Ok(None);
        }
        let shown = shown(alloc, self.schedule())?;
        self.leads_to(alloc, recorder, &shown).map(Some)
    }

    // Whether the record is read back as what is shown, and the same events in one list lead to it too.
    fn leads_to<R: Recorder<Pages = S>>(
        self,
        alloc: Global,
        recorder: &R,
        shown: &[u8],
    ) -> io::Result<bool> {
        let Directed {
            director,
            limits,
            events,
        } = self;
        Ok(
            is_read_as(alloc, director.close(), limits, shown)?
                && are_led_to(alloc, recorder, limits, &events, shown)?,
        )
    }
}

/// How many records came to their end, and how many of these were kept.
#[derive(Clone, Copy)]
pub(crate) struct Tally {
    pub ended: u64,
    pub kept: u64,
}

impl Tally {
    /// None.
    pub fn new() -> Tally {
        Tally { ended: 0, kept: 0 }
    }

    // With one more, if it was one to which an event was done.
    fn with(self, is_kept: Option<bool>) -> Tally {
        match is_kept {
            Some(is_kept) => Tally {
                ended: self.ended.saturating_add(1),
                kept: self.kept.saturating_add(u64::from(is_kept)),
            },
            None => self,
        }
    }
}

/// The record at hand, and what became of those before it.
#[derive(Drop)]
pub(crate) struct Records<S: Alter> {
    pub directed: Directed<S>,
    tally: Tally,
}

impl<S: Alter + Drop> Records<S> {
    /// A first record within the greatest limits.
    pub fn new<R: Recorder<Pages = S>>(
        alloc: Global,
        recorder: &R,
        tally: Tally,
    ) -> Result<Records<S>, AllocError> {
        Ok(Records {
            directed: Directed::new(alloc, recorder, Limits::full())?,
            tally,
        })
    }

    /// Ends the record at hand, and begins a new one within these limits.
    pub fn begin<R: Recorder<Pages = S>>(
        &mut self,
        alloc: Global,
        recorder: &R,
        limits: Limits,
    ) -> io::Result<()> {
        let next = Directed::new(alloc, recorder, limits)?;
        let last = mem::replace(&mut self.directed, next);
        self.tally = self.tally.with(last.is_kept(alloc, recorder)?);
        Ok(())
    }

    /// Ends the record at hand: what became of all.
    pub fn end<R: Recorder<Pages = S>>(self, alloc: Global, recorder: &R) -> io::Result<Tally> {
        let Records { directed, tally } = self;
        Ok(tally.with(directed.is_kept(alloc, recorder)?))
    }
}

// A director with a new record, which is made again where memory ran out.
fn new_or_again<R: Recorder>(
    alloc: Global,
    recorder: &R,
    limits: Limits,
) -> Result<Director<R::Pages>, AllocError> {
    match new_director(alloc, recorder, limits) {
        Err(_) => new_director(alloc, recorder, limits),
        made => made,
    }
}

/// A director with a new record.
pub(crate) fn new_director<R: Recorder>(
    alloc: Global,
    recorder: &R,
    limits: Limits,
) -> Result<Director<R::Pages>, AllocError> {
    opened(alloc, recorder.create(alloc)?, 0, limits)
}

fn opened<S: Alter + Drop>(
    alloc: Global,
    store: Store<S>,
    lanes: u32,
    limits: Limits,
) -> Result<Director<S>, AllocError> {
    match Director::open(alloc, store, lanes, limits) {
        Ok(director) => Ok(director),
        Err(_) => Err(AllocError),
    }
}

// The director that opens its record again.
fn reopened_or_again<S: Alter + Drop>(
    alloc: Global,
    director: Director<S>,
    lanes: u32,
    limits: Limits,
) -> Result<Director<S>, AllocError> {
    match director.reopen(alloc, lanes) {
        Ok(director) => Ok(director),
        Err((store, _)) => opened(alloc, store, lanes, limits),
    }
}

// These events, and a restart with so many lanes.
fn with_restart(events: Vec<Event>, lanes: u32) -> Result<Vec<Event>, AllocError> {
    let mut more = events;
    if more.reserve(1).is_err() {
        more.reserve(1)?;
    }
    more.push(Event::Restart(lanes))?;
    Ok(more)
}
