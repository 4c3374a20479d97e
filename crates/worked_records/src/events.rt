//! The worked events: a graph of one task, and its past days by backfills; and those of a graph of which a task is tried again.
use sched_core::{Event, GraphText, Moment, Name, Outcome, Slots, Stage};
use std::alloc::{AllocError, Global};

const GRAPH: &str = "dag_id = \"one\"
schedule = \"@daily\"
start_date = \"2024-02-01\"
[[task]]
task_id = \"t\"
operator = \"noop\"";

const RETRIED: &str = "dag_id = \"one\"
schedule = \"@daily\"
start_date = \"2024-01-01\"
[[task]]
task_id = \"t\"
operator = \"noop\"
pool = \"p\"
retries = 3
retry_delay = 0
[[task]]
task_id = \"u\"
operator = \"noop\"
upstream = [\"t\"]";

// The load of a graph, the tick, the backfill of three runs, and the report that a try has begun: their places in the worked events.
const PLACES: [usize; 4] = [1, 2, 4, 6];

/// Four lanes; a graph that begins in February, taken in on 10 January; its run of 2 January, then those of 1 to 3 January, twice; the
/// start of the first try. Then a backfill that would set a try in flight back, and one whose span ends before it begins: these are refused.
pub(crate) fn worked_events(alloc: Global) -> Result<Vec<Event>, AllocError> {
    let mut events = Vec::new(alloc);
    events.push(Event::Restart(4))?;
    events.push(Event::Load(GraphText::new(alloc, GRAPH)?))?;
    events.push(Event::Tick(moment("2024-01-10")))?;
    push_backfills(alloc, &mut events)?;
    events.push(Event::Report(1, Stage::Started))?;
    push_refused(alloc, &mut events)?;
    Ok(events)
}

/// Those of the worked events that change rows, once each.
pub(crate) fn changing_events(alloc: Global) -> Result<Vec<Event>, AllocError> {
    let mut events = Vec::new(alloc);
    for (place, event) in worked_events(alloc)?.into_iter().enumerate() {
        if PLACES.contains(&place) {
            events.push(event)?;
        }
    }
    Ok(events)
}

/// A pool, and a graph with a task in it that is tried again at once; the tick by which its first run is made; the first try of the task, which
/// fails, so that a second one is handed out; and a run by hand, whose try is handed out too.
pub(crate) fn retried_events(alloc: Global) -> Result<Vec<Event>, AllocError> {
    let mut events = Vec::new(alloc);
    if let Some(size) = Slots::new(2) {
        events.push(Event::Resize(name(alloc, "p")?, size))?;
    }
    events.push(Event::Load(GraphText::new(alloc, RETRIED)?))?;
    events.push(Event::Tick(moment("2024-01-02")))?;
    events.push(Event::Report(1, Stage::Started))?;
    events.push(Event::Report(1, Stage::Ended(Outcome::Failed)))?;
    events.push(Event::Trigger(name(alloc, "one")?))?;
    Ok(events)
}

/// What an event is called.
pub(crate) fn name_of(event: &Event) -> &'static str {
    match event {
        Event::Load(_) => "load",
        Event::Tick(_) => "tick",
        Event::Trigger(_) => "trigger",
        Event::Backfill { .. } => "backfill",
        Event::Clear(_) => "clear",
        Event::Pause(_) => "pause",
        Event::Unpause(_) => "unpause",
        Event::Resize(_, _) => "resize",
        Event::Report(_, _) => "report",
        Event::Restart(_) => "restart",
        Event::Replace(_) => "replace",
        Event::Mark { .. } => "mark",
    }
}

/// Whether a line may name the event: it is no restart, and no worker reports it.
pub(crate) fn is_of_line(event: &Event) -> bool {
    !matches!(event, Event::Restart(_) | Event::Report(_, _))
}

fn push_backfills(alloc: Global, events: &mut Vec<Event>) -> Result<(), AllocError> {
    events.push(backfill(alloc, "2024-01-02", "2024-01-02", false)?)?;
    events.push(backfill(alloc, "2024-01-01", "2024-01-03", false)?)?;
    events.push(backfill(alloc, "2024-01-01", "2024-01-03", false)?)?;
    Ok(())
}

fn push_refused(alloc: Global, events: &mut Vec<Event>) -> Result<(), AllocError> {
    events.push(backfill(alloc, "2024-01-01", "2024-01-03", true)?)?;
    events.push(backfill(alloc, "2024-01-03", "2024-01-01", false)?)?;
    Ok(())
}

fn backfill(alloc: Global, from: &str, to: &str, reset: bool) -> Result<Event, AllocError> {
    Ok(Event::Backfill {
        graph: name(alloc, "one")?,
        from: moment(from),
        to: moment(to),
        reset,
    })
}

fn name(alloc: Global, text: &str) -> Result<Name, AllocError> {
    Name::read(alloc, text).map_err(|_| AllocError)
}

// The moment that a text says, which is one.
fn moment(text: &str) -> Moment {
    Moment::read(text).unwrap_or(Moment::at(0))
}
