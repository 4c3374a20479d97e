//! Planning a run by hand.
ghost use Rattle.std.specs.Prelude.{◌≡◌, [], ◌∷◌, IfOk, IfErr};
ghost use Rattle.sched_events.specs.Outcomes.{IsRefusal};
ghost use Rattle.sched_events.specs.declared.events.Event.TheVariants.{Trigger};
ghost use Rattle.sched_core.specs.Plans.{IsPlanned};

use crate::changes::{Change, GraphChange};
use crate::planning::{ids_of, quiet_answer};
use crate::schedules::Schedule;
use graph_file::Name;
use sched_creation::{add, named_by_hand};
use sched_events::{Answer, Refusal};
use sched_state::Run;
use std::alloc::{AllocError, Global};

impl Schedule {
    // What a trigger of the graph with this id would do, or why it is refused.
    pub(crate) fn plan_trigger(&self, alloc: Global, id: &Name) -> Result<Change, Refusal>
        ensures accepted { IfOk result (IsPlanned self.now.content (Trigger id.now)) }
        ensures refused { IfErr result (IsRefusal self.now.content (Trigger id.now)) }
    {
        let is_full = self.limits.runs() as usize <= self.runs.len();
        let mut draft = self.draft(alloc, None, false);
        let Some(planned) = named_by_hand(alloc, &draft, self.dates.as_slice(), id)? else {
            return Err(Refusal::UnknownGraph);
        };
        let run = match planned {
            Ok(run) => run,
            Err(fault) => return Err(Refusal::from(fault)),
        };
        if is_full {
            return Err(Refusal::RecordFull);
        }
        let runs = alone(alloc, run)?;
        let made = ids_of(alloc, &runs)?;
        add(&mut draft, runs)?;
        let answer = Answer {
            made,
            ..quiet_answer(alloc)
        };
        Ok(self.finish(alloc, draft, GraphChange::Same, answer)?)
    }
}

// The list of one run.
fn alone(alloc: Global, run: Run) -> Result<Vec<Run>, AllocError>
    ensures { IfOk result (λ runs. runs.items ≡ run ∷ []) }
{
    let mut runs = Vec::new(alloc);
    runs.push(run)?;
    Ok(runs)
}
