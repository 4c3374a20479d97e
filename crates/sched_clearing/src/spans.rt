//! Where the runs of a graph stand.
ghost use Rattle.std.specs.Prelude.{◌≡◌, true};
ghost use Rattle.sched_model.specs.Lists.{rises};
ghost use Rattle.sched_model.specs.Schedule.{run_before};
ghost use Rattle.sched_clearing.specs.Spans.{AreRunsOf};

use graph_file::Name;
use sched_draft::Draft;
use std::ops::Range;

/// The positions of the graph's runs, which stand one after another. The first is found by binary searches, and from there on they are gone
/// through.
pub fn span_of_all(draft: &Draft<'_>, graph: &Name) -> Range<usize>
    requires { rises run_before draft.now.content.runs ≡ true }
    ensures { AreRunsOf graph.now draft.now.content.runs result.start result.end }
{
    let first = draft.first_of(graph);
    let count = draft.run_count();
    for position in first..count {
        if draft.run(position).graph != *graph {
            return first..position;
        }
    }
    first..count
}
