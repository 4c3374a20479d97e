//! Changes of shelves, and how they are done.
ghost use Rattle.std.specs.Prelude.{◌≡◌, ◌<◌, ◌∷◌, [], length, vec_capacity};
ghost use Rattle.sched_ready.specs.Patched.{patched, put_at, with_queues};

use crate::queues::Queue;
use crate::shelves::Shelf;

/// New queues for some places of the graph at a position, by place.
#[derive(Drop)]
pub struct Patch {
    pub graph: usize,
    pub queues: Vec<Option<Queue>>,
}

/// The queues of the patches are put on the shelves, one patch after another. This takes no memory.
pub fn put_all(shelves: &mut Vec<Shelf>, patches: Vec<Patch>)
    ensures shelves { shelves.new.items ≡ patched patches.items shelves.old.items }
    ensures places { vec_capacity shelves.new ≡ vec_capacity shelves.old }
{
    for patch in patches {
        put_patch(shelves, patch);
    }
}

// The queues of a patch are put on the shelf of its graph.
fn put_patch(shelves: &mut Vec<Shelf>, patch: Patch)
    ensures shelves { shelves.new.items ≡ patched (patch ∷ []) shelves.old.items }
    ensures places { vec_capacity shelves.new ≡ vec_capacity shelves.old }
{
    let Patch { graph, queues } = patch;
    if graph < shelves.len() {
        put_queues(&mut shelves[graph], queues);
    }
}

// Queues are put on a shelf, by place, and its bounds are then made exact.
fn put_queues(shelf: &mut Shelf, queues: Vec<Option<Queue>>)
    ensures { shelf.new ≡ with_queues queues.items shelf.old }
{
    let mut place = 0;
    for queue in queues {
        if place < shelf.len() {
            put_if(shelf, place, queue);
            place += 1;
        }
    }
    shelf.lead();
}

// A queue is put at a place, where there is one.
fn put_if(shelf: &mut Shelf, place: usize, queue: Option<Queue>)
    requires { place < length shelf.old.queues }
    ensures { shelf.new ≡ record shelf.old { queues = put_at place queue shelf.old.queues } }
{
    if let Some(queue) = queue {
        shelf.put(place, queue);
    }
}
