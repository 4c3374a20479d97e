//! A graph whose tasks stand in the order of their places.
ghost use Rattle.std.specs.Prelude.{◌≡◌, ◌<◌, ◌==◌, IfOk, IfErr, length, position};
ghost use Rattle.dag_check.specs.Names.{same};
ghost use Rattle.dag_check.specs.Graphs.{Dag, IsDag, IsGraphOf, task_of, ups, downs};
ghost use Rattle.dag_check.specs.Faults.{IsRefused};
ghost use Rattle.dag_check.specs.Reach.{IsReached};

use crate::faults::DagFault;
use crate::layouts::{Layout, lay_out};
use crate::reaching::{reach_earlier, reach_later, rising};
use graph_file::{GraphSpec, Name, TaskSpec};
use std::alloc::{AllocError, Global};
use std::marker::Model;

/// Where to look from a task.
#[derive(Clone, Copy, Debug, PartialEq, Eq)]
pub enum Direction {
    /// To the tasks that come before it.
    Upstream,
    /// To the tasks that come after it.
    Downstream,
}

/// A graph without double tasks, unknown upstreams, double edges and cycles. Each of its tasks has a place, from 0: at each
/// place stands the first task in the file whose upstreams all stand before. Contracts see what the file says, the tasks by
/// place, and the places of each one's upstreams.
#[derive(Debug, Drop)]
pub struct Graph {
    spec: GraphSpec,
    layout: Layout,
}

impl Model for Graph {
    ghost use Rattle.dag_check.specs.Graphs.{Dag};
    ghost use Rattle.dag_check.specs.Layouts.{dag_inside, IsSound};

    ghost Value = { Dag };

    ghost view = { dag_inside };

    ghost invariant = { IsSound };
}

/// The graph of a file, or the file as it was with its first fault.
pub fn check(alloc: Global, spec: GraphSpec) -> Result<Graph, (GraphSpec, DagFault)>
    ensures ok { IfOk result (IsGraphOf spec) }
    ensures refused { IfErr result (IsRefused spec) }
{
    match lay_out(alloc, spec.tasks.as_slice()) {
        Ok(layout) => Ok(Graph { spec, layout }),
        Err(fault) => Err((spec, fault)),
    }
}

impl Graph {
    /// What the file says, its tasks in the order of the file.
    pub fn spec(&self) -> &GraphSpec
        ensures spec { result.now ≡ self.now.spec }
        ensures graph { IsGraphOf self.now.spec self.now }
    {
        &self.spec
    }

    /// The number of tasks.
    pub fn len(&self) -> usize
        ensures len { result ≡ length self.now.tasks }
        ensures dag { IsDag self.now }
    {
        self.spec.tasks.as_slice().len()
    }

    /// The task of a place.
    pub fn task(&self, place: usize) -> &TaskSpec
        requires { place < length self.now.tasks }
        ensures { result.now ≡ task_of self.now place }
    {
        &self.spec.tasks.as_slice()[self.layout.order[place]]
    }

    /// The place of the task of a name.
    pub fn place(&self, name: &Name) -> Option<usize>
        ensures { result ≡ position (λ t. same t.task_id name.now) self.now.tasks }
    {
        for place in 0..self.layout.order.len() {
            if self.spec.tasks.as_slice()[self.layout.order[place]].task_id == *name {
                return Some(place);
            }
        }
        None
    }

    /// The places of the upstreams of a place, in the order of the file.
    pub fn upstreams(&self, place: usize) -> &[usize]
        requires { place < length self.now.tasks }
        ensures { result.now ≡ ups self.now place }
    {
        &self.layout.upstreams[place]
    }

    /// The places whose upstream a place is, rising.
    /// Only a stored run calls this: `reach` and `is_leaf` read the same lists.
    pub fn downstreams(&self, place: usize) -> &[usize]
        requires { place < length self.now.tasks }
        ensures { result.now ≡ downs self.now place }
    {
        &self.layout.downstreams[place]
    }

    /// Whether no place has this one as an upstream.
    pub fn is_leaf(&self, place: usize) -> bool
        requires { place < length self.now.tasks }
        ensures { result ≡ (length (downs self.now place) == 0) }
    {
        self.layout.downstreams[place].is_empty()
    }

    /// The places that a place reaches, rising.
    pub fn reach(
        &self,
        alloc: Global,
        place: usize,
        direction: Direction,
    ) -> Result<Vec<usize>, AllocError>
        requires { place < length self.now.tasks }
        ensures { IfOk result (λ v. IsReached self.now direction place v.items) }
    {
        match direction {
            Direction::Upstream => {
                let marks = reach_earlier(alloc, &self.layout.upstreams, place)?;
                rising(alloc, &marks)
            }
            Direction::Downstream => {
                let marks = reach_later(alloc, &self.layout.downstreams, place)?;
                rising(alloc, &marks)
            }
        }
    }
}
