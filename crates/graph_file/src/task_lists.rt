//! The tasks of a graph.
ghost use Rattle.std.specs.Prelude.{◌≡◌};
ghost use Rattle.graph_file.specs.TaskLists.{IsTaskList};

use crate::TaskSpec;
use std::marker::Model;

/// The tasks of a graph, in the order of its file: 1 to 256, with at most 4,096 upstream names in all. Contracts see the
/// list.
#[derive(Debug, Drop)]
pub struct Tasks {
    list: Vec<TaskSpec>,
}

impl Model for Tasks {
    ghost use Rattle.std.specs.Prelude.{List};
    ghost use Rattle.graph_file.specs.TaskLists.{IsTaskList};
    ghost use Rattle.graph_file.specs.declared.task_specs.TaskSpec.{TaskSpec};

    ghost Value = { List TaskSpec };

    ghost view = { λ t. t.list.items };

    ghost invariant = { λ t. IsTaskList t.list.items };
}

impl Tasks {
    /// The tasks of a `Vec`, which the caller knows to be as many as a graph may have.
    pub fn new(list: Vec<TaskSpec>) -> Tasks
        requires { IsTaskList list.items }
        ensures { result ≡ list.items }
    {
        Tasks { list }
    }

    /// The tasks.
    pub fn as_slice(&self) -> &[TaskSpec]
        ensures tasks { result.now ≡ self.now }
        ensures count { IsTaskList result.now }
    {
        self.list.as_slice()
    }

    /// The `Vec` of the tasks, without memory.
    pub fn into_vec(self) -> Vec<TaskSpec>
        ensures tasks { result.items ≡ self }
        ensures count { IsTaskList result.items }
    {
        let Tasks { list } = self;
        list
    }
}
