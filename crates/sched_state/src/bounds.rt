//! The bounds of a schedule.
ghost use Rattle.std.specs.Prelude.{◌≡◌, ◌≤◌};
ghost use Rattle.sched_state.specs.Limits.{ceilings, limits_of};

use std::marker::Model;

/// The greatest serial of a try.
pub const LAST_SERIAL: u64 = 1 << 62;

/// The most that a schedule may hold.
#[derive(Clone, Copy, Debug, PartialEq, Eq)]
pub struct Limits {
    graphs: u32,
    tasks: u32,
    edges: u32,
    pools: u32,
    runs: u32,
    lanes: u32,
}

impl Model for Limits {
    ghost use Rattle.std.specs.Prelude.{◌≡◌, true};
    ghost use Rattle.sched_state.specs.Limits.{Bounds, bounds_inside, is_allowed};

    ghost Value = { Bounds };

    ghost view = { bounds_inside };

    ghost invariant = { λ l. is_allowed (bounds_inside l) ≡ true };

    ghost inverse = { λ b. record {
      graphs = b.graphs;
      tasks = b.tasks;
      edges = b.edges;
      pools = b.pools;
      runs = b.runs;
      lanes = b.lanes;
    } };
}

impl Limits {
    /// The bounds, or `None` where one lies past its ceiling or there is no room for a pool.
    ///
    /// The ceilings are 256 graphs, 256 tasks and 4,096 edges of one graph, 64 pools, 1,000,000 runs and 64 lanes.
    pub fn new(
        graphs: u32,
        tasks: u32,
        edges: u32,
        pools: u32,
        runs: u32,
        lanes: u32,
    ) -> Option<Limits>
        ensures { result ≡ limits_of graphs tasks edges pools runs lanes }
    {
        let under_ceilings = graphs <= 256
            && tasks <= 256
            && edges <= 4_096
            && 1 <= pools
            && pools <= 64
            && runs <= 1_000_000
            && lanes <= 64;
        if under_ceilings {
            Some(Limits {
                graphs,
                tasks,
                edges,
                pools,
                runs,
                lanes,
            })
        } else {
            None
        }
    }

    /// The ceilings.
    pub fn full() -> Limits
        ensures { result ≡ ceilings }
    {
        Limits {
            graphs: 256,
            tasks: 256,
            edges: 4_096,
            pools: 64,
            runs: 1_000_000,
            lanes: 64,
        }
    }

    /// The most graphs.
    pub fn graphs(self) -> u32
        ensures { result ≡ self.graphs }
    {
        self.graphs
    }

    /// The most pools, which are 64 at most.
    pub fn pools(self) -> u32
        ensures value { result ≡ self.pools }
        ensures high { result ≤ ceilings.pools }
    {
        self.pools
    }

    /// The most runs, of all graphs, which are 1,000,000 at most.
    pub fn runs(self) -> u32
        ensures value { result ≡ self.runs }
        ensures high { result ≤ ceilings.runs }
    {
        self.runs
    }

    /// The most upstream names of one graph's tasks in all.
    pub fn edges(self) -> u32
        ensures { result ≡ self.edges }
    {
        self.edges
    }

    /// The most tasks of one graph.
    pub fn tasks(self) -> u32
        ensures { result ≡ self.tasks }
    {
        self.tasks
    }

    /// The most tries that may be without an end at once.
    pub fn lanes(self) -> u32
        ensures { result ≡ self.lanes }
    {
        self.lanes
    }
}
