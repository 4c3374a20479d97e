//! Laws of the definitions: each is the contract of an empty function, so that the gate proves it.
ghost use Rattle.std.specs.Prelude.{◌≡◌, ◌⊎◌, ℕ, ◌<◌, List, length, Some, None};
ghost use Rattle.dag_check.specs.Orders.{IsPlacement, IsCycle, IsAcyclic, places_of};
ghost use Rattle.dag_check.specs.Graphs.{Dag, IsDag, IsGraphOf, dag_of, ups};
ghost use Rattle.dag_check.specs.Reach.{IsReached, reach_of};
ghost use Rattle.dag_check.specs.Faults.{Stands, Agree, first_fault, without_names};
ghost use Rattle.dag_check.specs.declared.faults.DagFault.{DagFault};
ghost use Rattle.dag_check.specs.declared.faults.DagFault.TheVariants.{Memory};
ghost use Rattle.graph_file.specs.declared.task_specs.TaskSpec.{TaskSpec};
ghost use Rattle.graph_file.specs.declared.graph_specs.GraphSpec.{GraphSpec};
ghost use Rattle.dag_check.specs.declared.graphs.Direction.{Direction};

/// What has an order of places is acyclic: the place of each position is a numbering in which each edge rises.
pub fn a_placement_is_acyclic()
    ensures { (up : ℕ → List ℕ) (n : ℕ) (order : List ℕ) → IsPlacement up n order → IsAcyclic up n }
{}

/// Every graph is acyclic, its tasks and their edges by place too.
pub fn a_graph_is_acyclic()
    ensures { (g : Dag) → IsDag g → IsAcyclic (ups g) (length g.tasks) }
{}

/// A cycle refutes every numbering in which each edge rises.
pub fn a_cycle_refutes_every_numbering()
    ensures { (up : ℕ → List ℕ) (n : ℕ) (walk : List ℕ) → IsCycle up n walk → IsAcyclic up n → ⊥ }
{}

/// There is one order of places at most, and it is the one that the function finds.
pub fn a_placement_is_one()
    ensures { (up : ℕ → List ℕ) (n : ℕ) (order : List ℕ) → IsPlacement up n order
        → order ≡ places_of up n n }
{}

/// A place reaches one set of places in a direction: those that a way leads to.
pub fn a_place_reaches_one_set()
    ensures one { (g : Dag) (d : Direction) (k : ℕ) (ps qs : List ℕ) →
        IsReached g d k ps → IsReached g d k qs → ps ≡ qs }
    ensures by_ways { (g : Dag) (d : Direction) (k : ℕ) → IsDag g → k < length g.tasks
        → IsReached g d k (reach_of g d k) }
{}

/// A file is the file of one graph, or has one fault, but that which of several cycles is answered is open; and each file is one of
/// the two, by its first fault. Memory may run out at any file.
pub fn a_file_has_one_answer()
    ensures graph { (spec : GraphSpec) (g h : Dag) → IsGraphOf spec g → IsGraphOf spec h → g ≡ h }
    ensures fault { (file : List TaskSpec) (e f : DagFault) → Stands file e → Stands file f
        → Agree e f }
    ensures never_both { (spec : GraphSpec) (g : Dag) (f : DagFault) → IsGraphOf spec g
        → Stands spec.tasks f → f ≡ Memory }
    ensures graph_is_there { (spec : GraphSpec) → first_fault spec.tasks ≡ None
        → IsGraphOf spec (dag_of spec) }
    ensures faultless { (spec : GraphSpec) (g : Dag) → IsGraphOf spec g
        → first_fault spec.tasks ≡ None }
    ensures first { (file : List TaskSpec) (f : DagFault) → Stands file f
        → (f ≡ Memory) ⊎ (first_fault file ≡ Some (without_names f)) }
{}
