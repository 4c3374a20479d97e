//! Laws of the definitions: each is the contract of an empty function, so that the gate proves it.
ghost use Rattle.std.specs.Prelude.{◌≡◌, ◌<◌, ℕ, length};
ghost use Rattle.dag_check.specs.Graphs.{Dag, IsDag};
ghost use Rattle.priority_weights.specs.Weights.{IsWeight, effective_weight};

/// A place has one effective weight: that which the function gives.
pub fn a_place_has_one_weight()
    ensures one { (g : Dag) (k v w : ℕ) → IsWeight g k v → IsWeight g k w → v ≡ w }
    ensures is { (g : Dag) (k w : ℕ) → IsDag g → k < length g.tasks → IsWeight g k w
        → w ≡ effective_weight g k }
{}
