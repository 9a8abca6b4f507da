//! Laws of waves. The functions do nothing: their contracts are the laws.
ghost use Rattle.std.specs.Prelude.{◌≡◌, ◌<◌, ◌≤◌, ◌+◌, ℕ, List, Some, Contains, length, slice_get};
ghost use Rattle.jtext.specs.Keyed.{Keyed};
ghost use Rattle.jtext.specs.declared.json.Json as tree;
ghost use Rattle.job_graph.specs.Given.{rest_of};
ghost use Rattle.job_graph.specs.Shape.{jobs_of};
ghost use Rattle.job_graph.specs.Waves.{HasWave, IsOrder};

/// No order in which each job comes after all that it needs has fewer turns than there are waves: a
/// job's turn is never below its wave.
pub fn no_order_has_fewer_waves()
    ensures { (needs : List (List ℕ)) (turn : ℕ → ℕ) (i w : ℕ) → IsOrder needs turn →
        HasWave needs i w → w ≤ turn i }
{}

/// A job has one wave, which comes after those of all that it needs; where it isn't the first, the
/// job needs one of the wave before.
pub fn waves_follow_needs()
    ensures one { (needs : List (List ℕ)) (i w v : ℕ) → HasWave needs i w → HasWave needs i v →
        w ≡ v }
    ensures after { (needs : List (List ℕ)) (list : List ℕ) (i j w v : ℕ) →
        slice_get needs i ≡ Some list → Contains list j → HasWave needs i w →
        HasWave needs j v → v < w }
    ensures before { (needs : List (List ℕ)) (i w : ℕ) → HasWave needs i (w + 1) →
        (list : List ℕ) × (slice_get needs i ≡ Some list)
        × ((j : ℕ) × Contains list j × HasWave needs j w) }
{}

/// The jobs file that stays of a graph has as many jobs, and no key twice in an object.
pub fn rest_has_all_jobs()
    ensures keyed { (t : tree.Json) → Keyed t → Keyed (rest_of t) }
    ensures jobs { (t : tree.Json) → length (jobs_of (rest_of t)) ≡ length (jobs_of t) }
{}
