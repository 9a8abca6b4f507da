//! Laws of contents. The functions change nothing: their contracts are the laws.
ghost use Rattle.std.specs.Prelude.{ℕ, ◌≤◌, List};
ghost use Rattle.jtext.specs.declared.json.Json as tree;
ghost use Rattle.jtext.specs.Depth.{depth};
ghost use Rattle.jtext.specs.Keyed.{Keyed};
ghost use Rattle.jtext.specs.Sound.{Sound};
ghost use Rattle.jcontent.specs.Contents.{content_of};
ghost use Rattle.jcontent.specs.IsRead.{IsRead};

/// What is read of a content nested at most 100 deep, in which no object has a key twice, is data
/// that nbformat takes: bundles by its rule, metadata that are objects, counts that are whole.
pub fn read_by_rule()
    ensures { (kind : List ℕ) (t : tree.Json) → Keyed t → Sound t → depth t ≤ 100
        → IsRead (content_of kind t) }
{}
