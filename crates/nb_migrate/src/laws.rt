//! Laws of raised trees. The functions do nothing: their contracts are the laws.
ghost use Rattle.std.specs.Prelude.{◌≤◌};
ghost use Rattle.jtext.specs.declared.json.Json as tree;
ghost use Rattle.jtext.specs.Depth.{depth};
ghost use Rattle.jtext.specs.Keyed.{Keyed};
ghost use Rattle.nb_model.specs.Tree.{notebook_tree};
ghost use Rattle.nb_model.specs.Valid.{Valid};
ghost use Rattle.nb_migrate.specs.Accepted.{Accepted, accepted_notebook};
ghost use Rattle.nb_migrate.specs.Raised.{raised_tree};

/// The notebook that an accepted tree is, is valid where the tree is nested as deep as we read.
pub fn accepted_is_valid()
    ensures { (t : tree.Json) → Accepted t → Keyed t → depth t ≤ 128
        → Valid (notebook_tree (accepted_notebook t)) }
{}

/// A tree of an older format is nested no deeper when it is raised to nbformat 4.5.
pub fn raised_no_deeper()
    ensures { (t : tree.Json) → depth (raised_tree t) ≤ depth t }
{}

/// Where no object of a tree has a key twice, none has when it is raised to nbformat 4.5.
pub fn raised_stays_keyed()
    ensures { (t : tree.Json) → Keyed t → Keyed (raised_tree t) }
{}
