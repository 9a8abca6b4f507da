//! Laws of injected notebooks. The functions do nothing: their contracts are the laws.
ghost use Rattle.std.specs.Prelude.{◌≤◌, ◌<◌, ◌^◌, ℕ, Bool, List as Plain, length};
ghost use Rattle.std.specs.List.{AllByRecursion};
ghost use Rattle.jtext.specs.declared.json.Json as tree;
ghost use Rattle.jtext.specs.Depth.{depth};
ghost use Rattle.jtext.specs.Grammar.{Distinct};
ghost use Rattle.jtext.specs.Keyed.{Keyed, PairsKeyed};
ghost use Rattle.nb_model.specs.declared.cell.Cell as cell;
ghost use Rattle.nb_model.specs.declared.notebook.Notebook as notebook;
ghost use Rattle.nb_model.specs.Tree.{notebook_tree};
ghost use Rattle.nb_model.specs.Valid.{Valid};
ghost use Rattle.nb_params.specs.Fresh.{IsFreshId, IsInserted};
ghost use Rattle.nb_params.specs.Injected.{fresh_id, injected_notebook, with_parameters};

/// The id of the cell of the parameters is none of the others, and where it has a number, that is
/// the least from 1 whose id is none of them.
pub fn fresh_id_is_least()
    ensures { (taken : Plain (Plain ℕ)) → length taken < 10 ^ 44
        → IsFreshId taken (fresh_id taken) }
{}

/// The cells with the parameters are the old ones, or all but one, and the new cell among them,
/// whose id is fresh.
pub fn parameters_are_inserted()
    ensures { (ps : Plain (Plain ℕ × tree.Json)) (cells : Plain cell.Cell)
        → length cells < 10 ^ 44 → IsInserted ps cells (with_parameters ps cells) }
{}

/// A valid notebook stays valid when parameters are injected whose values are nested at most 124
/// deep. It has fewer than 10^44 cells: then the number in the id of the new cell has at most 44
/// digits, and the id at most the 64 characters that an id may have.
pub fn injected_stays_valid()
    ensures { (n : notebook.Notebook) (ps : Plain (Plain ℕ × tree.Json)) (report : Bool)
        → length n.cells < 10 ^ 44 → AllByRecursion (λ p. depth p.1 ≤ 124) ps
        → Valid (notebook_tree n) → Valid (notebook_tree (injected_notebook n ps report)) }
{}

/// Where no object of a notebook has a key twice, none has when parameters are injected whose names
/// are distinct, as are the keys within each value.
pub fn injected_stays_keyed()
    ensures { (n : notebook.Notebook) (ps : Plain (Plain ℕ × tree.Json)) (report : Bool)
        → PairsKeyed ps → Distinct ps
        → Keyed (notebook_tree n) → Keyed (notebook_tree (injected_notebook n ps report)) }
{}
