//! Laws of notebooks and their trees. The functions change nothing: their contracts are the laws.
ghost use Rattle.std.specs.Prelude.{◌≡◌, ◌<◌, is_none, true, length, All, AllPairs};
ghost use Rattle.std.specs.List.{AllByRecursion};
ghost use Rattle.std.specs.Option.{IfSome};
ghost use Rattle.std.specs.Str.{IsUtf8};
ghost use Rattle.jtext.specs.declared.json.Json as tree;
ghost use Rattle.jtext.specs.Depth.{depth};
ghost use Rattle.jtext.specs.Grammar.{Spells};
ghost use Rattle.jtext.specs.Indent.{print};
ghost use Rattle.jtext.specs.Keyed.{Keyed};
ghost use Rattle.jtext.specs.Number.{IsNumber};
ghost use Rattle.jtext.specs.Sorting.{sort_tree};
ghost use Rattle.jtext.specs.Sound.{Sound, AllSound};
ghost use Rattle.nb_model.specs.declared.notebook.Notebook as notebook;
ghost use Rattle.nb_model.specs.Faults.{fault_of};
ghost use Rattle.nb_model.specs.Planned.{plan};
ghost use Rattle.nb_model.specs.Prepared.{prepared_notebook};
ghost use Rattle.nb_model.specs.Reading.{notebook_of};
ghost use Rattle.nb_model.specs.Run.{IsRunOf};
ghost use Rattle.nb_model.specs.Tree.{cell_tree, notebook_tree};
ghost use Rattle.nb_model.specs.Valid.{is_notebook, Valid};

use crate::{Cell, Notebook};
use jtext::{Items, Json, NumText, Text};

/// A tree has a fault exactly where it is no notebook.
pub fn faulty_where_invalid()
    ensures { (t : tree.Json) → is_none (fault_of t) ≡ is_notebook t }
{}

/// The tree of the notebook that a tree is, is that tree but for the order of keys: it has the same
/// tree of sorted pairs, and the same indented text.
pub fn notebook_of_its_tree()
    ensures sorted { (t : tree.Json) → is_notebook t ≡ true → Keyed t
        → sort_tree (notebook_tree (notebook_of t)) ≡ sort_tree t }
    ensures printed { (t : tree.Json) → is_notebook t ≡ true → Keyed t
        → print (notebook_tree (notebook_of t)) ≡ print t }
{}

/// The notebook that a valid tree is, is valid, and nested as deep as the tree.
pub fn read_stays_valid()
    ensures valid { (t : tree.Json) → is_notebook t ≡ true
        → is_notebook (notebook_tree (notebook_of t)) ≡ true }
    ensures depth { (t : tree.Json) → is_notebook t ≡ true → Keyed t
        → depth (notebook_tree (notebook_of t)) ≡ depth t }
{}

/// Where no object of a tree has a key twice, none has in the notebook that is read of it.
pub fn read_stays_keyed()
    ensures { (t : tree.Json) → Keyed t → Keyed (notebook_tree (notebook_of t)) }
{}

/// The indices of a plan increase, and each is below the number of cells.
pub fn plan_in_order()
    ensures increasing { (n : notebook.Notebook) → AllPairs (λ i j. i < j) (plan n) }
    ensures below { (n : notebook.Notebook) → All (λ i. i < length n.cells) (plan n) }
{}

/// A prepared notebook is valid where the notebook is.
pub fn prepared_stays_valid()
    ensures { (n : notebook.Notebook)
        → Valid (notebook_tree n) → Valid (notebook_tree (prepared_notebook n)) }
{}

/// Where no object of a notebook has a key twice, none has in the prepared notebook.
pub fn prepared_stays_keyed()
    ensures { (n : notebook.Notebook)
        → Keyed (notebook_tree n) → Keyed (notebook_tree (prepared_notebook n)) }
{}

/// A valid notebook stays valid when a run changes outputs, counts and marks.
pub fn run_stays_valid()
    ensures { (old new : notebook.Notebook) → IsRunOf old new
        → Valid (notebook_tree old) → Valid (notebook_tree new) }
{}

/// Where no object of a notebook has a key twice, none has when a run changes outputs, counts and
/// marks.
pub fn run_stays_keyed()
    ensures { (old new : notebook.Notebook) → IsRunOf old new
        → Keyed (notebook_tree old) → Keyed (notebook_tree new) }
{}

/// What is read of the text of a notebook after a run is a valid notebook in which no object has a
/// key twice: the tree of that notebook, with its pairs sorted.
pub fn run_reads_back()
    ensures valid { (old new : notebook.Notebook) (u : tree.Json) → IsRunOf old new
        → Valid (notebook_tree old) → Keyed (notebook_tree old) → Sound (notebook_tree new)
        → Spells u (print (notebook_tree new)) → Valid u × Keyed u }
    ensures same { (old new : notebook.Notebook) (u : tree.Json) → IsRunOf old new
        → Valid (notebook_tree old) → Keyed (notebook_tree old) → Sound (notebook_tree new)
        → Spells u (print (notebook_tree new)) → u ≡ sort_tree (notebook_tree new) }
{}

/// With the pairs of each object in the order of their keys, a tree in which no object has a key
/// twice is a notebook exactly where it was one, and nested as deep.
pub fn sorted_stays_valid()
    ensures valid { (t : tree.Json) → Keyed t → is_notebook (sort_tree t) ≡ is_notebook t }
    ensures depth { (t : tree.Json) → Keyed t → depth (sort_tree t) ≡ depth t }
{}

/// What is read of the indented text of a valid notebook in which no object has a key twice, is a
/// valid notebook in which none has.
pub fn saved_reads_valid()
    ensures { (t u : tree.Json) → Sound t → Keyed t → Valid t → Spells u (print t)
        → Valid u × Keyed u }
{}

/// The numbers of a notebook's tree are numbers, and its texts are UTF-8.
pub fn sound(n: &Notebook)
    ensures { Sound (notebook_tree n.now) }
{
    jtext::laws::sound(&n.metadata);
    sound_cells(n.cells.as_slice());
}

fn sound_cells(cells: &[Cell])
    ensures { AllByRecursion (λ c. Sound (cell_tree c)) cells.now }
{
    for cell in cells {
        sound_cell(cell);
    }
}

/// The numbers of a cell's tree are numbers, and its texts are UTF-8.
pub fn sound_cell(cell: &Cell)
    ensures { Sound (cell_tree cell.now) }
{
    sound_id(&cell.id);
    jtext::laws::sound(&cell.metadata);
    jtext::laws::sound(&cell.source);
    sound_attachments(&cell.attachments);
    sound_outputs(&cell.outputs);
    sound_count(&cell.count);
}

fn sound_id(id: &Text)
    ensures { IsUtf8 id.now }
{
    let _ = id.as_str().as_bytes();
}

fn sound_attachments(attachments: &Option<Json>)
    ensures { IfSome attachments.now (λ v. Sound v) }
{
    if let Some(v) = attachments {
        jtext::laws::sound(v);
    }
}

fn sound_outputs(outputs: &Items)
    ensures { AllSound outputs.now }
{
    for output in outputs.as_slice() {
        jtext::laws::sound(output);
    }
}

fn sound_count(count: &Option<NumText>)
    ensures { IfSome count.now (λ s. IsNumber s) }
{
    if let Some(n) = count {
        let _ = n.as_str();
    }
}
