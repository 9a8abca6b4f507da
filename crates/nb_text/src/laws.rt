//! Laws of generated notebooks and of texts. The functions do nothing: their contracts are the
//! laws.
ghost use Rattle.std.specs.Prelude.{◌≡◌, ◌<◌, ◌^◌, ℕ, map};
ghost use Rattle.jtext.specs.Keyed.{Keyed};
ghost use Rattle.nb_model.specs.declared.notebook.Notebook as notebook;
ghost use Rattle.nb_model.specs.Tree.{notebook_tree};
ghost use Rattle.nb_model.specs.Valid.{Valid};
ghost use Rattle.nb_text.specs.Cells.{cell_text};
ghost use Rattle.nb_text.specs.Generated.{generated_notebook};
ghost use Rattle.nb_text.specs.Notebooks.{notebook_text, text_of};

/// The text of a notebook is made of the texts of its cells.
pub fn text_of_cell_texts()
    ensures { (n : notebook.Notebook)
        → notebook_text n.metadata (map cell_text n.cells) ≡ text_of n }
{}

/// A generated notebook is valid, and none of its objects has a key twice. It has fewer than 10^44
/// cells, so that the ids have at most the 64 characters that an id may have.
pub fn generated_is_valid()
    ensures valid { (n : ℕ) → n < 10 ^ 44 → Valid (notebook_tree (generated_notebook n)) }
    ensures keyed { (n : ℕ) → Keyed (notebook_tree (generated_notebook n)) }
{}
