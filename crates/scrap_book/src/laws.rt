//! Laws of scraps. The functions do nothing: their contracts are the laws.
ghost use Rattle.std.specs.Prelude.{◌≡◌, ◌≤◌, ℕ, List as Plain, Some};
ghost use Rattle.std.specs.List.{AllByRecursion};
ghost use Rattle.jtext.specs.Depth.{depth};
ghost use Rattle.jtext.specs.Grammar.{Distinct};
ghost use Rattle.jtext.specs.Keyed.{Keyed};
ghost use Rattle.jtext.specs.declared.json.Json as tree;
ghost use Rattle.nb_model.specs.Reading.{notebook_of};
ghost use Rattle.nb_model.specs.declared.notebook.Notebook as notebook;
ghost use Rattle.scrap_book.specs.Scraps.{scrap_texts, scraps};
ghost use Rattle.scrap_book.specs.Written.{IsScrapRow};
ghost use Rattle.words.specs.Runnable.{IsParameter};

/// A row gives a scrap exactly where it has the form `scrap NAME = VALUE`, and then these two.
pub fn rows_in_the_written_form()
    ensures written { (row name value : Plain ℕ) → IsScrapRow row name value
        → scrap_texts row ≡ Some (name, value) }
    ensures only { (row name value : Plain ℕ) → scrap_texts row ≡ Some (name, value)
        → IsScrapRow row name value }
{}

/// No two scraps of a notebook have the same name.
pub fn names_stand_once()
    ensures { (n : notebook.Notebook) → Distinct (scraps n) }
{}

/// Each scrap of a notebook that was read can be a parameter: a tree nests at most 128 deep, and the
/// value of a scrap lies seven levels down in it.
pub fn scraps_can_be_parameters()
    ensures { (t : tree.Json) → Keyed t → depth t ≤ 128
        → AllByRecursion IsParameter (scraps (notebook_of t)) }
{}
