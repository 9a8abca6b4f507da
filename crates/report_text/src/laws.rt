//! Laws of scripts and pages. The functions do nothing: their contracts are the laws.
ghost use Rattle.std.specs.Prelude.{◌≡◌, ℕ, List};
ghost use Rattle.std.specs.Str.{IsUtf8};
ghost use Rattle.nb_model.specs.declared.notebook.Notebook as notebook;
ghost use Rattle.report_text.specs.Page.{page};
ghost use Rattle.report_text.specs.Reading as readings;
ghost use Rattle.report_text.specs.Script.{Part, script, parts_of};
ghost use Rattle.report_text.specs.Tags.{tags, tags_of};

/// Rows are a script in one way alone.
pub fn one_reading()
    ensures { (rs : List (List ℕ)) (ps qs : List Part)
        → readings.IsScriptOf rs ps → readings.IsScriptOf rs qs → ps ≡ qs }
{}

/// Where no source of code has an empty line directly followed by a marker, a notebook's script is
/// one, and the notebook that is read of it has the same kinds of cells, and sources of the same
/// lines.
pub fn script_reads_back()
    ensures accepted { (n : notebook.Notebook) (at : ℕ) → readings.CanHoldAll (parts_of n)
        → IsUtf8 (script n) → readings.IsNoScript (script n) at → ⊥ }
    ensures same { (n m : notebook.Notebook) → readings.CanHoldAll (parts_of n)
        → readings.IsReadOf (script n) m → parts_of m ≡ parts_of n }
{}

/// The tags of a page are those that the kinds of cells and outputs give, whatever texts they hold.
pub fn tags_of_page()
    ensures { (n : notebook.Notebook) → tags (page n) ≡ tags_of n }
{}
