//! Laws of what is saved of the cells. The functions change nothing: their contracts are the laws.
ghost use Rattle.std.specs.Prelude.{◌≡◌, ℕ, ◌≤◌, Bool, true, List, All};
ghost use Rattle.jtext.specs.declared.json.Json.TheVariants.{Obj};
ghost use Rattle.jtext.specs.Depth.{depth};
ghost use Rattle.jtext.specs.Keyed.{Keyed};
ghost use Rattle.jtext.specs.Texts.{AllStrings};
ghost use Rattle.nb_model.specs.Run.{IsFitOutput};
ghost use Rattle.nb_model.specs.Tree.{count_tree};
ghost use Rattle.nb_model.specs.Values.{is_count};
ghost use Rattle.out_fold.specs.Cells.{Used, outputs_of, count_of, dates_of};
ghost use Rattle.out_fold.specs.Fit.{AreRead};

/// Where all contents were read of messages, each output of a cell is an output of nbformat in
/// which no object has a key twice, nested at most 100 deep.
pub fn outputs_fit()
    ensures fit { (merge : Bool) (us : List Used) (cell : ℕ) → AreRead us
        → All IsFitOutput (outputs_of merge us cell) }
    ensures within { (merge : Bool) (us : List Used) (cell : ℕ) → AreRead us
        → All (λ o. depth o ≤ 100) (outputs_of merge us cell) }
{}

/// Where all contents were read of messages, the execution count of a cell is one of nbformat.
pub fn counts_fit()
    ensures { (us : List Used) (cell : ℕ) → AreRead us
        → is_count (count_tree (count_of us cell)) ≡ true }
{}

/// The dates of a cell are strings, and no key stands twice among them.
pub fn dates_fit()
    ensures texts { (us : List Used) (cell : ℕ) → AllStrings (dates_of us cell) }
    ensures keyed { (us : List Used) (cell : ℕ) → Keyed (Obj (dates_of us cell)) }
    ensures within { (us : List Used) (cell : ℕ) → depth (Obj (dates_of us cell)) ≤ 1 }
{}
