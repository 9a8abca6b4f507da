//! The rows of a text, and what each row of a script is.
ghost use Rattle.std.specs.Prelude.{◌≡◌, ◌<◌, ◌∷◌, ◌++◌, [], ℕ, List, length, IfSome, IfNone};
ghost use Rattle.nb_model.specs.declared.kind.Kind as kinds;
ghost use Rattle.report_text.specs.Rows.{rows};
ghost use Rattle.report_text.specs.Script as scripts;

use nb_model::Kind;

/// The first row of every script.
pub(crate) const HEAD_ROW: &str = "# nbrun script";

/// The first row of the text and the text after its line end, and `None` where there is no row.
pub(crate) fn split_row(text: &str) -> Option<(&str, &str)>
    ensures first { IfSome result (λ p. rows text.now ≡ p.0.now ∷ rows p.1.now) }
    ensures shorter { IfSome result (λ p. length p.1.now < length text.now) }
    ensures none { IfNone result (text.now ≡ []) }
{
    if text.is_empty() {
        return None;
    }
    match text.split_once('\n') {
        Some((row, rest)) => Some((row, rest)),
        None => Some((text, "")),
    }
}

/// The row that begins a cell of this kind.
pub(crate) fn marker(kind: Kind) -> &'static str
    ensures { result.now ≡ scripts.marker kind }
{
    match kind {
        Kind::Raw => "# %% [raw]",
        Kind::Markdown => "# %% [markdown]",
        Kind::Code => "# %%",
    }
}

/// The kind of the cell that the row begins, and `None` where it is no marker.
pub(crate) fn kind_of(row: &str) -> Option<Kind>
    ensures some { IfSome result (λ k. row.now ≡ scripts.marker k) }
    ensures none { IfNone result ((k : kinds.Kind) → row.now ≡ scripts.marker k → ⊥) }
{
    if row == "# %%" {
        Some(Kind::Code)
    } else if row == "# %% [markdown]" {
        Some(Kind::Markdown)
    } else if row == "# %% [raw]" {
        Some(Kind::Raw)
    } else {
        None
    }
}

/// What stands in a script before each row of a cell's source.
pub(crate) fn row_front(kind: Kind) -> &'static str
    ensures { result.now ≡ scripts.row_front kind }
{
    match kind {
        Kind::Raw => "# ",
        Kind::Markdown => "# ",
        Kind::Code => "",
    }
}
