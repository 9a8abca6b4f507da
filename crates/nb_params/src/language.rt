//! The language of a notebook's cells.
ghost use Rattle.std.specs.Prelude.{◌≡◌, option_map};
ghost use Rattle.nb_params.specs.Injected as injected;
ghost use Rattle.nb_params.specs.Language.{told_language};

use jtext::{Json, field, string_at};
use nb_model::Notebook;

/// The kernel's language, else the one that its kernel told, else Python.
pub(crate) fn language(n: &Notebook) -> &str
    ensures { result.now ≡ injected.language n.now }
{
    match string_within(&n.metadata, "kernelspec", "language") {
        Some(language) => language,
        None => language_told(n),
    }
}

fn language_told(n: &Notebook) -> &str
    ensures { result.now ≡ told_language n.now }
{
    match string_within(&n.metadata, "language_info", "name") {
        Some(language) => language,
        None => "python",
    }
}

/// The string under a key of the object under another key.
fn string_within<'a>(t: &'a Json, outer: &str, key: &str) -> Option<&'a str>
    ensures { option_map (λ r. r.now) result ≡ injected.string_within outer.now key.now t.now }
{
    Some(string_at(field(t, outer)?, key)?.as_str())
}

/// Whether parameters can be written in the language of the notebook's cells.
pub(crate) fn has_translator(n: &Notebook) -> bool
    ensures { result ≡ injected.has_translator n.now }
{
    let language = language(n);
    language == "python" || language == "toy"
}
