//! The rows of a text, and the scrap that a row gives.
ghost use Rattle.std.specs.Prelude.{◌≡◌, ◌<◌, ◌∷◌, [], length, IfSome, IfNone, option_map};
ghost use Rattle.jtext.specs.Readings as reading;
ghost use Rattle.report_text.specs.Rows.{rows};
ghost use Rattle.scrap_book.specs.Scraps as spec;

use jtext::is_name;

/// The first row of the text and the text after its line end, and `None` where there is no row.
pub(crate) fn split_row(text: &str) -> Option<(&str, &str)>
    ensures first { IfSome result (λ p. rows text.now ≡ p.0.now ∷ rows p.1.now) }
    ensures shorter { IfSome result (λ p. length p.1.now < length text.now) }
    ensures none { IfNone result (text.now ≡ []) }
{
    if text.is_empty() {
        return None;
    }
    match text.split_once('\n') {
        Some((row, rest)) => Some((row, rest)),
        None => Some((text, "")),
    }
}

/// The name and the text of the value in a row `scrap NAME = VALUE`, and `None` of another row.
/// The value is all that follows `= `, spaces and U+000D too.
pub(crate) fn scrap_texts(row: &str) -> Option<(&str, &str)>
    ensures { option_map (λ p. (p.0.now, p.1.now)) result ≡ spec.scrap_texts row.now }
{
    let rest = strip_word(row, "scrap ")?;
    let (name, after) = rest.split_once(' ')?;
    let value = strip_word(after, "= ")?;
    if is_name(name.as_bytes()) {
        Some((name, value))
    } else {
        None
    }
}

/// The text after the word, where the text begins with it.
fn strip_word<'a>(s: &'a str, word: &str) -> Option<&'a str>
    ensures { option_map (λ rest. rest.now) result ≡ reading.strip_word word.now s.now }
{
    s.strip_prefix(word)
}
