//! What holds of every text of the toy language.
ghost use Rattle.std.specs.Prelude.{◌≡◌, ◌∷◌, ◌++◌, ◌↔◌, [], ℕ, List, true, false, Some};
ghost use Rattle.std.specs.List.{list_any};
ghost use Rattle.std.specs.Str.{chars};
ghost use Rattle.jtext.specs.Names.{is_number};
ghost use Rattle.jtext.specs.Number.{IsNumber};
ghost use Rattle.toy_lang.specs.Lines.{statement};
ghost use Rattle.toy_lang.specs.Literals.{literal_text};
ghost use Rattle.toy_lang.specs.Runs.{effects, is_last};
ghost use Rattle.toy_lang.specs.Spellings.{IsLiteral};
ghost use Rattle.toy_lang.specs.Table.{IsStatement};
ghost use Rattle.toy_lang.specs.ToyOut.{is_death, publication, IsFromBusyToIdle};
ghost use Rattle.toy_lang.specs.Variables.{Variables};
ghost use Rattle.toy_lang.specs.declared.effect.Effect.{Effect};
ghost use Rattle.toy_lang.specs.declared.verb.Verb.{Verb};

/// Nothing follows an error, nor the end of the kernel.
pub fn nothing_follows_the_last()
    ensures { (vars : Variables) (text : List ℕ) (before after : List Effect) (e : Effect) →
        effects vars text ≡ before ++ e ∷ after → is_last e ≡ true → after ≡ [] }
{}

/// A literal is read as the text that the grammar gives it, and what the grammar doesn't have isn't
/// read.
pub fn literals_are_read_by_the_grammar()
    ensures { (literal text : List ℕ) →
        (literal_text literal ≡ Some text) ↔ IsLiteral text (chars literal) }
{}

/// A line with an expression is read as the row of the table that it is, and no other line is read.
pub fn statements_are_the_rows_of_the_table()
    ensures { (line word expression : List ℕ) (verb : Verb) →
        (statement line ≡ Some (verb, word, expression)) ↔ IsStatement verb word expression line }
{}

/// An expression is taken as a number exactly where it is one of JSON (RFC 8259, section 6).
pub fn numbers_are_those_of_json()
    ensures { (text : List ℕ) → (is_number text ≡ true) ↔ IsNumber text }
{}

/// What is published for a text that doesn't end the kernel begins with busy and ends with idle.
pub fn a_text_is_published_from_busy_to_idle()
    ensures { (code : List ℕ) (count : ℕ) (es : List Effect) →
        list_any is_death es ≡ false → IsFromBusyToIdle (publication code count es) }
{}
