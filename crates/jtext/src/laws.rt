//! Laws of trees and their texts. The functions do nothing: their contracts are the laws.
ghost use Rattle.std.specs.Prelude.{◌≡◌, ℕ, List as Plain};
ghost use Rattle.jtext.specs.Loose.{IsText};
ghost use Rattle.jtext.specs.declared.json.Json as tree;
ghost use Rattle.jtext.specs.Keyed.{Keyed};
ghost use Rattle.jtext.specs.Grammar.{Spells};
ghost use Rattle.jtext.specs.Print.{compact};
ghost use Rattle.jtext.specs.Sorting.{sort_tree};
ghost use Rattle.jtext.specs.Indent.{print};
ghost use Rattle.jtext.specs.Sound.{Sound, AllSound, PairsSound};

use crate::Json;
use crate::json::{Fields, Items};

/// The numbers of a tree are numbers, and its texts are UTF-8.
#[cycle(sound)]
pub fn sound(t: &Json)
    ensures { Sound t.now }
{
    match t {
        Json::Null => {}
        Json::Bool(_b) => {}
        Json::Num(n) => {
            let _ = n.as_str();
        }
        Json::Str(s) => {
            let _ = s.as_str().as_bytes();
        }
        Json::Arr(items) => sound_items(items),
        Json::Obj(fields) => sound_fields(fields),
    }
}

#[cycle(sound)]
fn sound_items(items: &Items)
    ensures { AllSound items.now }
{
    for item in items.as_slice() {
        sound(item);
    }
}

#[cycle(sound)]
fn sound_fields(fields: &Fields)
    ensures { PairsSound fields.now }
{
    for field in fields.as_slice() {
        let (key, value) = field;
        let _ = key.as_str().as_bytes();
        sound(value);
    }
}

/// The compact text of a tree with distinct keys spells that tree.
pub fn compact_spells()
    ensures { (t : tree.Json) → Sound t → Keyed t → Spells t (compact t) }
{}

/// The indented text of a tree with distinct keys spells that tree with its pairs sorted.
pub fn indented_spells()
    ensures { (t : tree.Json) → Sound t → Keyed t → Spells (sort_tree t) (print t) }
{}

/// A text spells no two trees.
pub fn spells_one()
    ensures { (t u : tree.Json) (b : Plain ℕ) → Spells t b → Spells u b → t ≡ u }
{}

/// What spells a tree is a text of the looser grammar, which has no trees.
pub fn spelled_is_text()
    ensures { (t : tree.Json) (b : Plain ℕ) → Spells t b → IsText b }
{}

/// What a text spells has no key twice in an object.
pub fn spelled_is_keyed()
    ensures { (t : tree.Json) (b : Plain ℕ) → Spells t b → Keyed t }
{}
