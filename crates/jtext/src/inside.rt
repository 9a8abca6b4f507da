//! Values taken apart by move.
ghost use Rattle.std.specs.Prelude.{◌≡◌};
ghost use Rattle.jtext.specs.Find.{fields};
ghost use Rattle.jtext.specs.Look.{items, string, number};

use crate::json::{Fields, Items};
use crate::{Json, NumText, Text};
use std::alloc::Global;

impl Json {
    /// The pairs of an object, and none of another value.
    pub fn into_pairs(self, alloc: Global) -> Fields
        ensures { result ≡ fields self }
    {
        match self {
            Json::Obj(fields) => fields,
            _ => Fields::new(alloc),
        }
    }

    /// The items of a list, and none of another value.
    pub fn into_items(self, alloc: Global) -> Items
        ensures { result ≡ items self }
    {
        match self {
            Json::Arr(items) => items,
            _ => Items::new(alloc),
        }
    }

    /// The text of a string, and `None` of another value.
    pub fn into_text(self) -> Option<Text>
        ensures { result ≡ string self }
    {
        match self {
            Json::Str(text) => Some(text),
            _ => None,
        }
    }

    /// The text of a number, and `None` of another value.
    pub fn into_number(self) -> Option<NumText>
        ensures { result ≡ number self }
    {
        match self {
            Json::Num(text) => Some(text),
            _ => None,
        }
    }
}
