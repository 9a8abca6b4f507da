//! Looking into a JSON value: its kind, and what stands in it.
ghost use Rattle.std.specs.Prelude.{◌≡◌, option_map};
ghost use Rattle.std.specs.List.{list_all};
ghost use Rattle.std.specs.Char.{is_ascii_digit};
ghost use Rattle.jtext.specs.Find.{fields};
ghost use Rattle.jtext.specs.Look as spec;

use crate::{Json, NumText, Text};

impl Json {
    /// Whether it is an object.
    pub fn is_object(&self) -> bool
        ensures { result ≡ spec.is_object self.now }
    {
        matches!(self, Json::Obj(_))
    }

    /// Whether it is a list, which the standard calls an array.
    pub fn is_list(&self) -> bool
        ensures { result ≡ spec.is_list self.now }
    {
        matches!(self, Json::Arr(_))
    }

    /// Whether it is a string.
    pub fn is_string(&self) -> bool
        ensures { result ≡ spec.is_string self.now }
    {
        matches!(self, Json::Str(_))
    }

    /// Whether it is a list of strings.
    pub fn is_strings(&self) -> bool
        ensures { result ≡ spec.is_strings self.now }
    {
        self.is_list() && all_strings(self.items())
    }

    /// Whether it is `true`.
    pub fn is_true(&self) -> bool
        ensures { result ≡ spec.is_true self.now }
    {
        match self {
            Json::Bool(is) => *is,
            _ => false,
        }
    }

    /// The text of a string, and `None` of another value.
    pub fn as_text(&self) -> Option<&Text>
        ensures { option_map (λ r. r.now) result ≡ spec.string self.now }
    {
        match self {
            Json::Str(text) => Some(text),
            _ => None,
        }
    }

    /// The text of a string, and the empty text of another value.
    pub fn text(&self) -> &str
        ensures { result.now ≡ spec.text_of self.now }
    {
        match self {
            Json::Str(text) => text.as_str(),
            _ => "",
        }
    }

    /// The text of a number, and `None` of another value.
    pub fn as_number(&self) -> Option<&NumText>
        ensures { option_map (λ r. r.now) result ≡ spec.number self.now }
    {
        match self {
            Json::Num(text) => Some(text),
            _ => None,
        }
    }

    /// The items of a list, and none of another value.
    pub fn items(&self) -> &[Json]
        ensures { result.now ≡ spec.items self.now }
    {
        match self {
            Json::Arr(items) => items.as_slice(),
            _ => &[],
        }
    }

    /// The pairs of an object, and none of another value.
    pub fn pairs(&self) -> &[(Text, Json)]
        ensures { result.now ≡ fields self.now }
    {
        match self {
            Json::Obj(fields) => fields.as_slice(),
            _ => &[],
        }
    }
}

fn all_strings(items: &[Json]) -> bool
    ensures { result ≡ list_all spec.is_string items.now }
{
    items.iter().all(|item| item.is_string())
}

/// Whether it is the text of a whole number that isn't negative: `0`, or digits that begin with
/// another one.
pub fn is_whole_text(text: &[u8]) -> bool
    ensures { result ≡ spec.is_whole_text text.now }
{
    1 <= text.len() && all_digits(text) && (text[0] != b'0' || text.len() == 1)
}

fn all_digits(text: &[u8]) -> bool
    ensures { result ≡ list_all is_ascii_digit text.now }
{
    text.iter().all(|c| c.is_ascii_digit())
}
