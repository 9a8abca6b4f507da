//! Data by media type.
ghost use Rattle.std.specs.Prelude.{◌≡◌, ◌||◌};
ghost use Rattle.std.specs.List.{list_all};
ghost use Rattle.jtext.specs.Bundle as spec;

use crate::{Json, Text};

/// Whether it is a string, or a list of strings that are joined.
pub fn is_multiline(v: &Json) -> bool
    ensures { result ≡ spec.is_multiline v.now }
{
    v.is_string() || v.is_strings()
}

/// Whether the media type is one of JSON's, whose data is any tree.
pub fn is_json_type(key: &[u8]) -> bool
    ensures { result ≡ spec.is_json_type key.now }
{
    key == b"application/json".as_slice() || key.ends_with(b"+json")
}

/// Whether it is an object whose values are multiline strings, but under a media type of JSON's.
pub fn is_bundle(v: &Json) -> bool
    ensures { result ≡ spec.is_bundle v.now }
{
    v.is_object() && all_data(v.pairs())
}

fn all_data(pairs: &[(Text, Json)]) -> bool
    ensures { result ≡ list_all (λ p. spec.is_json_type p.0 || spec.is_multiline p.1) pairs.now }
{
    pairs
        .iter()
        .all(|p| is_json_type(p.0.bytes()) || is_multiline(&p.1))
}
