//! JSON pointers (RFC 6901) to the place of a fault, put together from within.
ghost use Rattle.std.specs.Prelude.{◌≡◌, ◌++◌, IfOk, OnOk, string_bytes, flat_map};
ghost use Rattle.std.specs.Str.{chars};
ghost use Rattle.nb_model.specs.Pointer as pointers;

use jtext::{NoMemory, Text};
use std::alloc::Global;

/// The place within the value of a key, where the object has that key.
macro_rules! within {
    ($alloc:expr, $t:expr, $key:expr, $place:ident) => {
        match field($t, $key) {
            Some(v) => under_key($alloc, $key, $place($alloc, v)?),
            None => Ok(None),
        }
    };
}

pub(crate) use within;

/// The value itself, unless the test holds of it.
pub(crate) fn place_unless(alloc: Global, holds: bool) -> Option<Text>
    ensures { result ≡ pointers.place_unless holds }
{
    if holds { None } else { Some(Text::new(alloc)) }
}

/// A place in the value under this key, seen from its object.
#[tactic(auto, unfolding(crate::specs::Pointer::key_token))]
pub(crate) fn under_key(
    alloc: Global,
    key: &str,
    place: Option<Text>,
) -> Result<Option<Text>, NoMemory>
    ensures { IfOk result (λ r. r ≡ pointers.under_key key.now place) }
{
    let Some(inner) = place else {
        return Ok(None);
    };
    let mut pointer = String::from_str(alloc, "/")?;
    push_escaped(&mut pointer, key)?;
    pointer.push_str(inner.as_str())?;
    Ok(Some(Text::of_string(pointer)))
}

/// A place in the item at this index, seen from its list.
#[tactic(auto, unfolding(crate::specs::Pointer::item_token))]
pub(crate) fn under_item(
    alloc: Global,
    i: usize,
    place: Option<Text>,
) -> Result<Option<Text>, NoMemory>
    ensures { IfOk result (λ r. r ≡ pointers.under_item i place) }
{
    let Some(inner) = place else {
        return Ok(None);
    };
    let mut pointer = format!(in alloc; "/{i}")?;
    pointer.push_str(inner.as_str())?;
    Ok(Some(Text::of_string(pointer)))
}

fn push_escaped(pointer: &mut String, key: &str) -> Result<(), NoMemory>
    ensures { OnOk result (string_bytes pointer.new
        ≡ string_bytes pointer.old ++ flat_map pointers.escaped_char (chars key.now)) }
{
    for c in key.chars() {
        push_char(pointer, c)?;
    }
    Ok(())
}

fn push_char(pointer: &mut String, c: char) -> Result<(), NoMemory>
    ensures { OnOk result (string_bytes pointer.new
        ≡ string_bytes pointer.old ++ pointers.escaped_char c) }
{
    match c {
        '~' => pointer.push_str("~0")?,
        '/' => pointer.push_str("~1")?,
        _ => pointer.push(c)?,
    }
    Ok(())
}
