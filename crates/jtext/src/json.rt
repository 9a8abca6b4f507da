//! `Json`, a JSON value as a tree (RFC 8259).
use crate::{List, NumText, Text};

/// Texts in their order.
pub type Texts = List<Text>;

/// The items of an array.
pub type Items = List<Json>;

/// The pairs of an object, each a key and its value, in the order of the file.
pub type Fields = List<(Text, Json)>;

/// A JSON value. Numbers keep their text, and pairs their order. A contract sees the plain tree,
/// so that equality of trees is equality.
#[derive(Debug, Drop)]
pub enum Json {
    /// `null`
    Null,
    /// `true` or `false`
    Bool(bool),
    /// A number, as it was written.
    Num(NumText),
    /// A string, its escapes resolved.
    Str(Text),
    /// An array.
    Arr(Items),
    /// An object. What was read has no key twice; what is built may.
    Obj(Fields),
}
