//! JSON trees and the lists and texts that they are made of (RFC 8259).
//! Reads bytes to a tree, looks into it, edits it, and writes it as compact or as indented text.
//! It does no IO.
#![tactic(auto)]

// Lists, texts and numbers, and the tree that they make.
mod json;
mod list;
mod no_memory;
mod number;
mod storage;
mod text;

// Looking into a tree, making one, changing one.
mod build;
mod bundle;
mod duplicate;
mod edit;
mod inside;
mod look;
mod lookup;
mod name;

// Reading.
mod fault;
mod key_set;
mod plain;
mod quoted;
mod reader;
mod scan;

// Writing.
mod compact;
mod escape;
mod indent;
pub mod laws;
mod sorted;

pub use build::{object, pair, put_text, string, text_pair};
pub use bundle::{is_bundle, is_json_type, is_multiline};
pub use compact::{put_compact, write_compact};
pub use duplicate::{copy, copy_fields, copy_items, copy_texts, texts_of};
pub use edit::{place_of_key, set_field, set_pair, set_within};
pub use escape::put_string;
pub use fault::JsonFault;
pub use indent::{put_indented, write_indented, write_indented_at};
pub use json::{Fields, Items, Json, Texts};
pub use list::{Bytes, List};
pub use look::is_whole_text;
pub use lookup::{field, is_true_at, string_at, text_at};
pub use name::{is_name, short_number};
pub use no_memory::NoMemory;
pub use number::{NumFault, NumText};
pub use reader::{read, read_within};
pub use text::Text;
