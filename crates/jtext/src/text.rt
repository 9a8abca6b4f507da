//! `Text`, the text type of every record.
ghost use Rattle.std.specs.Prelude.{◌≡◌, [], ◌∷◌, ◌++◌, string_bytes, IfOk};

use crate::NoMemory;
use crate::storage::Storage;
use std::alloc::Global;
use std::marker::Model;

/// Text in UTF-8. A contract sees it as the list of its bytes.
#[derive(Debug, Drop)]
pub struct Text {
    storage: Storage,
}

impl Model for Text {
    ghost use Rattle.std.specs.Prelude.{List as Plain, ℕ};
    ghost use Rattle.jtext.specs.Storage.{bytes_of};

    ghost Value = { Plain ℕ };

    ghost view = { λ a. bytes_of a.storage };
}

impl Text {
    /// The empty text, which keeps the allocator and takes no memory yet.
    pub fn new(alloc: Global) -> Text
        ensures { result ≡ [] }
    {
        Text {
            storage: Storage::Heap(String::new(alloc)),
        }
    }

    /// A copy of `text`.
    pub fn of(alloc: Global, text: &str) -> Result<Text, NoMemory>
        ensures { IfOk result (λ r. r ≡ text.now) }
    {
        Ok(Text {
            storage: Storage::of(alloc, text)?,
        })
    }

    /// A text equal to this one.
    pub fn copy(&self, alloc: Global) -> Result<Text, NoMemory>
        ensures { IfOk result (λ r. r ≡ self.now) }
    {
        Text::of(alloc, self.as_str())
    }

    /// The text of that string, which takes no memory.
    pub fn of_string(text: String) -> Text
        ensures { result ≡ string_bytes text }
    {
        Text {
            storage: Storage::Heap(text),
        }
    }

    /// Its bytes, lent.
    pub fn bytes(&self) -> &[u8]
        ensures { result.now ≡ self.now }
    {
        self.storage.as_str().as_bytes()
    }

    /// The text, lent.
    pub fn as_str(&self) -> &str
        ensures { result.now ≡ self.now }
    {
        self.storage.as_str()
    }
}

impl PartialEq for Text {
    ghost use Rattle.std.specs.Prelude.{nat_eq};
    ghost use Rattle.std.specs.Cmp.{partial_equiv_from_equiv};
    ghost use Rattle.std.specs.Cmp.Lexicographic.{pointwise, nat_list_eq_equiv};

    ghost eq = { pointwise nat_eq };

    ghost laws = { partial_equiv_from_equiv nat_list_eq_equiv };

    fn eq(&self, other: &Text) -> bool {
        self.as_str() == other.as_str()
    }
}

impl Eq for Text {
    ghost use Rattle.std.specs.Cmp.Lexicographic.{nat_list_eq_equiv};

    ghost laws = { nat_list_eq_equiv };
}
