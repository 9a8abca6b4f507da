//! Where the bytes of a text lie.
ghost use Rattle.std.specs.Prelude.{◌≡◌, IfOk};
ghost use Rattle.jtext.specs.Storage.{bytes_of};

use crate::NoMemory;
use arrayvec::ArrayString;
use std::alloc::Global;

/// The bytes of a text: up to 16 lie in the value itself, and more on the heap.
#[derive(Debug)]
pub(crate) enum Storage {
    Inline(ArrayString<16>),
    Heap(String),
}

// By hand, so that to let a text go is one call, and no choice, in the proofs of those who do.
impl Drop for Storage {
    fn drop(self) {
        match self {
            Storage::Inline(_) => {}
            Storage::Heap(_) => {}
        }
    }
}

impl Storage {
    /// Of a copy of `text`, which takes no memory where it has at most 16 bytes.
    pub(crate) fn of(alloc: Global, text: &str) -> Result<Storage, NoMemory>
        ensures { IfOk result (λ r. bytes_of r ≡ text.now) }
    {
        match ArrayString::from(text) {
            Ok(few) => Ok(Storage::Inline(few)),
            Err(_) => Ok(Storage::Heap(String::from_str(alloc, text)?)),
        }
    }

    /// The text, lent.
    pub(crate) fn as_str(&self) -> &str
        ensures { result.now ≡ bytes_of self.now }
    {
        match self {
            Storage::Inline(text) => text.as_str(),
            Storage::Heap(text) => text.as_str(),
        }
    }
}
