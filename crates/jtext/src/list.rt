//! `List<T>`, the list type of every record, and `Bytes`.
ghost use Rattle.std.specs.Prelude.{◌≡◌, [], ◌∷◌, ◌++◌, ◌<◌, ◌≤◌, ◌^◌, ◌↔◌, IsTrue, length, slice_get, slice_set, Some, OnOk, OnErr, IfOk};
ghost use Rattle.std.specs.Option.{option_copied};
ghost use Rattle.std.specs.List.{insert, remove};
ghost use Rattle.std.specs.Slice.Iter.{iter_rest};
ghost use Rattle.std.specs.Iterator.Adapters.{IterYieldsInOrder, IterYieldsInReverse};

use crate::NoMemory;
use std::alloc::Global;
use std::marker::Model;
use std::mem;
use std::slice::Iter;

/// Items in their order. A contract sees it as the list of them.
#[derive(Debug, Drop)]
pub struct List<T> {
    items: Vec<T>,
}

impl<T> Model for List<T> {
    ghost use Rattle.std.specs.Prelude.{List as Plain};
    ghost use Rattle.std.specs.Coded.{coded_list};

    ghost Value = { Plain T };

    ghost coded = { coded_list T.code };

    ghost view = { λ a. a.items.items };
}

impl<T> List<T> {
    /// The empty list, which keeps the allocator and takes no memory yet.
    pub fn new(alloc: Global) -> List<T>
        ensures { result ≡ [] }
    {
        List {
            items: Vec::new(alloc),
        }
    }

    /// A list of those items, which takes no memory.
    pub fn of_vec(items: Vec<T>) -> List<T>
        ensures { result ≡ items.items }
    {
        List { items }
    }

    /// The number of items.
    pub fn len(&self) -> usize
        ensures { result ≡ length self.now }
    {
        self.items.len()
    }

    /// Whether there is no item.
    pub fn is_empty(&self) -> bool
        ensures { IsTrue result ↔ (self.now ≡ []) }
    {
        self.items.is_empty()
    }

    /// The item at `i`, counted from 0, and `None` where `i` isn't below the length.
    pub fn get(&self, i: usize) -> Option<&T>
        ensures { option_copied result ≡ slice_get self.now i }
    {
        self.items.get(i)
    }

    /// The items, lent.
    pub fn as_slice(&self) -> &[T]
        ensures { result.now ≡ self.now }
    {
        self.items.as_slice()
    }

    /// The items from the first to the last, each lent.
    pub fn iter(&self) -> Iter<'_, T>
        ensures rest { iter_rest result ≡ self.now }
        ensures len { length (iter_rest result) ≡ length self.now }
        ensures bound { length (iter_rest result) < 2 ^ 64 }
        ensures runs { IterYieldsInOrder T }
        ensures runs_back { IterYieldsInReverse T }
    {
        self.items.as_slice().iter()
    }
}

impl<T> List<T> {
    /// The items, to be moved out one by one.
    pub fn into_vec(self) -> Vec<T>
        ensures { result.items ≡ self }
    {
        let List { items } = self;
        items
    }

    /// Gives back the room that growing has left over, where it may be much.
    pub(crate) fn trim(&mut self)
        ensures { self.new ≡ self.old }
    {
        if self.items.len() > 16 {
            self.items.shrink_to_fit();
        }
    }
}

impl<T: Drop> List<T> {
    /// Puts `x` at the end. Without memory `x` is dropped and nothing changes.
    pub fn push(&mut self, x: T) -> Result<(), NoMemory>
        ensures ok { OnOk result (self.new ≡ self.old ++ x ∷ []) }
        ensures err { OnErr result (self.new ≡ self.old) }
    {
        self.widen()?;
        self.items.push(x)?;
        Ok(())
    }

    /// Moves a full list of four to a new block of twice the room: `malloc` has blocks of such sizes at
    /// hand, which `realloc` doesn't take.
    fn widen(&mut self) -> Result<(), NoMemory>
        ensures { self.new ≡ self.old }
    {
        if self.items.len() == 4 && self.items.capacity() == 4 {
            let mut wider = Vec::with_capacity(*self.items.allocator(), 8)?;
            wider.append(&mut self.items)?;
            self.items = wider;
        }
        Ok(())
    }

    /// Puts `x` before item `i`. Without memory `x` is dropped and nothing changes.
    pub fn insert(&mut self, i: usize, x: T) -> Result<(), NoMemory>
        requires { i ≤ length self.old }
        ensures ok { OnOk result (self.new ≡ insert self.old i x) }
        ensures err { OnErr result (self.new ≡ self.old) }
    {
        self.items.insert(i, x)?;
        Ok(())
    }

    /// Replaces item `i`, counted from 0, and gives the old one back.
    pub fn put(&mut self, i: usize, x: T) -> T
        requires { i < length self.old }
        ensures old { slice_get self.old i ≡ Some result }
        ensures new { self.new ≡ slice_set self.old i x }
    {
        mem::replace(&mut self.items[i], x)
    }

    /// Takes item `i` out, and closes up.
    pub fn take(&mut self, i: usize) -> T
        requires { i < length self.old }
        ensures item { slice_get self.old i ≡ Some result }
        ensures rest { self.new ≡ remove self.old i }
    {
        self.items.remove(i)
    }
}

/// Bytes of any kind, as of a file or of a message.
pub type Bytes = List<u8>;

impl List<u8> {
    /// A copy of `b`.
    pub fn of(alloc: Global, b: &[u8]) -> Result<Bytes, NoMemory>
        ensures { IfOk result (λ r. r ≡ b.now) }
    {
        Ok(List {
            items: Vec::from_slice(alloc, b)?,
        })
    }

    /// Puts the bytes of `b` at the end. Without memory nothing changes.
    pub fn add(&mut self, b: &[u8]) -> Result<(), NoMemory>
        ensures ok { OnOk result (self.new ≡ self.old ++ b.now) }
        ensures err { OnErr result (self.new ≡ self.old) }
    {
        self.items.extend_from_slice(b)?;
        Ok(())
    }

    /// The bytes, lent.
    pub fn bytes(&self) -> &[u8]
        ensures { result.now ≡ self.now }
    {
        self.items.as_slice()
    }
}
