//! The texts of cells that are kept from one save to the next.
ghost use Rattle.std.specs.Prelude.{◌≤◌, length};

use jtext::{Bytes, List, NoMemory, Text, Texts};
use nb_model::{Cell, Notebook};
use nb_text::{cell_text, join};
use std::alloc::Global;

/// Texts of cells by the cells' indices, and which of them are kept. A text that isn't kept only
/// holds its place, since the notebook's text is joined from one list.
#[derive(Drop)]
pub(crate) struct KeptTexts {
    texts: Texts,
    stands: List<bool>,
    ghost within: { length stands ≤ length texts },
}

impl KeptTexts {
    ghost use Rattle.std.specs.Prelude.{◌≡◌, ◌≢◌, ◌<◌, ◌≤◌, ◌+◌, ◌-◌, ℕ, List as Plain, length, slice_get, false, Some, None, IfOk, IfSome, OnOk};
    ghost use Rattle.jtext.specs.Indent.{print};
    ghost use Rattle.nb_model.specs.declared.cell.Cell as whole;
    ghost use Rattle.nb_model.specs.Tree.{notebook_tree};
    ghost use Rattle.nb_text.specs.Cells as texts;
    ghost use Rattle.progress_save.specs.Kept.{is_kept, text_at, Fits, KeepsSame, KeepsAll, IsComplete, IsPut};

    /// None is kept. It takes no memory.
    pub(crate) fn new(alloc: Global) -> KeptTexts
        ensures { (i : ℕ) → text_at result i ≡ None }
    {
        KeptTexts {
            texts: Texts::new(alloc),
            stands: List::new(alloc),
        }
    }

    /// Forgets the text of this cell.
    pub(crate) fn forget(&mut self, cell: usize)
        ensures gone { text_at self.new cell ≡ None }
        ensures others { (i : ℕ) → i ≢ cell → text_at self.new i ≡ text_at self.old i }
    {
        if cell < self.stands.len() {
            let _ = self.stands.put(cell, false);
        }
    }

    /// The text of the notebook. The texts of cells that aren't kept are made, and not kept yet.
    pub(crate) fn notebook_text(&mut self, alloc: Global, n: &Notebook) -> Result<Bytes, NoMemory>
        requires { Fits self.old n.now.cells }
        ensures text { IfOk result (λ b. b ≡ print (notebook_tree n.now)) }
        ensures same { KeepsSame self.old self.new }
        ensures made { OnOk result (IsComplete self.new n.now.cells) }
    {
        self.complete(alloc, n.cells.as_slice())?;
        join(alloc, n, &self.texts)
    }

    /// Keeps all texts that are there.
    pub(crate) fn keep_all(&mut self)
        ensures { (cs : Plain whole.Cell) → IsComplete self.old cs → KeepsAll self.new cs }
    {
        for i in 0..self.stands.len() {
            let _ = self.stands.put(i, true);
        }
    }

    /// Makes the texts of the cells that aren't kept, and lets those go that stand behind the last
    /// cell.
    fn complete(&mut self, alloc: Global, cells: &[Cell]) -> Result<(), NoMemory>
        requires { Fits self.old cells.now }
        ensures same { KeepsSame self.old self.new }
        ensures made { OnOk result (IsComplete self.new cells.now) }
    {
        self.shorten(cells.len());
        for (i, cell) in cells.iter().enumerate() {
            self.renew(alloc, i, cell)?;
        }
        Ok(())
    }

    /// Lets the texts go that stand at this index or behind it, none of which is kept.
    fn shorten(&mut self, len: usize)
        requires { (i : ℕ) → len ≤ i → text_at self.old i ≡ None }
        ensures same { KeepsSame self.old self.new }
        ensures within { length self.new.texts ≤ len }
    {
        while self.texts.len() > len {
            self.drop_last();
        }
    }

    /// Lets the last text go, which isn't kept.
    fn drop_last(&mut self)
        requires some { 0 < length self.old.texts }
        requires free { text_at self.old (length self.old.texts - 1) ≡ None }
        ensures same { KeepsSame self.old self.new }
        ensures shorter { length self.new.texts + 1 ≡ length self.old.texts }
    {
        let last = self.texts.len() - 1;
        if last < self.stands.len() {
            let _ = self.stands.take(last);
        }
        let _ = self.texts.take(last);
    }

    /// Makes the text of the cell at this index, unless it is kept.
    fn renew(&mut self, alloc: Global, i: usize, cell: &Cell) -> Result<(), NoMemory>
        requires place { i ≤ length self.old.stands }
        requires fits { IfSome (text_at self.old i) (λ t. t ≡ texts.cell_text cell.now) }
        ensures same { KeepsSame self.old self.new }
        ensures made { OnOk result (IsPut self.old self.new i (texts.cell_text cell.now)) }
    {
        if self.is_kept(i) {
            return Ok(());
        }
        let text = cell_text(alloc, cell)?;
        self.put(i, text)
    }

    fn is_kept(&self, i: usize) -> bool
        ensures { result ≡ is_kept self.now i }
    {
        self.stands.get(i).is_some_and(|stands| *stands)
    }

    /// Puts the text at this index, where none is kept.
    fn put(&mut self, i: usize, text: Text) -> Result<(), NoMemory>
        requires place { i ≤ length self.old.stands }
        requires free { is_kept self.old i ≡ false }
        ensures same { KeepsSame self.old self.new }
        ensures made { OnOk result (IsPut self.old self.new i text) }
    {
        self.put_text(i, text)?;
        self.widen(i)
    }

    /// Puts the text at this index, whether or not it is kept there.
    fn put_text(&mut self, i: usize, text: Text) -> Result<(), NoMemory>
        requires { i ≤ length self.old.texts }
        ensures stands { self.new.stands ≡ self.old.stands }
        ensures text { OnOk result (slice_get self.new.texts i ≡ Some text) }
        ensures others { (j : ℕ) → j ≢ i →
            slice_get self.new.texts j ≡ slice_get self.old.texts j }
        ensures within { OnOk result (i < length self.new.texts) }
    {
        if i < self.texts.len() {
            let _ = self.texts.put(i, text);
            return Ok(());
        }
        self.texts.push(text)
    }

    /// Makes a place for what is known of the text at this index.
    fn widen(&mut self, i: usize) -> Result<(), NoMemory>
        requires place { i ≤ length self.old.stands }
        requires within { i < length self.old.texts }
        ensures texts { self.new.texts ≡ self.old.texts }
        ensures kept { (j : ℕ) → is_kept self.new j ≡ is_kept self.old j }
        ensures place { OnOk result (i < length self.new.stands) }
    {
        if i < self.stands.len() {
            return Ok(());
        }
        self.stands.push(false)
    }
}
