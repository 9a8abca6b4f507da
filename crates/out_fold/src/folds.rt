//! What is held of all cells.
ghost use Rattle.std.specs.Prelude.{◌≡◌, ◌<◌, ◌≤◌, ◌-◌, ◌^◌, length, slice_set};

use crate::copies;
use crate::folded::Folded;
use crate::latest::Latest;
use crate::parts::shown_in;
use crate::render::{date_fields, output_items};
use jcontent::{Content, Shown};
use jtext::{Fields, Items, List, NoMemory, NumText, Text};
use std::alloc::Global;
use std::mem;

/// The outputs that stand in each cell, with its count and dates, and what each display id shows.
#[derive(Drop)]
pub(crate) struct Folds {
    alloc: Global,
    merge: bool,
    next: usize,
    current: Folded,
    cells: List<Folded>,
    latest: Latest,
    ghost within: { next ≤ length cells },
    ghost small: { next ≤ 2 ^ 32 },
}

impl Folds {
    ghost use Rattle.std.specs.Prelude.{◌≡◌, ℕ, ◌+◌, ◌<◌, ◌≤◌, List as Plain, [], ◌∷◌, ◌++◌, None, Some, IfOk, OnOk, OnErr};
    ghost use Rattle.std.specs.Str.{bytes_eq};
    ghost use Rattle.out_fold.specs.Shown.{shown_in, shows, data_if};
    ghost use Rattle.std.specs.Option.{option_copied};
    ghost use Rattle.out_fold.specs.Cells.{Used, begin, with_message, with_reply, outputs_of, count_of, dates_of};
    ghost use Rattle.out_fold.specs.Held.{Holds, IsSameShape, Took, Kept, cells_of, merge_of, next_of, held_at};

    /// A fold for a notebook with that many cells; `merge` joins neighbouring streams of one name.
    pub(crate) fn new(alloc: Global, cells: u32, merge: bool) -> Result<Folds, NoMemory>
        ensures cells { IfOk result (λ f. cells_of f ≡ cells) }
        ensures merge { IfOk result (λ f. merge_of f ≡ merge) }
        ensures next { IfOk result (λ f. next_of f ≡ 0) }
        ensures stands { IfOk result (λ f. Holds f []) }
    {
        let mut held = List::new(alloc);
        for made in 0..cells {
            held.push(Folded::new(alloc))?;
        }
        Ok(Folds {
            alloc,
            merge,
            next: 0,
            current: Folded::new(alloc),
            cells: held,
            latest: Latest::new(alloc),
        })
    }

    /// Makes the cell the current one, with nothing used for it. Cells begin in increasing order.
    pub(crate) fn start(&mut self, cell: u32)
        requires below { cell < cells_of self.old }
        requires above { next_of self.old ≤ cell }
        ensures cells { cells_of self.new ≡ cells_of self.old }
        ensures merge { merge_of self.new ≡ merge_of self.old }
        ensures next { next_of self.new ≡ cell + 1 }
        ensures stands { (us : Plain Used) → Holds self.old us
            → Holds self.new (us ++ begin cell ∷ []) }
    {
        let ended = mem::replace(&mut self.current, Folded::new(self.alloc));
        put_back(&mut self.cells, self.next, ended);
        self.next = cell as usize + 1;
    }

    /// Takes the next message that was used for the current cell's request. Without memory nothing
    /// changes.
    pub(crate) fn take(&mut self, c: &Content, date: Option<&Text>) -> Result<(), NoMemory>
        requires { 0 < next_of self.old }
        ensures shape { IsSameShape self.old self.new }
        ensures stands { OnOk result ((us : Plain Used) (u : Used) → Holds self.old (us ++ u ∷ [])
            → Holds self.new (us ++ with_message u c.now (option_copied date.entry) ∷ [])) }
        ensures still { OnErr result ((us : Plain Used) → Holds self.old us → Holds self.new us) }
    {
        self.take_one(c, date)
    }

    fn take_one(&mut self, c: &Content, date: Option<&Text>) -> Result<(), NoMemory>
        ensures ok { OnOk result (Took self.old self.new c.now (option_copied date.entry)) }
        ensures err { OnErr result (Kept self.old self.new) }
    {
        match shown_in(c) {
            Some(shown) => self.take_shown(shown, c, date),
            None => self.take_unnamed(c, date),
        }
    }

    fn take_shown(
        &mut self,
        shown: &Shown,
        c: &Content,
        date: Option<&Text>,
    ) -> Result<(), NoMemory>
        requires { shown_in c.now ≡ Some shown.now }
        ensures ok { OnOk result (Took self.old self.new c.now (option_copied date.entry)) }
        ensures err { OnErr result (Kept self.old self.new) }
    {
        match &shown.id {
            Some(id) => self.take_named(id, shown, c, date),
            None => self.take_unnamed(c, date),
        }
    }

    fn take_unnamed(&mut self, c: &Content, date: Option<&Text>) -> Result<(), NoMemory>
        requires { (id : Plain ℕ) → shows id c.now ≡ None }
        ensures ok { OnOk result (Took self.old self.new c.now (option_copied date.entry)) }
        ensures err { OnErr result (Kept self.old self.new) }
    {
        self.current.take(self.alloc, c, date)
    }

    fn take_named(
        &mut self,
        id: &Text,
        shown: &Shown,
        c: &Content,
        date: Option<&Text>,
    ) -> Result<(), NoMemory>
        requires { (other : Plain ℕ) → shows other c.now
            ≡ data_if (bytes_eq id.now other) shown.now }
        ensures ok { OnOk result (Took self.old self.new c.now (option_copied date.entry)) }
        ensures err { OnErr result (Kept self.old self.new) }
    {
        let data = copies::data(self.alloc, shown)?;
        self.latest.make_room(self.alloc, id)?;
        self.current.take(self.alloc, c, date)?;
        self.latest.put(id, data);
        Ok(())
    }

    /// Takes the date of the reply to the current cell's request. Without memory nothing changes.
    pub(crate) fn reply(&mut self, date: Option<&Text>) -> Result<(), NoMemory>
        requires { 0 < next_of self.old }
        ensures shape { IsSameShape self.old self.new }
        ensures stands { OnOk result ((us : Plain Used) (u : Used) → Holds self.old (us ++ u ∷ [])
            → Holds self.new (us ++ with_reply u (option_copied date.entry) ∷ [])) }
        ensures still { OnErr result ((us : Plain Used) → Holds self.old us → Holds self.new us) }
    {
        let date = copies::date(self.alloc, date)?;
        self.current.reply = date;
        Ok(())
    }

    /// The outputs of a cell as nbformat writes them; none where it was not begun.
    pub(crate) fn outputs(&self, cell: u32) -> Result<Items, NoMemory>
        requires { cell < cells_of self.now }
        ensures { (us : Plain Used) → Holds self.now us
            → IfOk result (λ items. items ≡ outputs_of (merge_of self.now) us cell) }
    {
        let held = self.fold_of(cell);
        output_items(
            self.alloc,
            held.outputs.as_slice(),
            &self.latest,
            self.merge,
        )
    }

    /// The execution count of a cell, where one was told.
    pub(crate) fn count(&self, cell: u32) -> Option<&NumText>
        requires { cell < cells_of self.now }
        ensures { (us : Plain Used) → Holds self.now us → option_copied result ≡ count_of us cell }
    {
        self.fold_of(cell).count.as_ref()
    }

    /// The dates of a cell's messages and of its reply, as nbclient writes them into
    /// `metadata.execution`.
    pub(crate) fn dates(&self, cell: u32) -> Result<Fields, NoMemory>
        requires { cell < cells_of self.now }
        ensures { (us : Plain Used) → Holds self.now us
            → IfOk result (λ dates. dates ≡ dates_of us cell) }
    {
        date_fields(self.alloc, self.fold_of(cell))
    }

    /// The current cell.
    pub(crate) fn current(&self) -> u32
        requires { 0 < next_of self.now }
        ensures { result + 1 ≡ next_of self.now }
    {
        (self.next - 1) as u32
    }

    /// How many outputs stand in the current cell before the next one.
    pub(crate) fn outputs_held(&self) -> u32 {
        if self.current.waits {
            return 0;
        }
        u32::try_from(self.current.outputs.len()).unwrap_or(u32::MAX)
    }

    fn fold_of(&self, cell: u32) -> &Folded
        requires { cell < cells_of self.now }
        ensures { result.now ≡ held_at self.now cell }
    {
        let at = cell as usize;
        if at + 1 == self.next {
            &self.current
        } else {
            &self.cells.as_slice()[at]
        }
    }
}

/// Puts what was held of the current cell, the one below `next`, among the cells.
fn put_back(cells: &mut List<Folded>, next: usize, ended: Folded)
    requires { next ≤ length cells.old }
    ensures some { 0 < next → cells.new ≡ slice_set cells.old (next - 1) ended }
    ensures none { next ≡ 0 → cells.new ≡ cells.old }
    ensures len { length cells.new ≡ length cells.old }
{
    if next > 0 {
        cells.put(next - 1, ended);
    }
}
