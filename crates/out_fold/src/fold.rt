//! The fold over the messages of all cells.
ghost use Rattle.std.specs.Prelude.{◌≡◌, true};
ghost use Rattle.out_fold.specs.Plans.{increases};

use crate::folds::Folds;
use crate::parts::name_of;
use crate::plans::{restore, touch};
use crate::taking::{take_placed, touch_named};
use display_index::Index;
use jcontent::Content;
use jtext::{Fields, Items, NoMemory, NumText, Text};
use nb_model::Plan;
use std::alloc::Global;

/// The outputs, count and dates of the cells of a notebook, by the messages that were used for
/// their requests. It holds the outputs that stand, what each display id shows, and in which cells
/// it stands.
#[derive(Drop)]
pub struct Fold {
    alloc: Global,
    held: Folds,
    index: Index,
    touched: Plan,
    ghost sorted: { increases touched ≡ true },
}

impl Fold {
    ghost use Rattle.std.specs.Prelude.{◌≡◌, ℕ, ◌+◌, ◌<◌, ◌≤◌, List as Plain, [], ◌∷◌, ◌++◌, true, All, IfOk, OnOk, OnErr};
    ghost use Rattle.std.specs.Option.{option_copied};
    ghost use Rattle.display_index.specs.Standing.{Call};
    ghost use Rattle.display_index.specs.Held as ids;
    ghost use Rattle.out_fold.specs.Cells.{Used, begin, outputs_of, count_of, dates_of};
    ghost use Rattle.out_fold.specs.Placing.{named_places};
    ghost use Rattle.out_fold.specs.Plans.{increases, Covers};
    ghost use Rattle.out_fold.specs.Stands.{StandsFor, StandsAsBefore, Takes, TouchesTaken, Replies, TouchesReplied, Rested, cells_of, merge_of, next_of, touched_of};

    /// A fold for a notebook with that many cells; `merge` joins neighbouring streams of one name.
    pub fn new(alloc: Global, cells: u32, merge: bool) -> Result<Fold, NoMemory>
        ensures cells { IfOk result (λ f. cells_of f ≡ cells) }
        ensures merge { IfOk result (λ f. merge_of f ≡ merge) }
        ensures next { IfOk result (λ f. next_of f ≡ 0) }
        ensures stands { IfOk result (λ f. StandsFor f []) }
        ensures rested { IfOk result (λ f. Rested f [] []) }
    {
        let held = Folds::new(alloc, cells, merge)?;
        Ok(Fold {
            alloc,
            held,
            index: Index::new(alloc),
            touched: Plan::new(alloc),
        })
    }

    /// Makes the cell the current one, with nothing used for it. Cells begin in increasing order.
    pub fn start(&mut self, cell: u32)
        requires below { cell < cells_of self.old }
        requires above { next_of self.old ≤ cell }
        ensures cells { cells_of self.new ≡ cells_of self.old }
        ensures merge { merge_of self.new ≡ merge_of self.old }
        ensures next { next_of self.new ≡ cell + 1 }
        ensures stands { (us : Plain Used) → StandsFor self.old us
            → StandsFor self.new (us ++ begin cell ∷ []) }
        ensures rested { (was us : Plain Used) → Rested self.old was us
            → Rested self.new was (us ++ begin cell ∷ []) }
    {
        self.held.start(cell);
    }

    /// Takes the next message that was used for the current cell's request. Without memory nothing
    /// changes.
    pub fn take(&mut self, c: &Content, date: Option<&Text>) -> Result<(), NoMemory>
        requires { 0 < next_of self.old }
        ensures cells { cells_of self.new ≡ cells_of self.old }
        ensures merge { merge_of self.new ≡ merge_of self.old }
        ensures next { next_of self.new ≡ next_of self.old }
        ensures stands { OnOk result (Takes self.old self.new c.now (option_copied date.entry)) }
        ensures rested { OnOk result
            (TouchesTaken self.old self.new c.now (option_copied date.entry)) }
        ensures still { OnErr result (StandsAsBefore self.old self.new) }
        ensures untouched { OnErr result (touched_of self.new ≡ touched_of self.old) }
    {
        let cell = self.held.current();
        let name = name_of(c);
        let before = touch_named(self.alloc, &mut self.touched, &self.index, cell, name)?;
        match take_placed(&mut self.held, &mut self.index, cell, c, date) {
            Ok(()) => Ok(()),
            Err(refused) => {
                restore(&mut self.touched, before);
                Err(refused)
            }
        }
    }

    /// Takes the date of the reply to the current cell's request. Without memory nothing changes.
    pub fn reply(&mut self, date: Option<&Text>) -> Result<(), NoMemory>
        requires { 0 < next_of self.old }
        ensures cells { cells_of self.new ≡ cells_of self.old }
        ensures merge { merge_of self.new ≡ merge_of self.old }
        ensures next { next_of self.new ≡ next_of self.old }
        ensures stands { OnOk result (Replies self.old self.new (option_copied date.entry)) }
        ensures rested { OnOk result
            (TouchesReplied self.old self.new (option_copied date.entry)) }
        ensures still { OnErr result (StandsAsBefore self.old self.new) }
        ensures untouched { OnErr result (touched_of self.new ≡ touched_of self.old) }
    {
        let cell = self.held.current();
        let before = touch(self.alloc, &mut self.touched, cell, &[])?;
        match self.held.reply(date) {
            Ok(()) => Ok(()),
            Err(refused) => {
                restore(&mut self.touched, before);
                Err(refused)
            }
        }
    }

    /// The outputs of a cell as nbformat writes them; none where it was not begun.
    pub fn outputs(&self, cell: u32) -> Result<Items, NoMemory>
        requires { cell < cells_of self.now }
        ensures { (us : Plain Used) → StandsFor self.now us
            → IfOk result (λ items. items ≡ outputs_of (merge_of self.now) us cell) }
    {
        self.held.outputs(cell)
    }

    /// The execution count of a cell, where one was told.
    pub fn count(&self, cell: u32) -> Option<&NumText>
        requires { cell < cells_of self.now }
        ensures { (us : Plain Used) → StandsFor self.now us
            → option_copied result ≡ count_of us cell }
    {
        self.held.count(cell)
    }

    /// The dates of a cell's messages and of its reply, as nbclient writes them into
    /// `metadata.execution`.
    pub fn dates(&self, cell: u32) -> Result<Fields, NoMemory>
        requires { cell < cells_of self.now }
        ensures { (us : Plain Used) → StandsFor self.now us
            → IfOk result (λ dates. dates ≡ dates_of us cell) }
    {
        self.held.dates(cell)
    }

    /// The cells that may have changed since the last `rest`, or since the fold was made, in
    /// increasing order.
    pub fn touched(&self) -> &Plan
        ensures sorted { increases result.now ≡ true }
        ensures below { (us : Plain Used) → StandsFor self.now us
            → All (λ n. n < cells_of self.now) result.now }
        ensures cells { result.now ≡ touched_of self.now }
    {
        &self.touched
    }

    /// From here on no cell has changed. It takes no memory.
    pub fn rest(&mut self)
        ensures cells { cells_of self.new ≡ cells_of self.old }
        ensures merge { merge_of self.new ≡ merge_of self.old }
        ensures next { next_of self.new ≡ next_of self.old }
        ensures touched { touched_of self.new ≡ [] }
        ensures stands { StandsAsBefore self.old self.new }
        ensures rested { (us : Plain Used) → Rested self.new us us }
    {
        self.touched = Plan::new(self.alloc);
    }
}
