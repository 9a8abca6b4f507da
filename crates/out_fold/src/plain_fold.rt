//! The fold that keeps the messages themselves.
use crate::copies;
use crate::latest::Latest;
use crate::message::Message;
use crate::render::output_items;
use crate::standing::outputs;
use crate::used::Used;
use jcontent::Content;
use jtext::{Fields, Items, List, NoMemory, NumText, Text};
use std::alloc::Global;

/// The outputs, count and dates of cells, each time computed anew from all messages that were used
/// for their requests. It says what [`Fold`](crate::Fold) says of the same messages, by the
/// definitions themselves, and is slow: its time grows with the square of the messages.
#[derive(Drop)]
pub struct PlainFold {
    alloc: Global,
    merge: bool,
    used: List<Used>,
}

impl PlainFold {
    ghost use Rattle.std.specs.Prelude.{◌≡◌, ◌<◌, ◌++◌, ◌∷◌, [], List as Plain, length, IfOk, OnOk, OnErr};
    ghost use Rattle.std.specs.Option.{option_copied};
    ghost use Rattle.out_fold.specs.Cells.{Used as Request, begin, with_message, with_reply, outputs_of, count_of, dates_of};
    ghost use Rattle.out_fold.specs.Plain.{used_of, merge_of};

    /// A fold that was given nothing; `merge` joins neighbouring streams of one name. It takes no
    /// memory.
    pub fn new(alloc: Global, merge: bool) -> PlainFold
        ensures used { used_of result ≡ [] }
        ensures merge { merge_of result ≡ merge }
    {
        PlainFold {
            alloc,
            merge,
            used: List::new(alloc),
        }
    }

    /// Makes the cell the current one, with nothing used for it. Without memory nothing changes.
    pub fn start(&mut self, cell: u32) -> Result<(), NoMemory>
        ensures ok { OnOk result (used_of self.new ≡ used_of self.old ++ begin cell ∷ []) }
        ensures err { OnErr result (used_of self.new ≡ used_of self.old) }
        ensures merge { merge_of self.new ≡ merge_of self.old }
    {
        self.used.push(Used::new(self.alloc, cell))
    }

    /// Takes the next message that was used for the current cell's request. Without memory nothing
    /// changes.
    pub fn take(&mut self, c: &Content, date: Option<&Text>) -> Result<(), NoMemory>
        requires { 0 < length (used_of self.old) }
        ensures ok { OnOk result ((us : Plain Request) (u : Request)
            → used_of self.old ≡ us ++ u ∷ []
            → used_of self.new ≡ us ++ with_message u c.now (option_copied date.entry) ∷ []) }
        ensures err { OnErr result (used_of self.new ≡ used_of self.old) }
        ensures len { length (used_of self.new) ≡ length (used_of self.old) }
        ensures merge { merge_of self.new ≡ merge_of self.old }
    {
        let content = copies::content(self.alloc, c)?;
        let date = copies::date(self.alloc, date)?;
        let last = self.used.len() - 1;
        let mut current = self.used.put(last, Used::new(self.alloc, 0));
        let taken = current.own.push(Message { content, date });
        self.used.put(last, current);
        taken
    }

    /// Takes the date of the reply to the current cell's request. Without memory nothing changes.
    pub fn reply(&mut self, date: Option<&Text>) -> Result<(), NoMemory>
        requires { 0 < length (used_of self.old) }
        ensures ok { OnOk result ((us : Plain Request) (u : Request)
            → used_of self.old ≡ us ++ u ∷ []
            → used_of self.new ≡ us ++ with_reply u (option_copied date.entry) ∷ []) }
        ensures err { OnErr result (used_of self.new ≡ used_of self.old) }
        ensures len { length (used_of self.new) ≡ length (used_of self.old) }
        ensures merge { merge_of self.new ≡ merge_of self.old }
    {
        let date = copies::date(self.alloc, date)?;
        let last = self.used.len() - 1;
        let mut current = self.used.put(last, Used::new(self.alloc, 0));
        current.reply = date;
        self.used.put(last, current);
        Ok(())
    }

    /// The outputs of a cell as nbformat writes them; none where it was not begun.
    pub fn outputs(&self, cell: u32) -> Result<Items, NoMemory>
        ensures { IfOk result (λ items. items
            ≡ outputs_of (merge_of self.now) (used_of self.now) cell) }
    {
        let used = self.used.as_slice();
        for (i, request) in used.iter().enumerate() {
            if request.cell == cell {
                return self.outputs_at(request, &used[i + 1..]);
            }
        }
        Ok(Items::new(self.alloc))
    }

    fn outputs_at(&self, request: &Used, later: &[Used]) -> Result<Items, NoMemory>
        ensures { IfOk result (λ items. items
            ≡ outputs_of (merge_of self.now) (request.now ∷ later.now) request.now.cell) }
    {
        let outputs = outputs(self.alloc, request.own.as_slice(), later)?;
        let latest = Latest::new(self.alloc);
        output_items(self.alloc, outputs.as_slice(), &latest, self.merge)
    }

    /// The execution count of a cell, where one was told.
    pub fn count(&self, cell: u32) -> Option<&NumText>
        ensures { option_copied result ≡ count_of (used_of self.now) cell }
    {
        for request in self.used.as_slice() {
            if request.cell == cell {
                return request.count();
            }
        }
        None
    }

    /// The dates of a cell's messages and of its reply, as nbclient writes them into
    /// `metadata.execution`.
    pub fn dates(&self, cell: u32) -> Result<Fields, NoMemory>
        ensures { IfOk result (λ dates. dates ≡ dates_of (used_of self.now) cell) }
    {
        for request in self.used.as_slice() {
            if request.cell == cell {
                return request.dates(self.alloc);
            }
        }
        Ok(Fields::new(self.alloc))
    }
}
