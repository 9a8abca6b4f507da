//! The notebook that is made of a script, row by row.
ghost use Rattle.std.specs.Prelude.{◌≡◌, [], true, false, IfOk, OnOk, MatchOption};
ghost use Rattle.std.specs.Bool.{MatchBool};
ghost use Rattle.nb_model.specs.Kind.{is_code};
ghost use Rattle.nb_model.specs.declared.kind.Kind.TheVariants as kinds;
ghost use Rattle.report_text.specs.Drafts as drafts;
ghost use Rattle.report_text.specs.declared.place.Place.TheVariants as place;
ghost use Rattle.report_text.specs.Reading as readings;

use crate::place::Place;
use crate::row::{HEAD_ROW, kind_of};
use jtext::{Fields, Items, Json, NoMemory, Text};
use nb_model::{Cell, Cells, Kind};
use std::alloc::Global;
use std::mem;

/// What was made of the rows so far.
#[derive(Debug, Drop)]
pub(crate) struct Draft {
    /// The cells whose source was read.
    pub(crate) cells: Cells,
    /// The strings of the source that is read, one a row.
    pub(crate) source: Items,
    /// Where the script stands.
    pub(crate) place: Place,
}

impl Draft {
    /// The draft of which no row was read.
    pub(crate) fn new(alloc: Global) -> Draft
        ensures cells { result.cells ≡ [] }
        ensures place { result.place ≡ place.Start }
    {
        Draft {
            cells: Cells::new(alloc),
            source: Items::new(alloc),
            place: Place::Start,
        }
    }

    /// Reads the next row, and says whether it may stand there.
    pub(crate) fn take(&mut self, alloc: Global, row: &str) -> Result<bool, NoMemory>
        ensures { IfOk result (λ taken. MatchBool taken (drafts.Takes self.old row.now self.new)
            (drafts.CannotTake self.old row.now)) }
    {
        match self.place {
            Place::Start => Ok(self.enter(row == HEAD_ROW, Place::Between)),
            Place::Between => Ok(self.enter(row.is_empty(), Place::Gap)),
            Place::Gap => Ok(self.begin(alloc, row)),
            Place::Raw => self.take_prose(alloc, row, Kind::Raw),
            Place::Markdown => self.take_prose(alloc, row, Kind::Markdown),
            Place::Code => self.take_code(alloc, row),
            Place::Blank => self.take_after_blank(alloc, row),
        }
    }

    /// Goes on to the place where the row fits, and says whether it does.
    fn enter(&mut self, fits: bool, place: Place) -> bool
        ensures fits { result ≡ fits }
        ensures new { fits ≡ true → self.new ≡ record self.old { place = place } }
    {
        if fits {
            self.place = place;
        }
        fits
    }

    /// Begins a cell where the row is a marker, and says whether it is one.
    fn begin(&mut self, alloc: Global, row: &str) -> bool
        ensures { MatchBool result (drafts.Begins self.old row.now self.new)
            (drafts.IsNoMarker row.now) }
    {
        match kind_of(row) {
            Some(kind) => {
                self.source = Items::new(alloc);
                self.place = source_place(kind);
                true
            }
            None => false,
        }
    }

    /// In the source of a cell that isn't code.
    fn take_prose(&mut self, alloc: Global, row: &str, kind: Kind) -> Result<bool, NoMemory>
        requires place { self.old.place ≡ drafts.source_place kind }
        requires prose { is_code kind ≡ false }
        ensures { IfOk result (λ taken. MatchBool taken (drafts.Takes self.old row.now self.new)
            (drafts.CannotTake self.old row.now)) }
    {
        if let Some(own) = row.strip_prefix("# ") {
            self.add_row(alloc, own)?;
            return Ok(true);
        }
        if !row.is_empty() {
            return Ok(false);
        }
        self.close(alloc, kind)?;
        self.place = Place::Gap;
        Ok(true)
    }

    /// In the source of a code cell, after a row that isn't empty.
    fn take_code(&mut self, alloc: Global, row: &str) -> Result<bool, NoMemory>
        requires { self.old.place ≡ place.Code }
        ensures { IfOk result (λ taken. MatchBool taken (drafts.Takes self.old row.now self.new)
            (drafts.CannotTake self.old row.now)) }
    {
        if row.is_empty() {
            self.place = Place::Blank;
        } else {
            self.add_row(alloc, row)?;
        }
        Ok(true)
    }

    /// In the source of a code cell, after an empty row.
    fn take_after_blank(&mut self, alloc: Global, row: &str) -> Result<bool, NoMemory>
        requires { self.old.place ≡ place.Blank }
        ensures { IfOk result (λ taken. MatchBool taken (drafts.Takes self.old row.now self.new)
            (drafts.CannotTake self.old row.now)) }
    {
        if let Some(kind) = kind_of(row) {
            self.close(alloc, Kind::Code)?;
            self.place = source_place(kind);
            return Ok(true);
        }
        self.add_row(alloc, "")?;
        if !row.is_empty() {
            self.add_row(alloc, row)?;
            self.place = Place::Code;
        }
        Ok(true)
    }

    /// Appends a row to the source.
    fn add_row(&mut self, alloc: Global, row: &str) -> Result<(), NoMemory>
        ensures { OnOk result (self.new ≡ drafts.with_row row.now self.old) }
    {
        let mut text = String::with_capacity(alloc, row.len().saturating_add(1))?;
        text.push_str(row)?;
        text.push_str("\n")?;
        self.source.push(Json::Str(Text::of_string(text)))
    }

    /// Puts the source that was read into a cell of this kind.
    fn close(&mut self, alloc: Global, kind: Kind) -> Result<(), NoMemory>
        ensures { OnOk result (self.new ≡ drafts.closed kind self.old) }
    {
        let source = mem::replace(&mut self.source, Items::new(alloc));
        let number = self.cells.len();
        self.cells.push(cell(alloc, number, kind, source)?)
    }

    /// The cells, or `None` where the rows end too early.
    pub(crate) fn finish(mut self, alloc: Global) -> Result<Option<Cells>, NoMemory>
        ensures { IfOk result (λ made. MatchOption made (drafts.MakesNothing self)
            (λ cells. drafts.Makes self [] cells)) }
    {
        match self.place {
            Place::Start => return Ok(None),
            Place::Gap => return Ok(None),
            Place::Between => {}
            Place::Raw => self.close(alloc, Kind::Raw)?,
            Place::Markdown => self.close(alloc, Kind::Markdown)?,
            Place::Code => self.close(alloc, Kind::Code)?,
            Place::Blank => self.close_after_blank(alloc)?,
        }
        let Draft { cells, .. } = self;
        Ok(Some(cells))
    }

    /// Puts the source into a code cell, with the empty row that is its last.
    fn close_after_blank(&mut self, alloc: Global) -> Result<(), NoMemory>
        ensures { OnOk result (self.new
            ≡ drafts.closed kinds.Code (drafts.with_row [] self.old)) }
    {
        self.add_row(alloc, "")?;
        self.close(alloc, Kind::Code)
    }
}

/// The place in the source of a cell of this kind.
fn source_place(kind: Kind) -> Place
    ensures { result ≡ drafts.source_place kind }
{
    match kind {
        Kind::Raw => Place::Raw,
        Kind::Markdown => Place::Markdown,
        Kind::Code => Place::Code,
    }
}

fn cell(alloc: Global, number: usize, kind: Kind, source: Items) -> Result<Cell, NoMemory>
    ensures { IfOk result (λ c. c ≡ readings.cell_of number kind source) }
{
    Ok(Cell {
        kind,
        id: Text::of_string(format!(in alloc; "cell-{number}")?),
        metadata: Json::Obj(Fields::new(alloc)),
        source: Json::Arr(source),
        attachments: None,
        outputs: Items::new(alloc),
        count: None,
    })
}
