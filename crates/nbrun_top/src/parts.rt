//! What a save needs, made before it.
ghost use Rattle.std.specs.Prelude.{◌≡◌, length, IfOk};
ghost use Rattle.nb_text.specs.Notebooks.{text_of};
ghost use Rattle.nbrun_top.specs.Reported.{AreReports};

use crate::reports::Reports;
use jtext::{Bytes, NoMemory};
use nb_model::Notebook;
use nb_text::text_with_capacity;
use save_disk::SavePath;
use std::alloc::Global;
use words::Ask;

/// The text of the notebook, the paths of its save, and what is said after it.
#[derive(Drop)]
pub(crate) struct Parts {
    pub text: Bytes,
    pub path: SavePath,
    pub reports: Reports,
}

impl Parts {
    /// The parts of the save of this notebook. A text is seldom longer than its input, of that
    /// size, by more than an eighth.
    pub(crate) fn new(
        alloc: Global,
        ask: &Ask,
        notebook: &Notebook,
        size: usize,
    ) -> Result<Parts, NoMemory>
        ensures text { IfOk result (λ r. r.text ≡ text_of notebook.now) }
        ensures path { IfOk result (λ r. r.path ≡ ask.now.output) }
        ensures reports { IfOk result (λ r.
            AreReports ask.now.output (length notebook.now.cells) r.reports) }
    {
        let text = text_with_capacity(alloc, notebook, size.saturating_add(size / 8))?;
        let path = SavePath::of(alloc, &ask.output)?;
        let reports = Reports::new(alloc, ask.output.as_str(), notebook.cells.len())?;
        Ok(Parts {
            text,
            path,
            reports,
        })
    }
}
