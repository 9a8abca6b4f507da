//! `Effect`, what a line of the toy language brings about.
use jtext::{List, Text};

/// What a line brings about, by which the kernel knows what to publish.
#[derive(Debug, Drop)]
pub enum Effect {
    /// A stream: standard output, or standard error where `err` is set. The text has its line end.
    Print { err: bool, text: Text },
    /// A display of this text under a display id, or an update of the one that stands there.
    Show { id: Text, text: Text, update: bool },
    /// The outputs are cleared: at once, or with the next one where `later` is set.
    Clear { later: bool },
    /// The result of the cell.
    Outcome { text: Text },
    /// An error. Nothing follows it.
    Raise { ename: Text, evalue: Text },
    /// What follows comes so many milliseconds later.
    Sleep { ms: u64 },
    /// The kernel ends. Nothing follows it.
    Die,
}

/// Effects in their order.
pub type Effects = List<Effect>;
