//! The outside as nbrun sees it: a disk, connections, child programs, a clock, random words and
//! what is said. Each call of these traits adds one entry to a journal, and `specs/` reads off it
//! what a crash leaves of a file and how a connection stands. Nothing here does real IO.
#![tactic(auto)]

mod chan;
mod clock;
mod conn;
mod connected;
mod did;
mod disk;
mod entry;
mod give;
mod got;
mod journal;
mod kernel_side;
mod kids;
pub mod laws;
mod left;
mod paths;
mod put;
mod rand;
mod read_file;
mod reports;
mod say;
mod side;
mod wire;
mod world;
mod wrote;

pub use chan::Chan;
pub use clock::Clock;
pub use conn::Conn;
pub use connected::Connected;
pub use did::Did;
pub use disk::Disk;
pub use entry::{Entries, Entry};
pub use give::Give;
pub use got::Got;
pub use journal::Journal;
pub use kernel_side::KernelSide;
pub use kids::Kids;
pub use left::Left;
pub use paths::folder;
pub use put::Put;
pub use rand::Rand;
pub use read_file::ReadFile;
pub use reports::Reports;
pub use say::Say;
pub use side::Side;
pub use wire::Wire;
pub use world::World;
pub use wrote::Wrote;
