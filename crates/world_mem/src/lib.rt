//! Worlds in memory, for tests: `MemWorld`, a whole world with kernels, failing calls and images of
//! what a crash leaves; `MemDisk`, a disk and what is said beside it; and `NullWorld`, which does
//! nothing. They do no real IO, and tell their journals by `telling`.
#![tactic(auto)]

mod copies;
mod count;
mod edit;
mod far;
mod files;
mod folder;
mod image;
mod image_fault;
mod known_paths;
mod linked_journal;
mod mem_disk;
mod mem_world;
mod near;
mod null_kernel;
mod null_world;
mod path_state;
mod script;
mod store;
pub mod telling;
mod timed_journal;
mod world_disk;
mod world_kids;
mod world_wait;
mod world_wire;

pub use far::Kernels;
pub use files::{Files, Sizes};
pub use image_fault::ImageFault;
pub use mem_disk::MemDisk;
pub use mem_world::MemWorld;
pub use null_kernel::NullKernel;
pub use null_world::NullWorld;
pub use script::Script;
pub use timed_journal::TimedJournal;
