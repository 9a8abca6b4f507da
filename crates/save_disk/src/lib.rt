//! One save of a file: a crash at any moment leaves the file as it was or the whole new text
//! (POSIX.1: write, fsync, rename, fsync of the folder). It calls the disk that it is lent, and takes
//! no memory while it does.
#![tactic(auto)]

mod replacement;
mod save_fault;
mod save_path;
mod writing;

pub use replacement::save;
pub use save_fault::SaveFault;
pub use save_path::SavePath;
pub use writing::write_all;
