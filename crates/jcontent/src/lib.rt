//! Contents of Jupyter messages (Jupyter messaging 5.3): what a received one says, by its type, and
//! those that an executor sends. Trees only; it does no IO.
#![tactic(auto)]

mod bundle;
mod content;
pub mod laws;
mod reader;
mod reply;
mod request;
mod shown;
mod state;
mod texts;

pub use content::Content;
pub use reader::read;
pub use reply::ReplyIs;
pub use request::{empty_content, execute_content, shutdown_content};
pub use shown::Shown;
pub use state::State;
