//! How the parts of an execution go on with the journal, each law the contract of a function
//! without a body.

pub mod ended;
pub mod first;
pub mod heard;
pub mod lines;
pub mod made;
pub mod pieces;
pub mod plot;
pub mod saved;
pub mod saving;
pub mod standing;
pub mod starting;
pub mod talk;
pub mod told;
pub mod used;
