//! The pure core of one job: it is told what happened and answers what to do next, when to send a
//! request, to save and to stop (Jupyter messaging 5.3). It does no IO, reads no clock and takes no
//! memory.
#![tactic(auto)]

mod act;
mod allowance;
mod brief;
mod clock;
mod event;
pub mod laws;
mod machine;
mod moved;
mod request;
mod state;
mod step;
mod times;
mod why;

pub use act::Act;
pub use allowance::allowed;
pub use brief::Brief;
pub use event::Event;
pub use machine::Core;
pub use step::Step;
pub use times::Times;
pub use why::Why;
