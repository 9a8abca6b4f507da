//! Our sides of the four connections to a kernel: what comes is read as messages, and what is due on
//! each is queued in its order until it is handed out (RFC 23, RFC 37). It does no IO.
#![tactic(auto)]

mod line;
mod lines;

pub use line::Line;
pub use lines::Lines;
