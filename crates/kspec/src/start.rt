//! `Spec`, how a kernel is started.
use jtext::{Fields, Texts};

/// How a kernel is started.
#[derive(Debug, Drop)]
pub struct Spec {
    /// The program and its arguments, as the file has them.
    pub argv: Texts,
    /// What is added to the environment, strings under their names.
    pub env: Fields,
    /// Whether the kernel is interrupted by a message, and not by a signal.
    pub by_message: bool,
}
