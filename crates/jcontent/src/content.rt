//! The content of a message.
use crate::{ReplyIs, Shown, State};
use jtext::{NumText, Text, Texts};

/// What a received message says, by its type (Jupyter messaging 5.3).
#[derive(Debug, Drop)]
pub enum Content {
    /// `status`
    Status(State),
    /// `execute_input`, with the execution count where it is told.
    Input(Option<NumText>),
    /// `stream`
    Stream {
        /// The stream, as `stdout`.
        name: Text,
        /// What was written.
        text: Text,
    },
    /// `display_data`
    Display(Shown),
    /// `update_display_data`, which has a display id.
    Update(Shown),
    /// `execute_result`
    Outcome {
        /// The value of the cell.
        shown: Shown,
        /// The execution count where it is told.
        count: Option<NumText>,
    },
    /// `error`
    Error {
        /// The name of the exception.
        ename: Text,
        /// Its value, as text.
        evalue: Text,
        /// The lines of its traceback.
        traceback: Texts,
    },
    /// `clear_output`
    Clear {
        /// Whether to wait for the next output.
        later: bool,
    },
    /// `execute_reply`
    ExecReply(ReplyIs),
    /// `kernel_info_reply`
    InfoReply,
    /// Another type, or a content that lacks what its type needs.
    Other,
}
