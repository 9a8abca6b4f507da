//! One message of a request.
use jcontent::Content;
use jtext::Text;

/// A message that was used for a cell's request.
#[derive(Debug, Drop)]
pub struct Message {
    /// What it says.
    pub content: Content,
    /// The date of its header, where it has one.
    pub date: Option<Text>,
}
