//! The header of a message.
ghost use Rattle.std.specs.Prelude.{◌≡◌, [], ◌∷◌, ◌++◌, IfOk, OnOk};
ghost use Rattle.std.specs.Option.{unwrap_or};
ghost use Rattle.jmsg.specs.Header as header;

use crate::dictionaries::pairs_of;
use crate::told::Told;
use jtext::{Fields, Json, NoMemory, Text};
use std::alloc::Global;

/// What a message says of itself (Jupyter messaging 5.3, "General message format").
#[derive(Debug, Drop)]
pub struct Header {
    /// Names the message; free of form.
    pub msg_id: Text,
    /// Names the sender's session; empty where it isn't told.
    pub session: Text,
    /// Who sends; empty where it isn't told.
    pub username: Text,
    /// When it was made, as the sender writes it.
    pub date: Option<Text>,
    /// What kind of message it is, as `status`.
    pub msg_type: Text,
    /// The version of the protocol; empty where it isn't told.
    pub version: Text,
}

impl Header {
    /// Of its dictionary, whose texts it takes; `None` where `msg_id` or `msg_type` is no string
    /// there.
    pub(crate) fn of(alloc: Global, t: Json) -> Option<Header>
        ensures { result ≡ header.header_of t }
    {
        let told = Told::of(pairs_of(alloc, t));
        Some(Header {
            msg_id: told.msg_id?,
            session: or_empty(alloc, told.session),
            username: or_empty(alloc, told.username),
            date: told.date,
            msg_type: told.msg_type?,
            version: or_empty(alloc, told.version),
        })
    }

    /// Its dictionary, with no `date` where there is none.
    pub(crate) fn tree(&self, alloc: Global) -> Result<Json, NoMemory>
        ensures { IfOk result (λ t. t ≡ header.tree_of self.now) }
    {
        let mut fields = Fields::new(alloc);
        put(alloc, &mut fields, "msg_id", &self.msg_id)?;
        put(alloc, &mut fields, "session", &self.session)?;
        put(alloc, &mut fields, "username", &self.username)?;
        if let Some(date) = &self.date {
            put(alloc, &mut fields, "date", date)?;
        }
        put(alloc, &mut fields, "msg_type", &self.msg_type)?;
        put(alloc, &mut fields, "version", &self.version)?;
        Ok(Json::Obj(fields))
    }
}

fn or_empty(alloc: Global, text: Option<Text>) -> Text
    ensures { result ≡ unwrap_or text [] }
{
    match text {
        Some(text) => text,
        None => Text::new(alloc),
    }
}

fn put(alloc: Global, fields: &mut Fields, key: &str, text: &Text) -> Result<(), NoMemory>
    ensures { OnOk result (fields.new ≡ fields.old ++ header.text_pair key.now text.now ∷ []) }
{
    let value = Json::Str(Text::of(alloc, text.as_str())?);
    fields.push((Text::of(alloc, key)?, value))
}
