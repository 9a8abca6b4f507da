//! What the pairs of a header's dictionary tell.
ghost use Rattle.std.specs.Prelude.{◌≡◌, ◌∷◌, ℕ, List};
ghost use Rattle.jtext.specs.Look.{string};
ghost use Rattle.jtext.specs.declared.json.Json.{Json as Tree};

use crate::dictionaries::string_of;
use jtext::{Fields, Text};

/// The strings under the keys of a header.
#[derive(Default, Drop)]
pub(crate) struct Told {
    pub(crate) msg_id: Option<Text>,
    pub(crate) session: Option<Text>,
    pub(crate) username: Option<Text>,
    pub(crate) date: Option<Text>,
    pub(crate) msg_type: Option<Text>,
    pub(crate) version: Option<Text>,
}

impl Told {
    ghost use Rattle.jmsg.specs.Told.{IsTold};

    /// What the pairs tell. Of two with the same key the first counts, so they are gone through
    /// from the last one on.
    pub(crate) fn of(pairs: Fields) -> Told
        ensures { IsTold result pairs }
    {
        let mut told = Told::default();
        let mut left = pairs.into_vec();
        'pairs: while let Some((key, value)) = left.pop() {
            told.add(key.as_str(), string_of(value));
        }
        told
    }

    /// Adds a pair that stands before all others, by its key and the string that its value is.
    fn add(&mut self, key: &str, text: Option<Text>)
        ensures { (value : Tree) (pairs : List (List ℕ × Tree)) → text ≡ string value →
            IsTold self.old pairs → IsTold self.new ((key.now, value) ∷ pairs) }
    {
        match key {
            "msg_id" => self.msg_id = text,
            "session" => self.session = text,
            "username" => self.username = text,
            "date" => self.date = text,
            "msg_type" => self.msg_type = text,
            "version" => self.version = text,
            _ => {}
        }
    }
}
