//! What was used for the request of one cell.
ghost use Rattle.std.specs.Prelude.{◌≡◌, map, None};
ghost use Rattle.std.specs.Option.{option_copied};
ghost use Rattle.out_fold.specs.Cells as spec;
ghost use Rattle.out_fold.specs.Plain.{contents_of, date_under};

use crate::kind::Kind;
use crate::message::Message;
use crate::parts::{count_in, is_of};
use crate::render::date_pairs;
use jtext::{Fields, List, NoMemory, NumText, Text};
use std::alloc::Global;

/// The messages that were used for the request of a cell, in order, and the date of its reply.
#[derive(Debug, Drop)]
pub struct Used {
    /// The cell.
    pub cell: u32,
    /// Its messages.
    pub own: List<Message>,
    /// The date of the reply, where it has one.
    pub reply: Option<Text>,
}

impl Used {
    ghost use Rattle.std.specs.Prelude.{◌≡◌, None, IfOk};
    ghost use Rattle.std.specs.Option.{option_copied};
    ghost use Rattle.out_fold.specs.Cells.{begin, last_count, contents};
    ghost use Rattle.out_fold.specs.Plain.{dates_in};

    /// Nothing was used yet. It takes no memory.
    pub(crate) fn new(alloc: Global, cell: u32) -> Used
        ensures { result ≡ begin cell }
    {
        Used {
            cell,
            own: List::new(alloc),
            reply: None,
        }
    }

    /// The last execution count told.
    pub(crate) fn count(&self) -> Option<&NumText>
        ensures { option_copied result ≡ last_count None (contents self.now) }
    {
        last_count(self.own.as_slice())
    }

    /// The dates of the last messages of each kind, and of the reply.
    pub(crate) fn dates(&self, alloc: Global) -> Result<Fields, NoMemory>
        ensures { IfOk result (λ r. r ≡ dates_in self.now) }
    {
        let own = self.own.as_slice();
        let input = last_date(Kind::Input, own);
        let busy = last_date(Kind::Busy, own);
        let idle = last_date(Kind::Idle, own);
        date_pairs(alloc, input, busy, idle, self.reply.as_ref())
    }
}

fn last_count(messages: &[Message]) -> Option<&NumText>
    ensures { option_copied result ≡ spec.last_count None (contents_of messages.now) }
{
    let mut last = None;
    for message in messages {
        if let Some(count) = count_in(&message.content) {
            last = Some(count);
        }
    }
    last
}

fn last_date(kind: Kind, messages: &[Message]) -> Option<&Text>
    ensures { option_copied result ≡ date_under kind messages.now }
{
    let mut last = None;
    for message in messages {
        if is_of(kind, &message.content) {
            last = message.date.as_ref();
        }
    }
    last
}
