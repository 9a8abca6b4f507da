//! `Session`, which makes the requests of a job.
ghost use Rattle.std.specs.Prelude.{◌≡◌, ◌<◌, ◌^◌, ◌+◌, IfOk, OnErr, string_bytes};
ghost use Rattle.std.specs.Fmt.{decimal};
ghost use Rattle.jsign.specs.Signer.{SignsUnder};
ghost use Rattle.jmsg.specs.Date.{date_of};
ghost use Rattle.jmsg.specs.Encoded.{encode};
ghost use Rattle.zmtp_wire.specs.Writing.{IsMessage};
ghost use Rattle.kernel_talk.specs.Requests.{message_id, request, identifier as identifier_of};

use crate::identifiers::identifier;
use jmsg::{Header, Message, date_text, encode_under};
use jsign::Signer;
use jtext::{Fields, Json, NoMemory, Text};
use std::alloc::Global;
use std::marker::Model;
use std::str;
use zmtp_wire::{Parts, is_message};

/// A client session of a kernel (Jupyter messaging 5.3): it makes signed requests, numbered from 1.
#[derive(Drop)]
pub struct Session {
    alloc: Global,
    name: Text,
    key: Text,
    signer: Signer,
    made: u64,
}

impl Model for Session {
    ghost use Rattle.jsign.specs.Signer.{SignsUnder};
    ghost use Rattle.kernel_talk.specs.Requests.{Identity};

    ghost Value = { Identity };

    ghost view = { λ s. record { name = s.name; key = s.key; made = s.made } };

    ghost invariant = { λ s. SignsUnder s.signer s.key };
}

impl Session {
    /// A session of this name and key, of two random words each; it made no request.
    pub fn new(alloc: Global, name: (u64, u64), key: (u64, u64)) -> Result<Session, NoMemory>
        ensures { IfOk result (λ s. s ≡ record {
          name = identifier_of name.0 name.1;
          key = identifier_of key.0 key.1;
          made = 0;
        }) }
    {
        let name = identifier(alloc, name.0, name.1)?;
        let key = identifier(alloc, key.0, key.1)?;
        let signer = Signer::new(key.bytes());
        Ok(Session {
            alloc,
            name,
            key,
            signer,
            made: 0,
        })
    }

    /// The key, under which the kernel signs too.
    pub fn key(&self) -> &Text
        ensures { result.now ≡ self.now.key }
    {
        &self.key
    }

    /// Signs under the key.
    pub fn signer(&self) -> &Signer
        ensures { SignsUnder result.now self.now.key }
    {
        &self.signer
    }

    /// How many requests it made.
    pub fn made(&self) -> u64
        ensures { result ≡ self.now.made }
    {
        self.made
    }

    /// The `msg_id` of a request of this session, by its number.
    pub fn id(&self, number: u64) -> Result<Text, NoMemory>
        ensures { IfOk result (λ id. id ≡ message_id self.now.name number) }
    {
        let name = self.name.as_str();
        Ok(Text::of_string(format!(in self.alloc; "{name}_{number}")?))
    }

    /// The parts of the next request, made at this moment. Without memory nothing changes; a request
    /// that would have more than 64 MiB, or more than 2^64 - 1 before it, counts as want of memory.
    pub fn request(&mut self, ms: u64, kind: &str, content: Json) -> Result<Parts, NoMemory>
        requires { ms < 2 ^ 47 }
        ensures is { IfOk result (λ parts. parts ≡ encode self.old.key
            (request self.old.name (self.old.made + 1) ms kind.now content)) }
        ensures fits { IfOk result IsMessage }
        ensures made { IfOk result (λ parts.
            self.new ≡ record self.old { made = self.old.made + 1 }) }
        ensures err { OnErr result (self.new ≡ self.old) }
    {
        let Some(number) = self.made.checked_add(1) else {
            return Err(NoMemory);
        };
        let parts = self.parts_of(number, ms, kind, content)?;
        if !is_message(&parts) {
            return Err(NoMemory);
        }
        self.made = number;
        Ok(parts)
    }

    fn parts_of(&self, number: u64, ms: u64, kind: &str, content: Json) -> Result<Parts, NoMemory>
        requires { ms < 2 ^ 47 }
        ensures { IfOk result (λ parts. parts ≡ encode self.now.key
            (request self.now.name number ms kind.now content)) }
    {
        let message = self.message(number, ms, kind, content)?;
        self.encode(&message)
    }

    fn encode(&self, message: &Message) -> Result<Parts, NoMemory>
        ensures { IfOk result (λ parts. parts ≡ encode self.now.key message.now) }
    {
        encode_under(self.alloc, &self.signer, message)
    }

    fn message(&self, number: u64, ms: u64, kind: &str, content: Json) -> Result<Message, NoMemory>
        requires { ms < 2 ^ 47 }
        ensures { IfOk result (λ m. m ≡ request self.now.name number ms kind.now content) }
    {
        let header = Header {
            msg_id: self.id(number)?,
            session: self.name.copy(self.alloc)?,
            username: Text::of(self.alloc, "nbrun")?,
            date: Some(self.date(ms)?),
            msg_type: Text::of(self.alloc, kind)?,
            version: Text::of(self.alloc, "5.3")?,
        };
        Ok(Message {
            header,
            parent_id: None,
            parent: Json::Obj(Fields::new(self.alloc)),
            metadata: Json::Obj(Fields::new(self.alloc)),
            content,
            buffers: Parts::new(self.alloc),
        })
    }

    // A date has ASCII alone.
    fn date(&self, ms: u64) -> Result<Text, NoMemory>
        requires { ms < 2 ^ 47 }
        ensures { IfOk result (λ text. text ≡ date_of ms) }
    {
        let octets = date_text(ms);
        let text = str::from_utf8(&octets).unwrap();
        Text::of(self.alloc, text)
    }
}
