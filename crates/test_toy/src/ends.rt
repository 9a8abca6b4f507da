//! The client's ends of the four connections to a kernel.
use crate::requests::signed;
use jtext::{Bytes, NoMemory};
use std::alloc::Global;
use world::Chan;
use zmtp_peer::{Peer, is_body};
use zmtp_wire::{Role, greeting};

/// The client's ends of the four connections.
#[derive(Drop)]
pub(crate) struct Ends {
    shell: Peer,
    control: Peer,
    iopub: Peer,
    heart: Peer,
}

impl Ends {
    /// Nothing was sent, and nothing came.
    pub(crate) fn new(alloc: Global) -> Ends {
        Ends {
            shell: Peer::new(alloc, Role::Dealer),
            control: Peer::new(alloc, Role::Dealer),
            iopub: Peer::new(alloc, Role::Sub),
            heart: Peer::new(alloc, Role::Req),
        }
    }

    /// The end of the connection to a channel.
    pub(crate) fn of(&mut self, chan: Chan) -> &mut Peer {
        match chan {
            Chan::Shell => &mut self.shell,
            Chan::Control => &mut self.control,
            Chan::Iopub => &mut self.iopub,
            Chan::Heart => &mut self.heart,
        }
    }

    /// Adds octets by words: each an octet in hexadecimal, `greeting`, `start` for the greeting and
    /// READY, or `subscription`.
    pub(crate) fn put(&mut self, chan: Chan, words: &str, out: &mut Bytes) -> Result<(), NoMemory> {
        for word in words.split(' ') {
            match word {
                "greeting" => out.add(&greeting())?,
                "start" => self.of(chan).start_bytes(out)?,
                "subscription" => self.of(chan).replies(out)?,
                _ => out.add(&[u8::from_str_radix(word, 16).unwrap_or(0)])?,
            }
        }
        Ok(())
    }

    /// Adds a request, `ID TYPE CONTENT`, that is signed under this key.
    pub(crate) fn ask(
        &mut self,
        alloc: Global,
        chan: Chan,
        key: &str,
        request: &str,
        out: &mut Bytes,
    ) -> Result<(), NoMemory> {
        let parts = signed(alloc, key, request)?;
        if is_body(&parts) {
            self.of(chan).message_bytes(&parts, out)?;
        }
        Ok(())
    }
}
