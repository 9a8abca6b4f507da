//! A kernel in memory and its client.
ghost use Rattle.std.specs.Prelude.{◌≡◌};

use crate::ends::Ends;
use crate::host::Host;
use crate::requests::{KEY, put_line};
use jtext::{Bytes, NoMemory};
use std::alloc::Global;
use world::{Chan, Give, KernelSide};
use zmtp_wire::Messages;

/// The channels by their names.
pub(crate) const CHANNELS: [(&str, Chan); 4] = [
    ("shell", Chan::Shell),
    ("control", Chan::Control),
    ("iopub", Chan::Iopub),
    ("heart", Chan::Heart),
];

/// A kernel and its client.
#[derive(Drop)]
pub(crate) struct Pair<K: KernelSide> {
    alloc: Global,
    host: Host<K>,
    ends: Ends,
}

impl<K: KernelSide> Pair<K> {
    /// Nobody is connected to the kernel, to which nothing has happened.
    pub(crate) fn new(alloc: Global, kernel: K) -> Pair<K>
        requires { K.latest kernel ≡ 0 }
    {
        Pair {
            alloc,
            host: Host::new(kernel),
            ends: Ends::new(alloc),
        }
    }

    /// Does what a line of a script says, and adds what is found.
    pub(crate) fn play(
        &mut self,
        verb: &str,
        rest: &str,
        out: &mut String,
    ) -> Result<(), NoMemory> {
        let (name, words) = rest.split_once(' ').unwrap_or((rest, ""));
        let chan = chan_of(name);
        match verb {
            "wait" => {
                self.host.wait(name.parse::<u64>().unwrap_or(0));
                Ok(())
            }
            "connect" => self.connect(),
            "put" | "ask" | "forge" => self.send(verb, chan, words),
            "slowly" => self.send_slowly(chan, words),
            "break" => self.send_and_drain(chan, words, out),
            "hear" => self.hear(chan, true, out),
            "kinds" => self.hear(chan, false, out),
            "get" => self.drain(chan, true, out),
            "beside" => self.drain_others(chan, out),
            _ => self.look(verb, chan, out),
        }
    }

    // Connects to all channels, and subscribes to everything.
    fn connect(&mut self) -> Result<(), NoMemory> {
        let mut trash = String::new(self.alloc);
        for (_, chan) in CHANNELS {
            self.host.accept(chan);
            self.send("put", chan, "start")?;
            self.hear(chan, true, &mut trash)?;
        }
        self.send("put", Chan::Iopub, "subscription")
    }

    // Sends octets, or a request, also one that is signed under another key.
    fn send(&mut self, verb: &str, chan: Chan, words: &str) -> Result<(), NoMemory> {
        let octets = self.octets_of(verb, chan, words)?;
        self.host.take(self.alloc, chan, octets.bytes())
    }

    fn octets_of(&mut self, verb: &str, chan: Chan, words: &str) -> Result<Bytes, NoMemory> {
        let alloc = self.alloc;
        let mut octets = Bytes::new(alloc);
        if verb == "put" {
            self.ends.put(chan, words, &mut octets)?;
        } else {
            let key = if verb == "forge" { "other" } else { KEY };
            self.ends.ask(alloc, chan, key, words, &mut octets)?;
        }
        Ok(octets)
    }

    // Sends a request octet by octet.
    fn send_slowly(&mut self, chan: Chan, words: &str) -> Result<(), NoMemory> {
        let octets = self.octets_of("ask", chan, words)?;
        for octet in octets.as_slice() {
            self.host.take(self.alloc, chan, &[*octet])?;
        }
        Ok(())
    }

    // Sends octets but the last, the last and two more, and adds what is answered each time.
    fn send_and_drain(
        &mut self,
        chan: Chan,
        words: &str,
        out: &mut String,
    ) -> Result<(), NoMemory> {
        let octets = self.octets_of("put", chan, words)?;
        let (front, last) = octets.bytes().split_at(octets.len().saturating_sub(1));
        for piece in [front, last, b"\x00\x00"] {
            self.host.take(self.alloc, chan, piece)?;
            self.drain(chan, false, out)?;
        }
        Ok(())
    }

    // The messages that come.
    fn hear(&mut self, chan: Chan, is_full: bool, out: &mut String) -> Result<(), NoMemory> {
        let mut octets = Bytes::new(self.alloc);
        self.host.octets(chan, &mut octets)?;
        let mut came = Messages::new(self.alloc);
        if self.ends.of(chan).feed(octets.bytes(), &mut came).is_err() {
            out.push_str(" broken\n")?;
        }
        for parts in came.as_slice() {
            put_line(self.alloc, parts, is_full, out)?;
        }
        Ok(())
    }

    // The octets that come, where they are to be shown, and what is answered then.
    fn drain(&mut self, chan: Chan, is_shown: bool, out: &mut String) -> Result<(), NoMemory> {
        let mut octets = Bytes::new(self.alloc);
        let last = self.host.octets(chan, &mut octets)?;
        if is_shown {
            put_octets(self.alloc, octets.as_slice(), out)?;
        }
        let found = match last {
            Give::Ended => " ended\n",
            _ => " nothing\n",
        };
        out.push_str(found)?;
        Ok(())
    }

    fn drain_others(&mut self, chan: Chan, out: &mut String) -> Result<(), NoMemory> {
        for (_, other) in CHANNELS {
            if other != chan {
                self.drain(other, true, out)?;
            }
        }
        Ok(())
    }

    // A state, or the answer to a connection.
    fn look(&mut self, verb: &str, chan: Chan, out: &mut String) -> Result<(), NoMemory> {
        let found = match verb {
            "accept" => shown(self.host.accept(chan)),
            "ready" => shown(self.host.is_ready(chan)),
            _ => match self.host.exited() {
                Some(0) => " 0\n",
                Some(_) => " 1\n",
                None => " none\n",
            },
        };
        out.push_str(found)?;
        Ok(())
    }
}

fn shown(flag: bool) -> &'static str {
    if flag { " true\n" } else { " false\n" }
}

fn put_octets(alloc: Global, octets: &[u8], out: &mut String) -> Result<(), NoMemory> {
    for octet in octets {
        out.push_str(format!(in alloc; " {octet:02x}")?.as_str())?;
    }
    Ok(())
}

// The channel with this name, or shell.
fn chan_of(name: &str) -> Chan {
    for (word, chan) in CHANNELS {
        if name == word {
            return chan;
        }
    }
    Chan::Shell
}
