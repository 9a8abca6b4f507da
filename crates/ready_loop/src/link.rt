//! What the loop keeps of one connection. Each method is what one call of the world makes of it.
ghost use Rattle.std.specs.Prelude.{◌≡◌, ◌≢◌, ◌↔◌, ◌<◌, ◌+◌, Some, true, false, IsTrue};
ghost use Rattle.ready_loop.specs.Link.{MayRead, MayWrite, fresh_link, read_link, wait_link};
ghost use Rattle.ready_loop.specs.Link.{begun_link, connect_link, write_link, closed_link};
ghost use Rattle.ready_loop.specs.Link.{IsToBegin, named_link, is_begun, is_found, may_wake};

use crate::end::End;
use crate::stage::Stage;
use world::{Connected, Did, Got, Put};

/// How often a connection is read between two waits, at most.
pub const MOST_READS: u8 = 64;

/// Milliseconds from a refusal to the next connect.
pub const PAUSE_MS: u64 = 200;

/// What the loop keeps of one connection.
#[derive(Clone, Copy, Debug, Drop)]
pub struct Link {
    /// The port of its connect.
    pub port: u16,
    /// How far it has come.
    pub stage: Stage,
    /// It was reported, and not read to its end since.
    pub awake: bool,
    /// It was begun or reported, and has not been stuck or ended since.
    pub writable: bool,
    /// A call of it has failed, and it was not closed since.
    pub failed: bool,
    /// The clock before it was refused, while it is to be begun again.
    pub refused: Option<u64>,
    /// How often it gave bytes since the last wait, where it is awake.
    pub reads: u8,
    /// Whether it was found ended.
    pub end: End,
}

impl Link {
    /// A connection for which no connect was called.
    pub fn fresh() -> Link
        ensures { result ≡ fresh_link }
    {
        Link {
            port: 0,
            stage: Stage::Fresh,
            awake: false,
            writable: false,
            failed: false,
            refused: None,
            reads: 0,
            end: End::No,
        }
    }

    /// Whether it is to be read before the next wait.
    pub fn may_read(&self) -> bool
        ensures { IsTrue result ↔ MayRead self.now }
    {
        self.awake && !self.failed && self.reads < MOST_READS
    }

    /// Whether it takes bytes.
    pub fn may_write(&self) -> bool
        ensures { IsTrue result ↔ MayWrite self.now }
    {
        self.writable && !self.failed
    }

    /// Whether it was refused and is to be begun again, at its time or `forced` in a last look.
    pub fn is_to_begin(&self, forced: bool, last: u64) -> bool
        ensures { IsTrue result ↔ IsToBegin forced last self.now }
    {
        match self.refused {
            Some(at) => forced || at <= last && PAUSE_MS <= last - at,
            None => false,
        }
    }

    /// Whether a connect was called for it that no close has followed.
    pub fn is_begun(&self) -> bool
        ensures { result ≡ is_begun self.now.stage }
    {
        matches!(self.stage, Stage::Begun)
    }

    /// Whether a write found it ended that no answer has named.
    pub fn is_found(&self) -> bool
        ensures { result ≡ is_found self.now.end }
    {
        matches!(self.end, End::Found)
    }

    /// Whether a report counts for it: it was begun, not closed since, and is not to be begun again.
    pub fn may_wake(&self) -> bool
        ensures { result ≡ may_wake self.now }
    {
        self.is_begun() && self.refused.is_none()
    }

    /// Before its first connect, to this port.
    pub fn begun_on(self, port: u16) -> Link
        ensures { result ≡ begun_link port self }
    {
        Link {
            port,
            stage: Stage::Begun,
            ..self
        }
    }

    /// After a connect.
    pub fn after_connect(self, how: Connected, last: u64) -> Link
        ensures { result ≡ connect_link how last self }
    {
        match how {
            Connected::Begun => Link {
                writable: true,
                refused: None,
                ..self
            },
            Connected::Refused => Link {
                refused: Some(last),
                ..self
            },
            Connected::Failed => Link {
                failed: true,
                refused: None,
                ..self
            },
        }
    }

    /// After a read.
    pub fn after_read(self, got: Got, last: u64) -> Link
        requires { self.reads < 64 }
        ensures { result ≡ read_link got last self }
    {
        match got {
            Got::Piece(_) => Link {
                reads: self.reads + 1,
                ..self
            },
            Got::Dry => Link {
                awake: false,
                ..self
            },
            Got::Ended => Link {
                awake: false,
                writable: false,
                end: End::Named,
                ..self
            },
            Got::Refused => Link {
                awake: false,
                writable: false,
                refused: self.stage.refused_at(last),
                ..self
            },
            Got::Failed => Link {
                awake: false,
                failed: true,
                ..self
            },
        }
    }

    /// After a write.
    pub fn after_write(self, put: Put, last: u64) -> Link
        ensures { result ≡ write_link put last self }
    {
        match put {
            Put::Took(_) => self,
            Put::Stuck => Link {
                writable: false,
                ..self
            },
            Put::Ended => Link {
                awake: false,
                writable: false,
                end: self.end.found(),
                ..self
            },
            Put::Refused => Link {
                awake: false,
                writable: false,
                refused: self.stage.refused_at(last),
                ..self
            },
            Put::Failed => Link {
                writable: false,
                failed: true,
                ..self
            },
        }
    }

    /// After a wait, which reported it or did not.
    pub fn after_wait(self, ready: bool, did: Did) -> Link
        ensures { result ≡ wait_link did ready self }
    {
        let wakes = ready && self.may_wake();
        match did {
            Did::Done => Link {
                awake: wakes || self.awake,
                writable: wakes || self.writable,
                reads: 0,
                ..self
            },
            Did::Failed => Link { reads: 0, ..self },
        }
    }

    /// After a close.
    pub fn after_close(self) -> Link
        ensures { result ≡ closed_link self }
    {
        Link {
            stage: self.stage.closed(),
            awake: false,
            writable: false,
            failed: false,
            refused: None,
            ..self
        }
    }

    /// After an answer that names it where a write found it ended.
    pub fn after_naming(self) -> Link
        ensures { result ≡ named_link self }
    {
        match self.end {
            End::No => self,
            End::Found => Link {
                end: End::Named,
                ..self
            },
            End::Named => self,
        }
    }
}
