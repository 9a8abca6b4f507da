//! A world that does nothing.
ghost use Rattle.std.specs.Prelude.{◌≡◌, Some, [], option_map};
ghost use Rattle.world_mem.specs.Journals.{AreCounted, told_of};

use crate::count::rise;
use crate::telling;
use crate::timed_journal::TimedJournal;
use jtext::{Fields, Text, Texts};
use std::alloc::Global;
use world::{
    Clock, Conn, Connected, Did, Disk, Entries, Entry, Got, Journal, Kids, Put, Rand, ReadFile,
    Reports, Say, Wire, World, Wrote,
};

/// A world that does nothing and tells its journal until memory for an entry is refused. Calls of
/// the disk, starts of children, ports, random words and what is said fail, each connect is
/// refused, a wait reports nothing, and the clock stands at 0.
#[derive(Drop)]
pub struct NullWorld {
    alloc: Global,
    journal: TimedJournal,
    disk_faults: u64,
    net_faults: u64,
    waits: u64,
    child_faults: u64,
    rand_faults: u64,
    say_faults: u64,
    ghost counted: { AreCounted (told_of journal.entries) (record {
      disk = disk_faults;
      net = net_faults;
      waits = waits;
      child = child_faults;
      rand = rand_faults;
      say = say_faults;
      last = journal.last;
    }) },
}

impl NullWorld {
    ghost use Rattle.world_mem.specs.Null.{counts_of};

    /// The world with an empty journal and all counts 0.
    pub fn new(alloc: Global) -> NullWorld
        ensures told { told_of result.journal.entries ≡ Some [] }
        ensures counts { counts_of result ≡ record {
          disk = 0;
          net = 0;
          waits = 0;
          child = 0;
          rand = 0;
          say = 0;
          last = 0;
        } }
    {
        NullWorld {
            alloc,
            journal: TimedJournal::new(alloc),
            disk_faults: 0,
            net_faults: 0,
            waits: 0,
            child_faults: 0,
            rand_faults: 0,
            say_faults: 0,
        }
    }

    /// The entries so far, the oldest first, and `None` where they are no longer told.
    pub fn journal(&self) -> Option<&Entries>
        ensures { option_map (λ entries. entries.now) result ≡ self.now.journal.entries }
    {
        self.journal.entries()
    }
}

impl Journal for NullWorld {
    ghost use Rattle.world_mem.specs.Null.{counts_of};

    ghost journal = { λ w. told_of w.journal.entries };

    ghost counts = { counts_of };
}

impl Disk for NullWorld {
    fn disk_faults(&self) -> u64 {
        self.disk_faults
    }

    fn read_file(&mut self, _alloc: Global, path: &Text, most: u64) -> ReadFile {
        rise(&mut self.disk_faults);
        let entry = telling::read_entry(self.alloc, path, most, &ReadFile::Failed);
        self.journal.tell(entry);
        ReadFile::Failed
    }

    fn create(&mut self, path: &Text) -> Did {
        rise(&mut self.disk_faults);
        self.journal
            .tell(telling::created_entry(self.alloc, path, Did::Failed));
        Did::Failed
    }

    fn write(&mut self, path: &Text, piece: &[u8]) -> Wrote {
        rise(&mut self.disk_faults);
        self.journal
            .tell(telling::wrote_entry(self.alloc, path, piece, Did::Failed));
        Wrote::Failed
    }

    fn sync(&mut self, path: &Text) -> Did {
        rise(&mut self.disk_faults);
        self.journal
            .tell(telling::synced_entry(self.alloc, path, Did::Failed));
        Did::Failed
    }

    fn rename(&mut self, from: &Text, to: &Text) -> Did {
        rise(&mut self.disk_faults);
        self.journal
            .tell(telling::renamed_entry(self.alloc, from, to, Did::Failed));
        Did::Failed
    }

    fn sync_dir(&mut self, dir: &Text) -> Did {
        rise(&mut self.disk_faults);
        self.journal
            .tell(telling::dir_synced_entry(self.alloc, dir, Did::Failed));
        Did::Failed
    }

    fn remove(&mut self, path: &Text) -> Did {
        rise(&mut self.disk_faults);
        self.journal
            .tell(telling::removed_entry(self.alloc, path, Did::Failed));
        Did::Failed
    }
}

impl Wire for NullWorld {
    fn net_faults(&self) -> u64 {
        self.net_faults
    }

    fn waits(&self) -> u64 {
        self.waits
    }

    fn free_ports(&mut self, job: u8) -> Option<[u16; 5]> {
        rise(&mut self.net_faults);
        self.journal.tell(Ok(Entry::Ports { job, ports: None }));
        None
    }

    fn connect(&mut self, conn: Conn, port: u16) -> Connected {
        let how = Connected::Refused;
        self.journal.tell(Ok(Entry::Connected { conn, port, how }));
        how
    }

    fn read(&mut self, conn: Conn, _buf: &mut [u8]) -> Got {
        self.journal.tell(Ok(Entry::Dry { conn }));
        Got::Dry
    }

    fn write(&mut self, conn: Conn, _piece: &[u8]) -> Put {
        self.journal.tell(Ok(Entry::Stuck { conn }));
        Put::Stuck
    }

    fn close(&mut self, conn: Conn) {
        self.journal.tell(Ok(Entry::Closed { conn }));
    }

    fn wait(&mut self, ms: u32, out: &mut Reports) -> Did {
        rise(&mut self.waits);
        let reports = Reports { ready: [false; 64] };
        *out = reports;
        let did = Did::Done;
        self.journal.tell(Ok(Entry::Waited { ms, reports, did }));
        did
    }
}

impl Kids for NullWorld {
    fn child_faults(&self) -> u64 {
        self.child_faults
    }

    fn start(&mut self, job: u8, argv: &Texts, env: &Fields, dir: &Text) -> Did {
        rise(&mut self.child_faults);
        let entry = telling::started_entry(self.alloc, job, argv, env, dir, Did::Failed);
        self.journal.tell(entry);
        Did::Failed
    }

    fn look(&mut self, job: u8) -> Option<i32> {
        self.journal.tell(Ok(Entry::Looked { job, status: None }));
        None
    }

    fn end(&mut self, job: u8) {
        self.journal.tell(Ok(Entry::Killed { job }));
    }
}

impl Clock for NullWorld {
    fn now(&mut self) -> u64 {
        let ms = Clock::last(self);
        self.journal.tell_moment(ms);
        ms
    }

    fn last(&self) -> u64 {
        self.journal.last()
    }
}

impl Rand for NullWorld {
    fn rand_faults(&self) -> u64 {
        self.rand_faults
    }

    fn word(&mut self) -> Option<u64> {
        rise(&mut self.rand_faults);
        self.journal.tell(Ok(Entry::Word { word: None }));
        None
    }
}

impl Say for NullWorld {
    fn say_faults(&self) -> u64 {
        self.say_faults
    }

    fn write(&mut self, piece: &[u8]) -> Wrote {
        rise(&mut self.say_faults);
        self.journal
            .tell(telling::said_entry(self.alloc, piece, Did::Failed));
        Wrote::Failed
    }
}

impl World for NullWorld {}
