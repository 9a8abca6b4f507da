//! A disk in memory.
ghost use Rattle.std.specs.Prelude.{◌≡◌, ◌<◌, [], true, length, IfOk, Some, option_map};
ghost use Rattle.std.specs.Str.{bytes_eq};
ghost use Rattle.world.specs.declared.entry.Entry.{Entry};
ghost use Rattle.world.specs.Counts.{CountsBy, DiskCause, SayCause};
ghost use Rattle.world.specs.Told.{Adds, taken_of, did_of, TookSome, FoundWithin};
ghost use Rattle.world_mem.specs.Folder.{file_at};
ghost use Rattle.world_mem.specs.Journals.{AreCounted, told_of};
ghost use Rattle.world_mem.specs.Store.{files_of, is_to_fail, fails_on_disk, fails_without};
ghost use Rattle.world_mem.specs.Store.{did_unless, did_find, FoundAs, TookAll};
ghost use Rattle.world_mem.specs.Store.{Creates, Appends, Renames, Removes, Says};
ghost use Rattle.world_mem.specs.Store.{FailsOrStarves, AfterDisk, AfterLook, AfterSay};

use crate::store::Store;
use crate::telling::{self, tell};
use crate::{Files, Sizes};
use jtext::{Bytes, NoMemory, Text};
use std::alloc::Global;
use world::{Did, Disk, Entries, Entry, Journal, ReadFile, Say, Wrote};

/// A disk in memory, and what is said beside it. It tells its journal until memory for an entry is
/// refused. A call fails, and its count rises, exactly where its number is among those that are to
/// fail, the file that it reads, writes, syncs, renames or removes is absent, or `starved` rises in
/// it.
#[derive(Drop)]
pub struct MemDisk {
    alloc: Global,
    journal: Option<Entries>,
    store: Store,
    // No call on connections, of children, of the clock or for random words is told.
    ghost counted: { AreCounted (told_of journal) (record {
      disk = store.disk_faults;
      net = 0;
      waits = 0;
      child = 0;
      rand = 0;
      say = store.say_faults;
      last = 0;
    }) },
}

impl MemDisk {
    ghost use Rattle.world_mem.specs.Disk.{journal_in};

    /// A disk with these files. `fails` are the numbers, from 0, of the calls that fail: all calls
    /// that make an entry are numbered together, in their order.
    pub fn new(alloc: Global, files: Files, fails: Sizes) -> Result<MemDisk, NoMemory>
        ensures journal { IfOk result (λ disk. journal_in disk ≡ Some []) }
        ensures files { IfOk result (λ disk. files_of disk.store ≡ files) }
        ensures fails { IfOk result (λ disk. disk.store.fails ≡ fails) }
        ensures said { IfOk result (λ disk. disk.store.said ≡ []) }
        ensures counts { IfOk result (λ disk. (disk.store.calls ≡ 0)
            × (disk.store.disk_faults ≡ 0) × (disk.store.say_faults ≡ 0)
            × (disk.store.starved ≡ 0)) }
    {
        Ok(MemDisk {
            alloc,
            journal: Some(Entries::new(alloc)),
            store: Store::new(alloc, files, fails),
        })
    }

    /// The entries so far, the oldest first, and `None` where they are no longer told.
    pub fn journal(&self) -> Option<&Entries>
        ensures { option_map (λ entries. entries.now) result ≡ self.now.journal }
    {
        self.journal.as_ref()
    }

    /// The bytes of the file at a path, and `None` where there is none.
    pub fn file(&self, path: &Text) -> Option<&Bytes>
        ensures { option_map (λ bytes. bytes.now) result
            ≡ file_at path.now (files_of self.now.store) }
    {
        self.store.file(path)
    }

    /// All that was said.
    pub fn said(&self) -> &Bytes
        ensures { result.now ≡ self.now.store.said }
    {
        self.store.said()
    }

    /// How many calls failed because memory was refused for a file or for what was said, up to the
    /// last value of a `u64`.
    pub fn starved(&self) -> u64
        ensures { result ≡ self.now.store.starved }
    {
        self.store.starved()
    }
}

impl Journal for MemDisk {
    ghost use Rattle.world_mem.specs.Disk.{journal_in, counts_in};

    ghost journal = { journal_in };

    ghost counts = { counts_in };
}

// The clauses of the trait, and what this disk answers.
impl Disk for MemDisk {
    ghost use Rattle.world_mem.specs.Disk.{journal_in, counts_in};

    fn disk_faults(&self) -> u64 {
        self.store.disk_faults()
    }

    fn read_file(&mut self, alloc: Global, path: &Text, most: u64) -> ReadFile
        ensures within { FoundWithin result most }
        ensures tells { Adds journal_in self.old self.new (Entry.Read path.now most result) }
        ensures cause { CountsBy DiskCause counts_in self.old self.new (result ≡ ReadFile.Failed) }
        ensures found { FoundAs (fails_on_disk self.old.store)
            (file_at path.now (files_of self.old.store)) most result }
        ensures after { AfterLook self.old.store self.new.store (did_find result) }
    {
        let found = self.store.read_file(alloc, path, most);
        tell(
            &mut self.journal,
            telling::read_entry(self.alloc, path, most, &found),
        );
        found
    }

    fn create(&mut self, path: &Text) -> Did
        ensures tells { Adds journal_in self.old self.new (Entry.Created path.now result) }
        ensures cause { CountsBy DiskCause counts_in self.old self.new (result ≡ Did.Failed) }
        ensures does { Creates self.old.store self.new.store path.now result }
        ensures fails { FailsOrStarves (fails_on_disk self.old.store)
            self.old.store self.new.store result }
        ensures after { AfterDisk self.old.store self.new.store result }
    {
        let did = self.store.create(path);
        tell(
            &mut self.journal,
            telling::created_entry(self.alloc, path, did),
        );
        did
    }

    fn write(&mut self, path: &Text, piece: &[u8]) -> Wrote
        requires { 0 < length piece.now }
        ensures some { TookSome result piece.now }
        ensures tells { Adds journal_in self.old self.new
            (Entry.Wrote path.now (taken_of result piece.now) (did_of result)) }
        ensures cause { CountsBy DiskCause counts_in self.old self.new (result ≡ Wrote.Failed) }
        ensures all { TookAll result piece.now }
        ensures does { Appends self.old.store self.new.store path.now
            (taken_of result piece.now) (did_of result) }
        ensures fails { FailsOrStarves (fails_without self.old.store path.now)
            self.old.store self.new.store (did_of result) }
        ensures after { AfterDisk self.old.store self.new.store (did_of result) }
    {
        let wrote = self.store.write(path, piece);
        let entry = telling::wrote_by(self.alloc, path, piece, wrote);
        tell(&mut self.journal, entry);
        wrote
    }

    fn sync(&mut self, path: &Text) -> Did
        ensures tells { Adds journal_in self.old self.new (Entry.Synced path.now result) }
        ensures cause { CountsBy DiskCause counts_in self.old self.new (result ≡ Did.Failed) }
        ensures is { result ≡ did_unless (fails_without self.old.store path.now) }
        ensures after { AfterLook self.old.store self.new.store result }
    {
        let did = self.store.sync(path);
        tell(
            &mut self.journal,
            telling::synced_entry(self.alloc, path, did),
        );
        did
    }

    fn rename(&mut self, from: &Text, to: &Text) -> Did
        ensures tells { Adds journal_in self.old self.new (Entry.Renamed from.now to.now result) }
        ensures cause { CountsBy DiskCause counts_in self.old self.new (result ≡ Did.Failed) }
        ensures does { Renames self.old.store self.new.store from.now to.now result }
        ensures fails { FailsOrStarves (fails_without self.old.store from.now)
            self.old.store self.new.store result }
        ensures own { bytes_eq from.now to.now ≡ true →
            (files_of self.new.store ≡ files_of self.old.store)
            × (self.new.store.starved ≡ self.old.store.starved) }
        ensures after { AfterDisk self.old.store self.new.store result }
    {
        let did = self.store.rename(from, to);
        tell(
            &mut self.journal,
            telling::renamed_entry(self.alloc, from, to, did),
        );
        did
    }

    fn sync_dir(&mut self, dir: &Text) -> Did
        ensures tells { Adds journal_in self.old self.new (Entry.DirSynced dir.now result) }
        ensures cause { CountsBy DiskCause counts_in self.old self.new (result ≡ Did.Failed) }
        ensures is { result ≡ did_unless (fails_on_disk self.old.store) }
        ensures after { AfterLook self.old.store self.new.store result }
    {
        let did = self.store.sync_dir();
        tell(
            &mut self.journal,
            telling::dir_synced_entry(self.alloc, dir, did),
        );
        did
    }

    fn remove(&mut self, path: &Text) -> Did
        ensures tells { Adds journal_in self.old self.new (Entry.Removed path.now result) }
        ensures cause { CountsBy DiskCause counts_in self.old self.new (result ≡ Did.Failed) }
        ensures is { result ≡ did_unless (fails_without self.old.store path.now) }
        ensures does { Removes self.old.store self.new.store path.now result }
        ensures starved { self.new.store.starved ≡ self.old.store.starved }
        ensures after { AfterDisk self.old.store self.new.store result }
    {
        let did = self.store.remove(path);
        tell(
            &mut self.journal,
            telling::removed_entry(self.alloc, path, did),
        );
        did
    }
}

impl Say for MemDisk {
    ghost use Rattle.world_mem.specs.Disk.{journal_in, counts_in};

    fn say_faults(&self) -> u64 {
        self.store.say_faults()
    }

    fn write(&mut self, piece: &[u8]) -> Wrote
        requires { 0 < length piece.now }
        ensures some { TookSome result piece.now }
        ensures tells { Adds journal_in self.old self.new
            (Entry.Said (taken_of result piece.now) (did_of result)) }
        ensures cause { CountsBy SayCause counts_in self.old self.new (result ≡ Wrote.Failed) }
        ensures all { TookAll result piece.now }
        ensures does { Says self.old.store self.new.store
            (taken_of result piece.now) (did_of result) }
        ensures fails { FailsOrStarves (is_to_fail self.old.store)
            self.old.store self.new.store (did_of result) }
        ensures after { AfterSay self.old.store self.new.store (did_of result) }
    {
        let wrote = self.store.say(piece);
        let entry = telling::said_by(self.alloc, piece, wrote);
        tell(&mut self.journal, entry);
        wrote
    }
}
