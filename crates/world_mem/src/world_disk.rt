//! The disk of a world in memory, and what is said over it.
ghost use Rattle.std.specs.Prelude.{◌≡◌, ◌<◌, true, length};
ghost use Rattle.std.specs.Str.{bytes_eq};
ghost use Rattle.world.specs.declared.entry.Entry.{Entry};
ghost use Rattle.world.specs.Counts.{CountsBy, DiskCause, SayCause};
ghost use Rattle.world.specs.Told.{Adds, taken_of, did_of, TookSome, FoundWithin};
ghost use Rattle.world_mem.specs.Folder.{file_at};
ghost use Rattle.world_mem.specs.Near.{journal_of, counts_of, AfterStored};
ghost use Rattle.world_mem.specs.Store.{files_of, is_to_fail, fails_on_disk, fails_without};
ghost use Rattle.world_mem.specs.Store.{did_unless, did_find, FoundAs, TookAll};
ghost use Rattle.world_mem.specs.Store.{Creates, Appends, Renames, Removes, Says};
ghost use Rattle.world_mem.specs.Store.{FailsOrStarves, AfterDisk, AfterLook, AfterSay};

use crate::{MemWorld, telling};
use jtext::Text;
use std::alloc::Global;
use world::{Did, Disk, Entry, KernelSide, ReadFile, Say, Wrote};

// The clauses of the trait, and what this world answers.
impl<K: KernelSide> Disk for MemWorld<K> {
    fn disk_faults(&self) -> u64 {
        self.near.store.disk_faults()
    }

    fn read_file(&mut self, alloc: Global, path: &Text, most: u64) -> ReadFile
        ensures within { FoundWithin result most }
        ensures tells { Adds journal_of self.old.near self.new.near
            (Entry.Read path.now most result) }
        ensures cause { CountsBy DiskCause counts_of self.old.near self.new.near
            (result ≡ ReadFile.Failed) }
        ensures found { FoundAs (fails_on_disk self.old.near.store)
            (file_at path.now (files_of self.old.near.store)) most result }
        ensures after { AfterLook self.old.near.store self.new.near.store (did_find result) }
        ensures near { AfterStored self.old.near self.new.near }
        ensures far { self.new.far ≡ self.old.far }
    {
        let found = self.near.store.read_file(alloc, path, most);
        self.near
            .journal
            .tell(telling::read_entry(self.near.alloc, path, most, &found));
        found
    }

    fn create(&mut self, path: &Text) -> Did
        ensures tells { Adds journal_of self.old.near self.new.near
            (Entry.Created path.now result) }
        ensures cause { CountsBy DiskCause counts_of self.old.near self.new.near
            (result ≡ Did.Failed) }
        ensures does { Creates self.old.near.store self.new.near.store path.now result }
        ensures fails { FailsOrStarves (fails_on_disk self.old.near.store)
            self.old.near.store self.new.near.store result }
        ensures after { AfterDisk self.old.near.store self.new.near.store result }
        ensures near { AfterStored self.old.near self.new.near }
        ensures far { self.new.far ≡ self.old.far }
    {
        let did = self.near.store.create(path);
        self.near
            .journal
            .tell(telling::created_entry(self.near.alloc, path, did));
        did
    }

    fn write(&mut self, path: &Text, piece: &[u8]) -> Wrote
        requires { 0 < length piece.now }
        ensures some { TookSome result piece.now }
        ensures tells { Adds journal_of self.old.near self.new.near
            (Entry.Wrote path.now (taken_of result piece.now) (did_of result)) }
        ensures cause { CountsBy DiskCause counts_of self.old.near self.new.near
            (result ≡ Wrote.Failed) }
        ensures all { TookAll result piece.now }
        ensures does { Appends self.old.near.store self.new.near.store path.now
            (taken_of result piece.now) (did_of result) }
        ensures fails { FailsOrStarves (fails_without self.old.near.store path.now)
            self.old.near.store self.new.near.store (did_of result) }
        ensures after { AfterDisk self.old.near.store self.new.near.store (did_of result) }
        ensures near { AfterStored self.old.near self.new.near }
        ensures far { self.new.far ≡ self.old.far }
    {
        let wrote = self.near.store.write(path, piece);
        let entry = telling::wrote_by(self.near.alloc, path, piece, wrote);
        self.near.journal.tell(entry);
        wrote
    }

    fn sync(&mut self, path: &Text) -> Did
        ensures tells { Adds journal_of self.old.near self.new.near
            (Entry.Synced path.now result) }
        ensures cause { CountsBy DiskCause counts_of self.old.near self.new.near
            (result ≡ Did.Failed) }
        ensures is { result ≡ did_unless (fails_without self.old.near.store path.now) }
        ensures after { AfterLook self.old.near.store self.new.near.store result }
        ensures near { AfterStored self.old.near self.new.near }
        ensures far { self.new.far ≡ self.old.far }
    {
        let did = self.near.store.sync(path);
        self.near
            .journal
            .tell(telling::synced_entry(self.near.alloc, path, did));
        did
    }

    fn rename(&mut self, from: &Text, to: &Text) -> Did
        ensures tells { Adds journal_of self.old.near self.new.near
            (Entry.Renamed from.now to.now result) }
        ensures cause { CountsBy DiskCause counts_of self.old.near self.new.near
            (result ≡ Did.Failed) }
        ensures does { Renames self.old.near.store self.new.near.store from.now to.now result }
        ensures fails { FailsOrStarves (fails_without self.old.near.store from.now)
            self.old.near.store self.new.near.store result }
        ensures own { bytes_eq from.now to.now ≡ true →
            (files_of self.new.near.store ≡ files_of self.old.near.store)
            × (self.new.near.store.starved ≡ self.old.near.store.starved) }
        ensures after { AfterDisk self.old.near.store self.new.near.store result }
        ensures near { AfterStored self.old.near self.new.near }
        ensures far { self.new.far ≡ self.old.far }
    {
        let did = self.near.store.rename(from, to);
        self.near
            .journal
            .tell(telling::renamed_entry(self.near.alloc, from, to, did));
        did
    }

    fn sync_dir(&mut self, dir: &Text) -> Did
        ensures tells { Adds journal_of self.old.near self.new.near
            (Entry.DirSynced dir.now result) }
        ensures cause { CountsBy DiskCause counts_of self.old.near self.new.near
            (result ≡ Did.Failed) }
        ensures is { result ≡ did_unless (fails_on_disk self.old.near.store) }
        ensures after { AfterLook self.old.near.store self.new.near.store result }
        ensures near { AfterStored self.old.near self.new.near }
        ensures far { self.new.far ≡ self.old.far }
    {
        let did = self.near.store.sync_dir();
        self.near
            .journal
            .tell(telling::dir_synced_entry(self.near.alloc, dir, did));
        did
    }

    fn remove(&mut self, path: &Text) -> Did
        ensures tells { Adds journal_of self.old.near self.new.near
            (Entry.Removed path.now result) }
        ensures cause { CountsBy DiskCause counts_of self.old.near self.new.near
            (result ≡ Did.Failed) }
        ensures is { result ≡ did_unless (fails_without self.old.near.store path.now) }
        ensures does { Removes self.old.near.store self.new.near.store path.now result }
        ensures starved { self.new.near.store.starved ≡ self.old.near.store.starved }
        ensures after { AfterDisk self.old.near.store self.new.near.store result }
        ensures near { AfterStored self.old.near self.new.near }
        ensures far { self.new.far ≡ self.old.far }
    {
        let did = self.near.store.remove(path);
        self.near
            .journal
            .tell(telling::removed_entry(self.near.alloc, path, did));
        did
    }
}

impl<K: KernelSide> Say for MemWorld<K> {
    fn say_faults(&self) -> u64 {
        self.near.store.say_faults()
    }

    fn write(&mut self, piece: &[u8]) -> Wrote
        requires { 0 < length piece.now }
        ensures some { TookSome result piece.now }
        ensures tells { Adds journal_of self.old.near self.new.near
            (Entry.Said (taken_of result piece.now) (did_of result)) }
        ensures cause { CountsBy SayCause counts_of self.old.near self.new.near
            (result ≡ Wrote.Failed) }
        ensures all { TookAll result piece.now }
        ensures does { Says self.old.near.store self.new.near.store
            (taken_of result piece.now) (did_of result) }
        ensures fails { FailsOrStarves (is_to_fail self.old.near.store)
            self.old.near.store self.new.near.store (did_of result) }
        ensures after { AfterSay self.old.near.store self.new.near.store (did_of result) }
        ensures near { AfterStored self.old.near self.new.near }
        ensures far { self.new.far ≡ self.old.far }
    {
        let wrote = self.near.store.say(piece);
        let entry = telling::said_by(self.near.alloc, piece, wrote);
        self.near.journal.tell(entry);
        wrote
    }
}
