//! Files, what is said, and which calls fail.
ghost use Rattle.std.specs.Prelude.{◌≡◌, ◌↔◌, ◌<◌, [], true, false, length, None, Some};
ghost use Rattle.std.specs.Prelude.{option_map};
ghost use Rattle.std.specs.Str.{bytes_eq};
ghost use Rattle.world.specs.Counts.{HasCause};
ghost use Rattle.world.specs.Told.{FoundWithin, TookSome, did_of, taken_of};
ghost use Rattle.world_mem.specs.Folder.{file_at};
ghost use Rattle.world_mem.specs.Store.{files_of, is_to_fail, fails_on_disk};
ghost use Rattle.world_mem.specs.Store.{fails_without, faults_after, did_unless};
ghost use Rattle.world.specs.Rises.{one_more};
ghost use Rattle.world_mem.specs.Store.{did_find, FoundAs, Creates, Appends, Renames, Removes};
ghost use Rattle.world_mem.specs.Store.{Says, TookAll, FailsOrStarves, burnt, AfterCall};
ghost use Rattle.world_mem.specs.Store.{AfterTry, AfterChange, AfterDisk, AfterLook, AfterSay};

use crate::count::{rise, rise_by};
use crate::edit::Edit;
use crate::folder::Folder;
use crate::{Files, Sizes};
use jtext::{Bytes, Text};
use std::alloc::Global;
use world::{Did, ReadFile, Wrote};

/// Files, what is said, and which calls fail: those whose numbers, from 0, are in `fails`, and
/// calls of the disk once the fuse has let its number of them through.
#[derive(Drop)]
pub(crate) struct Store {
    alloc: Global,
    folder: Folder,
    said: Bytes,
    fails: Sizes,
    calls: u64,
    fuse: Option<u64>,
    disk_faults: u64,
    say_faults: u64,
    starved: u64,
}

impl Store {
    /// A store with these files, and no fuse.
    pub(crate) fn new(alloc: Global, files: Files, fails: Sizes) -> Store
        ensures files { files_of result ≡ files }
        ensures rest { result ≡ record {
          alloc = alloc;
          folder = result.folder;
          said = [];
          fails = fails;
          calls = 0;
          fuse = None;
          disk_faults = 0;
          say_faults = 0;
          starved = 0;
        } }
    {
        Store {
            alloc,
            folder: Folder::of(files),
            said: Bytes::new(alloc),
            fails,
            calls: 0,
            fuse: None,
            disk_faults: 0,
            say_faults: 0,
            starved: 0,
        }
    }

    /// The bytes of the file at a path, and `None` where there is none.
    pub(crate) fn file(&self, path: &Text) -> Option<&Bytes>
        ensures { option_map (λ bytes. bytes.now) result ≡ file_at path.now (files_of self.now) }
    {
        self.folder.get(path)
    }

    /// All that was said.
    pub(crate) fn said(&self) -> &Bytes
        ensures { result.now ≡ self.now.said }
    {
        &self.said
    }

    /// How many calls of the disk have failed.
    pub(crate) fn disk_faults(&self) -> u64
        ensures { result ≡ self.now.disk_faults }
    {
        self.disk_faults
    }

    /// How many calls of what is said have failed.
    pub(crate) fn say_faults(&self) -> u64
        ensures { result ≡ self.now.say_faults }
    {
        self.say_faults
    }

    /// How many calls have failed for want of memory.
    pub(crate) fn starved(&self) -> u64
        ensures { result ≡ self.now.starved }
    {
        self.starved
    }

    /// Lets `n` further calls of the disk through, and none after them.
    pub(crate) fn set_fuse(&mut self, n: u64)
        ensures { self.new ≡ record self.old { fuse = Some n } }
    {
        self.fuse = Some(n);
    }

    /// Counts a call that failed for want of memory.
    pub(crate) fn starve(&mut self) -> Did
        ensures failed { result ≡ Did.Failed }
        ensures counted { self.new ≡ record self.old { starved = one_more self.old.starved } }
    {
        rise(&mut self.starved);
        Did::Failed
    }

    /// Counts a call, and tells whether it is to fail.
    pub(crate) fn fails_now(&mut self) -> bool
        ensures is { result ≡ is_to_fail self.old }
        ensures calls { AfterCall self.old self.new }
    {
        let fails = self.fails.as_slice().contains(&self.calls);
        rise(&mut self.calls);
        fails
    }

    /// Counts a call that can't fail.
    pub(crate) fn count_call(&mut self)
        ensures { AfterCall self.old self.new }
    {
        rise(&mut self.calls);
    }

    /// Reads the file where it has at most `most` bytes.
    pub(crate) fn read_file(&mut self, alloc: Global, path: &Text, most: u64) -> ReadFile
        ensures within { FoundWithin result most }
        ensures found { FoundAs (fails_on_disk self.old)
            (file_at path.now (files_of self.old)) most result }
        ensures cause { HasCause self.old.disk_faults self.new.disk_faults
            (result ≡ ReadFile.Failed) }
        ensures after { AfterLook self.old self.new (did_find result) }
    {
        let found = self.try_read(alloc, path, most);
        self.count_disk(did_of_read(&found));
        found
    }

    /// Makes an empty file, or empties the one that is there.
    pub(crate) fn create(&mut self, path: &Text) -> Did
        ensures does { Creates self.old self.new path.now result }
        ensures fails { FailsOrStarves (fails_on_disk self.old) self.old self.new result }
        ensures cause { HasCause self.old.disk_faults self.new.disk_faults
            (result ≡ Did.Failed) }
        ensures after { AfterDisk self.old self.new result }
    {
        let did = self.try_create(path);
        self.count_disk(did);
        did
    }

    /// Puts the piece at the end of the file, as far as its length can be told.
    pub(crate) fn write(&mut self, path: &Text, piece: &[u8]) -> Wrote
        requires { 0 < length piece.now }
        ensures some { TookSome result piece.now }
        ensures all { TookAll result piece.now }
        ensures does { Appends self.old self.new path.now
            (taken_of result piece.now) (did_of result) }
        ensures fails { FailsOrStarves (fails_without self.old path.now)
            self.old self.new (did_of result) }
        ensures cause { HasCause self.old.disk_faults self.new.disk_faults
            (result ≡ Wrote.Failed) }
        ensures after { AfterDisk self.old self.new (did_of result) }
    {
        let size = piece.len().min(u32::MAX as usize);
        let did = self.try_write(path, &piece[..size]);
        self.count_disk(did);
        if did == Did::Failed {
            return Wrote::Failed;
        }
        Wrote::Took(size as u32)
    }

    /// Makes the bytes of the file durable: here it only has to be there.
    pub(crate) fn sync(&mut self, path: &Text) -> Did
        ensures is { result ≡ did_unless (fails_without self.old path.now) }
        ensures cause { HasCause self.old.disk_faults self.new.disk_faults
            (result ≡ Did.Failed) }
        ensures after { AfterLook self.old self.new result }
    {
        let did = self.try_sync(path);
        self.count_disk(did);
        did
    }

    /// Gives the file another name, in place of the file that has it.
    pub(crate) fn rename(&mut self, from: &Text, to: &Text) -> Did
        ensures does { Renames self.old self.new from.now to.now result }
        ensures fails { FailsOrStarves (fails_without self.old from.now) self.old self.new result }
        ensures own { bytes_eq from.now to.now ≡ true →
            (files_of self.new ≡ files_of self.old) × (self.new.starved ≡ self.old.starved) }
        ensures cause { HasCause self.old.disk_faults self.new.disk_faults
            (result ≡ Did.Failed) }
        ensures after { AfterDisk self.old self.new result }
    {
        let did = self.try_rename(from, to);
        self.count_disk(did);
        did
    }

    /// Makes the names in a folder durable.
    pub(crate) fn sync_dir(&mut self) -> Did
        ensures is { result ≡ did_unless (fails_on_disk self.old) }
        ensures cause { HasCause self.old.disk_faults self.new.disk_faults
            (result ≡ Did.Failed) }
        ensures after { AfterLook self.old self.new result }
    {
        let did = if self.fails_on_disk() {
            Did::Failed
        } else {
            Did::Done
        };
        self.count_disk(did);
        did
    }

    /// Removes the name of the file.
    pub(crate) fn remove(&mut self, path: &Text) -> Did
        ensures is { result ≡ did_unless (fails_without self.old path.now) }
        ensures does { Removes self.old self.new path.now result }
        ensures starved { self.new.starved ≡ self.old.starved }
        ensures cause { HasCause self.old.disk_faults self.new.disk_faults
            (result ≡ Did.Failed) }
        ensures after { AfterDisk self.old self.new result }
    {
        let did = self.try_remove(path);
        self.count_disk(did);
        did
    }

    /// Says the piece, as far as its length can be told.
    pub(crate) fn say(&mut self, piece: &[u8]) -> Wrote
        requires { 0 < length piece.now }
        ensures some { TookSome result piece.now }
        ensures all { TookAll result piece.now }
        ensures does { Says self.old self.new (taken_of result piece.now) (did_of result) }
        ensures fails { FailsOrStarves (is_to_fail self.old) self.old self.new (did_of result) }
        ensures cause { HasCause self.old.say_faults self.new.say_faults (result ≡ Wrote.Failed) }
        ensures after { AfterSay self.old self.new (did_of result) }
    {
        let size = piece.len().min(u32::MAX as usize);
        if self.try_say(&piece[..size]) == Did::Failed {
            rise(&mut self.say_faults);
            return Wrote::Failed;
        }
        Wrote::Took(size as u32)
    }

    // Counts a call of the disk, and tells whether it is to fail.
    fn fails_on_disk(&mut self) -> bool
        ensures is { result ≡ fails_on_disk self.old }
        ensures after { AfterTry self.old self.new }
    {
        let spent = self.fuse == Some(0);
        if let Some(n) = self.fuse {
            self.fuse = Some(n.saturating_sub(1));
        }
        self.fails_now() || spent
    }

    // Counts the fault of a call of the disk that failed.
    fn count_disk(&mut self, did: Did)
        ensures is { self.new ≡ record self.old {
          disk_faults = faults_after did self.old.disk_faults;
        } }
        ensures cause { HasCause self.old.disk_faults self.new.disk_faults (did ≡ Did.Failed) }
    {
        rise_by(&mut self.disk_faults, did);
    }

    fn try_read(&mut self, alloc: Global, path: &Text, most: u64) -> ReadFile
        ensures found { FoundAs (fails_on_disk self.old)
            (file_at path.now (files_of self.old)) most result }
        ensures after { AfterTry self.old self.new }
    {
        if self.fails_on_disk() {
            return ReadFile::Failed;
        }
        let Some(bytes) = self.folder.get(path) else {
            return ReadFile::Failed;
        };
        whole(alloc, bytes, most)
    }

    fn try_create(&mut self, path: &Text) -> Did
        ensures does { Creates self.old self.new path.now result }
        ensures after { AfterChange self.old self.new }
        ensures fails { FailsOrStarves (fails_on_disk self.old) self.old self.new result }
    {
        if self.fails_on_disk() {
            return Did::Failed;
        }
        match self.folder.empty(self.alloc, path) {
            Ok(()) => Did::Done,
            Err(_) => self.starve(),
        }
    }

    fn try_sync(&mut self, path: &Text) -> Did
        ensures is { result ≡ did_unless (fails_without self.old path.now) }
        ensures after { AfterTry self.old self.new }
    {
        if self.fails_on_disk() {
            return Did::Failed;
        }
        if self.folder.has(path) {
            return Did::Done;
        }
        Did::Failed
    }

    fn try_write(&mut self, path: &Text, bytes: &[u8]) -> Did
        ensures does { Appends self.old self.new path.now bytes.now result }
        ensures after { AfterChange self.old self.new }
        ensures fails { FailsOrStarves (fails_without self.old path.now) self.old self.new result }
    {
        if self.fails_on_disk() {
            return Did::Failed;
        }
        match self.folder.append(path, bytes) {
            Edit::Done => Did::Done,
            Edit::Absent => Did::Failed,
            Edit::NoMemory => self.starve(),
        }
    }

    fn try_rename(&mut self, from: &Text, to: &Text) -> Did
        ensures does { Renames self.old self.new from.now to.now result }
        ensures after { AfterChange self.old self.new }
        ensures fails { FailsOrStarves (fails_without self.old from.now) self.old self.new result }
        ensures own { bytes_eq from.now to.now ≡ true →
            (files_of self.new ≡ files_of self.old) × (self.new.starved ≡ self.old.starved) }
    {
        if self.fails_on_disk() {
            return Did::Failed;
        }
        match self.folder.rename(self.alloc, from, to) {
            Edit::Done => Did::Done,
            Edit::Absent => Did::Failed,
            Edit::NoMemory => self.starve(),
        }
    }

    fn try_remove(&mut self, path: &Text) -> Did
        ensures is { result ≡ did_unless (fails_without self.old path.now) }
        ensures does { Removes self.old self.new path.now result }
        ensures after { self.new ≡ record self.old {
          folder = self.new.folder;
          calls = one_more self.old.calls;
          fuse = burnt self.old.fuse;
        } }
    {
        if self.fails_on_disk() {
            return Did::Failed;
        }
        if !self.folder.has(path) {
            return Did::Failed;
        }
        self.folder.remove(path);
        Did::Done
    }

    fn try_say(&mut self, bytes: &[u8]) -> Did
        ensures does { Says self.old self.new bytes.now result }
        ensures after { self.new ≡ record self.old {
          said = self.new.said;
          calls = one_more self.old.calls;
          starved = self.new.starved;
        } }
        ensures fails { FailsOrStarves (is_to_fail self.old) self.old self.new result }
    {
        if self.fails_now() {
            return Did::Failed;
        }
        match self.said.add(bytes) {
            Ok(()) => Did::Done,
            Err(_) => self.starve(),
        }
    }
}

// Whether a read failed.
fn did_of_read(found: &ReadFile) -> Did
    ensures is { result ≡ did_find found.now }
    ensures failed { result ≡ Did.Failed ↔ found.now ≡ ReadFile.Failed }
{
    match found {
        ReadFile::Failed => Did::Failed,
        _ => Did::Done,
    }
}

// What a read of these bytes answers.
fn whole(alloc: Global, bytes: &Bytes, most: u64) -> ReadFile
    ensures { FoundAs false (Some bytes.now) most result }
{
    if bytes.len() as u64 > most {
        return ReadFile::Big;
    }
    match Bytes::of(alloc, bytes.bytes()) {
        Ok(bytes) => ReadFile::Whole(bytes),
        Err(_) => ReadFile::NoMemory,
    }
}
