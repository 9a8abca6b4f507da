//! Files in memory.
ghost use Rattle.std.specs.Prelude.{◌≡◌, ◌++◌, [], true, false, Some, None, OnOk, OnErr};
ghost use Rattle.std.specs.Prelude.{MatchOption, option_map};
ghost use Rattle.std.specs.Str.{bytes_eq};
ghost use Rattle.world_mem.specs.Folder.{file_at, has_file, Sets, Moves, Edits, IsFirst};

use crate::Files;
use crate::edit::Edit;
use jtext::{Bytes, NoMemory, Text};
use std::alloc::Global;

/// Files by their paths. Where a path stands twice the first file counts.
#[derive(Drop)]
pub(crate) struct Folder {
    files: Vec<(Text, Bytes)>,
}

impl Folder {
    /// The folder with these files.
    pub(crate) fn of(files: Files) -> Folder
        ensures { result.files.items ≡ files }
    {
        let files = files.into_vec();
        Folder { files }
    }

    /// The files, each with its path.
    pub(crate) fn files(&self) -> &[(Text, Bytes)]
        ensures { result.now ≡ self.now.files.items }
    {
        &self.files
    }

    /// The bytes of the file at a path.
    pub(crate) fn get(&self, path: &Text) -> Option<&Bytes>
        ensures { option_map (λ bytes. bytes.now) result ≡ file_at path.now self.now.files.items }
    {
        let i = self.place(path)?;
        Some(&self.files[i].1)
    }

    /// Whether there is a file at a path.
    pub(crate) fn has(&self, path: &Text) -> bool
        ensures { result ≡ has_file path.now self.now.files.items }
    {
        self.get(path).is_some()
    }

    /// Makes an empty file at a path, or empties the one that is there. Memory is asked for a new
    /// one alone.
    pub(crate) fn empty(&mut self, alloc: Global, path: &Text) -> Result<(), NoMemory>
        ensures ok { OnOk result
            (Sets self.old.files.items self.new.files.items path.now (Some [])) }
        ensures err { OnErr result ((has_file path.now self.old.files.items ≡ false)
            × (self.new.files.items ≡ self.old.files.items)) }
    {
        if let Some(i) = self.place(path) {
            self.files[i].1 = Bytes::new(alloc);
            return Ok(());
        }
        let Ok(path) = Text::of(alloc, path.as_str()) else {
            return Err(NoMemory);
        };
        if self.files.push((path, Bytes::new(alloc))).is_err() {
            return Err(NoMemory);
        }
        Ok(())
    }

    /// Puts bytes at the end of the file at a path.
    pub(crate) fn append(&mut self, path: &Text, piece: &[u8]) -> Edit
        ensures { Edits self.old.files.items self.new.files.items path.now result
            (Sets self.old.files.items self.new.files.items path.now
            (option_map (λ bytes. bytes ++ piece.now) (file_at path.now self.old.files.items))) }
    {
        let Some(i) = self.place(path) else {
            return Edit::Absent;
        };
        match self.files[i].1.add(piece) {
            Ok(()) => Edit::Done,
            Err(_) => Edit::NoMemory,
        }
    }

    /// Gives a file another name, in place of the file that has it. A file that is renamed to its
    /// own name stays.
    pub(crate) fn rename(&mut self, alloc: Global, from: &Text, to: &Text) -> Edit
        ensures edits { Edits self.old.files.items self.new.files.items from.now result
            (Moves self.old.files.items self.new.files.items from.now to.now) }
        ensures own { bytes_eq from.now to.now ≡ true →
            self.new.files.items ≡ self.old.files.items }
        ensures own_done { bytes_eq from.now to.now ≡ true → ¬ (result ≡ Edit.NoMemory) }
    {
        if !self.has(from) {
            return Edit::Absent;
        }
        if from.as_str() == to.as_str() {
            return Edit::Done;
        }
        let Ok(name) = Text::of(alloc, to.as_str()) else {
            return Edit::NoMemory;
        };
        self.remove(to);
        let Some(i) = self.place(from) else {
            return Edit::Absent;
        };
        self.files[i].0 = name;
        self.remove(from);
        Edit::Done
    }

    /// Removes what there is at a path.
    pub(crate) fn remove(&mut self, path: &Text)
        ensures { Sets self.old.files.items self.new.files.items path.now None }
    {
        while let Some(i) = self.place(path) {
            let _ = self.files.remove(i);
        }
    }

    // The number of the first file at a path.
    fn place(&self, path: &Text) -> Option<usize>
        ensures { MatchOption result (file_at path.now self.now.files.items ≡ None)
            (λ i. IsFirst path.now self.now.files.items i) }
    {
        for (i, file) in self.files.iter().enumerate() {
            if file.0.as_str() == path.as_str() {
                return Some(i);
            }
        }
        None
    }
}
