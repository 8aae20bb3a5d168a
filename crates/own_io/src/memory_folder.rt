ghost use Rattle.std.specs.Prelude.{◌≡◌, ◌≢◌, ℕ, ◌+◌, ◌≤◌, ◌⊎◌, [], true, List, None, Some, Err, IsTrue, OnOk, OnErr, option_map, position, bytes_eq};
ghost use Rattle.own_io.specs.Outside.{HasRisen};
ghost use Rattle.own_io.specs.Folder.{OnLoadFailed, TellsTaken, TellsContent, OnSaveFailed, OnSaveMemory};
ghost use Rattle.own_io.specs.MemoryFolder.{content_of, fails_next, counted, taken_by};

use crate::folder::{Folder, LoadError, SaveError};
use crate::plan::Plan;
use own_tree::{Bytes, Row};
use std::alloc::{AllocError, Global};
use std::marker::Model;

/// A named content.
#[derive(Debug, Drop)]
pub struct File {
    name: Bytes,
    content: Bytes,
}

/// A folder over memory, some of whose calls of `load` and `save` fail.
#[derive(Debug, Drop)]
pub struct MemoryFolder {
    alloc: Global,
    files: Vec<File>,
    plan: Plan,
    taken: usize,
}

impl Model for MemoryFolder {
    ghost use Rattle.own_io.specs.MemoryFolder.{Shelf};

    ghost Value = { Shelf };

    ghost view = { λ folder. record {
      files = folder.files.items;
      failing = folder.plan.failing;
      calls = folder.plan.calls;
      faults = folder.plan.faults;
      taken = folder.taken;
    } };
}

/// The place of the first file of this name.
fn place_of(files: &[File], name: &[u8]) -> Option<usize>
    ensures { result ≡ position (λ file. bytes_eq file.name name.now) files.now }
{
    files.iter().position(|file| file.name.as_slice() == name)
}

/// The content of a name.
fn content_in<'a>(files: &'a [File], name: &[u8]) -> Option<&'a [u8]>
    ensures { option_map (λ content. content.now) result ≡ content_of files.now name.now }
{
    match place_of(files, name) {
        Some(place) => Some(files[place].content.as_slice()),
        None => None,
    }
}

/// Makes the bytes the content of a name, or leaves the files as they were.
fn put_file(
    alloc: Global,
    files: &mut Vec<File>,
    name: &[u8],
    bytes: &[u8],
) -> Result<(), AllocError>
    ensures ok { OnOk result (content_of files.new.items name.now ≡ Some bytes.now) }
    ensures others { (other : List ℕ) → other ≢ name.now → content_of files.new.items other ≡ content_of files.old.items other }
    ensures err { OnErr result (files.new.items ≡ files.old.items) }
{
    let content = Bytes::from_slice(alloc, bytes)?;
    match place_of(files, name) {
        Some(place) => files[place].content = content,
        None => {
            let name = Bytes::from_slice(alloc, name)?;
            files.push(File { name, content })?;
        }
    }
    Ok(())
}

impl MemoryFolder {
    /// A folder without names. Its calls of `load` and `save` are counted together from 1, and those in
    /// `failing` fail and change nothing.
    pub fn new(alloc: Global, failing: Row<u64>) -> MemoryFolder
        ensures { result ≡ record { files = []; failing = failing; calls = 0; faults = 0; taken = 0 } }
    {
        MemoryFolder {
            alloc,
            files: Vec::new(alloc),
            plan: Plan::new(failing),
            taken: 0,
        }
    }

    /// Makes the bytes the whole content of a name. This call is not counted, and fails for want of
    /// memory alone.
    pub fn put(&mut self, name: &str, bytes: &[u8]) -> Result<(), AllocError>
        ensures ok { OnOk result (content_of self.new.files name.now ≡ Some bytes.now) }
        ensures others { (other : List ℕ) → other ≢ name.now → content_of self.new.files other ≡ content_of self.old.files other }
        ensures rest { self.new ≡ record self.old { files = self.new.files } }
        ensures err { OnErr result (self.new ≡ self.old) }
    {
        put_file(self.alloc, &mut self.files, name.as_bytes(), bytes)
    }

    /// The content of a name, and `None` where the name is not there.
    pub fn held(&self, name: &str) -> Option<&[u8]>
        ensures { option_map (λ content. content.now) result ≡ content_of self.now.files name.now }
    {
        content_in(&self.files, name.as_bytes())
    }
}

impl Folder for MemoryFolder {
    ghost tells = { λ _. true };

    ghost held = { λ folder name. content_of folder.files name };

    ghost faults = { λ folder. folder.faults };

    ghost taken = { λ folder. folder.taken };

    /// Takes no more than `most + 1` bytes of a longer content.
    fn load(&mut self, name: &str, most: usize) -> Result<Bytes, LoadError>
        ensures count { self.old.faults ≤ self.new.faults }
        ensures failed { OnLoadFailed result
            (HasRisen self.old.faults self.new.faults
            ⊎ ((content_of self.old.files name.now ≡ None) × (self.new.faults ≡ self.old.faults))) }
        ensures taken_is { TellsTaken result most self.new.taken }
        ensures content { TellsContent result most (content_of self.old.files name.now) }
        ensures held_stays { (other : List ℕ) → content_of self.new.files other ≡ content_of self.old.files other }

        // Which calls fail, and all that a call leaves.
        ensures listed { IsTrue (fails_next self.old) → result ≡ Err LoadError.Failed }
        ensures missing { OnLoadFailed result
            (IsTrue (fails_next self.old) ⊎ (content_of self.old.files name.now ≡ None)) }
        ensures bounded { self.new.taken ≤ most + 1 }
        ensures after { self.new ≡ record (counted self.old) { taken = taken_by result } }
    {
        self.taken = 0;
        if self.plan.next_fails() {
            self.plan.note_fault();
            return Err(LoadError::Failed);
        }
        let Some(content) = content_in(&self.files, name.as_bytes()) else {
            return Err(LoadError::Failed);
        };
        if content.len() > most {
            self.taken = most + 1;
            return Err(LoadError::TooLong { taken: most + 1 });
        }
        let taken = content.len();
        match Bytes::from_slice(self.alloc, content) {
            Ok(copy) => {
                self.taken = taken;
                Ok(copy)
            }
            Err(_) => Err(LoadError::Memory),
        }
    }

    fn save(&mut self, name: &str, bytes: &[u8]) -> Result<(), SaveError>
        ensures count { self.old.faults ≤ self.new.faults }
        ensures failed { OnSaveFailed result (HasRisen self.old.faults self.new.faults) }
        ensures content { OnOk result (content_of self.new.files name.now ≡ Some bytes.now) }
        ensures others { (other : List ℕ) → other ≢ name.now → content_of self.new.files other ≡ content_of self.old.files other }
        ensures memory { OnSaveMemory result ((other : List ℕ) → content_of self.new.files other ≡ content_of self.old.files other) }
        ensures taken_stays { self.new.taken ≡ self.old.taken }

        // Which calls fail, and all that a call leaves.
        ensures listed { IsTrue (fails_next self.old) → result ≡ Err SaveError.Failed }
        ensures unchanged { OnErr result (self.new.files ≡ self.old.files) }
        ensures after { self.new ≡ record (counted self.old) { files = self.new.files } }
    {
        if self.plan.next_fails() {
            self.plan.note_fault();
            return Err(SaveError::Failed);
        }
        match put_file(self.alloc, &mut self.files, name.as_bytes(), bytes) {
            Ok(()) => Ok(()),
            Err(_) => Err(SaveError::Memory),
        }
    }
}
