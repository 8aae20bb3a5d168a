ghost use Rattle.std.specs.Prelude.{◌≡◌, ◌+◌, ◌≤◌, false, None};
ghost use Rattle.own_io.specs.Outside.{cut};
ghost use Rattle.own_io.specs.Folder.{TellsTaken};

use crate::folder::{Folder, LoadError, SaveError};
use own_tree::Bytes;
use std::alloc::Global;
use std::fs;
use std::io::Read;
use std::rt::Files;

/// The bytes that one read asks for at most.
const PIECE: usize = 4096;

/// The files of the machine, by path. It tells no content, and counts each error as a fault.
#[derive(Drop)]
pub struct DiskFolder<R> {
    rt: R,
    alloc: Global,
    taken: usize,
    faults: u64,
}

impl<R: Files> DiskFolder<R> {
    pub fn new(rt: R, alloc: Global) -> DiskFolder<R>
        ensures faults { ⟦<DiskFolder<R> as Folder>⟧.faults result ≡ 0 }
        ensures taken { ⟦<DiskFolder<R> as Folder>⟧.taken result ≡ 0 }
    {
        DiskFolder {
            rt,
            alloc,
            taken: 0,
            faults: 0,
        }
    }

    fn note_fault(&mut self)
        ensures after { self.new ≡ record self.old { faults = cut (self.old.faults + 1) } }
        ensures count { self.old.faults ≤ self.new.faults }
    {
        self.faults = self.faults.saturating_add(1);
    }
}

/// How many bytes a reader gave, and what they are. At most `most + 1` bytes are asked for in all.
fn read_whole<F: Read>(
    alloc: Global,
    file: &mut F,
    most: usize,
) -> (usize, Result<Bytes, LoadError>)
    ensures tells { TellsTaken result.1 most result.0 }
    ensures bounded { result.0 ≤ most + 1 }
{
    let mut bytes = Vec::new(alloc);
    let mut piece = [0; PIECE];
    for _ in 0..u64::MAX {
        let left = most - bytes.len();
        let asked = left.min(PIECE - 1) + 1;
        let Ok(got) = file.read(&mut piece[..asked]) else {
            return (bytes.len(), Err(LoadError::Failed));
        };
        if got == 0 {
            return (bytes.len(), Ok(Bytes::from_vec(bytes)));
        }
        if got > left {
            let taken = bytes.len() + got;
            return (taken, Err(LoadError::TooLong { taken }));
        }
        if bytes.extend_from_slice(&piece[..got]).is_err() {
            return (bytes.len(), Err(LoadError::Memory));
        }
    }
    (bytes.len(), Err(LoadError::Failed))
}

impl<R: Files> Folder for DiskFolder<R> {
    ghost tells = { λ _. false };

    ghost held = { λ _ _. None };

    ghost faults = { λ folder. folder.faults };

    ghost taken = { λ folder. folder.taken };

    fn load(&mut self, name: &str, most: usize) -> Result<Bytes, LoadError> {
        self.taken = 0;
        let Ok(mut file) = fs::open(&self.rt, name) else {
            self.note_fault();
            return Err(LoadError::Failed);
        };
        let (taken, answer) = read_whole(self.alloc, &mut file, most);
        self.taken = taken;
        if let Err(LoadError::Failed) = answer {
            self.note_fault();
        }
        answer
    }

    fn save(&mut self, name: &str, bytes: &[u8]) -> Result<(), SaveError> {
        match fs::write(&self.rt, name, bytes) {
            Ok(()) => Ok(()),
            Err(_) => {
                self.note_fault();
                Err(SaveError::Failed)
            }
        }
    }
}
