//! The files that arguments name.
ghost use Rattle.std.specs.Prelude.{ℕ, List, IfOk};

use std::alloc::Global;

/// Why a file could not be read.
#[derive(Clone, Copy, Debug, PartialEq, Eq)]
pub enum FileFault {
    /// There was no memory for what it has.
    OutOfMemory,
    /// It isn't there, or isn't to be read.
    Unreadable,
}

/// Where files are read.
pub trait Files {
    /// The file of this name has these bytes, as far as that is known.
    ghost has: { Self → List ℕ → List ℕ → Type 0 };

    /// What the file has. Takes memory for it.
    fn read(&self, alloc: Global, name: &str) -> Result<Vec<u8>, FileFault>
        ensures { IfOk result (λ bytes. has self.now name.now bytes.items) };
}

/// No files: none can be read.
#[derive(Clone, Copy, Debug)]
pub struct NoFiles;

impl Files for NoFiles {
    ghost has = { λ files name bytes. ⊥ };

    fn read(&self, _alloc: Global, _name: &str) -> Result<Vec<u8>, FileFault> {
        Err(FileFault::Unreadable)
    }
}
