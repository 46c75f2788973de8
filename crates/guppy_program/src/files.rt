//! The files of the system.

use guppy_command::{FileFault, Files};
use std::alloc::Global;
use std::{fs, io, rt};

/// The files of the system, of which nothing is known.
#[derive(Clone, Copy, Debug)]
pub struct IoFiles<'r, R>(pub &'r R);

impl<R: rt::Files + AllocGlobal> Files for IoFiles<'_, R> {
    ghost has = { λ files name bytes. Unit {0} };

    fn read(&self, _alloc: Global, name: &str) -> Result<Vec<u8>, FileFault> {
        match fs::read(self.0, name) {
            Ok(bytes) => Ok(bytes),
            Err(error) if error.kind() == io::ErrorKind::OutOfMemory => Err(FileFault::OutOfMemory),
            Err(_) => Err(FileFault::Unreadable),
        }
    }
}
