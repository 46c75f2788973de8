//! Files, a source and a sink in memory, and a reader and a writer of std, which fail when they are told to.
ghost use Rattle.std.specs.Prelude.{◌≡◌, false, [], Some};

use guppy_program::{DeviceFault, FileFault, Files, Sink, Source};
use std::alloc::Global;
use std::io::{self, ErrorKind, Read, Write};

/// Files by their names, each with what it has.
#[derive(Clone, Copy, Debug)]
pub struct Shelf(pub &'static [(&'static str, &'static [u8])]);

impl Files for Shelf {
    ghost has = { λ shelf name bytes. Unit {0} };

    fn read(&self, alloc: Global, name: &str) -> Result<Vec<u8>, FileFault> {
        let Some((_, bytes)) = self.0.iter().find(|file| file.0 == name) else {
            return Err(FileFault::Unreadable);
        };
        match bytes.to_vec(alloc) {
            Ok(bytes) => Ok(bytes),
            Err(_) => Err(FileFault::OutOfMemory),
        }
    }
}

/// A source of given bytes, a piece at a time.
#[derive(Drop)]
pub struct Feed<'a> {
    bytes: &'a [u8],
    piece: usize,
    reads: usize,
    failed: bool,
}

impl<'a> Feed<'a> {
    /// The source of these bytes, of which so many reads succeed.
    pub fn new(bytes: &'a [u8], piece: usize, reads: usize) -> Self
        ensures left { ⟦<Feed<'a> as Source>⟧.left result ≡ Some bytes.now }
        ensures works { ⟦<Feed<'a> as Source>⟧.has_failed result ≡ false }
    {
        Feed {
            bytes,
            piece,
            reads,
            failed: false,
        }
    }
}

impl Source for Feed<'_> {
    ghost left = { λ s. Some s.bytes.now };

    ghost has_failed = { λ s. s.failed };

    fn read(&mut self, buf: &mut [u8]) -> Result<usize, DeviceFault> {
        if self.reads == 0 {
            self.failed = true;
            return Err(DeviceFault);
        }
        self.reads -= 1;
        let count = self.piece.max(1).min(buf.len()).min(self.bytes.len());
        let (front, rest) = self.bytes.split_at(count);
        buf[..count].copy_from_slice(front);
        self.bytes = rest;
        Ok(count)
    }

    fn failed(&self) -> bool {
        self.failed
    }
}

/// A sink that keeps what is written, and takes a piece at a time.
#[derive(Drop)]
pub struct Paper {
    bytes: Vec<u8>,
    piece: usize,
    writes: usize,
    failed: bool,
}

impl Paper {
    /// An empty sink, of which so many writes succeed.
    pub fn new(alloc: Global, piece: usize, writes: usize) -> Self
        ensures written { ⟦<Paper as Sink>⟧.written result ≡ Some [] }
        ensures works { ⟦<Paper as Sink>⟧.has_failed result ≡ false }
    {
        Paper {
            bytes: Vec::new(alloc),
            piece,
            writes,
            failed: false,
        }
    }

    /// What was written.
    pub fn bytes(&self) -> &[u8]
        ensures { ⟦<Paper as Sink>⟧.written self.now ≡ Some result.now }
    {
        self.bytes.as_slice()
    }
}

impl Sink for Paper {
    ghost written = { λ s. Some s.bytes.items };

    ghost has_failed = { λ s. s.failed };

    fn write(&mut self, bytes: &[u8]) -> Result<usize, DeviceFault> {
        let count = self.piece.max(1).min(bytes.len());
        if self.writes == 0 || self.bytes.extend_from_slice(&bytes[..count]).is_err() {
            self.failed = true;
            return Err(DeviceFault);
        }
        self.writes -= 1;
        Ok(count)
    }

    fn failed(&self) -> bool {
        self.failed
    }
}

/// A reader of std that gives its bytes one by one. One of its reads fails, those after it don't.
#[derive(Drop)]
pub struct Stumbling<'a> {
    bytes: &'a [u8],
    reads: usize,
}

impl<'a> Stumbling<'a> {
    /// The reader of these bytes that fails after so many reads.
    pub fn new(bytes: &'a [u8], reads: usize) -> Self {
        Stumbling { bytes, reads }
    }
}

impl Read for Stumbling<'_> {
    fn read(&mut self, buf: &mut [u8]) -> io::Result<usize> {
        let is_bad = self.reads == 0;
        self.reads = self.reads.wrapping_sub(1);
        if is_bad {
            return Err(ErrorKind::Other.into());
        }
        match (self.bytes.split_first(), buf.first_mut()) {
            (Some((byte, rest)), Some(place)) => {
                *place = *byte;
                self.bytes = rest;
                Ok(1)
            }
            _ => Ok(0),
        }
    }
}

/// A writer of std that takes its bytes one by one, and none once it is full.
#[derive(Drop)]
pub struct Full<'a> {
    room: &'a mut [u8],
    /// How many bytes it took.
    pub count: usize,
}

impl<'a> Full<'a> {
    /// A writer to this room.
    pub fn new(room: &'a mut [u8]) -> Self {
        Full { room, count: 0 }
    }
}

impl Write for Full<'_> {
    fn write(&mut self, buf: &[u8]) -> io::Result<usize> {
        match (self.room.get_mut(self.count), buf.first()) {
            (Some(place), Some(byte)) => {
                *place = *byte;
                self.count = self.count.wrapping_add(1);
                Ok(1)
            }
            _ => Ok(0),
        }
    }

    fn flush(&mut self) -> io::Result<()> {
        Ok(())
    }
}
