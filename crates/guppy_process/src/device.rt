//! What the program reads from and writes to.
ghost use Rattle.std.specs.Prelude.{◌≡◌, ◌<◌, ◌≤◌, ℕ, Bool, true, false, List, Option, length, IfOk};
ghost use Rattle.std.specs.Io.KnownBytes.{ReadConsumes, WriteAppends};
ghost use Rattle.guppy_process.specs.Device.{MarksFault};

use std::io::{Read, Write};

/// A read or a write failed.
#[derive(Clone, Copy, Debug, PartialEq, Eq)]
pub struct DeviceFault;

/// What bytes are read from.
pub trait Source {
    /// The bytes that are left to read, where they are known.
    ghost left: { Self → Option (List ℕ) };

    /// Whether a read has failed.
    ghost has_failed: { Self → Bool };

    /// Reads some bytes to the front of `buf`, and tells how many. None, where `buf` has room, says that
    /// the input has ended.
    fn read(&mut self, buf: &mut [u8]) -> Result<usize, DeviceFault>
        ensures count { IfOk result (λ n. n ≤ length buf.new) }
        ensures bytes { ReadConsumes (left self.old) (left self.new) result buf.new }
        ensures fault { MarksFault (has_failed self.old) (has_failed self.new) result };

    /// Whether a read has failed. Takes constant time.
    fn failed(&self) -> bool
        ensures { result ≡ has_failed self.now };
}

/// What bytes are written to.
pub trait Sink {
    /// The bytes that were written so far, where they are known.
    ghost written: { Self → Option (List ℕ) };

    /// Whether a write has failed.
    ghost has_failed: { Self → Bool };

    /// Takes some bytes from the front of `bytes`, at least one if there is one, and tells how many. A
    /// write that fails takes none.
    fn write(&mut self, bytes: &[u8]) -> Result<usize, DeviceFault>
        ensures count { IfOk result (λ n. n ≤ length bytes.now) }
        ensures moves { IfOk result (λ n. 0 < length bytes.now → 0 < n) }
        ensures bytes { WriteAppends (written self.old) (written self.new) result bytes.now }
        ensures fault { MarksFault (has_failed self.old) (has_failed self.new) result };

    /// Whether a write has failed. Takes constant time.
    fn failed(&self) -> bool
        ensures { result ≡ has_failed self.now };
}

/// A reader of std as a source, whose bytes are those that the reader tells. Each error is a failure.
#[derive(Drop)]
pub struct IoSource<R: Read> {
    reader: R,
    failed: bool,
}

impl<R: Read> IoSource<R> {
    /// The source that reads from `reader`, and has not failed.
    pub fn new(reader: R) -> Self
        ensures left { ⟦<IoSource<R> as Source>⟧.left result ≡ R.remaining reader }
        ensures works { ⟦<IoSource<R> as Source>⟧.has_failed result ≡ false }
    {
        IoSource {
            reader,
            failed: false,
        }
    }
}

impl<R: Read> Source for IoSource<R> {
    ghost left = { λ s. R.remaining s.reader };

    ghost has_failed = { λ s. s.failed };

    fn read(&mut self, buf: &mut [u8]) -> Result<usize, DeviceFault> {
        match self.reader.read(buf) {
            Ok(n) => Ok(n),
            Err(_) => {
                self.failed = true;
                Err(DeviceFault)
            }
        }
    }

    fn failed(&self) -> bool {
        self.failed
    }
}

/// A writer of std as a sink, whose bytes are those that the writer tells. Each error is a failure, and so
/// is a write that takes none of several bytes.
#[derive(Drop)]
pub struct IoSink<W: Write> {
    writer: W,
    failed: bool,
}

impl<W: Write> IoSink<W> {
    /// The sink that writes to `writer`, and has not failed.
    pub fn new(writer: W) -> Self
        ensures written { ⟦<IoSink<W> as Sink>⟧.written result ≡ W.contents writer }
        ensures works { ⟦<IoSink<W> as Sink>⟧.has_failed result ≡ false }
    {
        IoSink {
            writer,
            failed: false,
        }
    }
}

impl<W: Write> Sink for IoSink<W> {
    ghost written = { λ s. W.contents s.writer };

    ghost has_failed = { λ s. s.failed };

    fn write(&mut self, bytes: &[u8]) -> Result<usize, DeviceFault> {
        match self.writer.write(bytes) {
            Ok(n) if n > 0 || bytes.is_empty() => Ok(n),
            _ => {
                self.failed = true;
                Err(DeviceFault)
            }
        }
    }

    fn failed(&self) -> bool {
        self.failed
    }
}
