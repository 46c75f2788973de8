//! Reading to the end, and writing all.
ghost use Rattle.std.specs.Prelude.{◌≡◌, ◌++◌, ℕ, List, false, IfOk, IfErr, OnOk};
ghost use Rattle.std.specs.Io.KnownBytes.{Consumes, Appends, IsAtEnd};
ghost use Rattle.guppy_process.specs.Device.{MarksFault};
ghost use Rattle.guppy_process.specs.Cause.{IsReadFault, caused, is_input_fault, is_output_fault, output_failed};

use crate::device::{DeviceFault, Sink, Source};
use crate::fault::{Fault, ProgramFault, want_of_memory};
use std::alloc::Global;

/// Reads all that is left. Takes memory for it, so an input that never ends comes to want of memory.
pub fn read_all<R: Source, F: ProgramFault>(alloc: Global, reader: &mut R) -> Result<Vec<u8>, F>
    requires works { R.has_failed reader.old ≡ false }
    ensures bytes { IfOk result (λ v. Consumes (R.left reader.old) (R.left reader.new) v.items) }
    ensures end { OnOk result (IsAtEnd (R.left reader.new)) }
    ensures failed { R.has_failed reader.new ≡ is_input_fault (caused F.cause result) }
    ensures err { IfErr result (λ fault. IsReadFault (F.cause fault)) }
{
    let mut bytes = Vec::new(alloc);
    let mut chunk = [0u8; 65536];
    'read: loop {
        let Ok(count) = reader.read(&mut chunk) else {
            return Err(F::of(Fault::InputFailed));
        };
        if count == 0 {
            bytes.shrink_to_fit();
            return Ok(bytes);
        }
        if bytes.extend_from_slice(&chunk[..count]).is_err() {
            return Err(want_of_memory());
        }
    }
}

/// Writes all the bytes, or a beginning of them where a write fails.
pub fn write_all<W: Sink>(writer: &mut W, bytes: &[u8]) -> Result<(), DeviceFault>
    ensures ok { OnOk result (Appends (W.written writer.old) (W.written writer.new) bytes.now) }
    ensures begun { (front rest : List ℕ) × (bytes.now ≡ front ++ rest)
        × Appends (W.written writer.old) (W.written writer.new) front }
    ensures failed { MarksFault (W.has_failed writer.old) (W.has_failed writer.new) result }
{
    let mut at = 0;
    while at < bytes.len() {
        at += writer.write(&bytes[at..])?;
    }
    Ok(())
}

/// Writes the text, or a beginning of it where a write fails.
pub fn write_text<W: Sink, F: ProgramFault>(writer: &mut W, text: &str) -> Result<(), F>
    requires { W.has_failed writer.old ≡ false }
    ensures ok { OnOk result (Appends (W.written writer.old) (W.written writer.new) text.now) }
    ensures begun { (front rest : List ℕ) × (text.now ≡ front ++ rest)
        × Appends (W.written writer.old) (W.written writer.new) front }
    ensures err { IfErr result (λ fault. F.cause fault ≡ output_failed) }
    ensures failed { W.has_failed writer.new ≡ is_output_fault (caused F.cause result) }
{
    match write_all(writer, text.as_bytes()) {
        Ok(()) => Ok(()),
        Err(_) => Err(F::of(Fault::OutputFailed)),
    }
}
