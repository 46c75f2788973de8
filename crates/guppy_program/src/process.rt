//! The program as a process runs it: its arguments, files, a source, a sink, and another sink for its fault.
ghost use Rattle.std.specs.Prelude.{◌≡◌, Result, Err, map, string_bytes, IfOk, IfErr, false};
ghost use Rattle.guppy_process.specs.Process.{EndsIn};
ghost use Rattle.guppy_program.specs.Run.{IsRun};

use crate::program::run_of;
use guppy_command::Files;
use guppy_print::Format;
use guppy_process::process::report;
use guppy_process::{Ending, Sink, Source};
use std::alloc::Global;

// The outcome of a run, where there are arguments.
fn outcome_of<F: Format, D: Files, R: Source, W: Sink>(
    alloc: Global,
    args: Result<Vec<String>, F::Fault>,
    files: &D,
    reader: &mut R,
    writer: &mut W,
) -> Result<(), F::Fault>
    requires input_works { R.has_failed reader.old ≡ false }
    requires output_works { W.has_failed writer.old ≡ false }
    ensures ran { IfOk args (λ list. IsRun F.format F.Fault.cause (D.has files.now) R.left R.has_failed
        W.written W.has_failed (map string_bytes list.items) reader.old reader.new writer.old
        writer.new result) }
    ensures no_arguments { IfErr args
        (λ fault. (reader.new ≡ reader.old) × (writer.new ≡ writer.old) × (result ≡ Err fault)) }
{
    match args {
        Ok(args) => run_of::<F, D, R, W>(alloc, &args, files, reader, writer),
        Err(fault) => Err(fault),
    }
}

/// Runs the program with [`crate::run_with`] on the arguments that a process was given, and tells its fault, if
/// one comes, on `errors`: `error: `, the fault's text and a newline. Where the arguments could not be had,
/// that fault is told, and nothing read or written.
///
/// Neither the reader nor the writer may have failed before. Takes no memory beside what `run_with` takes.
pub fn run_process<F: Format, D: Files, R: Source, W: Sink, E: Sink>(
    alloc: Global,
    args: Result<Vec<String>, F::Fault>,
    files: &D,
    reader: &mut R,
    writer: &mut W,
    errors: &mut E,
) -> Ending
    requires input_works { R.has_failed reader.old ≡ false }
    requires output_works { W.has_failed writer.old ≡ false }

    // What `run_with` says holds of an outcome, and the process ends as this outcome says.
    ensures ran { IfOk args (λ list. (outcome : Result (Unit {0}) F.Fault)
        × IsRun F.format F.Fault.cause (D.has files.now) R.left R.has_failed W.written
        W.has_failed (map string_bytes list.items) reader.old reader.new writer.old writer.new
        outcome
        × EndsIn F.Fault.ending F.Fault.output E.written errors.old errors.new outcome result) }

    // There are no arguments, so nothing was read or written.
    ensures no_arguments { IfErr args
        (λ fault. (reader.new ≡ reader.old) × (writer.new ≡ writer.old)
        × EndsIn {T = Unit {0}} F.Fault.ending F.Fault.output E.written errors.old errors.new
        (Err fault) result) }
{
    let outcome = outcome_of::<F, D, R, W>(alloc, args, files, reader, writer);
    report(&outcome, errors)
}
