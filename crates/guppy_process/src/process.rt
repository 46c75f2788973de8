//! What a process is given, and how it ends: its arguments, its status, and a sink for its fault.
ghost use Rattle.std.specs.Prelude.{◌≡◌, ◌⊎◌, IfSome, IfErr, true};
ghost use Rattle.std.specs.Io.KnownBytes.{Appends};
ghost use Rattle.guppy_data.specs.declared.texts.error.Error.TheVariants.{OutOfMemory};
ghost use Rattle.guppy_process.specs.Cause.{library, bad_arguments};
ghost use Rattle.guppy_process.specs.Process.{EndsIn, fault_line};

use crate::device::Sink;
use crate::fault::{Fault, ProgramFault, want_of_memory};
use crate::transfer::write_all;
use std::env::{self, Env};
use std::fmt::{self, Write};
use std::io;

fn read_arguments<R: Env + AllocGlobal>(rt: &R) -> io::Result<Vec<String>> {
    let mut args = Vec::new(rt.alloc());
    for arg in env::args(rt)?.skip(1) {
        args.push(arg)?;
    }
    Ok(args)
}

/// The arguments that the process was given, without the program's own name. Takes memory for them.
///
/// Where one is not UTF-8, they are blamed, since it is part of no command.
pub fn arguments<R: Env + AllocGlobal, F: ProgramFault>(rt: &R) -> Result<Vec<String>, F>
    ensures err { IfErr result
        (λ fault. (F.cause fault ≡ library OutOfMemory) ⊎ (F.cause fault ≡ bad_arguments)) }
{
    match read_arguments(rt) {
        Ok(args) => Ok(args),
        Err(error) if error.kind() == io::ErrorKind::OutOfMemory => Err(want_of_memory()),
        Err(_) => Err(F::of(Fault::BadArguments)),
    }
}

/// How a process ends.
#[derive(Clone, Copy, Debug, PartialEq, Eq)]
pub struct Ending {
    /// The status: 0 exactly where the answer was written, and else the fault's.
    pub status: u8,
    /// Whether the line that tells the fault was written whole, where there is one.
    pub is_told: bool,
}

// A sink that text is formatted into.
#[derive(Drop)]
struct Text<'e, E> {
    sink: &'e mut E,
}

impl<E: Sink> fmt::Write for Text<'_, E> {
    ghost use Rattle.std.specs.Prelude.{◌≡◌};
    ghost use Rattle.std.specs.Io.KnownBytes.{Appends};

    ghost write_str_gives = { λ s text t. (t.sink.ghost_name ≡ s.sink.ghost_name)
        × Appends (E.written s.sink.now) (E.written t.sink.now) text };

    fn write_str(&mut self, text: &str) -> fmt::Result {
        match write_all(self.sink, text.as_bytes()) {
            Ok(()) => Ok(()),
            Err(_) => Err(fmt::Error),
        }
    }
}

// Tells the fault in one line, and answers whether it was written whole.
fn tell<F: ProgramFault, E: Sink>(fault: &F, errors: &mut E) -> bool
    ensures { IfSome (F.output fault.now) (λ text. result ≡ true
        → Appends (E.written errors.old) (E.written errors.new) (fault_line text)) }
{
    let mut lines = Text { sink: errors };
    let told = writeln!(lines, "error: {fault}");
    told.is_ok()
}

/// Tells the fault, where there is one, and says how the process ends. Takes no memory.
pub fn report<F: ProgramFault, E: Sink>(outcome: &Result<(), F>, errors: &mut E) -> Ending
    ensures { EndsIn F.ending F.output E.written errors.old errors.new outcome.now result }
{
    match outcome {
        Ok(()) => Ending {
            status: 0,
            is_told: true,
        },
        Err(fault) => Ending {
            status: fault.ending(),
            is_told: tell(fault, errors),
        },
    }
}
