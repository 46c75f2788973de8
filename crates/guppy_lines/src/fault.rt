//! Why the program gives no answer.
ghost use Rattle.std.specs.Prelude.{◌≡◌, Some};
ghost use Rattle.guppy_data.specs.declared.texts.error.Error.TheVariants.{OutOfMemory};
ghost use Rattle.guppy_lines.specs.declared.fault.RunFault.TheVariants.{Library};
ghost use Rattle.guppy_lines.specs.RunFault.{cause_of, fault_text, status_of};

use guppy_data::Error;
use guppy_process::{BuildFault, Fault, ProgramFault};
use std::alloc::{AllocError, AllocFailed};
use std::fmt;

/// Why the program gives no answer.
#[derive(Debug, Drop)]
pub enum RunFault {
    /// The library refused the records or the command, or found no memory.
    Library(Error),
    /// The arguments are no command.
    BadArguments,
    /// No links lead from the package with the first ID to that with the second.
    NoWalk {
        /// The first ID.
        from: String,
        /// The second ID.
        to: String,
    },
    /// A member can be published by itself, but needs another one that can't. Lines say no such member.
    Unpublishable {
        /// The member's ID.
        member: String,
        /// The ID of the one that it needs.
        needed: String,
    },
    /// There is no answer on what Cargo builds.
    Build(BuildFault),
    /// The state before is none, and why. No command of lines asks for it.
    Before(String),
    /// This line is the first bad one, where all lines are counted from 1.
    BadLine(u64),
    /// The input could not be read.
    InputFailed,
    /// The output could not be written.
    OutputFailed,
}

impl RunFault {
    /// The status that the program ends with: 1 for a fault of the library, where no links lead from one package to
    /// another, where a member can't be published, and where there is no answer on what Cargo builds, else 2. Takes
    /// constant time.
    pub fn status(&self) -> u8
        ensures { result ≡ status_of self.now }
    {
        match self {
            RunFault::Library(_)
            | RunFault::NoWalk { .. }
            | RunFault::Unpublishable { .. }
            | RunFault::Build(_) => 1,
            _ => 2,
        }
    }
}

impl fmt::Display for RunFault {
    ghost output = { λ e. Some (fault_text e) };

    fn fmt<W: fmt::Write>(&self, f: &mut fmt::Formatter<W>) -> fmt::Result {
        match self {
            RunFault::Library(error) => write!(f, "{error}"),
            RunFault::BadArguments => write!(f, "bad arguments"),
            RunFault::NoWalk { from, to } => write!(f, "no links lead from {from} to {to}"),
            RunFault::Unpublishable { member, needed } => {
                write!(
                    f,
                    "{member} can't be published: it needs {needed}, which isn't publishable"
                )
            }
            RunFault::Build(fault) => write!(f, "{fault}"),
            RunFault::Before(text) => write!(f, "the state before: {text}"),
            RunFault::BadLine(number) => write!(f, "bad line {number}"),
            RunFault::InputFailed => write!(f, "input failed"),
            RunFault::OutputFailed => write!(f, "output failed"),
        }
    }
}

impl std::error::Error for RunFault {}

impl ProgramFault for RunFault {
    ghost cause = { cause_of };

    ghost ending = { status_of };

    fn of(fault: Fault) -> Self {
        match fault {
            Fault::Library(error) => RunFault::Library(error),
            Fault::BadArguments => RunFault::BadArguments,
            Fault::NoWalk { from, to } => RunFault::NoWalk { from, to },
            Fault::Unpublishable { member, needed } => RunFault::Unpublishable { member, needed },
            Fault::Build(fault) => RunFault::Build(fault),
            Fault::Before(text) => RunFault::Before(text),
            Fault::InputFailed => RunFault::InputFailed,
            Fault::OutputFailed => RunFault::OutputFailed,
        }
    }

    fn ending(&self) -> u8 {
        self.status()
    }
}

impl From<Error> for RunFault {
    ghost from_gives = { λ error fault. fault ≡ Library error };

    fn from(error: Error) -> Self {
        RunFault::Library(error)
    }
}

impl From<AllocError> for RunFault {
    ghost from_gives = { λ _ fault. fault ≡ Library OutOfMemory };

    fn from(_error: AllocError) -> Self {
        RunFault::Library(Error::OutOfMemory)
    }
}

impl<T: Drop> From<AllocFailed<T>> for RunFault {
    ghost from_gives = { λ _ fault. fault ≡ Library OutOfMemory };

    fn from(_error: AllocFailed<T>) -> Self {
        RunFault::Library(Error::OutOfMemory)
    }
}
