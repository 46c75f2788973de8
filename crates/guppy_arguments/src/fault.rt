//! Why there is no answer.
ghost use Rattle.std.specs.Prelude.{◌≡◌};
ghost use Rattle.guppy_data.specs.declared.texts.error.Error.TheVariants.{OutOfMemory};
ghost use Rattle.guppy_process.specs.declared.fault.Fault.TheVariants.{Library};
ghost use Rattle.guppy_arguments.specs.declared.fault.CargoFault.TheVariants.{Program};

use crate::told::ArgumentsFault;
use guppy_data::{Error, PackageId};
use guppy_metadata::MetadataFault;
use guppy_process::{Fault, ProgramFault};
use std::alloc::{AllocError, AllocFailed};
use std::fmt;

/// Why the program gives no answer.
#[derive(Debug, Drop)]
pub enum CargoFault {
    /// One that every program has.
    Program(Fault),
    /// The word may mean several packages: those that the choices name, parted by ` or `.
    Ambiguous {
        /// The word, as it was given.
        word: String,
        /// What to give in its place.
        choices: String,
    },
    /// The word means no package, but the name of one is near it.
    Unknown {
        /// The word, as it was given.
        word: String,
        /// The name of a package.
        nearest: String,
    },
    /// `verify` refuses the graph for a cycle over links that aren't dev-only.
    Cycle {
        /// The packages of the cycle.
        ids: Vec<PackageId>,
        /// What they are called, each with ` -> ` behind it, and the first one again.
        round: String,
    },
    /// The arguments ask nothing.
    Arguments(ArgumentsFault),
    /// The input is not what `cargo metadata` prints.
    Metadata(MetadataFault),
    /// The input is no UTF-8.
    NoText,
}

impl fmt::Display for CargoFault {
    ghost use Rattle.std.specs.Prelude.{Some};
    ghost use Rattle.guppy_arguments.specs.Fault.{fault_text};

    ghost output = { λ fault. Some (fault_text fault) };

    fn fmt<W: fmt::Write>(&self, f: &mut fmt::Formatter<W>) -> fmt::Result {
        match self {
            CargoFault::Program(Fault::Library(error)) => write!(f, "{error}"),
            CargoFault::Program(Fault::BadArguments) => f.write_str("the arguments are no UTF-8"),
            CargoFault::Program(Fault::NoWalk { from, to }) => {
                write!(f, "no links lead from {from} to {to}")
            }
            CargoFault::Program(Fault::Unpublishable { member, needed }) => write!(
                f,
                "{member} can't be published: it needs {needed}, which isn't publishable"
            ),
            CargoFault::Program(Fault::Build(fault)) => write!(f, "{fault}"),
            CargoFault::Program(Fault::Before(text)) => write!(f, "the state before: {text}"),
            CargoFault::Ambiguous { word, choices } => {
                write!(f, "ambiguous package {word}: give {choices}")
            }
            CargoFault::Unknown { word, nearest } => {
                write!(f, "unknown package {word}: the nearest is {nearest}")
            }
            CargoFault::Cycle { round, .. } => {
                write!(f, "cycle over links that are not dev-only: {round}")
            }
            CargoFault::Arguments(fault) => write!(f, "{fault}"),
            CargoFault::Metadata(fault) => write!(f, "{fault}"),
            CargoFault::NoText => f.write_str("the input is no UTF-8"),
            CargoFault::Program(Fault::InputFailed) => f.write_str("input failed"),
            CargoFault::Program(Fault::OutputFailed) => f.write_str("output failed"),
        }
    }
}

impl std::error::Error for CargoFault {}

impl ProgramFault for CargoFault {
    ghost use Rattle.guppy_arguments.specs.Fault.{cause_of, status_of};

    ghost cause = { cause_of };

    ghost ending = { status_of };

    fn of(fault: Fault) -> Self {
        CargoFault::Program(fault)
    }

    fn ending(&self) -> u8 {
        match self {
            CargoFault::Program(
                Fault::Library(_)
                | Fault::NoWalk { .. }
                | Fault::Unpublishable { .. }
                | Fault::Build(_)
                | Fault::Before(_),
            ) => 1,
            CargoFault::Program(_) | CargoFault::Arguments(_) => 2,
            _ => 1,
        }
    }
}

impl From<MetadataFault> for CargoFault {
    ghost use Rattle.guppy_arguments.specs.Fault.{of_metadata};

    ghost from_gives = { λ fault given. given ≡ of_metadata fault };

    fn from(fault: MetadataFault) -> Self {
        match fault {
            MetadataFault::OutOfMemory => CargoFault::Program(Fault::Library(Error::OutOfMemory)),
            fault => CargoFault::Metadata(fault),
        }
    }
}

impl From<Error> for CargoFault {
    ghost from_gives = { λ error fault. fault ≡ Program (Library error) };

    fn from(error: Error) -> Self {
        CargoFault::Program(Fault::Library(error))
    }
}

impl From<AllocError> for CargoFault {
    ghost from_gives = { λ _ fault. fault ≡ Program (Library OutOfMemory) };

    fn from(_error: AllocError) -> Self {
        CargoFault::Program(Fault::Library(Error::OutOfMemory))
    }
}

impl<T: Drop> From<AllocFailed<T>> for CargoFault {
    ghost from_gives = { λ _ fault. fault ≡ Program (Library OutOfMemory) };

    fn from(_error: AllocFailed<T>) -> Self {
        CargoFault::Program(Fault::Library(Error::OutOfMemory))
    }
}
