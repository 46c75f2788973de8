//! Why lines don't say what is set for a platform.
ghost use Rattle.std.specs.Prelude.{◌≡◌};

use std::alloc::{AllocError, AllocFailed};
use std::error::Error;
use std::fmt;

/// Why there is no [`Platform`](crate::Platform).
#[derive(Clone, Copy, Debug, PartialEq, Eq, Hash)]
pub enum PlatformFault {
    /// The line behind so many others is neither a name nor `key="value"`.
    NotASetting(usize),
    /// Memory ran out.
    OutOfMemory,
}

impl fmt::Display for PlatformFault {
    ghost use Rattle.std.specs.Prelude.{Some};
    ghost use Rattle.guppy_target.specs.Fault.{fault_text};

    ghost output = { λ fault. Some (fault_text fault) };

    fn fmt<W: fmt::Write>(&self, f: &mut fmt::Formatter<W>) -> fmt::Result {
        match self {
            PlatformFault::NotASetting(before) => {
                let number = *before as u128 + 1;
                write!(
                    f,
                    "line {number} is neither a name nor key=\"value\": give the lines that `rustc --print cfg` prints"
                )
            }
            PlatformFault::OutOfMemory => f.write_str("out of memory"),
        }
    }
}

impl Error for PlatformFault {}

impl From<AllocError> for PlatformFault {
    ghost use Rattle.guppy_target.specs.declared.fault.PlatformFault.TheVariants.{OutOfMemory};

    ghost from_gives = { λ _ e. e ≡ OutOfMemory };

    fn from(_error: AllocError) -> Self {
        PlatformFault::OutOfMemory
    }
}

impl<T: Drop> From<AllocFailed<T>> for PlatformFault {
    ghost use Rattle.guppy_target.specs.declared.fault.PlatformFault.TheVariants.{OutOfMemory};

    ghost from_gives = { λ _ e. e ≡ OutOfMemory };

    fn from(_error: AllocFailed<T>) -> Self {
        PlatformFault::OutOfMemory
    }
}
