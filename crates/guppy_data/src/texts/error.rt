ghost use Rattle.std.specs.Prelude.{◌≡◌};

use crate::texts::fault::{ConstructFault, VerifyFault};
use crate::texts::package_id::PackageId;
use crate::texts::path_buf::Utf8PathBuf;
use std::alloc::{AllocError, AllocFailed};
use std::fmt;

/// Why a call on a package graph has no answer.
#[derive(Debug, Drop)]
pub enum Error {
    /// The records break a rule, so that they make no package graph.
    PackageGraphConstructError(ConstructFault),
    /// The ID is no package's.
    UnknownPackageId(PackageId),
    /// The package has no such feature. Kept for the layer above.
    UnknownFeatureId(PackageId, String),
    /// The path is no workspace member's.
    UnknownWorkspacePath(Utf8PathBuf),
    /// The name is no workspace member's.
    UnknownWorkspaceName(String),
    /// The package graph is no verified graph.
    PackageGraphInternalError(VerifyFault),
    /// The feature graph is at fault. Kept for the layer above.
    FeatureGraphInternalError(String),
    /// A request for memory was refused during the call.
    OutOfMemory,
}

impl fmt::Display for Error {
    ghost use Rattle.guppy_data.specs.Texts.{error_text};
    ghost use Rattle.std.specs.Prelude.{Some};

    ghost output = { λ e. Some (error_text e) };

    fn fmt<W: fmt::Write>(&self, f: &mut fmt::Formatter<W>) -> fmt::Result {
        match self {
            Error::PackageGraphConstructError(fault) => {
                write!(f, "failed to construct package graph: {fault}")
            }
            Error::UnknownPackageId(id) => write!(f, "unknown package ID: {id}"),
            Error::UnknownFeatureId(id, feature) => {
                write!(f, "unknown feature ID: '{id}/{feature}'")
            }
            Error::UnknownWorkspacePath(path) => write!(f, "unknown workspace path: {path}"),
            Error::UnknownWorkspaceName(name) => {
                write!(f, "unknown workspace package name: {name}")
            }
            Error::PackageGraphInternalError(fault) => {
                write!(f, "internal error in package graph: {fault}")
            }
            Error::FeatureGraphInternalError(text) => {
                write!(f, "internal error in feature graph: {text}")
            }
            Error::OutOfMemory => write!(f, "out of memory"),
        }
    }
}

impl std::error::Error for Error {}

impl From<ConstructFault> for Error {
    ghost use Rattle.guppy_data.specs.declared.texts.error.Error.TheVariants.{PackageGraphConstructError};

    ghost from_gives = { λ f e. e ≡ PackageGraphConstructError f };

    fn from(fault: ConstructFault) -> Self {
        Error::PackageGraphConstructError(fault)
    }
}

impl From<VerifyFault> for Error {
    ghost use Rattle.guppy_data.specs.declared.texts.error.Error.TheVariants.{PackageGraphInternalError};

    ghost from_gives = { λ f e. e ≡ PackageGraphInternalError f };

    fn from(fault: VerifyFault) -> Self {
        Error::PackageGraphInternalError(fault)
    }
}

impl From<AllocError> for Error {
    ghost use Rattle.guppy_data.specs.declared.texts.error.Error.TheVariants.{OutOfMemory};

    ghost from_gives = { λ _ e. e ≡ OutOfMemory };

    fn from(_error: AllocError) -> Self {
        Error::OutOfMemory
    }
}

impl<T: Drop> From<AllocFailed<T>> for Error {
    ghost use Rattle.guppy_data.specs.declared.texts.error.Error.TheVariants.{OutOfMemory};

    ghost from_gives = { λ _ e. e ≡ OutOfMemory };

    fn from(_error: AllocFailed<T>) -> Self {
        Error::OutOfMemory
    }
}
