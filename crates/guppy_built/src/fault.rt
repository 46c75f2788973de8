//! Why there is no answer.
use guppy_closure::ClosureFault;
use guppy_data::PackageId;
use guppy_features::ChosenFault;
use std::alloc::{AllocError, AllocFailed};

/// Why there is no answer to a [`BuildQuestion`](crate::BuildQuestion).
#[derive(Clone, Copy, Debug, PartialEq, Eq)]
pub enum BuiltFault<'a> {
    /// The package that is named at this place among the chosen members is none.
    NoMember(usize),
    /// Cargo refuses the feature at this place: no chosen package has it.
    UnknownFeature(usize),
    /// The package has no feature of this name.
    LacksFeature,
    /// The package's feature is on nowhere.
    FeatureOff,
    /// An optional dependency is switched on for which the metadata resolve nothing: the first, by the position of its
    /// package and its place in that package's record.
    Unresolved {
        /// The package.
        package: &'a PackageId,
        /// The dependency's name.
        dependency: &'a str,
    },
    /// Memory is wanted.
    OutOfMemory,
}

impl From<AllocError> for BuiltFault<'_> {
    ghost use Rattle.std.specs.Prelude.{◌≡◌};
    ghost use Rattle.guppy_built.specs.declared.fault.BuiltFault.TheVariants.{OutOfMemory};

    ghost from_gives = { λ _ fault. fault ≡ OutOfMemory };

    fn from(_error: AllocError) -> Self {
        BuiltFault::OutOfMemory
    }
}

impl<T: Drop> From<AllocFailed<T>> for BuiltFault<'_> {
    ghost use Rattle.std.specs.Prelude.{◌≡◌};
    ghost use Rattle.guppy_built.specs.declared.fault.BuiltFault.TheVariants.{OutOfMemory};

    ghost from_gives = { λ _ fault. fault ≡ OutOfMemory };

    fn from(_error: AllocFailed<T>) -> Self {
        BuiltFault::OutOfMemory
    }
}

// More than 2^30 clauses would take more memory than there is.
impl From<ClosureFault> for BuiltFault<'_> {
    ghost use Rattle.std.specs.Prelude.{◌≡◌};
    ghost use Rattle.guppy_built.specs.declared.fault.BuiltFault.TheVariants.{OutOfMemory};

    ghost from_gives = { λ _ fault. fault ≡ OutOfMemory };

    fn from(_fault: ClosureFault) -> Self {
        BuiltFault::OutOfMemory
    }
}

impl From<ChosenFault> for BuiltFault<'_> {
    ghost use Rattle.std.specs.Prelude.{◌≡◌};
    ghost use Rattle.guppy_built.specs.Asked.{of_chosen};

    ghost from_gives = { λ chosen fault. fault ≡ of_chosen chosen };

    fn from(fault: ChosenFault) -> Self {
        match fault {
            ChosenFault::UnknownFeature(place) => BuiltFault::UnknownFeature(place),
            ChosenFault::OutOfMemory => BuiltFault::OutOfMemory,
        }
    }
}
