//! Why a program gives no answer.
ghost use Rattle.std.specs.Prelude.{◌≡◌, ◌⊎◌, ℕ, Ok, Err, IfOk, IfErr};
ghost use Rattle.guppy_data.specs.declared.texts.error.Error.{Error};
ghost use Rattle.guppy_data.specs.declared.texts.error.Error.TheVariants.{OutOfMemory};
ghost use Rattle.guppy_process.specs.Cause.{Cause, library, no_walk, unpublishable, build, no_member, unknown_feature, lacks_feature, feature_off, unresolved};
ghost use Rattle.guppy_process.specs.Fault.{cause_shown};

use guppy_data::Error;
use std::alloc::Global;
use std::fmt;

/// Why there is no answer on what Cargo builds.
#[derive(Debug, Drop)]
pub enum BuildFault {
    /// The package that this word means was chosen, and is no member.
    NoMember(String),
    /// Cargo refuses this of the command line's features: no chosen package has it.
    UnknownFeature(String),
    /// The package has no feature of this name.
    LacksFeature {
        /// What the package is called.
        package: String,
        /// The feature.
        feature: String,
    },
    /// The package's feature is on nowhere.
    FeatureOff {
        /// What the package is called.
        package: String,
        /// The feature.
        feature: String,
    },
    /// The package has an optional dependency that the metadata don't resolve.
    Unresolved {
        /// What the package is called.
        package: String,
        /// The dependency's name.
        dependency: String,
    },
}

impl fmt::Display for BuildFault {
    ghost use Rattle.std.specs.Prelude.{Some};
    ghost use Rattle.guppy_process.specs.Fault.{build_fault_text};

    ghost output = { λ fault. Some (build_fault_text fault) };

    fn fmt<W: fmt::Write>(&self, f: &mut fmt::Formatter<W>) -> fmt::Result {
        match self {
            BuildFault::NoMember(word) => write!(f, "{word} is no member of the workspace"),
            BuildFault::UnknownFeature(text) => {
                write!(f, "no chosen package has the feature {text}")
            }
            BuildFault::LacksFeature { package, feature } => {
                write!(f, "{package} has no feature {feature}")
            }
            BuildFault::FeatureOff { package, feature } => {
                write!(f, "the feature {feature} of {package} isn't on")
            }
            BuildFault::Unresolved {
                package,
                dependency,
            } => write!(
                f,
                "{package}'s optional dependency {dependency} isn't resolved: \
                 make the metadata with --all-features and the same --features, without --filter-platform"
            ),
        }
    }
}

/// Why a program gives no answer, whatever its input looks like.
#[derive(Debug, Drop)]
pub enum Fault {
    /// The library refused the records or the command, or found no memory.
    Library(Error),
    /// The arguments are no command.
    BadArguments,
    /// No links lead from the package that the first word means to that of the second.
    NoWalk {
        /// The first word, as it was given.
        from: String,
        /// The second word.
        to: String,
    },
    /// A member can be published by itself, but needs another one that can't.
    Unpublishable {
        /// What the member is called.
        member: String,
        /// What the one is called that it needs.
        needed: String,
    },
    /// There is no answer on what Cargo builds.
    Build(BuildFault),
    /// The state before is none, and why.
    Before(String),
    /// The input could not be read.
    InputFailed,
    /// The output could not be written.
    OutputFailed,
}

/// Why a program gives no answer: one of these faults, or one of its own.
pub trait ProgramFault: fmt::Display + Drop {
    /// Why, whatever the input looks like.
    ghost cause: { Self → Cause };

    /// The status that the program ends with.
    ghost ending: { Self → ℕ };

    /// The program's fault that this one is.
    fn of(fault: Fault) -> Self
        ensures { cause result ≡ cause_shown fault };

    /// The status that the program ends with. Takes constant time.
    fn ending(&self) -> u8
        ensures { result ≡ ending self.now };
}

/// Passes a result of the library on as one of a program.
pub fn passed_on<T: Drop, F: ProgramFault>(given: Result<T, Error>) -> Result<T, F>
    ensures ok { IfOk result (λ value. given ≡ Ok value) }
    ensures err { IfErr result (λ fault. (error : Error) × (given ≡ Err error)
        × (F.cause fault ≡ library error)) }
{
    match given {
        Ok(value) => Ok(value),
        Err(error) => Err(F::of(Fault::Library(error))),
    }
}

/// Memory is wanted.
pub fn want_of_memory<F: ProgramFault>() -> F
    ensures { F.cause result ≡ library OutOfMemory }
{
    F::of(Fault::Library(Error::OutOfMemory))
}

/// That no links lead from the one word's package to the other's, unless memory is wanted. Takes memory for copies of
/// the words.
pub fn no_walk<F: ProgramFault>(alloc: Global, from: &str, to: &str) -> F
    ensures { (F.cause result ≡ no_walk from.now to.now) ⊎ (F.cause result ≡ library OutOfMemory) }
{
    let Ok(from) = String::from_str(alloc, from) else {
        return want_of_memory();
    };
    let Ok(to) = String::from_str(alloc, to) else {
        return want_of_memory();
    };
    F::of(Fault::NoWalk { from, to })
}

/// That the member can't be published because it needs the other, which isn't publishable, unless memory is wanted. Takes
/// memory for copies of what they are called.
pub fn unpublishable<F: ProgramFault>(alloc: Global, member: &str, needed: &str) -> F
    ensures { (F.cause result ≡ unpublishable member.now needed.now) ⊎ (F.cause result ≡ library OutOfMemory) }
{
    let Ok(member) = String::from_str(alloc, member) else {
        return want_of_memory();
    };
    let Ok(needed) = String::from_str(alloc, needed) else {
        return want_of_memory();
    };
    F::of(Fault::Unpublishable { member, needed })
}

/// That the package that the word means is no member, unless memory is wanted. Takes memory for a copy of the word.
pub fn no_member<F: ProgramFault>(alloc: Global, word: &str) -> F
    ensures { (F.cause result ≡ build (no_member word.now)) ⊎ (F.cause result ≡ library OutOfMemory) }
{
    match String::from_str(alloc, word) {
        Ok(word) => F::of(Fault::Build(BuildFault::NoMember(word))),
        Err(_) => want_of_memory(),
    }
}

/// That Cargo refuses this of a command line's features, unless memory is wanted. Takes memory for a copy of it.
pub fn unknown_feature<F: ProgramFault>(alloc: Global, text: &str) -> F
    ensures { (F.cause result ≡ build (unknown_feature text.now)) ⊎ (F.cause result ≡ library OutOfMemory) }
{
    match String::from_str(alloc, text) {
        Ok(text) => F::of(Fault::Build(BuildFault::UnknownFeature(text))),
        Err(_) => want_of_memory(),
    }
}

/// That the package has no such feature, unless memory is wanted. Takes memory for copies of what they are called.
pub fn lacks_feature<F: ProgramFault>(alloc: Global, owner: &str, feature: &str) -> F
    ensures { (F.cause result ≡ build (lacks_feature owner.now feature.now))
        ⊎ (F.cause result ≡ library OutOfMemory) }
{
    let Ok(package) = String::from_str(alloc, owner) else {
        return want_of_memory();
    };
    let Ok(feature) = String::from_str(alloc, feature) else {
        return want_of_memory();
    };
    F::of(Fault::Build(BuildFault::LacksFeature { package, feature }))
}

/// That the package's feature is on nowhere, unless memory is wanted. Takes memory for copies of what they are called.
pub fn feature_off<F: ProgramFault>(alloc: Global, owner: &str, feature: &str) -> F
    ensures { (F.cause result ≡ build (feature_off owner.now feature.now))
        ⊎ (F.cause result ≡ library OutOfMemory) }
{
    let Ok(package) = String::from_str(alloc, owner) else {
        return want_of_memory();
    };
    let Ok(feature) = String::from_str(alloc, feature) else {
        return want_of_memory();
    };
    F::of(Fault::Build(BuildFault::FeatureOff { package, feature }))
}

/// That the package's optional dependency isn't resolved, unless memory is wanted. Takes memory for copies of what they
/// are called.
pub fn unresolved<F: ProgramFault>(alloc: Global, owner: &str, dependency: &str) -> F
    ensures { (F.cause result ≡ build (unresolved owner.now dependency.now))
        ⊎ (F.cause result ≡ library OutOfMemory) }
{
    let Ok(package) = String::from_str(alloc, owner) else {
        return want_of_memory();
    };
    let Ok(dependency) = String::from_str(alloc, dependency) else {
        return want_of_memory();
    };
    F::of(Fault::Build(BuildFault::Unresolved {
        package,
        dependency,
    }))
}
