//! What a case tells on standard output of packages and their sets. Takes no memory.
ghost use Rattle.std.specs.Iterator.{IsFinite};

use guppy::graph::DependencyDirection;
use guppy::{Error, PackageMetadata, PackageSet};
pub(crate) use guppy_core_memory_cases::told::{begin, tell, tell_all, tell_calls, tell_line};
use std::fmt::Display;

/// Tells the names of packages, and what ends their line.
pub(crate) fn tell_names<'g, I: Iterator<Item = PackageMetadata<'g>> + Drop, E: Display>(
    rt: &HostRuntime,
    packages: I,
    end: &E,
)
    requires can { I.can_next packages }
    requires ends { IsFinite (I.remaining packages) }
{
    for package in packages {
        tell(rt, package.name());
    }
    tell_line(rt, end);
}

/// The IDs of a set, in the order of its list.
pub(crate) fn tell_set(rt: &HostRuntime, set: &PackageSet<'_>) {
    for id in set.package_ids(DependencyDirection::Forward) {
        tell(rt, id.repr());
    }
    let _told = println!(rt; "in {}", set.len());
}

/// The set that was made, where it was.
pub(crate) fn tell_made(
    rt: &HostRuntime,
    made: Result<PackageSet<'_>, Error>,
) -> Result<(), Error> {
    tell_set(rt, &made?);
    Ok(())
}

/// The answer to a question, where there is one.
pub(crate) fn tell_answer(rt: &HostRuntime, answer: Result<bool, Error>) -> Result<(), Error> {
    tell_line(rt, &answer?);
    Ok(())
}
