//! Optional dependencies that are switched on though nothing is resolved for them.
ghost use Rattle.std.specs.Prelude.{◌↔◌, ◌<◌, IfOk, IsTrue, MatchOption, length};
ghost use Rattle.guppy_features.specs.Dependencies.{AreOf};
ghost use Rattle.guppy_features.specs.Unresolved.{AreResolved, AreResolvedOf, IsFirstOf, IsFirstUnresolved, IsSwitchedOn, IsUnresolved};

use crate::dependencies::{Dependency, dependencies};
use crate::fact::{BuildPlatform, Fact};
use crate::resolved::has_optional;
use crate::set::CargoSet;
use std::alloc::AllocError;

/// An optional dependency of a package.
#[derive(Clone, Copy, Debug, PartialEq, Eq)]
pub struct OptionalDependency {
    /// The position of the package.
    pub position: usize,
    /// Its place in `optional_deps` of the package's record, from 0.
    pub place: usize,
}

impl CargoSet<'_> {
    // Whether the package's optional dependency of the place is switched on.
    fn is_switched_on(&self, position: usize, place: usize) -> bool
        ensures { IsTrue result ↔ IsSwitchedOn self.now position place }
    {
        self.contains(Fact::switched(position, BuildPlatform::Target, place))
            || self.contains(Fact::switched(position, BuildPlatform::Host, place))
    }

    // Whether it is, and none of the package's dependencies, which are these, is so called.
    fn is_unresolved(&self, position: usize, place: usize, dependencies: &[Dependency<'_>]) -> bool
        requires within { position < length self.now.graph.packages }
        requires dependencies { AreOf self.now.graph position dependencies.now }
        ensures { IsTrue result ↔ IsUnresolved self.now position place }
    {
        let names = &self.asked().graph.package_at(position).optional_deps;
        match names.get_index(place) {
            Some(name) => {
                self.is_switched_on(position, place) && !has_optional(dependencies, name.as_str())
            }
            None => false,
        }
    }

    // The place of the package's first one that is so.
    fn first_unresolved_of(&self, position: usize) -> Result<Option<usize>, AllocError>
        requires { position < length self.now.graph.packages }
        ensures { IfOk result (λ found. MatchOption found (AreResolvedOf self.now position)
            (IsFirstOf self.now position)) }
    {
        let graph = self.asked().graph;
        let dependencies = dependencies(graph, position)?;
        for place in 0..graph.package_at(position).optional_deps.len() {
            if self.is_unresolved(position, place, dependencies.as_slice()) {
                return Ok(Some(place));
            }
        }
        Ok(None)
    }

    /// The first optional dependency, by the position of its package and its place in the record, that is switched on
    /// though no link is that of an optional dependency of its name: the metadata don't say what it is. They say it of
    /// each that has a library where they are those of `cargo metadata --all-features` without `--filter-platform`.
    ///
    /// Time grows with the links, for each optional dependency that is switched on with those that leave its package, and
    /// for each at all with the logarithm of the facts that are named. Takes memory for the dependencies of a package, and
    /// fails only where there is none.
    pub fn first_unresolved(&self) -> Result<Option<OptionalDependency>, AllocError>
        ensures { IfOk result (λ found. MatchOption found (AreResolved self.now)
            (λ d. IsFirstUnresolved self.now d.position d.place)) }
    {
        for position in 0..self.asked().graph.package_count() {
            if let Some(place) = self.first_unresolved_of(position)? {
                return Ok(Some(OptionalDependency { position, place }));
            }
        }
        Ok(None)
    }
}
