//! What is built where a package is.
ghost use Rattle.std.specs.Prelude.{◌≡◌, ◌↔◌, ◌<◌, OnOk, length, map, All, IsTrue};
ghost use Rattle.std.specs.List.{list_any};
ghost use Rattle.guppy_features.specs.Dependencies.{seen_dependency, AreOf, IsWithin};
ghost use Rattle.guppy_features.specs.Adding.{Adds, OfSome};
ghost use Rattle.guppy_builds.specs.Building.{question_of};
ghost use Rattle.guppy_builds.specs.Follows.{is_script, has_script, is_needed, user_of, IsUsedAt, IsPlace};
ghost use Rattle.guppy_builds.specs.Parts.{OfDependency, OfMacro, OfPackage, OfPackageAt};

use crate::build::{Build, BuildPlace};
use crate::building::Building;
use crate::rules::{Rules, add_rule};
use guppy_data::{BuildTargetRecord, DependencyKind, OwnedBuildTargetId};
use guppy_features::dependencies::{Dependency, dependencies};
use std::alloc::AllocError;

impl Building<'_> {
    /// Adds what is built where the package is, wherever that is.
    pub(crate) fn add_package(self, rules: &mut Rules, position: usize) -> Result<(), AllocError>
        requires { position < length self.asked.graph.now.packages }
        ensures { OnOk result (Adds (OfPackage (question_of self.entry) position) rules.old.items rules.new.items) }
    {
        let dependencies = dependencies(self.asked.graph, position)?;
        let list = dependencies.as_slice();
        for place in 0..self.platform_count() {
            self.add_package_at(rules, position, BuildPlace::Target(place), list)?;
        }
        self.add_package_at(rules, position, BuildPlace::Host, list)
    }

    // Adds this where the package is built there.
    fn add_package_at(
        self,
        rules: &mut Rules,
        position: usize,
        place: BuildPlace,
        dependencies: &[Dependency<'_>],
    ) -> Result<(), AllocError>
        requires within { position < length self.asked.graph.now.packages }
        requires within_all { All (IsWithin (length self.asked.graph.now.packages)) dependencies.now }
        requires dependencies { AreOf self.asked.graph.now position dependencies.now }
        ensures { OnOk result (Adds (OfPackageAt (question_of self.entry) position place) rules.old.items rules.new.items) }
    {
        self.add_macro(rules, position, place)?;
        self.add_dependencies(rules, place, dependencies)
    }

    // Adds that a procedural macro of which something is built there is built on the host.
    fn add_macro(
        self,
        rules: &mut Rules,
        position: usize,
        place: BuildPlace,
    ) -> Result<(), AllocError>
        requires { position < length self.asked.graph.now.packages }
        ensures { OnOk result (Adds (OfMacro (question_of self.entry) position place) rules.old.items rules.new.items) }
    {
        if self.asked.is_macro(position) {
            let host = Build::built(position, BuildPlace::Host);
            add_rule(rules, Some(Build::built(position, place)), host)?;
        }
        Ok(())
    }

    // Adds what the dependencies lead to.
    fn add_dependencies(
        self,
        rules: &mut Rules,
        place: BuildPlace,
        dependencies: &[Dependency<'_>],
    ) -> Result<(), AllocError>
        requires { All (IsWithin (length self.asked.graph.now.packages)) dependencies.now }
        ensures { OnOk result (Adds (OfSome (map seen_dependency dependencies.now) (OfDependency (question_of self.entry) place))
            rules.old.items rules.new.items) }
    {
        for dependency in dependencies {
            self.add_dependency(rules, place, dependency)?;
        }
        Ok(())
    }

    // Adds what the dependency leads to, if it is used there.
    fn add_dependency(
        self,
        rules: &mut Rules,
        place: BuildPlace,
        dependency: &Dependency<'_>,
    ) -> Result<(), AllocError>
        requires from { dependency.now.from < length self.asked.graph.now.packages }
        requires to { dependency.now.to < length self.asked.graph.now.packages }
        ensures { OnOk result (Adds (OfDependency (question_of self.entry) place (seen_dependency dependency.now)) rules.old.items rules.new.items) }
    {
        if self.is_used_at(place, dependency) {
            let head = Build::built(dependency.to, self.place_of(place, dependency));
            add_rule(rules, Some(user_of(place, dependency)), head)?;
        }
        Ok(())
    }

    // Whether what is built there uses the dependency.
    fn is_used_at(self, place: BuildPlace, dependency: &Dependency<'_>) -> bool
        requires { dependency.now.from < length self.asked.graph.now.packages }
        ensures { IsTrue result ↔ IsUsedAt (question_of self.entry) place (seen_dependency dependency.now) }
    {
        self.is_needed(dependency)
            && self.is_on_at(place, dependency)
            && self.is_used(self.features_side(place), dependency)
    }

    // Whether the dependency is looked at where its package is built: a build dependency for a build script alone.
    fn is_needed(self, dependency: &Dependency<'_>) -> bool
        requires { dependency.now.from < length self.asked.graph.now.packages }
        ensures { result ≡ is_needed (question_of self.entry) (seen_dependency dependency.now) }
    {
        dependency.section != DependencyKind::Build || self.has_script(dependency.from)
    }

    // Whether the package has a build script.
    fn has_script(self, position: usize) -> bool
        requires { position < length self.asked.graph.now.packages }
        ensures { result ≡ has_script (question_of self.entry) position }
    {
        have_script(
            self.asked
                .graph
                .package_at(position)
                .build_targets
                .as_slice(),
        )
    }
}

// That what uses the dependency is built there.
fn user_of(place: BuildPlace, dependency: &Dependency<'_>) -> Build
    ensures { result ≡ user_of place (seen_dependency dependency.now) }
{
    if dependency.section == DependencyKind::Development {
        Build::tested(dependency.from, place)
    } else {
        Build::built(dependency.from, place)
    }
}

fn have_script(targets: &[BuildTargetRecord]) -> bool
    ensures { result ≡ list_any (λ t. is_script t.id) targets.now }
{
    targets.iter().any(|target| is_script(target))
}

fn is_script(target: &BuildTargetRecord) -> bool
    ensures { result ≡ is_script target.now.id }
{
    matches!(target.id, OwnedBuildTargetId::BuildScript)
}
