//! What is built of a chosen member's targets.
ghost use Rattle.std.specs.Prelude.{◌≡◌, ◌↔◌, ◌<◌, OnOk, length, All, IsTrue};
ghost use Rattle.guppy_features.specs.Dependencies.{AreOf, IsWithin};
ghost use Rattle.guppy_features.specs.Adding.{Adds};
ghost use Rattle.guppy_features.specs.Questions.{is_library};
ghost use Rattle.guppy_builds.specs.Building.{question_of};
ghost use Rattle.guppy_builds.specs.Follows.{is_binary, is_example, is_asked, target_place, IsBuilt};
ghost use Rattle.guppy_builds.specs.Parts.{OnPlace, OnPlaces, OfTarget, OfMember};

use crate::build::{Build, BuildPlace};
use crate::building::Building;
use crate::rules::{Rules, add_rule};
use guppy_data::{BuildTargetKindRecord, BuildTargetRecord, OwnedBuildTargetId};
use guppy_features::dependencies::{Dependency, dependencies};
use guppy_features::is_macro_library;
use std::alloc::AllocError;

impl Building<'_> {
    /// Adds that the chosen member is built where a target of it is.
    pub(crate) fn add_member(self, rules: &mut Rules, position: usize) -> Result<(), AllocError>
        requires { position < length self.asked.graph.now.packages }
        ensures { OnOk result (Adds (OfMember (question_of self.entry) position) rules.old.items rules.new.items) }
    {
        let dependencies = dependencies(self.asked.graph, position)?;
        for target in &self.asked.graph.package_at(position).build_targets {
            self.add_target(rules, position, dependencies.as_slice(), target)?;
        }
        Ok(())
    }

    // Adds this of the target, if it is to be built.
    fn add_target(
        self,
        rules: &mut Rules,
        position: usize,
        dependencies: &[Dependency<'_>],
        target: &BuildTargetRecord,
    ) -> Result<(), AllocError>
        requires within { position < length self.asked.graph.now.packages }
        requires within_all { All (IsWithin (length self.asked.graph.now.packages)) dependencies.now }
        requires dependencies { AreOf self.asked.graph.now position dependencies.now }
        ensures { OnOk result (Adds (OfTarget (question_of self.entry) position target.now) rules.old.items rules.new.items) }
    {
        if self.is_built(position, dependencies, target) {
            self.add_on_places(rules, position, target)?;
        }
        Ok(())
    }

    // Whether the target is to be built, and has what it requires.
    fn is_built(
        self,
        position: usize,
        dependencies: &[Dependency<'_>],
        target: &BuildTargetRecord,
    ) -> bool
        requires within { position < length self.asked.graph.now.packages }
        requires within_all { All (IsWithin (length self.asked.graph.now.packages)) dependencies.now }
        requires dependencies { AreOf self.asked.graph.now position dependencies.now }
        ensures { IsTrue result ↔ IsBuilt (question_of self.entry) position target.now }
    {
        if !self.is_asked(target) {
            return false;
        }
        is_library(&target.id)
            || self.are_required_on(position, dependencies, target.required_features.as_slice())
    }

    // Whether the target of a chosen member is to be built.
    fn is_asked(self, target: &BuildTargetRecord) -> bool
        ensures { result ≡ is_asked (question_of self.entry) target.now }
    {
        if self.asked.options.tests {
            target.test_by_default
                || is_example(&target.id)
                || is_library(&target.id) && target.doctest_by_default
        } else {
            is_library(&target.id) || is_binary(&target.id)
        }
    }

    // Adds that it is built on each platform.
    fn add_on_places(
        self,
        rules: &mut Rules,
        position: usize,
        target: &BuildTargetRecord,
    ) -> Result<(), AllocError>
        ensures { OnOk result (Adds (OnPlaces (question_of self.entry) position target.now) rules.old.items rules.new.items) }
    {
        for place in 0..self.platform_count() {
            self.add_on_place(rules, position, target_place(target, place))?;
        }
        Ok(())
    }

    // Adds that the member is built there and, with tests, with its dev-dependencies.
    fn add_on_place(
        self,
        rules: &mut Rules,
        position: usize,
        place: BuildPlace,
    ) -> Result<(), AllocError>
        ensures { OnOk result (Adds (OnPlace (question_of self.entry) position place) rules.old.items rules.new.items) }
    {
        add_rule(rules, None, Build::built(position, place))?;
        if self.asked.options.tests {
            add_rule(rules, None, Build::tested(position, place))?;
        }
        Ok(())
    }
}

// Where a target is built for the platform of the place.
fn target_place(target: &BuildTargetRecord, place: usize) -> BuildPlace
    ensures { result ≡ target_place target.now place }
{
    if is_macro_library(target) {
        BuildPlace::Host
    } else {
        BuildPlace::Target(place)
    }
}

fn is_library(id: &OwnedBuildTargetId) -> bool
    ensures { result ≡ is_library id.now }
{
    matches!(id, OwnedBuildTargetId::Library)
}

fn is_binary(id: &OwnedBuildTargetId) -> bool
    ensures { result ≡ is_binary id.now }
{
    matches!(id, OwnedBuildTargetId::Binary(_))
}

fn is_example(id: &OwnedBuildTargetId) -> bool
    ensures { result ≡ is_example id.now }
{
    matches!(id, OwnedBuildTargetId::Example(_))
}
