//! All clauses of a question.
ghost use Rattle.std.specs.Prelude.{◌<◌, OnOk, IfOk, length, map, All};
ghost use Rattle.guppy_closure.specs.Relations.{AreClausesOf};
ghost use Rattle.guppy_features.specs.Dependencies.{seen_dependency, AreOf, IsWithin};
ghost use Rattle.guppy_features.specs.Questions.{question_of};
ghost use Rattle.guppy_features.specs.Adding.{Adds, OfBelow, OfSome};
ghost use Rattle.guppy_features.specs.Follows.{FollowsFor};
ghost use Rattle.guppy_features.specs.Needs.{Needs};
ghost use Rattle.guppy_features.specs.Parts.{FollowsOf, FollowsOn, HasRoots, Switches, SwitchesAt};

use crate::dependencies::{Dependency, dependencies};
use crate::fact::{BuildPlatform, Fact};
use crate::question::Asked;
use crate::rules::Rules;
use std::alloc::AllocError;

impl Asked<'_> {
    /// The clauses.
    pub(crate) fn clauses(self) -> Result<Rules, AllocError>
        requires { All (λ i. i.position < length self.graph.now.packages) self.options.now.initials.items }
        ensures { IfOk result (λ rules. AreClausesOf (FollowsFor (question_of self.entry)) rules.items) }
    {
        let mut rules = Vec::with_capacity(self.graph.alloc(), self.likely_count())?;
        self.add_all_roots(&mut rules)?;
        self.add_packages(&mut rules)?;
        Ok(rules)
    }

    // About how many clauses there are, so that the list is mostly not moved.
    fn likely_count(self) -> usize {
        let mut count = self.graph.link_count().saturating_mul(6);
        for position in 0..self.graph.package_count() {
            let features = self.graph.package_at(position).named_features.len();
            count = count.saturating_add(features.saturating_mul(4));
        }
        count
    }

    // Adds what is asked of the chosen packages.
    fn add_all_roots(self, rules: &mut Rules) -> Result<(), AllocError>
        requires { All (λ i. i.position < length self.graph.now.packages) self.options.now.initials.items }
        ensures { OnOk result (Adds (OfSome self.entry.options.now.initials.items (HasRoots (question_of self.entry)))
            rules.old.items rules.new.items) }
    {
        for chosen in &self.options.initials {
            self.add_roots(rules, chosen)?;
        }
        Ok(())
    }

    // Adds what follows from facts about packages.
    fn add_packages(self, rules: &mut Rules) -> Result<(), AllocError>
        ensures { OnOk result (Adds (OfBelow (length self.entry.graph.now.packages) (FollowsOf (question_of self.entry)))
            rules.old.items rules.new.items) }
    {
        for position in 0..self.graph.package_count() {
            self.add_package(rules, position)?;
        }
        Ok(())
    }

    // Adds what follows from facts about the package.
    fn add_package(self, rules: &mut Rules, position: usize) -> Result<(), AllocError>
        requires { position < length self.graph.now.packages }
        ensures { OnOk result (Adds (FollowsOf (question_of self.entry) position)
            rules.old.items rules.new.items) }
    {
        let dependencies = dependencies(self.graph, position)?;
        let list = dependencies.as_slice();
        self.add_package_on(rules, position, BuildPlatform::Target, list)?;
        self.add_package_on(rules, position, BuildPlatform::Host, list)
    }

    // Adds this on one side.
    fn add_package_on(
        self,
        rules: &mut Rules,
        position: usize,
        side: BuildPlatform,
        dependencies: &[Dependency<'_>],
    ) -> Result<(), AllocError>
        requires within { position < length self.graph.now.packages }
        requires within_all { All (IsWithin (length self.graph.now.packages)) dependencies.now }
        requires dependencies { AreOf self.graph.now position dependencies.now }
        ensures { OnOk result (Adds (FollowsOn (question_of self.entry) position side)
            rules.old.items rules.new.items) }
    {
        self.add_all_needs(rules, side, dependencies)?;
        self.add_feature_clauses(rules, position, side, dependencies)
    }

    // Adds what the dependencies need.
    fn add_all_needs(
        self,
        rules: &mut Rules,
        side: BuildPlatform,
        dependencies: &[Dependency<'_>],
    ) -> Result<(), AllocError>
        requires { All (IsWithin (length self.graph.now.packages)) dependencies.now }
        ensures { OnOk result (Adds (OfSome (map seen_dependency dependencies.now) (Needs (question_of self.entry) side))
            rules.old.items rules.new.items) }
    {
        for dependency in dependencies {
            self.add_needs(rules, side, dependency)?;
        }
        Ok(())
    }

    // Adds what the package's features switch on.
    fn add_feature_clauses(
        self,
        rules: &mut Rules,
        position: usize,
        side: BuildPlatform,
        dependencies: &[Dependency<'_>],
    ) -> Result<(), AllocError>
        requires within { position < length self.graph.now.packages }
        requires within_all { All (IsWithin (length self.graph.now.packages)) dependencies.now }
        requires dependencies { AreOf self.graph.now position dependencies.now }
        ensures { OnOk result (Adds (Switches (question_of self.entry) position side)
            rules.old.items rules.new.items) }
    {
        for place in 0..self.graph.package_at(position).named_features.len() {
            self.add_feature_at(rules, position, side, dependencies, place)?;
        }
        Ok(())
    }

    // Adds what the feature of the place switches on, if there is one.
    fn add_feature_at(
        self,
        rules: &mut Rules,
        position: usize,
        side: BuildPlatform,
        dependencies: &[Dependency<'_>],
        place: usize,
    ) -> Result<(), AllocError>
        requires within { position < length self.graph.now.packages }
        requires within_all { All (IsWithin (length self.graph.now.packages)) dependencies.now }
        requires dependencies { AreOf self.graph.now position dependencies.now }
        ensures { OnOk result (Adds (SwitchesAt (question_of self.entry) position side place)
            rules.old.items rules.new.items) }
    {
        let features = &self.graph.package_at(position).named_features;
        let Some((_, values)) = features.get_index(place) else {
            return Ok(());
        };
        let feature = Some(Fact::feature(position, side, place));
        self.add_values(
            rules,
            position,
            side,
            dependencies,
            feature,
            values.as_slice(),
        )
    }
}
