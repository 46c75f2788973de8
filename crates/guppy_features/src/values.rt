//! What the values of features switch on.
ghost use Rattle.std.specs.Prelude.{◌<◌, OnOk, length, map, All};
ghost use Rattle.guppy_features.specs.Dependencies.{seen_dependency, AreOf, IsWithin};
ghost use Rattle.guppy_features.specs.Questions.{question_of};
ghost use Rattle.guppy_features.specs.Adding.{Adds, Behind, OfSome};
ghost use Rattle.guppy_features.specs.Values.{Gives, GivesStrongly, GivesThrough, GivesUnresolved, GivesWeakly};

use crate::dependencies::Dependency;
use crate::fact::{BuildPlatform, Fact};
use crate::question::Asked;
use crate::resolved::has_optional;
use crate::rules::{Rules, add_rule};
use guppy_data::NamedFeatureDep;
use std::alloc::AllocError;

impl Asked<'_> {
    /// Adds what the values of the package switch on on the side, where the first fact holds, if there is one. The
    /// dependencies are those of the package.
    pub(crate) fn add_values(
        self,
        rules: &mut Rules,
        position: usize,
        side: BuildPlatform,
        dependencies: &[Dependency<'_>],
        first: Option<Fact>,
        values: &[NamedFeatureDep],
    ) -> Result<(), AllocError>
        requires within { position < length self.graph.now.packages }
        requires within_all { All (IsWithin (length self.graph.now.packages)) dependencies.now }
        requires dependencies { AreOf self.graph.now position dependencies.now }
        ensures { OnOk result (Adds (OfSome values.now (λ value. Behind first (Gives (question_of self.entry) position side value)))
            rules.old.items rules.new.items) }
    {
        for value in values {
            self.add_value(rules, position, side, dependencies, first, value)?;
        }
        Ok(())
    }

    // Adds what the value switches on.
    fn add_value(
        self,
        rules: &mut Rules,
        position: usize,
        side: BuildPlatform,
        dependencies: &[Dependency<'_>],
        first: Option<Fact>,
        value: &NamedFeatureDep,
    ) -> Result<(), AllocError>
        requires within { position < length self.graph.now.packages }
        requires within_all { All (IsWithin (length self.graph.now.packages)) dependencies.now }
        requires dependencies { AreOf self.graph.now position dependencies.now }
        ensures { OnOk result (Adds (Behind first (Gives (question_of self.entry) position side value.now))
            rules.old.items rules.new.items) }
    {
        match value {
            NamedFeatureDep::NamedFeature(name) => {
                add_rule(
                    rules,
                    first,
                    None,
                    self.feature(position, side, name.as_str()),
                )
            }
            NamedFeatureDep::OptionalDependency(name) => {
                add_rule(
                    rules,
                    first,
                    None,
                    self.switched(position, side, name.as_str()),
                )
            }
            NamedFeatureDep::DependencyNamedFeature {
                dep_name,
                feature,
                weak,
            } => {
                self.add_through_all(
                    rules,
                    side,
                    dependencies,
                    first,
                    dep_name.as_str(),
                    feature.as_str(),
                    *weak,
                )?;
                self.add_unresolved(
                    rules,
                    position,
                    side,
                    dependencies,
                    first,
                    dep_name.as_str(),
                    *weak,
                )
            }
        }
    }

    // Adds that the optional dependency of the name is switched on, unless it is resolved or the value is weak.
    fn add_unresolved(
        self,
        rules: &mut Rules,
        position: usize,
        side: BuildPlatform,
        dependencies: &[Dependency<'_>],
        first: Option<Fact>,
        name: &str,
        weak: bool,
    ) -> Result<(), AllocError>
        requires within { position < length self.graph.now.packages }
        requires dependencies { AreOf self.graph.now position dependencies.now }
        ensures { OnOk result (Adds (Behind first (GivesUnresolved (question_of self.entry) position side name.now weak))
            rules.old.items rules.new.items) }
    {
        if weak {
            return Ok(());
        }
        if has_optional(dependencies, name) {
            return Ok(());
        }
        add_rule(rules, first, None, self.switched(position, side, name))
    }

    // Adds what a feature of those dependencies that have the name switches on.
    fn add_through_all(
        self,
        rules: &mut Rules,
        side: BuildPlatform,
        dependencies: &[Dependency<'_>],
        first: Option<Fact>,
        name: &str,
        feature: &str,
        weak: bool,
    ) -> Result<(), AllocError>
        requires { All (IsWithin (length self.graph.now.packages)) dependencies.now }
        ensures { OnOk result (Adds (OfSome (map seen_dependency dependencies.now)
            (λ d. Behind first (GivesThrough (question_of self.entry) side name.now feature.now weak d)))
            rules.old.items rules.new.items) }
    {
        for dependency in dependencies {
            self.add_through(rules, side, dependency, first, name, feature, weak)?;
        }
        Ok(())
    }

    // Adds what a feature of the dependency switches on, if it has the name and counts.
    fn add_through(
        self,
        rules: &mut Rules,
        side: BuildPlatform,
        dependency: &Dependency<'_>,
        first: Option<Fact>,
        name: &str,
        feature: &str,
        weak: bool,
    ) -> Result<(), AllocError>
        requires from { dependency.now.from < length self.graph.now.packages }
        requires to { dependency.now.to < length self.graph.now.packages }
        ensures { OnOk result (Adds (Behind first (GivesThrough (question_of self.entry) side name.now feature.now weak (seen_dependency dependency.now)))
            rules.old.items rules.new.items) }
    {
        if dependency.name != name || !self.counts(side, dependency) {
            return Ok(());
        }
        if weak {
            self.add_weakly(rules, side, dependency, first, feature)
        } else {
            self.add_strongly(rules, side, dependency, first, feature)
        }
    }

    // Adds the feature where the dependency is used.
    fn add_weakly(
        self,
        rules: &mut Rules,
        side: BuildPlatform,
        dependency: &Dependency<'_>,
        first: Option<Fact>,
        feature: &str,
    ) -> Result<(), AllocError>
        requires from { dependency.now.from < length self.graph.now.packages }
        requires to { dependency.now.to < length self.graph.now.packages }
        ensures { OnOk result (Adds (Behind first (GivesWeakly (question_of self.entry) side feature.now (seen_dependency dependency.now)))
            rules.old.items rules.new.items) }
    {
        let Some(used) = self.use_of(side, dependency) else {
            return Ok(());
        };
        let to_side = self.side_of(side, dependency);
        add_rule(
            rules,
            first,
            Some(used),
            self.feature(dependency.to, to_side, feature),
        )
    }

    // Adds the feature and, of an optional dependency, that it is switched on, with the feature of its name.
    fn add_strongly(
        self,
        rules: &mut Rules,
        side: BuildPlatform,
        dependency: &Dependency<'_>,
        first: Option<Fact>,
        feature: &str,
    ) -> Result<(), AllocError>
        requires from { dependency.now.from < length self.graph.now.packages }
        requires to { dependency.now.to < length self.graph.now.packages }
        ensures { OnOk result (Adds (Behind first (GivesStrongly (question_of self.entry) side feature.now (seen_dependency dependency.now)))
            rules.old.items rules.new.items) }
    {
        let to_side = self.side_of(side, dependency);
        add_rule(
            rules,
            first,
            None,
            self.feature(dependency.to, to_side, feature),
        )?;
        if dependency.is_optional {
            add_rule(rules, first, None, self.use_of(side, dependency))?;
            add_rule(
                rules,
                first,
                None,
                self.feature(dependency.from, side, dependency.name),
            )?;
        }
        Ok(())
    }
}
