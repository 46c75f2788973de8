//! Whether the features are on that a target requires.
ghost use Rattle.std.specs.Prelude.{◌≡◌, ◌⊎◌, ◌↔◌, ℕ, ◌<◌, length, map, All, IsTrue};
ghost use Rattle.guppy_features.specs.Dependencies.{seen_dependency, AreOf, IsWithin};
ghost use Rattle.guppy_features.specs.Needs.{feature_there};
ghost use Rattle.guppy_builds.specs.Building.{question_of};
ghost use Rattle.guppy_builds.specs.Required.{IsOn, HasOne, may_be_used, Uses, IsUsedAmong, HasOn, IsRequiredOn, AreRequiredOn};

use crate::building::Building;
use guppy_data::{DependencyKind, PlatformStatus};
use guppy_features::dependencies::Dependency;
use guppy_features::{BuildPlatform, may_be_on};

impl Building<'_> {
    /// Whether what each of the texts requires of the package is on. The dependencies are those of the package.
    pub(crate) fn are_required_on(
        self,
        position: usize,
        dependencies: &[Dependency<'_>],
        texts: &[String],
    ) -> bool
        requires within { position < length self.asked.graph.now.packages }
        requires within_all { All (IsWithin (length self.asked.graph.now.packages)) dependencies.now }
        requires dependencies { AreOf self.asked.graph.now position dependencies.now }
        ensures { IsTrue result ↔ AreRequiredOn (question_of self.entry) position texts.now }
    {
        for text in texts {
            if !self.is_required_on(position, dependencies, text.as_str()) {
                return false;
            }
        }
        true
    }

    // Whether what the text requires is on.
    fn is_required_on(self, position: usize, dependencies: &[Dependency<'_>], text: &str) -> bool
        requires within { position < length self.asked.graph.now.packages }
        requires within_all { All (IsWithin (length self.asked.graph.now.packages)) dependencies.now }
        requires dependencies { AreOf self.asked.graph.now position dependencies.now }
        ensures { IsTrue result ↔ IsRequiredOn (question_of self.entry) position text.now }
    {
        match text.split_once("/") {
            Some((name, feature)) => self.have_on(dependencies, name, feature),
            None => self.is_on(self.asked.feature(position, BuildPlatform::Target, text)),
        }
    }

    // Whether one of the dependencies has the name, and the feature on.
    fn have_on(self, dependencies: &[Dependency<'_>], name: &str, feature: &str) -> bool
        requires { All (IsWithin (length self.asked.graph.now.packages)) dependencies.now }
        ensures { IsTrue result ↔ HasOne (map seen_dependency dependencies.now)
            (HasOn (question_of self.entry) (map seen_dependency dependencies.now) name.now feature.now) }
    {
        for dependency in dependencies {
            if self.has_on(dependencies, dependency, name, feature) {
                return true;
            }
        }
        false
    }

    // Whether the dependency has the name, and the feature on.
    fn has_on(
        self,
        dependencies: &[Dependency<'_>],
        dependency: &Dependency<'_>,
        name: &str,
        feature: &str,
    ) -> bool
        requires within_all { All (IsWithin (length self.asked.graph.now.packages)) dependencies.now }
        requires from { dependency.now.from < length self.asked.graph.now.packages }
        requires to { dependency.now.to < length self.asked.graph.now.packages }
        ensures { IsTrue result ↔ HasOn (question_of self.entry) (map seen_dependency dependencies.now) name.now feature.now (seen_dependency dependency.now) }
    {
        dependency.name == name
            && PlatformStatus::new(&dependency.part.build_if).is_present()
            && self.has_feature_on(dependency, feature)
            && self.is_used_on_one(dependencies, dependency)
    }

    // Whether the dependency's package has the feature on.
    fn has_feature_on(self, dependency: &Dependency<'_>, feature: &str) -> bool
        requires { dependency.now.to < length self.asked.graph.now.packages }
        ensures { IsTrue result ↔ IsOn (question_of self.entry) (feature_there (question_of self.entry) BuildPlatform.Target feature.now (seen_dependency dependency.now)) }
    {
        let side = self.asked.side_of(BuildPlatform::Target, dependency);
        self.is_on(self.asked.feature(dependency.to, side, feature))
    }

    // Whether it is used on one of the sides.
    fn is_used_on_one(self, dependencies: &[Dependency<'_>], dependency: &Dependency<'_>) -> bool
        requires within_all { All (IsWithin (length self.asked.graph.now.packages)) dependencies.now }
        requires from { dependency.now.from < length self.asked.graph.now.packages }
        ensures { IsTrue result ↔ (IsUsedAmong (question_of self.entry) (map seen_dependency dependencies.now) (seen_dependency dependency.now) BuildPlatform.Target
            ⊎ IsUsedAmong (question_of self.entry) (map seen_dependency dependencies.now) (seen_dependency dependency.now) BuildPlatform.Host) }
    {
        self.is_used_among(dependencies, dependency, BuildPlatform::Target)
            || self.is_used_among(dependencies, dependency, BuildPlatform::Host)
    }

    // Whether it is used on the side, where a target may use one of these that leads to the same package.
    fn is_used_among(
        self,
        dependencies: &[Dependency<'_>],
        dependency: &Dependency<'_>,
        side: BuildPlatform,
    ) -> bool
        requires within_all { All (IsWithin (length self.asked.graph.now.packages)) dependencies.now }
        requires from { dependency.now.from < length self.asked.graph.now.packages }
        ensures { IsTrue result ↔ IsUsedAmong (question_of self.entry) (map seen_dependency dependencies.now) (seen_dependency dependency.now) side }
    {
        self.is_used(side, dependency) && self.use_one(dependencies, side, dependency.to)
    }

    // Whether a target may use one of the dependencies that leads to the package.
    fn use_one(self, dependencies: &[Dependency<'_>], side: BuildPlatform, to: usize) -> bool
        requires { All (IsWithin (length self.asked.graph.now.packages)) dependencies.now }
        ensures { IsTrue result ↔ HasOne (map seen_dependency dependencies.now) (Uses (question_of self.entry) side to) }
    {
        for dependency in dependencies {
            if self.uses(side, to, dependency) {
                return true;
            }
        }
        false
    }

    // Whether a target may use the dependency, which leads to the package.
    fn uses(self, side: BuildPlatform, to: usize, dependency: &Dependency<'_>) -> bool
        requires { dependency.now.from < length self.asked.graph.now.packages }
        ensures { IsTrue result ↔ Uses (question_of self.entry) side to (seen_dependency dependency.now) }
    {
        dependency.to == to && self.may_be_used(dependency) && self.is_used(side, dependency)
    }

    // Whether a target may use the dependency, where it is on.
    fn may_be_used(self, dependency: &Dependency<'_>) -> bool
        ensures { result ≡ may_be_used (question_of self.entry) (seen_dependency dependency.now) }
    {
        let options = self.asked.options;
        if dependency.section == DependencyKind::Development && !options.tests {
            return false;
        }
        let status = PlatformStatus::new(&dependency.part.build_if);
        may_be_on(status, options.host_platform) || may_be_on(status, options.target_platform)
    }
}
