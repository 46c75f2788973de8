//! What a dependency that is used needs.
ghost use Rattle.std.specs.Prelude.{◌≡◌, ◌<◌, List, OnOk, false, length};
ghost use Rattle.guppy_data.specs.Platform.{recorded_status};
ghost use Rattle.guppy_features.specs.declared.fact.Fact.{Fact};
ghost use Rattle.guppy_features.specs.Dependencies.{seen_dependency};
ghost use Rattle.guppy_features.specs.Questions.{question_of};
ghost use Rattle.guppy_features.specs.Adding.{Adds};
ghost use Rattle.guppy_features.specs.Needs.{IfOn, Needs, NeedsNamed, NeedsWhere};

use crate::dependencies::Dependency;
use crate::fact::{BuildPlatform, Fact};
use crate::question::Asked;
use crate::rules::{Rules, add_rule};
use guppy_data::PlatformStatusImpl;
use std::alloc::AllocError;

impl Asked<'_> {
    /// Adds what the dependency needs on the side: that its package takes part, with the features asked for.
    pub(crate) fn add_needs(
        self,
        rules: &mut Rules,
        side: BuildPlatform,
        dependency: &Dependency<'_>,
    ) -> Result<(), AllocError>
        requires from { dependency.now.from < length self.graph.now.packages }
        requires to { dependency.now.to < length self.graph.now.packages }
        ensures { OnOk result (Adds (Needs (question_of self.entry) side (seen_dependency dependency.now))
            rules.old.items rules.new.items) }
    {
        if !self.may_ask(dependency.from, dependency.section) {
            return Ok(());
        }
        if !self.asks(side, dependency) {
            return Ok(());
        }
        let Some(used) = self.use_of(side, dependency) else {
            return Ok(());
        };
        self.add_needs_of_used(rules, side, dependency, used)
    }

    // Whether the dependency may need anything there. Most don't: a link has six, mostly of one section, and this looks
    // no name up.
    fn asks(self, side: BuildPlatform, dependency: &Dependency<'_>) -> bool
        ensures { result ≡ false → (used : Fact) (body : List Fact) (f : Fact)
            → ¬ NeedsWhere (question_of self.entry) side (seen_dependency dependency.now) used body f }
    {
        let part = dependency.part;
        if self.is_on(side, dependency.section, &part.build_if) {
            return true;
        }
        if self.is_on(side, dependency.section, &part.default_features_if) {
            return true;
        }
        !part.feature_targets.is_empty()
    }

    // Adds these where it is known what holds if the dependency is used.
    fn add_needs_of_used(
        self,
        rules: &mut Rules,
        side: BuildPlatform,
        dependency: &Dependency<'_>,
        used: Fact,
    ) -> Result<(), AllocError>
        requires { dependency.now.to < length self.graph.now.packages }
        ensures { OnOk result (Adds (NeedsWhere (question_of self.entry) side (seen_dependency dependency.now) used)
            rules.old.items rules.new.items) }
    {
        let to = dependency.to;
        let to_side = self.side_of(side, dependency);
        let part = dependency.part;
        let takes_part = Some(Fact::part(to, to_side));
        self.add_if_on(rules, side, dependency, used, &part.build_if, takes_part)?;
        let default = self.feature(to, to_side, "default");
        self.add_if_on(
            rules,
            side,
            dependency,
            used,
            &part.default_features_if,
            default,
        )?;
        self.add_features(rules, side, dependency, used)
    }

    // Adds the features that the dependency names.
    fn add_features(
        self,
        rules: &mut Rules,
        side: BuildPlatform,
        dependency: &Dependency<'_>,
        used: Fact,
    ) -> Result<(), AllocError>
        requires { dependency.now.to < length self.graph.now.packages }
        ensures { OnOk result (Adds (NeedsNamed (question_of self.entry) side (seen_dependency dependency.now) used)
            rules.old.items rules.new.items) }
    {
        let to_side = self.side_of(side, dependency);
        for (name, status) in dependency.part.feature_targets.iter() {
            let feature = self.feature(dependency.to, to_side, name.as_str());
            self.add_if_on(rules, side, dependency, used, status, feature)?;
        }
        Ok(())
    }

    // Adds the head, where what has the status is on.
    fn add_if_on(
        self,
        rules: &mut Rules,
        side: BuildPlatform,
        dependency: &Dependency<'_>,
        used: Fact,
        status: &PlatformStatusImpl,
        head: Option<Fact>,
    ) -> Result<(), AllocError>
        ensures { OnOk result (Adds (IfOn (question_of self.entry) side (seen_dependency dependency.now) used (recorded_status status.now) head)
            rules.old.items rules.new.items) }
    {
        if self.is_on(side, dependency.section, status) {
            add_rule(rules, Some(used), None, head)?;
        }
        Ok(())
    }
}
