//! What is asked of the chosen packages.
ghost use Rattle.std.specs.Prelude.{◌<◌, OnOk, length};
ghost use Rattle.guppy_features.specs.Questions.{question_of};
ghost use Rattle.guppy_features.specs.Adding.{Adds};
ghost use Rattle.guppy_features.specs.Parts.{HasAll, HasRoots, HasRootsOn, HasStandard};

use crate::dependencies::dependencies;
use crate::fact::{BuildPlatform, Fact};
use crate::options::{Initial, StandardFeatures};
use crate::question::Asked;
use crate::rules::{Rules, add_rule};
use std::alloc::AllocError;

impl Asked<'_> {
    /// Adds that the chosen package takes part, with what is asked of it: a procedural macro on both sides.
    pub(crate) fn add_roots(self, rules: &mut Rules, initial: &Initial) -> Result<(), AllocError>
        requires { initial.now.position < length self.graph.now.packages }
        ensures { OnOk result (Adds (HasRoots (question_of self.entry) initial.now)
            rules.old.items rules.new.items) }
    {
        self.add_roots_on(rules, initial, BuildPlatform::Target)?;
        if self.splits() && self.is_macro(initial.position) {
            self.add_roots_on(rules, initial, BuildPlatform::Host)?;
        }
        Ok(())
    }

    // Adds this on one side.
    fn add_roots_on(
        self,
        rules: &mut Rules,
        initial: &Initial,
        side: BuildPlatform,
    ) -> Result<(), AllocError>
        requires { initial.now.position < length self.graph.now.packages }
        ensures { OnOk result (Adds (HasRootsOn (question_of self.entry) side initial.now)
            rules.old.items rules.new.items) }
    {
        let position = initial.position;
        add_rule(rules, None, None, Some(Fact::part(position, side)))?;
        self.add_standard(rules, position, side, initial.standard)?;
        let dependencies = dependencies(self.graph, position)?;
        self.add_values(
            rules,
            position,
            side,
            dependencies.as_slice(),
            None,
            initial.features.as_slice(),
        )
    }

    // Adds the standard features.
    fn add_standard(
        self,
        rules: &mut Rules,
        position: usize,
        side: BuildPlatform,
        standard: StandardFeatures,
    ) -> Result<(), AllocError>
        requires { position < length self.graph.now.packages }
        ensures { OnOk result (Adds (HasStandard (question_of self.entry) position side standard)
            rules.old.items rules.new.items) }
    {
        match standard {
            StandardFeatures::None => Ok(()),
            StandardFeatures::Default => {
                add_rule(rules, None, None, self.feature(position, side, "default"))
            }
            StandardFeatures::All => self.add_all_features(rules, position, side),
        }
    }

    // Adds all features of the package.
    fn add_all_features(
        self,
        rules: &mut Rules,
        position: usize,
        side: BuildPlatform,
    ) -> Result<(), AllocError>
        requires { position < length self.graph.now.packages }
        ensures { OnOk result (Adds (HasAll (question_of self.entry) position side)
            rules.old.items rules.new.items) }
    {
        let count = self.graph.package_at(position).named_features.len();
        for place in 0..count {
            add_rule(
                rules,
                None,
                None,
                Some(Fact::feature(position, side, place)),
            )?;
        }
        Ok(())
    }
}
