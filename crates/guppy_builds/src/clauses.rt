//! All clauses.
ghost use Rattle.std.specs.Prelude.{◌<◌, OnOk, IfOk, length, All};
ghost use Rattle.guppy_closure.specs.Relations.{AreClausesOf};
ghost use Rattle.guppy_features.specs.Adding.{Adds, OfBelow, OfSome};
ghost use Rattle.guppy_builds.specs.Building.{question_of};
ghost use Rattle.guppy_builds.specs.Follows.{BuildsFor};
ghost use Rattle.guppy_builds.specs.Parts.{OfMember, OfPackage};

use crate::building::Building;
use crate::rules::Rules;
use std::alloc::AllocError;

impl Building<'_> {
    /// The clauses.
    pub(crate) fn clauses(self, members: &[usize]) -> Result<Rules, AllocError>
        requires { All (λ m. m < length self.asked.graph.now.packages) members.now }
        ensures { IfOk result (λ rules. AreClausesOf (BuildsFor (question_of self.entry) members.now) rules.items) }
    {
        let mut rules = Vec::new(self.asked.graph.alloc());
        self.add_members(&mut rules, members)?;
        self.add_packages(&mut rules)?;
        Ok(rules)
    }

    // Adds where the chosen members are built.
    fn add_members(self, rules: &mut Rules, members: &[usize]) -> Result<(), AllocError>
        requires { All (λ m. m < length self.asked.graph.now.packages) members.now }
        ensures { OnOk result (Adds (OfSome members.now (OfMember (question_of self.entry))) rules.old.items rules.new.items) }
    {
        for member in members {
            self.add_member(rules, *member)?;
        }
        Ok(())
    }

    // Adds what is built where packages are.
    fn add_packages(self, rules: &mut Rules) -> Result<(), AllocError>
        ensures { OnOk result (Adds (OfBelow (length self.entry.asked.graph.now.packages) (OfPackage (question_of self.entry)))
            rules.old.items rules.new.items) }
    {
        for position in 0..self.asked.graph.package_count() {
            self.add_package(rules, position)?;
        }
        Ok(())
    }
}
