//! What Cargo builds.
ghost use Rattle.std.specs.Prelude.{◌≡◌, ◌↔◌, ◌<◌, All, Contains, IfOk, IsTrue, length};
ghost use Rattle.std.specs.List.Sorted.{IsStrictlySortedBy};
ghost use Rattle.guppy_closure.specs.Relations.{HoldsBy};
ghost use Rattle.guppy_builds.specs.declared.build.Build.{Build};
ghost use Rattle.guppy_builds.specs.BuildOrder.{build_cmp};
ghost use Rattle.guppy_builds.specs.Building.{builds};
ghost use Rattle.guppy_builds.specs.Follows.{BuildsFor};

use crate::build::Build;
use crate::building::Building;
use guppy_closure::{ClosureFault, Known};
use guppy_features::{Asked, CargoSet};
use std::alloc::{AllocError, Global};
use std::marker::Model;

/// What is built of the packages of a graph, and for which platforms.
#[derive(Drop)]
pub struct BuildSet<'a> {
    asked: Asked<'a>,
    members: &'a [usize],
    known: Known<Build>,
}

impl<'a> Model for BuildSet<'a> {
    ghost use Rattle.guppy_closure.specs.Relations.{AreClausesOf};
    ghost use Rattle.guppy_features.specs.Questions.{question_of};
    ghost use Rattle.guppy_builds.specs.Building.{Builds, builds};
    ghost use Rattle.guppy_builds.specs.Follows.{BuildsFor};
    ghost use Rattle.guppy_graph.specs.contracts.graph.RecordGraph as of_graph;
    ghost use Rattle.guppy_features.specs.contracts.options.CargoOptions as of_options;
    ghost use Rattle.std.specs.Coded.{codes};
    ghost use denote.Signature.{static_lft};

    ghost Value = { Builds };

    ghost coded = { Prim.hlevel (codes, of_graph.the_row.coded, (of_options.the_row static_lft).coded) };

    ghost view = { λ s. builds (question_of s.asked) s.members.now };

    ghost invariant = { λ s. AreClausesOf (BuildsFor (question_of s.asked) s.members.now) s.known };
}

impl<'a> BuildSet<'a> {
    /// What is built where the set says which features are on. The members are those that are chosen, by their
    /// positions, which are those of packages of the graph. With resolver 1 the set may be asked of the workspace's root,
    /// too, which is no member here unless it is chosen.
    ///
    /// Fails with `TooManyClauses` where there would be 2^30 or more, and else with `OutOfMemory` only where there is
    /// none. Clauses are, for each platform that is built for and for the one that builds, as many as dependencies and
    /// procedural macros, and as many as targets of members, twice with tests. Time grows with these, times the logarithm
    /// of the features that are named and of the clauses, and for each feature `x/f` that a target requires with the
    /// square of its package's dependencies. Takes memory for the clauses, some 200 bytes each.
    pub fn new(set: &CargoSet<'a>, members: &'a [usize]) -> Result<Self, ClosureFault>
        requires { All (λ m. m < length set.now.graph.packages) members.now }
        ensures { IfOk result (λ found. found ≡ builds set.now members.now) }
    {
        let building = Building::new(set);
        let known = Known::new(building.asked.graph.alloc(), building.clauses(members)?)?;
        Ok(BuildSet {
            asked: set.asked(),
            members,
            known,
        })
    }

    /// Whether this is built. Takes of the order of log n comparisons for n builds that are named, and no memory.
    pub fn contains(&self, build: Build) -> bool
        ensures { IsTrue result ↔ HoldsBy (BuildsFor self.now.question self.now.members) build }
    {
        self.known.holds(&build)
    }

    /// What is built, ascending, each once. Takes memory for it, and fails only where there is none.
    pub fn builds(&self, alloc: Global) -> Result<Vec<Build>, AllocError>
        ensures built { IfOk result (λ found.
            (b : Build) → Contains found.items b ↔ HoldsBy (BuildsFor self.now.question self.now.members) b) }
        ensures order { IfOk result (λ found. IsStrictlySortedBy build_cmp found.items) }
    {
        self.known.facts(alloc)
    }
}
