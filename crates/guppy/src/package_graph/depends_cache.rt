//! Many questions of dependence, with one room for their searches.
ghost use Rattle.std.specs.Prelude.{◌≡◌, ◌↔◌, [], ◌∷◌, IsTrue, IfOk, IfErr, OnOk, IsOk, IsOkUnless};
ghost use Rattle.guppy_graph.specs.Ids.{IsKnown};
ghost use Rattle.guppy_graph.specs.Depends.{DependsOn};
ghost use Rattle.guppy_graph.specs.Refused.{IsFirstUnknown, NamesId};

use crate::package_graph::graph::PackageGraph;
use guppy_core::{DependencyDirection, ReachCache};
use guppy_data::{Error, PackageId};
use guppy_graph::Packages;
use std::marker::Model;

/// Answers which packages of a graph depend on which. Its room is made once, for every question.
#[derive(Drop)]
pub struct DependsCache<'g> {
    graph: &'g PackageGraph,
    room: ReachCache<Packages>,
}

impl<'g> Model for DependsCache<'g> {
    ghost use Rattle.std.specs.Prelude.{◌≡◌, length};
    ghost use Rattle.guppy_graph.specs.contracts.graph.RecordGraph as of_graph;
    ghost use Rattle.guppy_graph.specs.Graph.{GraphData};

    // The graph that is asked about.
    ghost Value = { GraphData };

    ghost coded = { of_graph.the_row.coded };

    ghost view = { λ c. c.graph.now };

    ghost invariant = { λ c. c.room ≡ length c.graph.now.packages };
}

impl<'g> DependsCache<'g> {
    /// The cache for a graph.
    ///
    /// Takes memory for a number and two bits a package, and fails, with `OutOfMemory`, only where
    /// there is none. No question takes more.
    pub fn new(graph: &'g PackageGraph) -> Result<Self, Error>
        ensures graph { IfOk result (λ c. c ≡ graph.now) }
        ensures error { IsOkUnless result Error.OutOfMemory }
    {
        let room = ReachCache::new(graph.dep_graph())?;
        Ok(DependsCache { graph, room })
    }

    /// Whether the first package depends on the second, as [`PackageGraph::depends_on`] answers it,
    /// whatever was asked before.
    ///
    /// `UnknownPackageId` tells the first of the two IDs that is no package's. Time grows with
    /// packages and links. Takes memory only for that error's copy of the ID.
    pub fn depends_on(&mut self, a: &PackageId, b: &PackageId) -> Result<bool, Error>
        ensures graph { self.new ≡ self.old }
        ensures known { OnOk result (IsKnown self.old.packages a.now
            × IsKnown self.old.packages b.now) }
        ensures answer { IfOk result (λ depends. IsTrue depends ↔ DependsOn self.old a.now b.now) }
        ensures answered { IsKnown self.old.packages a.now → IsKnown self.old.packages b.now
            → IsOk result }
        ensures unknown { IfErr result
            (NamesId (IsFirstUnknown self.old.packages (a.now ∷ b.now ∷ []))) }
    {
        let (from, to) = self.graph.pair_of(a, b)?;
        let forward = DependencyDirection::Forward;
        Ok(self.room.reaches(self.graph.dep_graph(), from, to, forward))
    }
}

impl PackageGraph {
    /// A cache for questions of dependence. It makes the room for every question.
    ///
    /// Takes memory for a number and two bits a package, and fails, with `OutOfMemory`, only where
    /// there is none.
    pub fn new_depends_cache(&self) -> Result<DependsCache<'_>, Error>
        ensures graph { IfOk result (λ c. c ≡ self.now) }
        ensures error { IsOkUnless result Error.OutOfMemory }
    {
        DependsCache::new(self)
    }
}
