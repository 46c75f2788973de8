//! Queries: where to start, in which direction to go, and the set that a resolve includes.
ghost use Rattle.std.specs.Prelude.{◌≡◌, ◌↔◌, ◌<◌, IsTrue, length};
ghost use Rattle.guppy.specs.Query.{initials_of};
ghost use Rattle.guppy.specs.Visitors.{query_link, StartsFromInitial};
ghost use Rattle.guppy.specs.Views.{link_data};

mod recorder;
mod resolve;
mod start;
mod visitor;

use crate::link::PackageLink;
use crate::package_graph::{PackageGraph, Packages};
use crate::set::PackageSet;
pub use guppy_core::Recorder;
use guppy_core::{DependencyDirection, IxSet};
use std::alloc::AllocError;
use std::marker::Model;
pub use visitor::PackageLinkVisitor;

/// Where a resolve starts, and the direction in which it follows links.
#[derive(Drop)]
pub struct PackageQuery<'g> {
    pub(crate) initials: PackageSet<'g>,
    pub(crate) direction: DependencyDirection,
}

impl<'g> Model for PackageQuery<'g> {
    ghost use Rattle.guppy.specs.Query.{QueryData};
    ghost use Rattle.guppy_graph.specs.contracts.graph.RecordGraph as of_graph;
    ghost use Rattle.std.specs.Coded.{codes};

    ghost Value = { QueryData };

    ghost coded = { Prim.hlevel (codes, of_graph.the_row.coded) };

    ghost view = { λ q. record {
      graph = q.initials.graph;
      initials = q.initials.included;
      direction = q.direction;
    } };
}

impl<'g> PackageQuery<'g> {
    /// The graph that the query is of.
    pub fn graph(&self) -> &'g PackageGraph
        ensures { result.now ≡ self.now.graph }
    {
        self.initials.graph
    }

    /// The direction in which the query follows links.
    pub fn direction(&self) -> DependencyDirection
        ensures { result ≡ self.now.direction }
    {
        self.direction
    }

    /// The packages that the query starts at, in the query's graph.
    pub fn initials(&self) -> &PackageSet<'g>
        ensures { result.now ≡ initials_of self.now }
    {
        &self.initials
    }

    /// The positions of the packages that the query starts at.
    pub(crate) fn initial_ixs(&self) -> &IxSet<Packages>
        ensures initials { result.now ≡ self.now.initials }
        ensures count { length self.now.initials ≡ length self.now.graph.packages }
    {
        self.initials.included()
    }
}

/// A query that starts at the same packages of the same graph, in the same direction. Takes memory
/// for a bit a package.
impl Clone for PackageQuery<'_> {
    ghost is_clone = { λ s t. t ≡ s };

    fn clone(&self) -> Result<Self, AllocError> {
        let initials = self.initials.clone()?;
        Ok(PackageQuery {
            initials,
            direction: self.direction,
        })
    }
}

/// What a visitor is told beside the link that it is shown: the query that is resolved.
#[derive(Drop)]
pub struct PackageLinkContext<'g> {
    pub(crate) query: PackageQuery<'g>,
}

impl<'g> Model for PackageLinkContext<'g> {
    ghost use Rattle.guppy.specs.Query.{QueryData};
    ghost use Rattle.guppy_graph.specs.contracts.graph.RecordGraph as of_graph;
    ghost use Rattle.std.specs.Coded.{codes};

    ghost Value = { QueryData };

    ghost coded = { Prim.hlevel (codes, of_graph.the_row.coded) };

    ghost view = { λ c. c.query };
}

impl<'g> PackageLinkContext<'g> {
    /// The query that is resolved.
    pub fn query(&self) -> &PackageQuery<'g>
        ensures { result.now ≡ self.now }
    {
        &self.query
    }

    /// The direction in which the query follows links.
    pub fn direction(&self) -> DependencyDirection
        ensures { result ≡ self.now.direction }
    {
        self.query.direction
    }

    /// Whether the end that the link leaves, in the query's direction, has the ID of a package that
    /// the query starts at. The link may be of another graph.
    ///
    /// Time grows with the logarithm of the packages. Takes no memory.
    pub fn starts_from_initial(&self, link: &PackageLink<'_>) -> bool
        ensures { IsTrue result ↔ StartsFromInitial self.now (link_data link.now) }
    {
        let near_end = link.graph.link_at(link.number).near_end(self.direction());
        let package = link.graph.package_at(near_end);
        self.query().initials().has_id(&package.id)
    }

    /// The link of the query's graph with the number.
    pub(crate) fn link_at(&self, number: usize) -> PackageLink<'g>
        requires { number < length self.now.graph.links }
        ensures { link_data result ≡ query_link self.now number }
    {
        PackageLink {
            graph: self.query.graph(),
            number,
        }
    }
}

/// A context of the same query. Takes memory for a bit a package.
impl Clone for PackageLinkContext<'_> {
    ghost is_clone = { λ s t. t ≡ s };

    fn clone(&self) -> Result<Self, AllocError> {
        let query = self.query.clone()?;
        Ok(PackageLinkContext { query })
    }
}
