//! Links of a graph: what their records say, and the packages that they connect.
//!
//! No call takes memory. What is borrowed lives as long as the borrow of the graph, also where the
//! view of the link is gone.
ghost use Rattle.std.specs.Prelude.{◌≡◌, ◌<◌, length, Some, slice_get};
ghost use Rattle.std.specs.Option.{option_copied, option_map};
ghost use Rattle.std.specs.String.{string_bytes};
ghost use Rattle.guppy_search.specs.Links.{seen_link};
ghost use Rattle.guppy_data.specs.DependencyReq.{seen_req};
ghost use Rattle.guppy_data.specs.Utf8Path.{path_text};
ghost use Rattle.guppy_graph.specs.DevOnly.{is_dev_only};
ghost use Rattle.guppy_graph.specs.Sections.{section_of};

use crate::metadata::{PackageMetadata, path_of, text_of};
use crate::package_graph::PackageGraph;
use guppy_core::Link;
use guppy_data::{DependencyKind, DependencyReq, LinkRecord, Utf8Path};
use guppy_graph::is_dev_only;
use semver::VersionReq;

/// A link of a graph.
#[derive(Clone, Copy)]
pub struct PackageLink<'g> {
    pub(crate) graph: &'g PackageGraph,
    pub(crate) number: usize,
    ghost in_graph: { number < length graph.now.links },
}

impl<'g> PackageLink<'g> {
    ghost use Rattle.guppy.specs.Views.{graph_of, package_position, link_graph, link_number, OfLink};

    // The link between positions, with its record.
    fn link(self) -> Link<&'g LinkRecord>
        ensures at { slice_get (link_graph self.entry).now.links (link_number self.entry)
            ≡ Some (seen_link result) }
        ensures from { result.from < length (link_graph self.entry).now.packages }
        ensures to { result.to < length (link_graph self.entry).now.packages }
    {
        self.graph.link_at(self.number)
    }

    /// The package that depends.
    pub fn from(self) -> PackageMetadata<'g>
        ensures graph { graph_of result ≡ link_graph self.entry }
        ensures position { OfLink self.entry (λ l. package_position result ≡ l.from) }
    {
        PackageMetadata {
            graph: self.graph,
            position: self.link().from,
        }
    }

    /// The package depended on.
    pub fn to(self) -> PackageMetadata<'g>
        ensures graph { graph_of result ≡ link_graph self.entry }
        ensures position { OfLink self.entry (λ l. package_position result ≡ l.to) }
    {
        PackageMetadata {
            graph: self.graph,
            position: self.link().to,
        }
    }

    /// The package that depends, and the one depended on.
    pub fn endpoints(self) -> (PackageMetadata<'g>, PackageMetadata<'g>)
        ensures from_graph { graph_of result.0 ≡ link_graph self.entry }
        ensures to_graph { graph_of result.1 ≡ link_graph self.entry }
        ensures positions { OfLink self.entry
            (λ l. (package_position result.0 ≡ l.from) × (package_position result.1 ≡ l.to)) }
    {
        (self.from(), self.to())
    }

    /// The number of the link, its place in the list that the graph was made of.
    pub fn link_ix(self) -> usize
        ensures { result ≡ link_number self.entry }
    {
        self.number
    }

    /// The dependency's name in the manifest.
    pub fn dep_name(self) -> &'g str
        ensures { OfLink self.entry (λ l. result.now ≡ string_bytes l.edge.dep_name) }
    {
        self.link().edge.dep_name.as_str()
    }

    /// The dependency's name in the code.
    pub fn resolved_name(self) -> &'g str
        ensures { OfLink self.entry (λ l. result.now ≡ string_bytes l.edge.resolved_name) }
    {
        self.link().edge.resolved_name.as_str()
    }

    /// The versions that are asked for.
    pub fn version_req(self) -> &'g VersionReq
        ensures { OfLink self.entry (λ l. result.now ≡ l.edge.version_req) }
    {
        &self.link().edge.version_req
    }

    /// The registry that is asked for.
    pub fn registry(self) -> Option<&'g str>
        ensures { OfLink self.entry (λ l. option_copied result
            ≡ option_map string_bytes l.edge.registry) }
    {
        text_of(&self.link().edge.registry)
    }

    /// The path that is asked for.
    pub fn path(self) -> Option<Utf8Path<'g>>
        ensures { OfLink self.entry (λ l. option_map path_text result ≡ l.edge.path) }
    {
        path_of(&self.link().edge.path)
    }

    /// The dependency as a normal one.
    pub fn normal(self) -> DependencyReq<'g>
        ensures { OfLink self.entry (λ l. seen_req result ≡ l.edge.normal) }
    {
        DependencyReq::new(&self.link().edge.normal)
    }

    /// The dependency as a build dependency.
    pub fn build(self) -> DependencyReq<'g>
        ensures { OfLink self.entry (λ l. seen_req result ≡ l.edge.build) }
    {
        DependencyReq::new(&self.link().edge.build)
    }

    /// The dependency as a dev-dependency.
    pub fn dev(self) -> DependencyReq<'g>
        ensures { OfLink self.entry (λ l. seen_req result ≡ l.edge.dev) }
    {
        DependencyReq::new(&self.link().edge.dev)
    }

    /// The dependency as one of the kind.
    pub fn req_for_kind(self, kind: DependencyKind) -> DependencyReq<'g>
        ensures { OfLink self.entry (λ l. seen_req result ≡ section_of kind l.edge) }
    {
        match kind {
            DependencyKind::Normal => self.normal(),
            DependencyKind::Development => self.dev(),
            DependencyKind::Build => self.build(),
        }
    }

    /// Whether the link is there for development alone: neither its normal nor its build section has
    /// a status other than never. So it is true also where no section has.
    pub fn dev_only(self) -> bool
        ensures { OfLink self.entry (λ l. result ≡ is_dev_only l.edge) }
    {
        is_dev_only(self.link().edge)
    }
}
