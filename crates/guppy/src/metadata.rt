//! Packages of a graph: what their records say, and the links that leave them.
//!
//! No call takes memory, but for the error that names an unknown ID. What is borrowed lives as long
//! as the borrow of the graph, also where the view of the package is gone.
ghost use Rattle.std.specs.Prelude.{◌≡◌, ◌↔◌, ◌<◌, IsTrue, IsSome, Some, length, slice_get};
ghost use Rattle.std.specs.Option.{option_copied, option_map};
ghost use Rattle.std.specs.String.{string_bytes};
ghost use Rattle.guppy_data.specs.PackagePublish.{recorded_publish, seen_publish};
ghost use Rattle.guppy_data.specs.PackageSource.{recorded_origin, seen_origin};
ghost use Rattle.guppy_data.specs.Utf8Path.{path_text};
ghost use Rattle.guppy_graph.specs.Members.{member_path};
ghost use Rattle.guppy_graph.specs.Ids.{ix_position};

mod features;
mod links;
mod targets;

use crate::package_graph::PackageGraph;
pub use features::{FeatureIndexInPackage, NamedFeatures, NamedFeaturesFull, OptionalDepsFull};
use guppy_core::{IndexType, PackageIx};
use guppy_data::{PackageId, PackagePublish, PackageRecord, PackageSource, Utf8Path, Utf8PathBuf};
pub use links::PackageLinks;
use semver::Version;
use serde_json::Value;
pub use targets::BuildTargets;

/// A package of a graph.
#[derive(Clone, Copy)]
pub struct PackageMetadata<'g> {
    pub(crate) graph: &'g PackageGraph,
    pub(crate) position: usize,
    ghost in_graph: { position < length graph.now.packages },
}

impl<'g> PackageMetadata<'g> {
    ghost use Rattle.guppy.specs.Views.{graph_of, graph_packages, package_position, OfPackage};

    /// The graph that the package is of.
    pub fn graph(self) -> &'g PackageGraph
        ensures { result ≡ graph_of self.entry }
    {
        self.graph
    }

    /// The position of the package, its place in the list that the graph was made of.
    pub fn package_ix(self) -> PackageIx
        ensures { ix_position result ≡ package_position self.entry }
    {
        self.graph.ix_at(self.position)
    }

    // The record of the package.
    fn record(self) -> &'g PackageRecord
        ensures { slice_get (graph_packages self.entry) (package_position self.entry)
            ≡ Some result.now }
    {
        self.graph.package_at(self.position)
    }

    /// The ID, which no other package of the graph has.
    pub fn id(self) -> &'g PackageId
        ensures { OfPackage self.entry (λ r. result.now ≡ r.id) }
    {
        &self.record().id
    }

    /// The name.
    pub fn name(self) -> &'g str
        ensures { OfPackage self.entry (λ r. result.now ≡ string_bytes r.name) }
    {
        self.record().name.as_str()
    }

    /// The version.
    pub fn version(self) -> &'g Version
        ensures { OfPackage self.entry (λ r. result.now ≡ r.version) }
    {
        &self.record().version
    }

    /// The authors.
    pub fn authors(self) -> &'g [String]
        ensures { OfPackage self.entry (λ r. result.now ≡ r.authors.items) }
    {
        self.record().authors.as_slice()
    }

    /// The description.
    pub fn description(self) -> Option<&'g str>
        ensures { OfPackage self.entry
            (λ r. option_copied result ≡ option_map string_bytes r.description) }
    {
        text_of(&self.record().description)
    }

    /// The license, as an SPDX expression.
    pub fn license(self) -> Option<&'g str>
        ensures { OfPackage self.entry
            (λ r. option_copied result ≡ option_map string_bytes r.license) }
    {
        text_of(&self.record().license)
    }

    /// The path of the license's text, from the manifest.
    pub fn license_file(self) -> Option<Utf8Path<'g>>
        ensures { OfPackage self.entry (λ r. option_map path_text result ≡ r.license_file) }
    {
        path_of(&self.record().license_file)
    }

    /// Where the package comes from.
    pub fn source(self) -> PackageSource<'g>
        ensures { OfPackage self.entry (λ r. seen_origin result ≡ recorded_origin r.source) }
    {
        PackageSource::new(&self.record().source)
    }

    /// Whether the package is a member of the workspace.
    pub fn in_workspace(self) -> bool
        ensures { OfPackage self.entry (λ r. IsTrue result ↔ IsSome (member_path r)) }
    {
        self.source().is_workspace()
    }

    /// The path of the package's `Cargo.toml`.
    pub fn manifest_path(self) -> Utf8Path<'g>
        ensures { OfPackage self.entry (λ r. path_text result ≡ r.manifest_path) }
    {
        self.record().manifest_path.as_path()
    }

    /// The categories.
    pub fn categories(self) -> &'g [String]
        ensures { OfPackage self.entry (λ r. result.now ≡ r.categories.items) }
    {
        self.record().categories.as_slice()
    }

    /// The keywords.
    pub fn keywords(self) -> &'g [String]
        ensures { OfPackage self.entry (λ r. result.now ≡ r.keywords.items) }
    {
        self.record().keywords.as_slice()
    }

    /// The path of the readme, from the manifest.
    pub fn readme(self) -> Option<Utf8Path<'g>>
        ensures { OfPackage self.entry (λ r. option_map path_text result ≡ r.readme) }
    {
        path_of(&self.record().readme)
    }

    /// The URL of the repository.
    pub fn repository(self) -> Option<&'g str>
        ensures { OfPackage self.entry
            (λ r. option_copied result ≡ option_map string_bytes r.repository) }
    {
        text_of(&self.record().repository)
    }

    /// The URL of the homepage.
    pub fn homepage(self) -> Option<&'g str>
        ensures { OfPackage self.entry
            (λ r. option_copied result ≡ option_map string_bytes r.homepage) }
    {
        text_of(&self.record().homepage)
    }

    /// The URL of the documentation.
    pub fn documentation(self) -> Option<&'g str>
        ensures { OfPackage self.entry
            (λ r. option_copied result ≡ option_map string_bytes r.documentation) }
    {
        text_of(&self.record().documentation)
    }

    /// The Rust edition.
    pub fn edition(self) -> &'g str
        ensures { OfPackage self.entry (λ r. result.now ≡ string_bytes r.edition) }
    {
        self.record().edition.as_str()
    }

    /// The manifest's free table `package.metadata`.
    pub fn metadata_table(self) -> &'g Value
        ensures { OfPackage self.entry (λ r. result.now ≡ r.metadata_table) }
    {
        &self.record().metadata_table
    }

    /// The native library that the package links to.
    pub fn links(self) -> Option<&'g str>
        ensures { OfPackage self.entry
            (λ r. option_copied result ≡ option_map string_bytes r.links) }
    {
        text_of(&self.record().links)
    }

    /// Where the package may be published.
    pub fn publish(self) -> PackagePublish<'g>
        ensures { OfPackage self.entry (λ r. seen_publish result ≡ recorded_publish r.publish) }
    {
        PackagePublish::new(&self.record().publish)
    }

    /// The binary that `cargo run` runs.
    pub fn default_run(self) -> Option<&'g str>
        ensures { OfPackage self.entry
            (λ r. option_copied result ≡ option_map string_bytes r.default_run) }
    {
        text_of(&self.record().default_run)
    }

    /// The oldest Rust that builds the package.
    pub fn rust_version(self) -> Option<&'g Version>
        ensures { OfPackage self.entry (λ r. option_copied result ≡ r.rust_version) }
    {
        self.record().rust_version.as_ref()
    }
}

/// The text, borrowed.
pub(crate) fn text_of(text: &Option<String>) -> Option<&str>
    ensures { option_copied result ≡ option_map string_bytes text.now }
{
    text.as_ref().map(|text| text.as_str())
}

/// The path, borrowed.
pub(crate) fn path_of(path: &Option<Utf8PathBuf>) -> Option<Utf8Path<'_>>
    ensures { option_map path_text result ≡ path.now }
{
    path.as_ref().map(|path| path.as_path())
}
