ghost use Rattle.std.specs.Prelude.{List, IfOk, IsSomeAnd};
ghost use Rattle.json.specs.Json.{document};
ghost use Rattle.guppy.specs.DataTypes.records.LinkRecord.{LinkRecord};
ghost use Rattle.guppy.specs.Links.{AreLinksOf};
ghost use Rattle.guppy_metadata.specs.Links.{AreLinks};
ghost use Rattle.guppy_metadata.specs.Package.{ArePackages};
ghost use Rattle.guppy_metadata.specs.Workspace.{IsWorkspace};

use guppy::{Error, IntoGraph, PackageGraph};
use guppy_metadata::{MetadataFault, records_of};
use std::alloc::Global;

/// Why a text makes no graph.
#[derive(Debug, Drop)]
pub enum LoadError {
    /// `records_of` refused the text.
    Metadata(MetadataFault),
    /// `into_graph` refused the records.
    Graph(Error),
}

/// The graph that the output of `cargo metadata --format-version 1` describes.
pub fn load(alloc: Global, json: &str) -> Result<PackageGraph, LoadError>
    ensures packages { IfOk result (λ g. IsSomeAnd (document json.now) (λ d. ArePackages d g.packages)) }
    ensures links { IfOk result (λ g. IsSomeAnd (document json.now) (λ d. (records : List LinkRecord)
        × AreLinks d records × AreLinksOf g.packages records g.links)) }
    ensures workspace { IfOk result (λ g. IsSomeAnd (document json.now) (λ d. IsWorkspace d g.workspace)) }
{
    let records = records_of(alloc, json).map_err(LoadError::Metadata)?;
    let graph = records.into_graph().map_err(LoadError::Graph)?;
    Ok(graph)
}
