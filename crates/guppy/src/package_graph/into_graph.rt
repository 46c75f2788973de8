//! What a package graph is made of.
ghost use Rattle.std.specs.Prelude.{List, IfOk, IfErr, OnOk};
ghost use Rattle.guppy_data.specs.declared.records.PackageRecord.{PackageRecord as PackageData};
ghost use Rattle.guppy_data.specs.declared.records.LinkRecord.{LinkRecord as LinkData};
ghost use Rattle.guppy_data.specs.declared.records.WorkspaceRecord.{WorkspaceRecord as WorkspaceData};
ghost use Rattle.guppy_graph.specs.Accepted.{IsAccepted};
ghost use Rattle.guppy_graph.specs.Graph.{Holds};
ghost use Rattle.guppy_graph.specs.Refused.{IsRefusal};

use crate::package_graph::PackageGraph;
use guppy_data::{Error, Records};

/// What has the records of a package graph.
pub trait IntoGraph {
    /// The packages.
    ghost packages: { Self → List PackageData };

    /// The links.
    ghost links: { Self → List LinkData };

    /// The workspace.
    ghost workspace: { Self → WorkspaceData };

    /// The package graph of the records: what `PackageGraph::from_records` makes of them, with its errors,
    /// time and memory.
    fn into_graph(self) -> Result<PackageGraph, Error>
        ensures holds { IfOk result (λ g. Holds g (packages self) (links self) (workspace self)) }
        ensures accepted { OnOk result
            (IsAccepted (packages self) (links self) (workspace self)) }
        ensures refused { IfErr result
            (IsRefusal (packages self) (links self) (workspace self)) };
}

impl IntoGraph for Records {
    ghost packages = { λ r. r.packages.items };

    ghost links = { λ r. r.links.items };

    ghost workspace = { λ r. r.workspace };

    fn into_graph(self) -> Result<PackageGraph, Error> {
        PackageGraph::from_records(self.packages, self.links, self.workspace)
    }
}
