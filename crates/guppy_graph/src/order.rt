ghost use Rattle.std.specs.Prelude.{◌≡◌, ◌*◌, ◌≤◌, length, IfOk};
ghost use Rattle.guppy_graph.specs.Ordered.{IsOrdered, AreOrderLooks};

use crate::dev_only::is_dev_only;
use crate::graph::Packages;
use guppy_core::{CountedGraph, Graph, PackageIx, Sccs, TopoWithCycles};
use guppy_data::LinkRecord;
use std::alloc::AllocError;

/// The order of a graph's packages, and what it was made of.
#[derive(Drop)]
pub(crate) struct Order {
    /// The index by the links that aren't dev-only.
    pub(crate) topo: TopoWithCycles<PackageIx>,
    /// The components over all links, in the order.
    pub(crate) sccs: Sccs<PackageIx>,
    /// How many links were looked at for both.
    pub(crate) looks: u64,
}

/// The order of the graph's packages. Looks at each link three times, and once more at those that
/// leave packages to which links that aren't dev-only lead from a root of these.
pub(crate) fn order_of(graph: &Graph<Packages>) -> Result<Order, AllocError>
    ensures ordered { IfOk result
        (λ o. IsOrdered (length graph.now.nodes) graph.now.links o.topo o.sccs) }
    ensures looked { IfOk result
        (λ o. AreOrderLooks (length graph.now.nodes) graph.now.links o.looks) }
    ensures least { IfOk result (λ o. 3 * length graph.now.links ≤ o.looks) }
    ensures most { IfOk result (λ o. o.looks ≤ 4 * length graph.now.links) }
{
    let mut counted = CountedGraph::new(graph);
    let topo = TopoWithCycles::new(&mut counted, |link: &LinkRecord| !is_dev_only(link))?;
    let sccs = Sccs::new(&mut counted, &topo)?;
    Ok(Order {
        topo,
        sccs,
        looks: counted.looks(),
    })
}
