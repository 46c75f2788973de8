//! Prints which packages depend on `core`, in the workspace whose metadata is on standard input.
#![tactic(auto)]

use guppy::PackageGraph;
use guppy::graph::{DependencyDirection, IntoGraph};
use guppy_metadata::records_of;
use std::io::{Read, Write};

fn print_dependents(rt: &HostRuntime, graph: &PackageGraph) -> anyhow::Result<()> {
    let core = graph.workspace().member_by_name("core")?;
    let dependents = graph.query_reverse([core.id()].iter().copied())?.resolve()?;
    for package in dependents.packages(DependencyDirection::Reverse) {
        writeln!(rt.stdout(), "{} {}", package.name(), package.version())?;
    }
    Ok(())
}

fn main(rt: HostRuntime) -> anyhow::Result<()> {
    let mut json = String::new(rt.alloc());
    rt.stdin().read_to_string(&mut json)?;
    let graph = records_of(rt.alloc(), json.as_str())?.into_graph()?;
    print_dependents(&rt, &graph)
}
