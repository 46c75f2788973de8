//! Packages as flags, as cargo takes them.
ghost use Rattle.std.specs.Prelude.{◌≡◌, length, map, string_bytes, IfOk};
ghost use Rattle.guppy_graph.specs.Ids.{DistinctBelow};
ghost use Rattle.guppy.specs.Views.{OfPackage};
ghost use Rattle.guppy_command.specs.Ids.{full_name_of};
ghost use Rattle.guppy_print.specs.Flags.{flag_of, spec_of};

use crate::format::Format;
use guppy::{PackageGraph, PackageId, PackageMetadata};
use guppy_command::Options;
use std::alloc::{AllocError, Global};

// `name@version`.
fn full_name_of(alloc: Global, metadata: PackageMetadata<'_>) -> Result<String, AllocError>
    ensures { IfOk result (λ name. OfPackage metadata.entry (λ r. string_bytes name ≡ full_name_of r)) }
{
    let name = metadata.name();
    let version = metadata.version();
    format!(in alloc; "{name}@{version}")
}

// By what cargo knows the package with the ID.
fn spec_of<F: Format>(
    alloc: Global,
    graph: &PackageGraph,
    names: &F::Names,
    id: &PackageId,
) -> Result<String, AllocError>
    requires names { F.are_names names.now graph.now.packages }
    requires distinct { DistinctBelow graph.now.packages (length graph.now.packages) }
    ensures { IfOk result (λ spec. string_bytes spec
        ≡ spec_of (F.format.meant graph.now.packages) graph.now.packages id.now) }
{
    let Ok(metadata) = graph.metadata(id) else {
        return String::from_str(alloc, id.repr());
    };
    let name = full_name_of(alloc, metadata)?;
    if F::means(alloc, graph, names, name.as_str(), id)? {
        Ok(name)
    } else {
        String::from_str(alloc, id.repr())
    }
}

// The flag of the package with the ID.
fn flag_of<F: Format>(
    alloc: Global,
    graph: &PackageGraph,
    options: &Options,
    names: &F::Names,
    id: &PackageId,
) -> Result<String, AllocError>
    requires names { F.are_names names.now graph.now.packages }
    requires distinct { DistinctBelow graph.now.packages (length graph.now.packages) }
    ensures { IfOk result (λ flag. string_bytes flag
        ≡ flag_of F.format options.now graph.now.packages id.now) }
{
    let mut flag = String::from_str(alloc, "--package=")?;
    if options.by_id {
        flag.push_str(id.repr())?;
    } else {
        let spec = spec_of::<F>(alloc, graph, names, id)?;
        flag.push_str(spec.as_str())?;
    }
    Ok(flag)
}

/// The flags of the packages with these IDs. Takes memory for them, and for a copy of each name with its version. Time
/// grows with them, times the logarithm of the packages.
pub(crate) fn flags_of<F: Format>(
    alloc: Global,
    graph: &PackageGraph,
    options: &Options,
    names: &F::Names,
    ids: &[&PackageId],
) -> Result<Vec<String>, AllocError>
    requires names { F.are_names names.now graph.now.packages }
    requires distinct { DistinctBelow graph.now.packages (length graph.now.packages) }
    ensures { IfOk result (λ flags. map string_bytes flags.items
        ≡ map (flag_of F.format options.now graph.now.packages) (map (λ id. id.now) ids.now)) }
{
    let mut flags = Vec::with_capacity(alloc, ids.len())?;
    for id in ids {
        flags.push(flag_of::<F>(alloc, graph, options, names, id)?)?;
    }
    Ok(flags)
}
