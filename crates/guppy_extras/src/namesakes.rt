//! Packages that are there more than once: those whose name another package has, too, and the packages that
//! need them.
//!
//! ```
//! for row in guppy_extras::duplicates(&graph)? {
//!     println!(rt; "{}, which {} packages need", row[0].repr(), row.len() - 1)?;
//! }
//! ```
ghost use Rattle.std.specs.Prelude.{◌≡◌, ◌↔◌, ◌<◌, IsTrue, IfOk, IsOkUnless, length, map, slice_get, IsSomeAnd};
ghost use Rattle.std.specs.Option.{option_cmp};
ghost use Rattle.std.specs.Borrow.{Bor};
ghost use Rattle.guppy_graph.specs.Graph.{GraphData};
ghost use Rattle.guppy.specs.Views.{graph_of, graph_packages, package_position};
ghost use Rattle.guppy_extras.specs.Duplicates.{HasNamesake, AreDuplicates, by_name, row_of};
ghost use Rattle.guppy_extras.specs.Sorted.{record_of, HaveOneName, AreSorted};

use guppy::{Error, PackageGraph, PackageId, PackageMetadata};
use std::alloc::AllocError;
use std::cmp::Ordering;

// Compares two packages by name, then by version, and then by ID.
fn compare(a: &PackageMetadata<'_>, b: &PackageMetadata<'_>) -> Ordering
    ensures { result ≡ option_cmp by_name (record_of a.now) (record_of b.now) }
{
    a.name()
        .cmp(b.name())
        .then(a.version().cmp_precedence(b.version()))
        .then(a.id().cmp(b.id()))
}

// The packages, ascending in this order.
fn sorted(graph: &PackageGraph) -> Result<Vec<PackageMetadata<'_>>, AllocError>
    ensures { IfOk result (λ packages. AreSorted graph.entry packages.items) }
{
    let mut packages: Vec<PackageMetadata<'_>> = graph.packages().collect(graph.alloc())?;
    packages.sort_unstable_by(compare);
    Ok(packages)
}

fn have_one_name(a: PackageMetadata<'_>, b: PackageMetadata<'_>) -> bool
    ensures { IsTrue result ↔ HaveOneName (record_of a.entry) (record_of b.entry) }
{
    a.name() == b.name()
}

// Whether another package has the name of the one at the place. Packages of one name are neighbours.
fn has_namesake(packages: &[PackageMetadata<'_>], place: usize) -> bool
    requires sorted { (g : Bor GraphData) × AreSorted g packages.now }
    requires within { place < length packages.now }
    ensures { IsSomeAnd (slice_get packages.now place)
        (λ m. IsTrue result ↔ HasNamesake (graph_packages m) (package_position m)) }
{
    if place > 0 && have_one_name(packages[place - 1], packages[place]) {
        return true;
    }
    place + 1 < packages.len() && have_one_name(packages[place], packages[place + 1])
}

// The ID of the package, and those of the packages with a link to it.
fn row_of<'g>(package: PackageMetadata<'g>) -> Result<Vec<&'g PackageId>, AllocError>
    ensures { IfOk result (λ row. map (λ id. id.now) row.items
        ≡ row_of (graph_of «package».entry).now (package_position «package».entry)) }
{
    let mut row = Vec::new(package.graph().alloc());
    row.push(package.id())?;
    'links: for link in package.reverse_direct_links() {
        row.push(link.from().id())?;
    }
    Ok(row)
}

/// A row for each package whose name another package has, too: its ID, and behind it the IDs of the packages
/// with a link straight to it, of any kind, in the order of the links. Where it has a link to itself, it is
/// among them.
///
/// The rows ascend by the packages' names, as bytes; those of one name by version, without build metadata, and
/// then by ID.
///
/// `OutOfMemory`, the only error, comes where a growth was refused. Time grows with the packages times their
/// logarithm, and with the links to those that have rows. Takes memory for a few numbers a package, and for a
/// reference an ID in the answer.
pub fn duplicates(graph: &PackageGraph) -> Result<Vec<Vec<&PackageId>>, Error>
    ensures rows { IfOk result (λ rows. AreDuplicates graph.now
        (map (λ row. map (λ id. id.now) row.items) rows.items)) }
    ensures error { IsOkUnless result Error.OutOfMemory }
{
    let packages = sorted(graph)?;
    let mut rows = Vec::new(graph.alloc());
    for (place, package) in packages.iter().enumerate() {
        if has_namesake(&packages, place) {
            rows.push(row_of(*package)?)?;
        }
    }
    Ok(rows)
}
