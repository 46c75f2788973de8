//! Words that mean no package, and the names near them.
ghost use Rattle.std.specs.Prelude.{◌≡◌, map, IfOk, MatchOption};
ghost use Rattle.std.specs.List.Sorted.{IsPermutation};
ghost use Rattle.guppy_data.specs.declared.texts.error.Error.TheVariants.{UnknownPackageId};
ghost use Rattle.guppy_process.specs.Cause.{library};
ghost use Rattle.guppy_arguments.specs.Fault.{cause_of};
ghost use Rattle.guppy_arguments.specs.Names.{name_of};
ghost use Rattle.guppy_cargo.specs.Unknown.{IsNearestName, IsFarFromNames, TellsUnknown};

use guppy::{Error, PackageGraph, PackageId};
use guppy_arguments::{CargoFault, nearest_of};
use guppy_process::Fault;
use std::alloc::AllocError;

// The name of each package.
fn names_in(graph: &PackageGraph) -> Result<Vec<&str>, AllocError>
    ensures { IfOk result (λ names.
        IsPermutation (map name_of graph.now.packages) (map (λ name. name.now) names.items)) }
{
    let mut names = Vec::with_capacity(graph.alloc(), graph.package_count())?;
    for package in graph.packages() {
        names.push(package.name())?;
    }
    Ok(names)
}

// The name of a package to which the fewest edits lead from the word, where at most three do.
fn nearest_name<'g>(graph: &'g PackageGraph, word: &str) -> Result<Option<&'g str>, AllocError>
    ensures { IfOk result (λ found. MatchOption found
        (IsFarFromNames graph.now.packages word.now)
        (λ name. IsNearestName graph.now.packages word.now name.now)) }
{
    let names = names_in(graph)?;
    nearest_of(graph.alloc(), word, names.as_slice())
}

/// The fault of a word that means no package. Takes time linear in the word's length times those of the
/// packages' names, and memory for a reference a package and for both words.
pub(crate) fn unknown(graph: &PackageGraph, word: PackageId) -> Result<CargoFault, AllocError>
    ensures cause { IfOk result (λ fault. cause_of fault ≡ library (UnknownPackageId word)) }
    ensures tells { IfOk result (TellsUnknown graph.now.packages word) }
{
    let Some(nearest) = nearest_name(graph, word.repr())? else {
        return Ok(CargoFault::Program(Fault::Library(Error::UnknownPackageId(word))));
    };
    let nearest = String::from_str(graph.alloc(), nearest)?;
    let word = String::from_str(graph.alloc(), word.repr())?;
    Ok(CargoFault::Unknown { word, nearest })
}
