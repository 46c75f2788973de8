//! Which packages run on the host, the platform that builds.
ghost use Rattle.std.specs.Prelude.{◌≡◌, ◌++◌, ℕ, List, map, IfOk, OnOk};
ghost use Rattle.std.specs.List.{AllZip};
ghost use Rattle.guppy_closure.specs.declared.clause.Clause.{Clause};
ghost use Rattle.guppy_closure.specs.Named.{StandsAt, IsSameClause, AreSame};
ghost use Rattle.guppy_data.specs.declared.records.LinkRecord.{LinkRecord as LinkData};
ghost use Rattle.guppy_data.specs.declared.records.PackageRecord.{PackageRecord as PackageData};
ghost use Rattle.guppy_platforms.specs.Host.{is_macro_kind, is_macro, IsMark};
ghost use Rattle.guppy_platforms.specs.HostClauses.{package_clause, link_clause, clauses_of, Grows, AreApart};

use crate::counting::is_asked_for;
use guppy_closure::{Clause, ClosureFault, Known};
use guppy_data::{BuildTargetKindRecord, BuildTargetRecord, LinkRecord, PackageId, PackageRecord};
use indexmap::IndexSet;
use std::alloc::{AllocError, Global};

// Whether the target is a procedural macro.
fn is_macro_target(target: &BuildTargetRecord) -> bool
    ensures { result ≡ is_macro_kind target.now.kind }
{
    match target.kind {
        BuildTargetKindRecord::ProcMacro => true,
        _ => false,
    }
}

// Whether one of the package's targets is a procedural macro.
fn is_macro(it: &PackageRecord) -> bool
    ensures { result ≡ is_macro it.now }
{
    it.build_targets.iter().any(is_macro_target)
}

// The number of the ID among these, where it is put last if it isn't there.
fn number_of<'a>(ids: &mut IndexSet<&'a PackageId>, id: &'a PackageId) -> Result<usize, AllocError>
    ensures place { IfOk result (λ n. StandsAt (map (λ id. id.now) ids.new.keys) id.now n) }
    ensures grows { OnOk result (Grows (map (λ id. id.now) ids.old.keys) (map (λ id. id.now) ids.new.keys)) }
    ensures apart { OnOk result (AreApart (map (λ id. id.now) ids.new.keys)) }
{
    let (number, _) = ids.insert_full(id)?;
    Ok(number)
}

// What is said of the package, by the numbers of IDs.
fn package_clause<'a>(
    ids: &mut IndexSet<&'a PackageId>,
    it: &'a PackageRecord,
) -> Result<Clause<usize>, AllocError>
    ensures same { IfOk result (λ clause. IsSameClause (StandsAt (map (λ id. id.now) ids.new.keys)) (package_clause it.now) clause) }
    ensures grows { OnOk result (Grows (map (λ id. id.now) ids.old.keys) (map (λ id. id.now) ids.new.keys)) }
{
    let head = number_of(ids, &it.id)?;
    Ok(Clause {
        first: (!is_macro(it)).then_some(head),
        second: None,
        head,
    })
}

// What is said of the dependency, by the numbers of IDs.
fn link_clause<'a>(
    ids: &mut IndexSet<&'a PackageId>,
    link: &'a LinkRecord,
) -> Result<Clause<usize>, AllocError>
    ensures same { IfOk result (λ clause. IsSameClause (StandsAt (map (λ id. id.now) ids.new.keys)) (link_clause link.now) clause) }
    ensures grows { OnOk result (Grows (map (λ id. id.now) ids.old.keys) (map (λ id. id.now) ids.new.keys)) }
{
    let from = number_of(ids, &link.from)?;
    let head = number_of(ids, &link.to)?;
    Ok(Clause {
        first: (!is_asked_for(&link.build)).then_some(from),
        second: None,
        head,
    })
}

// What is said of the packages, by the numbers of IDs.
fn package_clauses<'a>(
    alloc: Global,
    ids: &mut IndexSet<&'a PackageId>,
    packages: &'a [PackageRecord],
) -> Result<Vec<Clause<usize>>, AllocError>
    ensures { IfOk result (λ clauses. AreSame (StandsAt (map (λ id. id.now) ids.new.keys)) (map package_clause packages.now) clauses.items) }
{
    let mut clauses = Vec::with_capacity(alloc, packages.len())?;
    for it in packages {
        clauses.push(package_clause(ids, it)?)?;
    }
    Ok(clauses)
}

// Puts behind the clauses what is said of the dependencies, by the numbers of IDs.
fn add_links<'a>(
    ids: &mut IndexSet<&'a PackageId>,
    clauses: &mut Vec<Clause<usize>>,
    links: &'a [LinkRecord],
) -> Result<(), AllocError>
    ensures { OnOk result ((before : List (Clause (List ℕ)))
        → AreSame (StandsAt (map (λ id. id.now) ids.old.keys)) before clauses.old.items
        → AreSame (StandsAt (map (λ id. id.now) ids.new.keys)) (before ++ map link_clause links.now) clauses.new.items) }
{
    for link in links {
        clauses.push(link_clause(ids, link)?)?;
    }
    Ok(())
}

// What is said of the packages and the dependencies, by the numbers of IDs.
fn clauses_of<'a>(
    alloc: Global,
    ids: &mut IndexSet<&'a PackageId>,
    packages: &'a [PackageRecord],
    links: &'a [LinkRecord],
) -> Result<Vec<Clause<usize>>, AllocError>
    ensures { IfOk result (λ clauses. AreSame (StandsAt (map (λ id. id.now) ids.new.keys)) (clauses_of packages.now links.now) clauses.items) }
{
    let mut clauses = package_clauses(alloc, ids, packages)?;
    add_links(ids, &mut clauses, links)?;
    Ok(clauses)
}

// Whether the package that depends runs on the host.
fn mark_of<'a>(
    known: &Known<usize>,
    ids: &mut IndexSet<&'a PackageId>,
    link: &'a LinkRecord,
) -> Result<bool, AllocError>
    ensures runs { IfOk result (λ mark. (packages : List PackageData) (links : List LinkData)
        → AreSame (StandsAt (map (λ id. id.now) ids.old.keys)) (clauses_of packages links) known.now
        → IsMark packages links link.now mark) }
    ensures grows { OnOk result (Grows (map (λ id. id.now) ids.old.keys) (map (λ id. id.now) ids.new.keys)) }
{
    let number = number_of(ids, &link.from)?;
    Ok(known.holds(&number))
}

// Of each link, whether the package that depends runs on the host.
fn known_marks<'a>(
    alloc: Global,
    known: &Known<usize>,
    ids: &mut IndexSet<&'a PackageId>,
    links: &'a [LinkRecord],
) -> Result<Vec<bool>, AllocError>
    ensures { IfOk result (λ marks. (packages : List PackageData) (all : List LinkData)
        → AreSame (StandsAt (map (λ id. id.now) ids.old.keys)) (clauses_of packages all) known.now
        → AllZip (IsMark packages all) links.now marks.items) }
{
    let mut marks = Vec::with_capacity(alloc, links.len())?;
    for link in links {
        marks.push(mark_of(known, ids, link)?)?;
    }
    Ok(marks)
}

/// Of each link, whether the package that depends runs on the host.
///
/// Time grows with the packages and links, times the logarithm of how many there are. Takes memory for some numbers a
/// package and link.
pub(crate) fn marks_of(
    alloc: Global,
    packages: &[PackageRecord],
    links: &[LinkRecord],
) -> Result<Vec<bool>, ClosureFault>
    ensures { IfOk result (λ marks. AllZip (IsMark packages.now links.now) links.now marks.items) }
{
    let mut ids = IndexSet::new(alloc);
    let clauses = clauses_of(alloc, &mut ids, packages, links)?;
    let known = Known::new(alloc, clauses)?;
    Ok(known_marks(alloc, &known, &mut ids, links)?)
}
