//! The parts of a package graph, made of records.
ghost use Rattle.std.specs.Prelude.{◌≡◌, ℕ, ◌<◌, ◌≤◌, List, IfOk, IfErr, OnOk, MatchOption, IsTrue, All, length, ◌↔◌};
ghost use Rattle.guppy_data.specs.declared.records.LinkRecord.{LinkRecord};
ghost use Rattle.guppy_graph.specs.First.{IsFirstWithout};
ghost use Rattle.guppy_graph.specs.Keys.{NoneBelow, DifferBelow, IsFirstRepeat};
ghost use Rattle.guppy_graph.specs.Ids.{HasId, IsKnown};
ghost use Rattle.guppy_graph.specs.Members.{HasPath, HasName};
ghost use Rattle.guppy_graph.specs.Indexes.{IsIdIndex, IsPathIndex, IsNameIndex, AreTargetIndexes, AreIndexes};
ghost use Rattle.guppy_graph.specs.Targets.{AreTargetsDistinct, AreTargetsNamed, IsNamed, IsFirstRepeatedTarget, IsFirstUnnamedTarget};
ghost use Rattle.guppy_graph.specs.Accepted.{ArePackagesAccepted};
ghost use Rattle.guppy_graph.specs.Links.{AreEndsKnown, AreEndsOf};
ghost use Rattle.guppy_graph.specs.Refused.{TellsFault, IsRefusal};

use crate::hints::IdHints;
use crate::joined::{ids_in, joined_ids};
use crate::keyed::index_from;
use crate::keys::{
    Ids, Keys, Name, Path, index_by_id, index_by_name, index_by_target, position_of_id, texts_of,
};
use crate::likely::likely_order;
use guppy_core::{LIMIT, Link};
use guppy_data::{
    BuildTargetRecord, ConstructFault, Error, LinkRecord, OwnedBuildTargetId, PackageId,
    PackageRecord, WorkspaceRecord,
};
use std::alloc::{AllocError, Global};

// For how many links the ends are guessed at a time. Records lie far apart, and so do their texts and the hints:
// a loop that compares nothing waits for several of them at once.
const GUESSES: usize = 64;

/// Positions in the order of what they are looked up by.
#[derive(Drop)]
pub(crate) struct Indexes {
    /// The packages by ID.
    pub(crate) by_id: Vec<usize>,
    /// The workspace members by path.
    pub(crate) by_path: Vec<usize>,
    /// The workspace members by name.
    pub(crate) by_name: Vec<usize>,
    /// For each package, the places of its build targets by ID.
    pub(crate) by_target: Vec<Vec<usize>>,
    /// Where the package with an ID may be.
    pub(crate) hints: IdHints,
}

impl Indexes {
    /// The position of the package with the ID. Mostly takes one comparison, and at most a few more than a
    /// logarithm of the packages.
    pub(crate) fn position_of_id(&self, packages: &[PackageRecord], id: &PackageId) -> Option<usize>
        requires { IsIdIndex packages.now self.now.by_id.items }
        ensures { MatchOption result (NoneBelow (HasId packages.now) id.now (length packages.now))
            (HasId packages.now id.now) }
    {
        self.hints
            .find(&Ids::new(packages), self.by_id.as_slice(), id)
    }
}

// Whether the target has the name that a library and a build script need.
fn is_named(target: &BuildTargetRecord) -> bool
    ensures { IsTrue result ↔ IsNamed target.now }
{
    match target.id {
        OwnedBuildTargetId::Library | OwnedBuildTargetId::BuildScript => target.lib_name.is_some(),
        _ => true,
    }
}

// The first target that lacks its name.
fn first_unnamed(targets: &[BuildTargetRecord]) -> Option<usize>
    ensures { MatchOption result (All IsNamed targets.now)
        (IsFirstWithout IsNamed targets.now) }
{
    for (place, target) in targets.iter().enumerate() {
        if !is_named(target) {
            return Some(place);
        }
    }
    None
}

// The first package and its first target that lacks its name.
fn first_with_unnamed_target(packages: &[PackageRecord]) -> Option<(usize, usize)>
    ensures { MatchOption result (All AreTargetsNamed packages.now)
        (λ p. IsFirstUnnamedTarget packages.now p.0 p.1) }
{
    for (position, record) in packages.iter().enumerate() {
        if let Some(target) = first_unnamed(record.build_targets.as_slice()) {
            return Some((position, target));
        }
    }
    None
}

// The first default member that is no package.
fn first_unknown_member(ids: &Ids<'_>, by_id: &[usize], members: &[PackageId]) -> Option<usize>
    requires { IsIdIndex ids.now.packages.now by_id.now }
    ensures { MatchOption result (All (IsKnown ids.now.packages.now) members.now)
        (IsFirstWithout (IsKnown ids.now.packages.now) members.now) }
{
    for (index, id) in members.iter().enumerate() {
        if position_of_id(ids, by_id, id).is_none() {
            return Some(index);
        }
    }
    None
}

// The packages by ID, where no two have one ID.
fn distinct_ids(alloc: Global, ids: &Ids<'_>) -> Result<Vec<usize>, Error>
    ensures made { IfOk result (λ index. IsIdIndex ids.now.packages.now index.items) }
    ensures accepted { OnOk result (DifferBelow (HasId ids.now.packages.now)
        (length ids.now.packages.now)) }
    ensures refused { IfErr result (TellsFault (λ fault. (p : ℕ)
        × (fault ≡ ConstructFault.RepeatedPackageId p)
        × IsFirstRepeat (HasId ids.now.packages.now) p)) }
{
    let likely = likely_order(alloc, ids)?;
    let (by_id, repeat) = index_by_id(alloc, ids, likely.as_slice())?;
    if let Some(package) = repeat {
        return Err(ConstructFault::RepeatedPackageId { package }.into());
    }
    Ok(by_id)
}

// For each package, the places of its build targets by ID, where no two of one package have one ID.
fn distinct_targets(alloc: Global, packages: &[PackageRecord]) -> Result<Vec<Vec<usize>>, Error>
    ensures made { IfOk result (λ indexes. AreTargetIndexes packages.now indexes.items) }
    ensures accepted { OnOk result (All AreTargetsDistinct packages.now) }
    ensures refused { IfErr result (TellsFault (λ fault. (p t : ℕ)
        × (fault ≡ ConstructFault.RepeatedBuildTarget p t)
        × IsFirstRepeatedTarget packages.now p t)) }
{
    let mut indexes = Vec::with_capacity(alloc, packages.len())?;
    for (package, record) in packages.iter().enumerate() {
        let (index, repeat) = index_by_target(alloc, record.build_targets.as_slice())?;
        if let Some(target) = repeat {
            return Err(ConstructFault::RepeatedBuildTarget { package, target }.into());
        }
        indexes.push(index)?;
    }
    Ok(indexes)
}

// Checks that each target has the name that it needs.
fn check_target_names(packages: &[PackageRecord]) -> Result<(), Error>
    ensures accepted { OnOk result (All AreTargetsNamed packages.now) }
    ensures refused { IfErr result (TellsFault (λ fault. (p t : ℕ)
        × (fault ≡ ConstructFault.UnnamedBuildTarget p t)
        × IsFirstUnnamedTarget packages.now p t)) }
{
    if let Some((package, target)) = first_with_unnamed_target(packages) {
        return Err(ConstructFault::UnnamedBuildTarget { package, target }.into());
    }
    Ok(())
}

// The workspace members by path, where no two have one path.
fn distinct_paths(
    alloc: Global,
    packages: &[PackageRecord],
    by_id: &[usize],
) -> Result<Vec<usize>, Error>
    requires { IsIdIndex packages.now by_id.now }
    ensures made { IfOk result (λ index. IsPathIndex packages.now index.items) }
    ensures accepted { OnOk result (DifferBelow (HasPath packages.now) (length packages.now)) }
    ensures refused { IfErr result (TellsFault (λ fault. (p : ℕ)
        × (fault ≡ ConstructFault.RepeatedWorkspacePath p)
        × IsFirstRepeat (HasPath packages.now) p)) }
{
    let texts = texts_of::<Path>(alloc, packages)?;
    let paths: Keys<'_, Path> = Keys::listed(packages, texts.as_slice());
    let (by_path, repeat) = index_from(alloc, &paths, by_id)?;
    if let Some(package) = repeat {
        return Err(ConstructFault::RepeatedWorkspacePath { package }.into());
    }
    Ok(by_path)
}

// The workspace members by name, where no two have one name.
fn distinct_names(
    alloc: Global,
    packages: &[PackageRecord],
    by_id: &[usize],
) -> Result<Vec<usize>, Error>
    requires { IsIdIndex packages.now by_id.now }
    ensures made { IfOk result (λ index. IsNameIndex packages.now index.items) }
    ensures accepted { OnOk result (DifferBelow (HasName packages.now) (length packages.now)) }
    ensures refused { IfErr result (TellsFault (λ fault. (p : ℕ)
        × (fault ≡ ConstructFault.RepeatedWorkspaceName p)
        × IsFirstRepeat (HasName packages.now) p)) }
{
    let texts = texts_of::<Name>(alloc, packages)?;
    let names = Keys::listed(packages, texts.as_slice());
    let (by_name, repeat) = index_by_name(alloc, &names, by_id)?;
    if let Some(package) = repeat {
        return Err(ConstructFault::RepeatedWorkspaceName { package }.into());
    }
    Ok(by_name)
}

// Checks that each default member is a package.
fn check_members(ids: &Ids<'_>, by_id: &[usize], members: &[PackageId]) -> Result<(), Error>
    requires { IsIdIndex ids.now.packages.now by_id.now }
    ensures accepted { OnOk result (All (IsKnown ids.now.packages.now) members.now) }
    ensures refused { IfErr result (TellsFault (λ fault. (i : ℕ)
        × (fault ≡ ConstructFault.UnknownDefaultMember i)
        × IsFirstWithout (IsKnown ids.now.packages.now) members.now i)) }
{
    if let Some(index) = first_unknown_member(ids, by_id, members) {
        return Err(ConstructFault::UnknownDefaultMember { index }.into());
    }
    Ok(())
}

// The indexes of packages, not too many, that break no rule. Otherwise the first broken rule is told.
fn indexes_of(alloc: Global, ids: &Ids<'_>, workspace: &WorkspaceRecord) -> Result<Indexes, Error>
    requires { length ids.now.packages.now ≤ 4294967295 }
    ensures made { IfOk result (AreIndexes ids.now.packages.now) }
    ensures accepted { OnOk result (ArePackagesAccepted ids.now.packages.now workspace.now) }
    ensures refused { IfErr result
        (λ e. (links : List LinkRecord) → IsRefusal ids.now.packages.now links workspace.now e) }
{
    let packages = ids.packages;
    let by_id = distinct_ids(alloc, ids)?;
    let by_target = distinct_targets(alloc, packages)?;
    check_target_names(packages)?;
    let by_path = distinct_paths(alloc, packages, by_id.as_slice())?;
    let by_name = distinct_names(alloc, packages, by_id.as_slice())?;
    let members = workspace.default_members.as_slice();
    check_members(ids, by_id.as_slice(), members)?;
    let hints = IdHints::new(alloc, ids)?;
    Ok(Indexes {
        by_id,
        by_path,
        by_name,
        by_target,
        hints,
    })
}

// Guesses at the positions of the ends of the first records, so many.
fn guesses_of(hints: &IdHints, records: &[LinkRecord]) -> [(usize, usize); GUESSES] {
    let mut guesses = [(0, 0); GUESSES];
    for (guess, entry) in guesses.iter_mut().zip(records) {
        *guess = (hints.guess(&entry.from), hints.guess(&entry.to));
    }
    guesses
}

// The positions of the ends of the records.
fn ends_of(
    alloc: Global,
    ids: &Ids<'_>,
    indexes: &Indexes,
    records: &[LinkRecord],
) -> Result<Vec<Link<()>>, Error>
    requires { IsIdIndex ids.now.packages.now indexes.now.by_id.items }
    ensures ok { IfOk result (λ ends. AreEndsOf ids.now.packages.now records.now ends.items) }
    ensures err { IfErr result (TellsFault (λ fault. (link : ℕ)
        × (fault ≡ ConstructFault.UnknownLinkEnd link)
        × IsFirstWithout (AreEndsKnown ids.now.packages.now) records.now link)) }
{
    let mut ends = Vec::with_capacity(alloc, records.len())?;
    let (hints, by_id) = (&indexes.hints, indexes.by_id.as_slice());
    let mut guesses = [(0, 0); GUESSES];
    for (number, entry) in records.iter().enumerate() {
        if number % GUESSES == 0 {
            guesses = guesses_of(hints, &records[number..]);
        }
        let (from_guess, to_guess) = guesses[number % GUESSES];
        let Some(from) = hints.find_from(ids, by_id, &entry.from, from_guess) else {
            return Err(unknown_end(number));
        };
        let Some(to) = hints.find_from(ids, by_id, &entry.to, to_guess) else {
            return Err(unknown_end(number));
        };
        ends.push(Link { from, to, edge: () })?;
    }
    Ok(ends)
}

fn unknown_end(link: usize) -> Error
    ensures { result ≡ Error.PackageGraphConstructError (ConstructFault.UnknownLinkEnd link) }
{
    Error::PackageGraphConstructError(ConstructFault::UnknownLinkEnd { link })
}

/// The indexes of the packages, and the positions of the ends of the links, where the records break no rule
/// but perhaps the last. Otherwise the first broken rule is told.
pub(crate) fn indexes_and_ends(
    alloc: Global,
    packages: &[PackageRecord],
    links: &[LinkRecord],
    workspace: &WorkspaceRecord,
) -> Result<(Indexes, Vec<Link<()>>), Error>
    ensures indexes { IfOk result (λ made. AreIndexes packages.now made.0) }
    ensures ends { IfOk result (λ made. AreEndsOf packages.now links.now made.1.items) }
    ensures accepted { OnOk result (ArePackagesAccepted packages.now workspace.now) }
    ensures few_links { OnOk result (length links.now ≤ 4294967295) }
    ensures refused { IfErr result (IsRefusal packages.now links.now workspace.now) }
{
    if packages.len() > LIMIT {
        return Err(ConstructFault::TooManyPackages.into());
    }
    let joined = joined_ids(alloc, packages)?;
    let texts = ids_in(alloc, packages, joined.as_str())?;
    let ids = Ids::listed(packages, texts.as_slice());
    let indexes = indexes_of(alloc, &ids, workspace)?;
    if links.len() > LIMIT {
        return Err(ConstructFault::TooManyLinks.into());
    }
    let ends = ends_of(alloc, &ids, &indexes, links)?;
    Ok((indexes, ends))
}
