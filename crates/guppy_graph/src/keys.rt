//! The keys of packages and build targets: IDs, paths and names of workspace members, target IDs.
ghost use Rattle.std.specs.Prelude.{◌≡◌, ◌↔◌, ℕ, List, Option, length, map, slice_get, IsTrue, IfOk, MatchOption};
ghost use Rattle.std.specs.Option.{ForSome, option_copied};
ghost use Rattle.std.specs.Cmp.{IsTotalOrder};
ghost use Rattle.std.specs.List.{range_with_len};
ghost use Rattle.std.specs.List.Sorted.{IsPermutation};
ghost use Rattle.std.specs.declared.cmp.Ordering.{Ordering};
ghost use Rattle.guppy_data.specs.Utf8Path.{path_text};
ghost use Rattle.guppy_data.specs.declared.records.PackageRecord.{PackageRecord};
ghost use Rattle.guppy_graph.specs.Keys.{or_empty, item_key, NoneBelow, IsFirstWith, DifferBelow, IsFirstRepeat};
ghost use Rattle.guppy_graph.specs.Ids.{HasId};
ghost use Rattle.guppy_graph.specs.Members.{path_at, name_at, HasPath, HasName, IsMemberPath, IsMemberName};
ghost use Rattle.guppy_graph.specs.Targets.{HasTarget};
ghost use Rattle.guppy_graph.specs.Indexes.{IsIdIndex, IsPathIndex, IsNameIndex, IsTargetIndex};

use crate::keyed::{Keyed, KeyedByText, index_from, index_of, position_of};
use guppy_data::{
    BuildTargetId, BuildTargetRecord, PackageId, PackageRecord, PackageSourceRecord, Utf8Path,
};
use std::alloc::{AllocError, Global};
use std::cmp::Ordering;
use std::marker::PhantomData;

/// What packages are looked up by: a text that a package may have, and an order of such texts.
pub(crate) trait Key {
    /// The text of the package, if it has one.
    ghost text_of: { PackageRecord → Option (List ℕ) };

    ghost order: { List ℕ → List ℕ → Ordering };

    ghost total: { IsTotalOrder order };

    fn text_of(item: &PackageRecord) -> Option<&str>
        ensures { option_copied result ≡ text_of item.now };

    fn compare(text: &str, other: &str) -> Ordering
        ensures { result ≡ order text.now other.now };
}

/// The IDs of packages.
pub(crate) struct Id;

/// The paths of workspace members.
pub(crate) struct Path;

/// The names of workspace members.
pub(crate) struct Name;

/// Packages by one of their keys. The texts may stand in a list, so that looking at many of them reads no records,
/// which lie far apart.
#[derive(Drop)]
pub(crate) struct Keys<'a, K: Key> {
    pub(crate) packages: &'a [PackageRecord],
    texts: &'a [Option<&'a str>],
    key: PhantomData<K>,
    ghost own: { (p : ℕ) → ForSome (slice_get texts.now p)
        (λ text. option_copied text ≡ item_key K.text_of packages.now p) },
}

/// Packages by their IDs.
pub(crate) type Ids<'a> = Keys<'a, Id>;

/// Build targets of one package by their IDs.
#[derive(Clone, Copy)]
pub(crate) struct TargetIds<'a>(pub(crate) &'a [BuildTargetRecord]);

/// The path of the member at the position, and the empty path where there is none.
pub fn path_at(packages: &[PackageRecord], position: usize) -> Utf8Path<'_>
    ensures { path_text result ≡ or_empty (path_at packages.now position) }
{
    let paths: Keys<'_, Path> = Keys::new(packages);
    Utf8Path::new(or_empty(paths.text_at(position)))
}

/// The name of the member at the position, and the empty text where there is none.
pub fn name_at(packages: &[PackageRecord], position: usize) -> &str
    ensures { result.now ≡ or_empty (name_at packages.now position) }
{
    let names: Keys<'_, Name> = Keys::new(packages);
    or_empty(names.text_at(position))
}

// The text, and the empty one where there is none.
fn or_empty(text: Option<&str>) -> &str
    ensures { result.now ≡ or_empty (option_copied text.entry) }
{
    match text {
        Some(text) => text,
        None => "",
    }
}

/// The texts of the packages.
pub(crate) fn texts_of<K: Key>(
    alloc: Global,
    packages: &[PackageRecord],
) -> Result<Vec<Option<&str>>, AllocError>
    ensures { IfOk result (λ texts. map option_copied texts.items ≡ map K.text_of packages.now) }
{
    let mut texts = Vec::with_capacity(alloc, packages.len())?;
    for package in packages.iter() {
        texts.push(K::text_of(package))?;
    }
    Ok(texts)
}

impl<'a, K: Key> Keys<'a, K> {
    /// The packages alone.
    pub(crate) fn new(packages: &'a [PackageRecord]) -> Self
        ensures { result.packages.now ≡ packages.entry.now }
    {
        Keys {
            packages,
            texts: &[],
            key: PhantomData,
        }
    }

    /// The packages, and their texts.
    pub(crate) fn listed(packages: &'a [PackageRecord], texts: &'a [Option<&'a str>]) -> Self
        requires { map option_copied texts.now ≡ map K.text_of packages.now }
        ensures { result.packages.now ≡ packages.entry.now }
    {
        Keys {
            packages,
            texts,
            key: PhantomData,
        }
    }

    /// The text of the package at the position, if there is one.
    pub(crate) fn text_at(&self, position: usize) -> Option<&'a str>
        ensures { option_copied result ≡ item_key K.text_of self.now.packages.now position }
    {
        match self.texts.get(position) {
            Some(text) => *text,
            None => K::text_of(self.packages.get(position)?),
        }
    }
}

impl Keys<'_, Id> {
    /// Whether the package at the position has the ID.
    pub(crate) fn has_id(&self, position: usize, id: &str) -> bool
        ensures { IsTrue result ↔ HasId self.now.packages.now id.now position }
    {
        match self.text_at(position) {
            Some(own) => own == id,
            None => false,
        }
    }
}

/// The first package with the ID. Time grows with the logarithm of the packages.
pub(crate) fn position_of_id(ids: &Ids<'_>, by_id: &[usize], id: &PackageId) -> Option<usize>
    requires { IsIdIndex ids.now.packages.now by_id.now }
    ensures { let packages = ids.now.packages.now in
        MatchOption result (NoneBelow (HasId packages) id.now (length packages))
        (IsFirstWith (HasId packages) id.now) }
{
    position_of(ids, by_id, id.repr())
}

/// The member with the path.
pub(crate) fn position_of_path(
    packages: &[PackageRecord],
    by_path: &[usize],
    path: Utf8Path<'_>,
) -> Option<usize>
    requires { IsPathIndex packages.now by_path.now }
    ensures { MatchOption result (¬ IsMemberPath packages.now (path_text path.entry))
        (HasPath packages.now (path_text path.entry)) }
{
    let paths: Keys<'_, Path> = Keys::new(packages);
    position_of(&paths, by_path, path.as_str())
}

/// The member with the name.
pub(crate) fn position_of_name(
    packages: &[PackageRecord],
    by_name: &[usize],
    name: &str,
) -> Option<usize>
    requires { IsNameIndex packages.now by_name.now }
    ensures { MatchOption result (¬ IsMemberName packages.now name.now)
        (HasName packages.now name.now) }
{
    let names: Keys<'_, Name> = Keys::new(packages);
    position_of(&names, by_name, name)
}

/// The packages by ID, and the first with the ID of an earlier one. Sorting begins from the likely order, and is soon
/// done where that is the right one.
pub(crate) fn index_by_id(
    alloc: Global,
    ids: &Ids<'_>,
    likely: &[usize],
) -> Result<(Vec<usize>, Option<usize>), AllocError>
    requires { IsPermutation (range_with_len 0 (length ids.now.packages.now)) likely.now }
    ensures index { IfOk result (λ made. IsIdIndex ids.now.packages.now made.0.items) }
    ensures repeat { let packages = ids.now.packages.now in
        IfOk result (λ made. MatchOption made.1 (DifferBelow (HasId packages) (length packages))
        (IsFirstRepeat (HasId packages))) }
{
    index_from(alloc, ids, likely)
}

/// The workspace members by name, and the first with the name of an earlier one. Sorting begins from the order of the
/// IDs, and is soon done where names go with them.
pub(crate) fn index_by_name(
    alloc: Global,
    names: &Keys<'_, Name>,
    by_id: &[usize],
) -> Result<(Vec<usize>, Option<usize>), AllocError>
    requires { IsPermutation (range_with_len 0 (length names.now.packages.now)) by_id.now }
    ensures index { IfOk result (λ made. IsNameIndex names.now.packages.now made.0.items) }
    ensures repeat { let packages = names.now.packages.now in
        IfOk result (λ made. MatchOption made.1 (DifferBelow (HasName packages) (length packages))
        (IsFirstRepeat (HasName packages))) }
{
    index_from(alloc, names, by_id)
}

/// The places of the targets by ID, and the first with the ID of an earlier one.
pub(crate) fn index_by_target(
    alloc: Global,
    targets: &[BuildTargetRecord],
) -> Result<(Vec<usize>, Option<usize>), AllocError>
    ensures index { IfOk result (λ made. IsTargetIndex targets.now made.0.items) }
    ensures repeat { IfOk result (λ made. MatchOption made.1
        (DifferBelow (HasTarget targets.now) (length targets.now))
        (IsFirstRepeat (HasTarget targets.now))) }
{
    index_of(alloc, &TargetIds(targets))
}

impl Key for Id {
    ghost use Rattle.std.specs.Prelude.{Some};
    ghost use Rattle.std.specs.Ordering.{nat_cmp};
    ghost use Rattle.std.specs.Cmp.Lexicographic.{slice_cmp};
    ghost use Rattle.std.proofs.lemmas.Cmp.{nat_list_cmp_total};

    ghost text_of = { λ r. Some r.id };

    ghost order = { slice_cmp nat_cmp };

    ghost total = { nat_list_cmp_total };

    fn text_of(item: &PackageRecord) -> Option<&str> {
        Some(item.id.repr())
    }

    fn compare(text: &str, other: &str) -> Ordering {
        text.cmp(other)
    }
}

impl Key for Path {
    ghost use Rattle.guppy_data.specs.Path.{path_cmp};
    ghost use Rattle.guppy_graph.specs.Members.{member_path};
    ghost use Rattle.guppy_graph.specs.PathOrder.{path_total};

    ghost text_of = { member_path };

    ghost order = { path_cmp };

    ghost total = { path_total };

    fn text_of(item: &PackageRecord) -> Option<&str> {
        match &item.source {
            PackageSourceRecord::Workspace(path) => Some(path.as_path().as_str()),
            PackageSourceRecord::Path(_) | PackageSourceRecord::External(_) => None,
        }
    }

    fn compare(text: &str, other: &str) -> Ordering {
        Utf8Path::new(text).cmp(&Utf8Path::new(other))
    }
}

impl Key for Name {
    ghost use Rattle.std.specs.Ordering.{nat_cmp};
    ghost use Rattle.std.specs.Cmp.Lexicographic.{slice_cmp};
    ghost use Rattle.std.proofs.lemmas.Cmp.{nat_list_cmp_total};
    ghost use Rattle.guppy_graph.specs.Members.{member_name};

    ghost text_of = { member_name };

    ghost order = { slice_cmp nat_cmp };

    ghost total = { nat_list_cmp_total };

    fn text_of(item: &PackageRecord) -> Option<&str> {
        match item.source {
            PackageSourceRecord::Workspace(_) => Some(item.name.as_str()),
            PackageSourceRecord::Path(_) | PackageSourceRecord::External(_) => None,
        }
    }

    fn compare(text: &str, other: &str) -> Ordering {
        text.cmp(other)
    }
}

impl<K: Key> Keyed for Keys<'_, K> {
    ghost use Rattle.std.specs.Prelude.{length};
    ghost use Rattle.guppy_graph.specs.Keys.{item_key};

    ghost count = { λ s. length s.packages.now };

    ghost key_at = { λ s p. item_key K.text_of s.packages.now p };

    ghost order = { K.order };

    ghost total = { K.total };

    fn position_count(&self) -> usize {
        self.packages.len()
    }

    fn has_key(&self, position: usize) -> bool {
        self.text_at(position).is_some()
    }

    fn compare(&self, a: usize, b: usize) -> Ordering {
        K::compare(or_empty(self.text_at(a)), or_empty(self.text_at(b)))
    }
}

impl<K: Key> KeyedByText for Keys<'_, K> {
    fn compare_to(&self, position: usize, text: &str) -> Ordering {
        K::compare(or_empty(self.text_at(position)), text)
    }
}

impl Keyed for TargetIds<'_> {
    ghost use Rattle.std.specs.Prelude.{length};
    ghost use Rattle.std.specs.Ordering.{nat_cmp};
    ghost use Rattle.std.specs.Cmp.Lexicographic.{slice_cmp};
    ghost use Rattle.std.proofs.lemmas.Cmp.{nat_list_cmp_total};
    ghost use Rattle.guppy_graph.specs.Targets.{target_at};

    ghost count = { λ s. length s.0.now };

    ghost key_at = { λ s t. target_at s.0.now t };

    ghost order = { slice_cmp nat_cmp };

    ghost total = { nat_list_cmp_total };

    fn position_count(&self) -> usize {
        self.0.len()
    }

    fn has_key(&self, position: usize) -> bool {
        self.0.get(position).is_some()
    }

    fn compare(&self, a: usize, b: usize) -> Ordering {
        match (self.0.get(a), self.0.get(b)) {
            (Some(target), Some(other)) => {
                BuildTargetId::new(&target.id).cmp(&BuildTargetId::new(&other.id))
            }
            (Some(_), None) => Ordering::Greater,
            (None, Some(_)) => Ordering::Less,
            (None, None) => Ordering::Equal,
        }
    }
}
