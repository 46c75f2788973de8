//! The packages and the resolved nodes, read item by item, so that no value of the whole stands in memory.
ghost use Rattle.std.specs.Prelude.{◌≡◌, ◌++◌, ◌∷◌, List, [], Some, IfSome, OnSome, IsSomeAnd, codes};
ghost use Rattle.std.specs.List.{AllZip};
ghost use Rattle.json.specs.Json.{Json, max_depth, value};
ghost use Rattle.guppy_data.specs.declared.records.LinkRecord.{LinkRecord};
ghost use Rattle.guppy_data.specs.declared.records.PackageRecord.{PackageRecord};
ghost use Rattle.json.specs.Find.{get};
ghost use Rattle.guppy_metadata.specs.declared.types.Package.{Package};
ghost use Rattle.guppy_metadata.specs.Buffer.{links_in};
ghost use Rattle.guppy_metadata.specs.Links.{AreLinksOfList};
ghost use Rattle.guppy_metadata.specs.Members.{IsListOf};
ghost use Rattle.guppy_metadata.specs.Package.{IsParsedPackage, IsSlimPackage, ArePositions};
ghost use Rattle.guppy_metadata.specs.Sink.{AreRead};
ghost use Rattle.guppy_metadata.specs.Told.{AreShown, IsShortPackage, Tells, IsWith};

use crate::link_buffer::LinkBuffer;
use crate::node::read_node;
use crate::package::positions_of;
use crate::parts::read_package;
use crate::sink::{LinkSink, PackageSink, ReadLinks};
use crate::types::{Package, Shown, Told};
use guppy_data::Details;
use indexmap::IndexMap;
use json::{MAX_DEPTH, Reader, Token, Value};
use std::alloc::Global;

// Shows the sink the last package.
fn show_last<P: PackageSink>(shown: &mut Shown<'_, P>) -> Option<()>
    ensures { OnSome result ((before : List Package) (p : Package) → shown.old.packages.items ≡ before ++ p ∷ []
        → (q : Package) × (shown.new.packages.items ≡ before ++ q ∷ []) × IsShortPackage p q
        × ((whole left : List PackageRecord) → P.took shown.old.sink whole left
        → P.took shown.new.sink (whole ++ p.record ∷ []) (left ++ q.record ∷ []))) }
{
    let last = shown.packages.last_mut()?;
    shown.sink.take(&mut last.record).ok()
}

// The packages that the list that comes next tells, with details or without, each of which a sink is shown.
fn read_packages<'a, P: PackageSink>(
    alloc: Global,
    reader: &mut Reader<'a>,
    details: Details,
) -> Option<Shown<'a, P>>
    ensures { IfSome result (λ shown. (told : Json) × (value 127 reader.old ≡ Some (told, reader.new))
        × (whole : List Package) × IsListOf (IsParsedPackage details) told whole
        × AreShown P.took shown.sink whole shown.packages.items) }
{
    let Some(Token::BeginArray) = reader.next() else {
        return None;
    };
    let mut shown = Shown {
        sink: P::new(alloc),
        packages: Vec::new(alloc),
    };
    while !reader.take_end_array() {
        read_package(&mut shown.packages, alloc, reader, details)?;
        show_last(&mut shown)?;
    }
    Some(shown)
}

// How many dependencies the packages declare.
fn declared_count(packages: &[Package<'_>]) -> usize {
    let mut count: usize = 0;
    for package in packages {
        count = count.saturating_add(package.declared.len());
    }
    count
}

// No links, with the room that the sink asks for: one that leaves all has room for one of each dependency that the
// packages declare, so that none is moved.
fn room_for_links<S: LinkSink>(alloc: Global, packages: &[Package<'_>]) -> Option<LinkBuffer>
    ensures { IfSome result (λ links. links_in links ≡ []) }
{
    LinkBuffer::with_capacity(alloc, S::room(declared_count(packages))).ok()
}

// A sink for the links between the packages.
fn new_sink<S: LinkSink>(alloc: Global, packages: &[Package<'_>]) -> Option<S>
    ensures { IfSome result (λ sink. S.took sink []) }
{
    S::new(alloc, declared_count(packages)).ok()
}

// The links of the nodes of the list that comes next. Lets go what the packages of these declare.
fn read_nodes<S: LinkSink>(
    alloc: Global,
    reader: &mut Reader<'_>,
    packages: &mut [Package<'_>],
    positions: &IndexMap<String, usize>,
) -> Option<ReadLinks<S>>
    requires { ArePositions packages.old positions.now }
    ensures links { IfSome result (λ read. (told : Json)
        × (value 126 reader.old ≡ Some (told, reader.new))
        × (links : List LinkRecord) × AreRead S.took read links
        × AreLinksOfList packages.old told links) }
    ensures left { OnSome result (AllZip IsSlimPackage packages.old packages.new) }
{
    let Some(Token::BeginArray) = reader.next() else {
        return None;
    };
    let mut sink = new_sink::<S>(alloc, packages)?;
    let mut left = room_for_links::<S>(alloc, packages)?;
    while !reader.take_end_array() {
        read_node(&mut left, reader, packages, positions)?;
        sink.take(&mut left).ok()?;
    }
    Some(ReadLinks {
        sink,
        left: left.into_vec(),
    })
}

// The links of the nodes of the object that comes next. Lets go what the packages of these declare.
fn read_resolve<S: LinkSink>(
    alloc: Global,
    reader: &mut Reader<'_>,
    packages: &mut [Package<'_>],
    positions: &IndexMap<String, usize>,
) -> Option<ReadLinks<S>>
    requires { ArePositions packages.old positions.now }
    ensures links { IfSome result (λ read. (told : Json)
        × (value 127 reader.old ≡ Some (told, reader.new))
        × (links : List LinkRecord) × AreRead S.took read links
        × IsSomeAnd (get (codes "nodes") told)
        (λ nodes. AreLinksOfList packages.old nodes links)) }
    ensures left { OnSome result (AllZip IsSlimPackage packages.old packages.new) }
{
    let Some(Token::BeginObject) = reader.next() else {
        return None;
    };
    let mut links = None;
    while let Some(name) = reader.next_key().ok()? {
        if name == "nodes" {
            links = Some(read_nodes(alloc, reader, packages, positions)?);
        } else {
            reader.skip_value(MAX_DEPTH - 2).ok()?;
        }
    }
    links
}

// The links, between the packages, of the nodes of the object that comes next. Lets go what the packages of these
// declare.
fn read_links<'a, P: PackageSink, S: LinkSink>(
    so_far: &mut Told<'a, P, S>,
    alloc: Global,
    reader: &mut Reader<'a>,
) -> Option<ReadLinks<S>>
    ensures links { IfSome result (λ read. (told : Json)
        × (value 127 reader.old ≡ Some (told, reader.new))
        × (links : List LinkRecord) × AreRead S.took read links
        × IsSomeAnd so_far.old.packages (λ shown. IsSomeAnd (get (codes "nodes") told)
        (λ nodes. AreLinksOfList shown.packages.items nodes links))) }
    ensures left { OnSome result (IsSomeAnd so_far.old.packages (λ shown.
        IsSomeAnd so_far.new.packages (λ left. (left.sink ≡ shown.sink)
        × AllZip IsSlimPackage shown.packages.items left.packages.items))) }
    ensures others { so_far.new.others ≡ so_far.old.others }
{
    let packages = so_far.packages.as_mut()?.packages.as_mut_slice();
    let positions = positions_of(alloc, packages).ok()?;
    read_resolve(alloc, reader, packages, &positions)
}

// Reads the member of this name, whose value comes next.
fn read_member<'a, P: PackageSink, S: LinkSink>(
    so_far: &mut Told<'a, P, S>,
    alloc: Global,
    reader: &mut Reader<'a>,
    name: &'a str,
    details: Details,
) -> Option<()>
    ensures { OnSome result ((told : Json) × (value 127 reader.old ≡ Some (told, reader.new))
        × ((d e : Json) → IsWith name.now told d e
        → Tells P.took S.took details d so_far.old → Tells P.took S.took details e so_far.new)) }
{
    if name == "packages" {
        if so_far.links.is_some() {
            return None;
        }
        so_far.packages = Some(read_packages(alloc, reader, details)?);
    } else if name == "resolve" {
        so_far.links = Some(read_links(so_far, alloc, reader)?);
    } else {
        let value = Value::read(alloc, reader, MAX_DEPTH - 1).ok()?;
        so_far.others.push((name, value)).ok()?;
    }
    Some(())
}

/// What the object that comes next tells, with details or without. There is none where its packages don't stand
/// before what is resolved, as Cargo prints them, and where something is wrong: then the whole is to be read.
pub(crate) fn told_in<'a, P: PackageSink, S: LinkSink>(
    alloc: Global,
    reader: &mut Reader<'a>,
    details: Details,
) -> Option<Told<'a, P, S>>
    ensures { IfSome result (λ told. (d : Json)
        × (value max_depth reader.old ≡ Some (d, reader.new)) × Tells P.took S.took details d told) }
{
    let Some(Token::BeginObject) = reader.next() else {
        return None;
    };
    let mut told = Told {
        packages: None,
        links: None,
        others: Vec::new(alloc),
    };
    while let Some(name) = reader.next_key().ok()? {
        read_member(&mut told, alloc, reader, name, details)?;
    }
    Some(told)
}
