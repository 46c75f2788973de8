//! Links, of what packages declare and what is resolved.
ghost use Rattle.std.specs.Prelude.{◌≡◌, ◌++◌, ◌∷◌, [], List, true, false, filter, map, IfErr, OnOk, OnSome, MatchResult};
ghost use Rattle.std.specs.Option.{option_copied};
ghost use Rattle.guppy_data.specs.declared.records.LinkRecord.{LinkRecord};
ghost use Rattle.json.specs.Json.{Json, value};
ghost use Rattle.json.specs.Value.{value_view};
ghost use Rattle.guppy_metadata.specs.Buffer.{links_in};
ghost use Rattle.guppy_metadata.specs.Fault.{LacksMemory, NoneIs};
ghost use Rattle.guppy_metadata.specs.Fits.{fits, are_matched};
ghost use Rattle.guppy_metadata.specs.Key.{name_key};
ghost use Rattle.guppy_metadata.specs.Gathered.{IsLinkOf};
ghost use Rattle.guppy_metadata.specs.Links.{Joins, IsResolved, IsLink, AreLinksFrom, AreLinksOf, AreLinksOfAll};
ghost use Rattle.guppy_metadata.specs.Members.{data_of, IsListOf};
ghost use Rattle.guppy_metadata.specs.Package.{with_id, are_known, ArePositions};

use crate::fault::{Misfit, TextFault};
use crate::fits::{Wanted, are_matched, from_first_fitting};
use crate::key::name_key;
use crate::link_buffer::LinkBuffer;
use crate::object::Object;
use crate::package::positions_of;
use crate::resolved::{read_resolved, resolved_of};
use crate::types::{Package, Resolved};
use guppy_data::LinkRecord;
use indexmap::IndexMap;
use json::{Reader, Token, Value};
use std::alloc::Global;

/// The packages, and the position of each behind its ID.
#[derive(Clone, Copy)]
pub(crate) struct Packages<'p, 'a> {
    pub(crate) packages: &'p [Package<'a>],
    pub(crate) positions: &'p IndexMap<String, usize>,
}

impl<'p, 'a> Packages<'p, 'a> {
    ghost use Rattle.std.specs.Prelude.{◌≡◌};
    ghost use Rattle.std.specs.Option.{option_copied};
    ghost use Rattle.guppy_metadata.specs.Package.{with_id, ArePositions};

    /// The package with this ID.
    pub(crate) fn with_id(self, id: &str) -> Option<&'p Package<'a>>
        requires { ArePositions self.packages.now self.positions.now }
        ensures { option_copied result ≡ with_id id.now self.entry.packages.now }
    {
        let position = self.positions.get(id)?;
        self.packages.get(*position)
    }
}

// Adds the link between two packages.
fn add_link_between(
    links: &mut LinkBuffer,
    alloc: Global,
    from: &str,
    resolved: &Resolved<'_>,
    asking: &Package<'_>,
    needed: &Package<'_>,
) -> Result<(), Misfit>
    ensures added { OnOk result ((link : LinkRecord) × (links_in links.new ≡ links_in links.old ++ link ∷ [])
        × Joins from.now resolved.now.id.now resolved.now.name.now link
        × IsLinkOf (filter (fits asking.now resolved.now needed.now) asking.now.declared.items) link) }
    ensures matched { OnOk result (are_matched asking.now resolved.now needed.now
        asking.now.declared.items resolved.now.usages.items ≡ true) }
    ensures refused { IfErr result (NoneIs (λ (link : LinkRecord).
        IsLinkOf (filter (fits asking.now resolved.now needed.now) asking.now.declared.items) link
        × (are_matched asking.now resolved.now needed.now asking.now.declared.items resolved.now.usages.items
        ≡ true))) }
{
    let wanted = Wanted {
        from,
        asking,
        resolved,
        needed,
        key: name_key(needed.record.name.as_str()),
    };
    let declared = from_first_fitting(asking.declared.as_slice(), &wanted);
    let usages = resolved.usages.as_slice();
    let Some(first) = declared.first() else {
        return Err(Misfit::bad_text(alloc, "pkg", TextFault::NoDependency));
    };
    if !are_matched(usages, declared, &wanted) {
        return Err(Misfit::bad_text(alloc, "pkg", TextFault::NoDependency));
    }
    Ok(links.push_asked(first, declared, &wanted)?)
}

// Adds the link of a resolved dependency from the package with this ID, which is the one that asks. Where one of its ends
// is no package, which the package graph refuses, it is asked for in no section.
fn add_resolved(
    links: &mut LinkBuffer,
    alloc: Global,
    packages: Packages<'_, '_>,
    from: &str,
    asking: Option<&Package<'_>>,
    resolved: &Resolved<'_>,
) -> Result<(), Misfit>
    requires positions { ArePositions packages.packages.now packages.positions.now }
    requires asking { option_copied asking ≡ with_id from.now packages.packages.now }
    ensures added { OnOk result ((link : LinkRecord) × (links_in links.new ≡ links_in links.old ++ link ∷ [])
        × ((d : Json) → IsResolved d resolved.now → IsLink packages.entry.packages.now from.now d link)) }
    ensures refused { IfErr result (NoneIs (λ (link : LinkRecord). (d : Json) × IsResolved d resolved.now
        × IsLink packages.entry.packages.now from.now d link)) }
{
    match (asking, packages.with_id(resolved.id)) {
        (Some(asking), Some(needed)) => {
            add_link_between(links, alloc, from, resolved, asking, needed)
        }
        _ => Ok(links.push_unasked(from, resolved)?),
    }
}

// Adds the link from the package with this ID, which is the one that asks, that an object tells.
fn add_link(
    links: &mut LinkBuffer,
    packages: Packages<'_, '_>,
    from: &str,
    asking: Option<&Package<'_>>,
    dependency: Object<'_, '_>,
) -> Result<(), Misfit>
    requires positions { ArePositions packages.packages.now packages.positions.now }
    requires asking { option_copied asking ≡ with_id from.now packages.packages.now }
    ensures added { OnOk result ((link : LinkRecord) × (links_in links.new ≡ links_in links.old ++ link ∷ [])
        × IsLink packages.entry.packages.now from.now (data_of dependency.entry) link) }
    ensures refused { IfErr result
        (NoneIs (IsLink packages.entry.packages.now from.now (data_of dependency.entry))) }
{
    let resolved = resolved_of(dependency)?;
    add_resolved(links, dependency.alloc, packages, from, asking, &resolved)
}

// Adds the links of a node from the package with this ID: the items of the list `deps`.
fn add_links(
    links: &mut LinkBuffer,
    packages: Packages<'_, '_>,
    from: &str,
    node: Object<'_, '_>,
) -> Result<(), Misfit>
    requires { ArePositions packages.packages.now packages.positions.now }
    ensures added { OnOk result ((row : List LinkRecord) × (links_in links.new ≡ links_in links.old ++ row)
        × AreLinksFrom packages.entry.packages.now from.now (data_of node.entry) row) }
    ensures refused { IfErr result (NoneIs (AreLinksFrom packages.entry.packages.now from.now (data_of node.entry))) }
{
    let alloc = node.alloc;
    let items = node.list("deps")?;
    let asking = packages.with_id(from);
    for (index, item) in items.iter().enumerate() {
        let dependency = Object::of_item(alloc, "deps", index, item)?;
        match add_link(links, packages, from, asking, dependency) {
            Ok(()) => {}
            Err(fault) => return Err(fault.within_item(alloc, "deps", index)),
        }
    }
    Ok(())
}

// Adds the link from the package with this ID, which is the one that asks, that the object that comes next tells.
fn read_link(
    links: &mut LinkBuffer,
    reader: &mut Reader<'_>,
    packages: Packages<'_, '_>,
    from: &str,
    asking: Option<&Package<'_>>,
) -> Option<()>
    requires positions { ArePositions packages.packages.now packages.positions.now }
    requires asking { option_copied asking ≡ with_id from.now packages.packages.now }
    ensures { OnSome result ((told : Json) × (value 123 reader.old ≡ Some (told, reader.new))
        × (link : LinkRecord) × (links_in links.new ≡ links_in links.old ++ link ∷ [])
        × IsLink packages.entry.packages.now from.now told link) }
{
    let alloc = links.allocator();
    let resolved = read_resolved(alloc, reader)?;
    add_resolved(links, alloc, packages, from, asking, &resolved).ok()
}

/// Adds the links from the package with this ID that the list that comes next tells.
pub(crate) fn read_links(
    links: &mut LinkBuffer,
    reader: &mut Reader<'_>,
    packages: Packages<'_, '_>,
    from: &str,
) -> Option<()>
    requires { ArePositions packages.packages.now packages.positions.now }
    ensures { OnSome result ((told : Json) × (value 124 reader.old ≡ Some (told, reader.new))
        × (row : List LinkRecord) × (links_in links.new ≡ links_in links.old ++ row)
        × IsListOf (IsLink packages.entry.packages.now from.now) told row) }
{
    let Some(Token::BeginArray) = reader.next() else {
        return None;
    };
    let asking = packages.with_id(from);
    while !reader.take_end_array() {
        read_link(links, reader, packages, from, asking)?;
    }
    Some(())
}

/// Adds the links that leave the package of a node.
pub(crate) fn add_node(
    links: &mut LinkBuffer,
    packages: Packages<'_, '_>,
    node: Object<'_, '_>,
) -> Result<(), Misfit>
    requires { ArePositions packages.packages.now packages.positions.now }
    ensures added { OnOk result ((row : List LinkRecord) × (links_in links.new ≡ links_in links.old ++ row)
        × AreLinksOf packages.entry.packages.now (data_of node.entry) row) }
    ensures refused { IfErr result (NoneIs (AreLinksOf packages.entry.packages.now (data_of node.entry))) }
{
    let from = node.text("id")?;
    add_links(links, packages, from, node)
}

/// Adds the links that leave the package of the node that the item of the list `nodes` at this index is.
pub(crate) fn add_node_at(
    links: &mut LinkBuffer,
    alloc: Global,
    packages: Packages<'_, '_>,
    index: usize,
    item: &Value<'_>,
) -> Result<(), Misfit>
    requires { ArePositions packages.packages.now packages.positions.now }
    ensures added { OnOk result ((row : List LinkRecord) × (links_in links.new ≡ links_in links.old ++ row)
        × AreLinksOf packages.entry.packages.now (value_view item.now) row) }
    ensures refused { IfErr result (NoneIs (AreLinksOf packages.entry.packages.now (value_view item.now))) }
{
    let node = Object::of_item(alloc, "nodes", index, item)?;
    match add_node(links, packages, node) {
        Ok(()) => Ok(()),
        Err(fault) => Err(fault.within_item(alloc, "nodes", index)),
    }
}

/// The links of these nodes, which are the items of the list `nodes`.
pub(crate) fn links_of(
    alloc: Global,
    packages: Packages<'_, '_>,
    nodes: &[Value<'_>],
) -> Result<Vec<LinkRecord>, Misfit>
    requires { ArePositions packages.packages.now packages.positions.now }
    ensures { MatchResult result
        (λ links. AreLinksOfAll packages.entry.packages.now (map value_view nodes.now) links.items)
        (NoneIs (AreLinksOfAll packages.entry.packages.now (map value_view nodes.now))) }
{
    let mut links = LinkBuffer::with_capacity(alloc, 0)?;
    for (index, item) in nodes.iter().enumerate() {
        add_node_at(&mut links, alloc, packages, index, item)?;
    }
    Ok(links.into_vec())
}

/// Asks that each of these IDs is that of one of the packages.
pub(crate) fn check_members(
    alloc: Global,
    packages: &[Package<'_>],
    members: &[&str],
) -> Result<(), Misfit>
    ensures { MatchResult result
        (λ _. are_known packages.now (map (λ id. id.now) members.now) ≡ true)
        (λ misfit. ¬ LacksMemory misfit → are_known packages.now (map (λ id. id.now) members.now) ≡ false) }
{
    let positions = positions_of(alloc, packages)?;
    let known = Packages {
        packages,
        positions: &positions,
    };
    for (index, id) in members.iter().enumerate() {
        if known.with_id(id).is_none() {
            let fault = Misfit::bad_text(alloc, "", TextFault::NoPackage);
            return Err(fault.within_item(alloc, "workspace_members", index));
        }
    }
    Ok(())
}
