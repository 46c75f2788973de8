//! All records, of JSON that is read item by item, or where that gives none, as a whole.
ghost use Rattle.std.specs.Prelude.{◌≡◌, ◌↔◌, List, true, Some, IsSome, IsSomeAnd, IfOk, OnOk, IfErr, MatchResult, None, map, codes};
ghost use Rattle.json.specs.Json.{document, array};
ghost use Rattle.json.specs.Value.{items_of, value_view};
ghost use Rattle.guppy_data.specs.declared.records.LinkRecord.{LinkRecord};
ghost use Rattle.guppy_data.specs.declared.records.PackageRecord.{PackageRecord};
ghost use Rattle.guppy_data.specs.declared.records.WorkspaceRecord.{WorkspaceRecord};
ghost use Rattle.guppy_metadata.specs.Fault.{IsNotJson, IsNotResolved, IsOutOfMemory, NoneIs};
ghost use Rattle.guppy_metadata.specs.Links.{AreLinksOfAll, nodes_in};
ghost use Rattle.guppy_metadata.specs.Members.{data_of, present};
ghost use Rattle.guppy_metadata.specs.Package.{are_known};
ghost use Rattle.guppy_metadata.specs.Records.{AreRecordsWith, SaysNoRecordsWith, IsUnresolved};
ghost use Rattle.guppy_metadata.specs.Sink.{AreReadRecords};

use crate::by_item::records_by_item;
use crate::fault::{MetadataFault, Misfit};
use crate::link::{Packages, check_members, links_of};
use crate::object::Object;
use crate::package::{package_records, packages_of, positions_of};
use crate::sink::{LinkSink, NoSink, PackageSink, ReadRecords};
use crate::types::Package;
use crate::workspace::{member_ids, workspace_record};
use guppy_data::{Details, LinkRecord, Records};
use json::{Error, MAX_DEPTH, Reader, Scratch, Value};
use std::alloc::Global;

// The value that the JSON is.
fn value_of<'a>(
    alloc: Global,
    json: &'a str,
    scratch: &'a mut Scratch,
) -> Result<Value<'a>, MetadataFault>
    ensures json { IfOk result (λ value. document json.now ≡ Some (value_view value)) }
    ensures no_json { IfErr result (λ fault. IsNotJson fault → document json.now ≡ None) }
    ensures resolved { IfErr result (λ fault. ¬ IsNotResolved fault) }
    ensures blamed { IfErr result (λ fault. ¬ IsOutOfMemory fault → IsNotJson fault) }
    ensures refused { IfErr result (λ fault. ¬ IsOutOfMemory fault → document json.now ≡ None) }
{
    let mut reader = Reader::new(json, scratch)?;
    match Value::read(alloc, &mut reader, MAX_DEPTH) {
        Ok(value) if reader.next().is_none() => Ok(value),
        Err(Error::OutOfMemory) => Err(MetadataFault::OutOfMemory),
        _ => Err(MetadataFault::no_json(json, reader.offset())),
    }
}

// The nodes of the resolved dependencies.
fn nodes_of<'v, 'a>(metadata: Object<'v, 'a>) -> Result<&'v Vec<Value<'a>>, Misfit>
    ensures { MatchResult result
        (λ nodes. nodes_in (data_of metadata.entry) ≡ Some (array (items_of (map value_view nodes.now.items))))
        (NoneIs (λ nodes. nodes_in (data_of metadata.entry) ≡ Some (array nodes))) }
{
    let resolve = metadata.object("resolve")?;
    match resolve.list("nodes") {
        Ok(nodes) => Ok(nodes),
        Err(fault) => Err(fault.within(metadata.alloc, "resolve")),
    }
}

// The links of the nodes between the packages, of which each member is one.
fn links_between(
    alloc: Global,
    packages: &[Package<'_>],
    members: &[&str],
    nodes: &[Value<'_>],
) -> Result<Vec<LinkRecord>, Misfit>
    ensures { MatchResult result
        (λ links. (are_known packages.now (map (λ id. id.now) members.now) ≡ true)
        × AreLinksOfAll packages.now (map value_view nodes.now) links.items)
        (NoneIs (λ (links : List LinkRecord).
        (are_known packages.now (map (λ id. id.now) members.now) ≡ true)
        × AreLinksOfAll packages.now (map value_view nodes.now) links)) }
{
    check_members(alloc, packages, members)?;
    let positions = positions_of(alloc, packages)?;
    let known = Packages {
        packages,
        positions: &positions,
    };
    match links_of(alloc, known, nodes) {
        Ok(links) => Ok(links),
        Err(fault) => Err(fault.within(alloc, "resolve")),
    }
}

// The records that the JSON says, with details or without.
fn records_in(metadata: Object<'_, '_>, details: Details) -> Result<Records, Misfit>
    ensures { MatchResult result
        (λ r. AreRecordsWith details (data_of metadata.entry) r.packages.items r.links.items r.workspace)
        (NoneIs (λ (said : List PackageRecord × List LinkRecord × WorkspaceRecord).
        AreRecordsWith details (data_of metadata.entry) said.0 said.1 said.2)) }
{
    let alloc = metadata.alloc;
    let nodes = nodes_of(metadata)?;
    let workspace = workspace_record(metadata)?;
    let members = member_ids(metadata)?;
    let packages = packages_of(metadata, details)?;
    let nodes = nodes.as_slice();
    let links = links_between(alloc, packages.as_slice(), members.as_slice(), nodes)?;
    let root = workspace.root.as_path();
    let packages = package_records(alloc, packages, members.as_slice(), root)?;
    Ok(Records {
        packages,
        links,
        workspace,
    })
}

// The records that the text says, with details or without, read as a whole.
fn whole_records(
    alloc: Global,
    json: &str,
    scratch: &mut Scratch,
    details: Details,
) -> Result<Records, MetadataFault>
    ensures json { OnOk result (IsSome (document json.now)) }
    ensures records { IfOk result (λ r. IsSomeAnd (document json.now)
        (λ d. AreRecordsWith details d r.packages.items r.links.items r.workspace)) }
    ensures no_json { IfErr result (λ fault. IsNotJson fault → document json.now ≡ None) }
    ensures not_resolved { IfErr result (λ fault. IsNotResolved fault
        → IsSomeAnd (document json.now) (λ d. present (codes "resolve") d ≡ None)) }
    ensures tells_no_json { IfErr result (λ fault. ¬ IsOutOfMemory fault
        → IsNotJson fault ↔ (document json.now ≡ None)) }
    ensures tells_unresolved { IfErr result (λ fault. ¬ IsOutOfMemory fault
        → IsNotResolved fault ↔ IsUnresolved json.now) }
    ensures refused { IfErr result (λ fault. ¬ IsOutOfMemory fault → SaysNoRecordsWith details json.now) }
{
    let value = value_of(alloc, json, scratch)?;
    let metadata = match Object::new(alloc, &value) {
        Ok(metadata) => metadata,
        Err(misfit) => return Err(misfit.within(alloc, "the JSON").into()),
    };
    if metadata.optional("resolve").is_none() {
        return Err(MetadataFault::NotResolved);
    }
    Ok(records_in(metadata, details)?)
}

/// The records that the text says, with details or without, of which sinks may take details of packages, and links.
pub(crate) fn read_from<P: PackageSink, S: LinkSink>(
    alloc: Global,
    json: &str,
    details: Details,
) -> Result<ReadRecords<P, S>, MetadataFault>
    ensures json { OnOk result (IsSome (document json.now)) }
    ensures records { IfOk result
        (λ r. IsSomeAnd (document json.now) (λ d. AreReadRecords P.took S.took details d r)) }
    ensures no_json { IfErr result (λ fault. IsNotJson fault → document json.now ≡ None) }
    ensures not_resolved { IfErr result (λ fault. IsNotResolved fault
        → IsSomeAnd (document json.now) (λ d. present (codes "resolve") d ≡ None)) }
    ensures tells_no_json { IfErr result (λ fault. ¬ IsOutOfMemory fault
        → IsNotJson fault ↔ (document json.now ≡ None)) }
    ensures tells_unresolved { IfErr result (λ fault. ¬ IsOutOfMemory fault
        → IsNotResolved fault ↔ IsUnresolved json.now) }
    ensures refused { IfErr result (λ fault. ¬ IsOutOfMemory fault → SaysNoRecordsWith details json.now) }
{
    let mut scratch = Scratch::new(alloc);
    if let Some(records) = records_by_item::<P, S>(alloc, json, &mut scratch, details) {
        return Ok(records);
    }
    match whole_records(alloc, json, &mut scratch, details) {
        Ok(records) => Ok(ReadRecords::left(alloc, records)?),
        Err(fault) => Err(fault),
    }
}

/// The records that the text says, with details or without.
pub(crate) fn records_from(
    alloc: Global,
    json: &str,
    details: Details,
) -> Result<Records, MetadataFault>
    ensures json { OnOk result (IsSome (document json.now)) }
    ensures records { IfOk result (λ r. IsSomeAnd (document json.now)
        (λ d. AreRecordsWith details d r.packages.items r.links.items r.workspace)) }
    ensures no_json { IfErr result (λ fault. IsNotJson fault → document json.now ≡ None) }
    ensures not_resolved { IfErr result (λ fault. IsNotResolved fault
        → IsSomeAnd (document json.now) (λ d. present (codes "resolve") d ≡ None)) }
    ensures tells_no_json { IfErr result (λ fault. ¬ IsOutOfMemory fault
        → IsNotJson fault ↔ (document json.now ≡ None)) }
    ensures tells_unresolved { IfErr result (λ fault. ¬ IsOutOfMemory fault
        → IsNotResolved fault ↔ IsUnresolved json.now) }
    ensures refused { IfErr result (λ fault. ¬ IsOutOfMemory fault → SaysNoRecordsWith details json.now) }
{
    let ReadRecords {
        packages,
        links,
        workspace,
    } = read_from::<NoSink, NoSink>(alloc, json, details)?;
    Ok(Records {
        packages: packages.left,
        links: links.left,
        workspace,
    })
}
