//! All records, of JSON whose packages and nodes are read item by item.
ghost use Rattle.std.specs.Prelude.{◌≡◌, ℕ, List, Some, IsSomeAnd, IfSome, IfOk};
ghost use Rattle.json.specs.Json.{Json, document};
ghost use Rattle.guppy_data.specs.declared.records.LinkRecord.{LinkRecord};
ghost use Rattle.guppy_data.specs.declared.records.PackageRecord.{PackageRecord};
ghost use Rattle.json.specs.Find.{get};
ghost use Rattle.guppy_metadata.specs.Links.{AreLinksWith};
ghost use Rattle.guppy_metadata.specs.Members.{data_of};
ghost use Rattle.guppy_metadata.specs.Records.{AreRecordsWith};
ghost use Rattle.guppy_metadata.specs.Sink.{AreRead, AreReadPackages, AreReadRecords};
ghost use Rattle.guppy_metadata.specs.Told.{AreShownPackages, IsOther, Tells};

use crate::fault::Misfit;
use crate::link::check_members;
use crate::object::Object;
use crate::package::package_records;
use crate::sink::{LinkSink, PackageSink, ReadLinks, ReadPackages, ReadRecords};
use crate::told::told_in;
use crate::types::{Shown, Told};
use crate::workspace::{member_ids, workspace_record};
use guppy_data::{Details, Utf8Path};
use json::{Reader, Scratch, Value};
use std::alloc::Global;

// The records of these packages and links, and of what the JSON says of the workspace.
fn records_with<P: PackageSink, S: LinkSink>(
    metadata: Object<'_, '_>,
    shown: Shown<'_, P>,
    links: ReadLinks<S>,
) -> Result<ReadRecords<P, S>, Misfit>
    ensures { IfOk result (λ r. (details : Details) (d : Json)
        → ((name : List ℕ) → IsOther name → get name (data_of metadata.entry) ≡ get name d)
        → AreShownPackages P.took details d shown.entry
        → (all : List LinkRecord) → AreRead S.took links all → AreLinksWith details d all
        → AreRead S.took r.links all × (packages : List PackageRecord) × AreReadPackages P.took r.packages packages
        × AreRecordsWith details d packages all r.workspace) }
{
    let alloc = metadata.alloc;
    let Shown { sink, packages } = shown;
    let members = member_ids(metadata)?;
    check_members(alloc, packages.as_slice(), members.as_slice())?;
    let root = Utf8Path::new(metadata.text("workspace_root")?);
    let left = package_records(alloc, packages, members.as_slice(), root)?;
    let workspace = workspace_record(metadata)?;
    Ok(ReadRecords {
        packages: ReadPackages { sink, left },
        links,
        workspace,
    })
}

// The records that are told, where nothing is missing or wrong.
fn records_told<P: PackageSink, S: LinkSink>(
    alloc: Global,
    told: Told<'_, P, S>,
) -> Option<ReadRecords<P, S>>
    ensures { IfSome result (λ r. (details : Details) (d : Json) → Tells P.took S.took details d «told».entry
        → AreReadRecords P.took S.took details d r) }
{
    let Told {
        packages,
        links,
        others,
    } = told;
    let packages = packages?;
    let links = links?;
    let value = Value::Object(others);
    let metadata = Object {
        alloc,
        value: &value,
    };
    records_with(metadata, packages, links).ok()
}

// What the whole text tells, with details or without.
fn told_by_item<'a, P: PackageSink, S: LinkSink>(
    alloc: Global,
    json: &'a str,
    scratch: &'a mut Scratch,
    details: Details,
) -> Option<Told<'a, P, S>>
    ensures { IfSome result (λ told. (d : Json) × (document json.now ≡ Some d)
        × Tells P.took S.took details d told) }
{
    let mut reader = Reader::new(json, scratch).ok()?;
    let told = told_in::<P, S>(alloc, &mut reader, details)?;
    if reader.next().is_some() {
        return None;
    }
    Some(told)
}

/// The records, with details or without, of packages and nodes that are read item by item. There are none where these
/// stand in another order than Cargo prints them in, or something is missing or wrong.
pub(crate) fn records_by_item<P: PackageSink, S: LinkSink>(
    alloc: Global,
    json: &str,
    scratch: &mut Scratch,
    details: Details,
) -> Option<ReadRecords<P, S>>
    ensures { IfSome result (λ r. IsSomeAnd (document json.now) (λ d. AreReadRecords P.took S.took details d r)) }
{
    let told = told_by_item::<P, S>(alloc, json, scratch, details)?;
    records_told(alloc, told)
}
