//! All records.
ghost use Rattle.std.specs.Prelude.{◌≡◌, ◌↔◌, List, IsSome, IsSomeAnd, IfOk, OnOk, IfErr, None, codes};
ghost use Rattle.json.specs.Json.{document};
ghost use Rattle.guppy_data.specs.declared.records.LinkRecord.{LinkRecord};
ghost use Rattle.guppy_metadata.specs.Fault.{IsNotJson, IsNotResolved, IsOutOfMemory};
ghost use Rattle.guppy_metadata.specs.Links.{AreLinks, AreLinksWith};
ghost use Rattle.guppy_metadata.specs.Members.{present};
ghost use Rattle.guppy_metadata.specs.Package.{ArePackages, ArePackagesWith};
ghost use Rattle.guppy_metadata.specs.Records.{AreRecordsWith, IsMetadataFault, SaysNoRecords, SaysNoRecordsWith, IsUnresolved};
ghost use Rattle.guppy_metadata.specs.Sink.{AreReadRecords};
ghost use Rattle.guppy_metadata.specs.Workspace.{IsWorkspace};

use crate::fault::MetadataFault;
use crate::sink::{LinkSink, PackageSink, ReadRecords};
use crate::whole::{read_from, records_from};
use guppy_data::{Details, Records};
use std::alloc::Global;

/// The records that the JSON says which `cargo metadata --format-version 1` prints.
///
/// Given memory, `NotJson` comes exactly where the text is no JSON, and `NotResolved` exactly where it is an object
/// whose member `resolve` is absent or null. Any other fault tells the first place in the JSON, in the order in which
/// it is read, where something is missing, of another kind or no such text. What the rules of a package graph refuse,
/// as a link's end that is no package, is left to `IntoGraph::into_graph`.
///
/// Any error but `OutOfMemory` means that the text says no records: it is no JSON, or no packages, links and
/// workspace are what the JSON says.
///
/// Time grows with the text, and of one package with its resolved times its declared dependencies. Where the
/// text has `packages` before `resolve`, and of each node the `id` before the `deps`, as Cargo prints them, takes
/// as much memory as the text is long, and memory for the records, the declared dependencies and what else one
/// package says; a link of each declared dependency has room before the first is read. Else, and before a fault is
/// told, the text is read once more, with memory for all that it says.
pub fn records_of(alloc: Global, json: &str) -> Result<Records, MetadataFault>
    ensures json { OnOk result (IsSome (document json.now)) }
    ensures packages { IfOk result
        (λ r. IsSomeAnd (document json.now) (λ d. ArePackages d r.packages.items)) }
    ensures links { IfOk result
        (λ r. IsSomeAnd (document json.now) (λ d. AreLinks d r.links.items)) }
    ensures workspace { IfOk result
        (λ r. IsSomeAnd (document json.now) (λ d. IsWorkspace d r.workspace)) }
    ensures no_json { IfErr result (λ fault. IsNotJson fault → document json.now ≡ None) }
    ensures not_resolved { IfErr result (λ fault. IsNotResolved fault
        → IsSomeAnd (document json.now) (λ d. present (codes "resolve") d ≡ None)) }
    ensures tells_no_json { IfErr result (λ fault. ¬ IsOutOfMemory fault
        → IsNotJson fault ↔ (document json.now ≡ None)) }
    ensures tells_unresolved { IfErr result (λ fault. ¬ IsOutOfMemory fault
        → IsNotResolved fault ↔ IsUnresolved json.now) }
    ensures refused { IfErr result (λ fault. ¬ IsOutOfMemory fault → SaysNoRecords json.now) }
{
    records_from(alloc, json, Details::With)
}

/// The records without details, in less time and memory: as [`records_of`], but no features, and of a package neither
/// build targets, authors, license file, categories, keywords, readme, homepage, documentation, metadata, links,
/// default run, Rust version nor optional dependencies. These are left empty as by `PackageRecord::new`, and not looked
/// at, but for the targets up to the library, whose name decides which declared dependencies fit. No links, sets, lists
/// or cycles of a graph depend on what is left out, no platform answer but a feature's (`feature_status`), and `verify`
/// accepts each target that JSON tells.
pub fn plain_records_of(alloc: Global, json: &str) -> Result<Records, MetadataFault>
    ensures json { OnOk result (IsSome (document json.now)) }
    ensures packages { IfOk result
        (λ r. IsSomeAnd (document json.now) (λ d. ArePackagesWith Details.Without d r.packages.items)) }
    ensures links { IfOk result
        (λ r. IsSomeAnd (document json.now) (λ d. AreLinksWith Details.Without d r.links.items)) }
    ensures workspace { IfOk result
        (λ r. IsSomeAnd (document json.now) (λ d. IsWorkspace d r.workspace)) }
    ensures no_json { IfErr result (λ fault. IsNotJson fault → document json.now ≡ None) }
    ensures not_resolved { IfErr result (λ fault. IsNotResolved fault
        → IsSomeAnd (document json.now) (λ d. present (codes "resolve") d ≡ None)) }
    ensures tells_no_json { IfErr result (λ fault. ¬ IsOutOfMemory fault
        → IsNotJson fault ↔ (document json.now ≡ None)) }
    ensures tells_unresolved { IfErr result (λ fault. ¬ IsOutOfMemory fault
        → IsNotResolved fault ↔ IsUnresolved json.now) }
    ensures refused { IfErr result (λ fault. ¬ IsOutOfMemory fault → SaysNoRecordsWith Details.Without json.now) }
{
    records_from(alloc, json, Details::Without)
}

/// The records with details or without: those of [`records_of`] or of [`plain_records_of`], with their faults.
pub fn records_with(alloc: Global, json: &str, details: Details) -> Result<Records, MetadataFault>
    ensures said { IfOk result (λ r. IsSomeAnd (document json.now)
        (λ d. AreRecordsWith details d r.packages.items r.links.items r.workspace)) }
    ensures refused { IfErr result (λ fault. ¬ IsOutOfMemory fault → IsMetadataFault details json.now fault) }
{
    records_from(alloc, json, details)
}

/// The records with details or without, of which sinks may take details of packages, and links, while they are read: as
/// [`records_with`], but takes no memory for what the sinks took.
pub fn read_records<P: PackageSink, S: LinkSink>(
    alloc: Global,
    json: &str,
    details: Details,
) -> Result<ReadRecords<P, S>, MetadataFault>
    ensures said { IfOk result
        (λ r. IsSomeAnd (document json.now) (λ d. AreReadRecords P.took S.took details d r)) }
    ensures refused { IfErr result (λ fault. ¬ IsOutOfMemory fault → IsMetadataFault details json.now fault) }
{
    read_from::<P, S>(alloc, json, details)
}
