//! The records that the JSON says which `cargo metadata` prints, as one text.
ghost use Rattle.std.specs.Prelude.{◌≡◌, ◌≢◌, ◌<◌, ◌≤◌, ◌⊎◌, ◌↔◌, ℕ, List, length, take, IsSomeAnd, IsUtf8, IfOk, IfErr};
ghost use Rattle.json.specs.Json.{document};
ghost use Rattle.guppy_metadata.specs.Fault.{IsOutOfMemory, fault_text};
ghost use Rattle.guppy_metadata.specs.Records.{IsMetadataFault, IsUnresolved, SaysNoRecordsWith};
ghost use Rattle.guppy_wire.specs.Wire.{text_in};
ghost use Rattle.guppy_c.specs.Records.{AreRecords, AreRefused, IsNoJson, details_of, kind_of};

use crate::answer::{Answer, put};
use guppy_data::Details;
use guppy_metadata::{MetadataFault, read_records};
use guppy_wire::{DetailTexts, LinkTexts, RecordsText, records_text};
use simdutf8::basic::from_utf8;
use std::alloc::Global;

// What a flag asks for.
fn details_of(wanted: bool) -> Details
    ensures { result ≡ details_of wanted }
{
    if wanted {
        Details::With
    } else {
        Details::Without
    }
}

// The records that the JSON says as one text, with details or without.
fn text_of(alloc: Global, json: &str, details: Details) -> Result<RecordsText, MetadataFault>
    ensures told { IfOk result (λ text. AreRecords details json.now (text_in text)) }
    ensures refused { IfErr result (λ fault. ¬ IsOutOfMemory fault → IsMetadataFault details json.now fault) }
{
    let records = read_records::<DetailTexts, LinkTexts>(alloc, json, details)?;
    match records_text(alloc, records) {
        Ok(text) => Ok(text),
        Err(_) => Err(MetadataFault::OutOfMemory),
    }
}

// Puts the text to the front of the bytes, where there is room.
fn put_records(text: &RecordsText, out: &mut [u8]) -> Answer
    ensures written { result.status ≡ 0 → take result.len out.new ≡ text_in text.now }
    ensures room { result.status ≡ 0 → result.len ≤ length out.new }
    ensures no_room { result.status ≡ 2 → length out.old < result.len }
    ensures len { result.status ≡ 2 → result.len ≡ length (text_in text.now) }
    ensures no_memory { result.status ≡ 3 → result.len ≡ 0 }
    ensures status { (result.status ≡ 0) ⊎ (result.status ≡ 2) ⊎ (result.status ≡ 3) }
    ensures unchanged { result.status ≢ 0 → out.new ≡ out.old }
{
    let Some(len) = text.len() else {
        return Answer { status: 3, len: 0 };
    };
    if len > out.len() {
        return Answer { status: 2, len };
    }
    text.write_to(out);
    Answer { status: 0, len }
}

// The status that tells what kind of a fault it is.
fn kind_of(fault: &MetadataFault) -> u32
    ensures { result ≡ kind_of fault.now }
{
    match fault {
        MetadataFault::NotJson { .. } => 4,
        MetadataFault::NotResolved => 5,
        MetadataFault::OutOfMemory => 3,
        _ => 1,
    }
}

// Puts the text that tells the fault to the front of the bytes, where there is room, unless memory is wanted.
fn refuse(alloc: Global, fault: &MetadataFault, out: &mut [u8]) -> Answer
    ensures kind { result.status ≢ 2 → result.status ≢ 3 → result.status ≡ kind_of fault.now }
    ensures text { result.status ≢ 2 → result.status ≢ 3
        → take result.len out.new ≡ fault_text fault.now }
    ensures room { result.status ≢ 2 → result.status ≢ 3 → result.len ≤ length out.new }
    ensures no_room { result.status ≡ 2 → length out.old < result.len }
    ensures len { result.status ≡ 2 → result.len ≡ length (fault_text fault.now) }
    ensures no_memory { result.status ≡ 3 → result.len ≡ 0 }
    ensures least { 1 ≤ result.status }
    ensures most { result.status ≤ 5 }
    ensures unchanged { (result.status ≡ 2) ⊎ (result.status ≡ 3) → out.new ≡ out.old }
{
    let status = kind_of(fault);
    if status == 3 {
        return Answer { status: 3, len: 0 };
    }
    match format!(in alloc; "{fault}") {
        Ok(text) => put(text.as_str(), status, out),
        Err(_) => Answer { status: 3, len: 0 },
    }
}

/// Writes the packages, links and workspace that the JSON describes as one text, in which each part tells how long
/// it is. The JSON is what `cargo metadata --format-version 1` prints. Without `details` it takes about two
/// thirds of the time; the details and free tables of packages and the named features of links are then empty.
///
/// A field is its length in bytes, a colon and the text. A list is how many there are, a semicolon, and each. An
/// option is `-` where there is none. A flag is `y` or `n`. A status is `*` for all platforms, else the list of
/// their texts, a field each. A text, an ID or a path is a field, where nothing else is said. One after another
/// come:
///
/// - the workspace: root, target directory, optionally the build directory, the list of the default members, and the
///   free table as JSON, a field;
/// - the list of packages, each as ID, name, version, source, manifest, edition, and optionally description, license
///   and repository; a source is `w`, `p` or `x` for a member at the path, a package at the path or one from elsewhere,
///   and the text;
/// - the list of links, each as two IDs, the names in the manifest and in code, for the normal, the build and the
///   dev section the status of where it is required and of where it is optional, and a field with the details;
/// - of each package, in the order of the list, a field with the details, and one with the free table as JSON.
///
/// The details of a package: the list of authors; optionally the license file; the lists of categories and
/// keywords; optionally readme, homepage, documentation and linked library; `*` where it may be published
/// everywhere, else the list of registries; optionally the default run and the Rust version; the list of named
/// features, each as its name and the list of what it switches on: `f` and a feature, `d` and an optional
/// dependency, `s`, or weak `w`, and a dependency and its feature; the list of optional dependencies; and the list
/// of build targets. A build target is `l`, `s`, or `b`, `e`, `t` or `m` and a name, for the library, the build
/// script, a binary, an example, a test or a benchmark; `c` and the list of crate types, or `p` or `b` for a
/// procedural macro or a binary; optionally the library's name; the list of required features; path; edition; and
/// flags: whether it is documented, has its documentation tested, and is tested.
///
/// The details of a link: optionally registry and path; for each section, first where it is required and then where
/// it is optional, the status of the default features, the status of no default features, and the list of named
/// features, each with its status; and behind these, to the end, the version requirement, with no length.
///
/// A refusal says why, with no newline at its end.
#[unsafe(no_mangle)]
pub extern "C" fn guppy_records(alloc: Global, json: &[u8], details: bool, out: &mut [u8]) -> Answer
    ensures told { result.status ≡ 0 → AreRecords (details_of details) json.now (take result.len out.new) }
    ensures no_json { result.status ≢ 0 → result.status ≢ 2 → result.status ≢ 3
        → (result.status ≡ 4) ↔ IsNoJson json.now }
    ensures unresolved { result.status ≢ 0 → result.status ≢ 2 → result.status ≢ 3
        → (result.status ≡ 5) ↔ (IsUtf8 json.now × IsUnresolved json.now) }
    ensures no_records { result.status ≡ 1 → SaysNoRecordsWith (details_of details) json.now }
    ensures refused { result.status ≢ 0 → result.status ≢ 2 → result.status ≢ 3
        → AreRefused (details_of details) json.now result.status (take result.len out.new) }
    ensures room { result.status ≢ 2 → result.status ≢ 3 → result.len ≤ length out.new }
    ensures no_room { result.status ≡ 2 → (length out.old < result.len)
        × (text : List ℕ) × (length text ≡ result.len)
        × (AreRecords (details_of details) json.now text ⊎ (status : ℕ) × AreRefused (details_of details) json.now status text) }
    ensures no_memory { result.status ≡ 3 → result.len ≡ 0 }
    ensures status { result.status ≤ 5 }
    ensures unchanged { (result.status ≡ 2) ⊎ (result.status ≡ 3) → out.new ≡ out.old }
{
    let Ok(text) = from_utf8(json) else {
        return put("the input is no UTF-8", 4, out);
    };
    match text_of(alloc, text, details_of(details)) {
        Ok(text) => put_records(&text, out),
        Err(fault) => refuse(alloc, &fault, out),
    }
}
