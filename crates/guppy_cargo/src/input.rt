//! What `guppy-cargo` reads: the JSON that `cargo metadata` prints.
ghost use Rattle.std.specs.Prelude.{◌≡◌, map, string_bytes, IfOk, IfErr, List};
ghost use Rattle.guppy_print.specs.Format.{alternatives};
ghost use Rattle.guppy_cargo.specs.Json.{json_format};
ghost use Rattle.guppy_arguments.specs.Names.{AreNames, text};
ghost use Rattle.guppy_data.specs.declared.records.PackageRecord.{PackageRecord as PackageData};

use crate::unknown::unknown;
use guppy::{PackageGraph, PackageId};
use guppy_arguments::{CargoFault, Names, asked_of};
use guppy_command::{Asked, Files};
use guppy_data::{Details, PackageRecord, Records};
use guppy_declared::declared_members;
use guppy_metadata::records_with;
use guppy_print::{Format, has_package};
use simdutf8::basic::from_utf8;
use std::alloc::{AllocError, Global};

/// What `cargo metadata` prints: with it `run_with` is the program.
#[derive(Clone, Copy, Debug)]
pub struct Json;

// The texts of the packages, parted by ` or `.
fn choices_of(alloc: Global, names: &Names, ids: &[PackageId]) -> Result<String, AllocError>
    ensures { (packages : List PackageData) → AreNames names.now packages
        → IfOk result (λ choices. string_bytes choices ≡ alternatives (map (text packages) ids.now)) }
{
    let mut texts = Vec::with_capacity(alloc, ids.len())?;
    for id in ids {
        texts.push(names.text_of(id))?;
    }
    texts.join(alloc, " or ")
}

impl Format for Json {
    type Fault = CargoFault;

    type Names = Names;

    ghost format = { json_format };

    ghost are_names = { AreNames };

    fn asked_of<'a, D: Files>(
        alloc: Global,
        args: &'a [String],
        files: &D,
    ) -> Result<Asked<'a>, CargoFault> {
        asked_of(alloc, args, files)
    }

    fn records_of(alloc: Global, input: &[u8], details: Details) -> Result<Records, CargoFault> {
        let Ok(text) = from_utf8(input) else {
            return Err(CargoFault::NoText);
        };
        Ok(records_with(alloc, text, details)?)
    }

    fn declared_in(alloc: Global, input: &[u8]) -> Result<Vec<(String, String)>, AllocError> {
        match from_utf8(input) {
            Ok(text) => declared_members(alloc, text),
            Err(_) => Ok(Vec::new(alloc)),
        }
    }

    fn names_of(alloc: Global, packages: &[PackageRecord]) -> Result<Names, AllocError> {
        Names::of(alloc, packages)
    }

    fn text_of<'a>(names: &'a Names, id: &'a PackageId) -> &'a str {
        names.text_of(id)
    }

    fn cycle(ids: Vec<PackageId>, round: String) -> CargoFault {
        CargoFault::Cycle { ids, round }
    }

    fn told(alloc: Global, fault: &CargoFault) -> Result<String, AllocError> {
        format!(in alloc; "{fault}")
    }

    fn means(
        alloc: Global,
        graph: &PackageGraph,
        names: &Names,
        word: &str,
        id: &PackageId,
    ) -> Result<bool, AllocError> {
        let other = PackageId::new(String::from_str(alloc, word)?);
        match has_package(graph, &other) {
            Ok(true) => Ok(*id == other),
            Ok(false) => Ok(names.is_only_one(word, id)),
            Err(_) => Err(AllocError),
        }
    }

    fn find(
        alloc: Global,
        graph: &PackageGraph,
        names: &Names,
        word: &str,
    ) -> Result<PackageId, CargoFault> {
        let id = PackageId::new(String::from_str(alloc, word)?);
        if has_package(graph, &id)? {
            return Ok(id);
        }
        match names.called(word) {
            [only] => Ok(only.clone()?),
            [] => Err(unknown(graph, id)?),
            several => {
                let choices = choices_of(alloc, names, several)?;
                let word = String::from_str(alloc, word)?;
                Err(CargoFault::Ambiguous { word, choices })
            }
        }
    }
}
