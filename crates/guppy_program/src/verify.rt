//! What is told of a graph that `verify` refuses.
ghost use Rattle.std.specs.Prelude.{◌≡◌, List, map, string_bytes, Ok, IfOk, IfErr};
ghost use Rattle.guppy_data.specs.Texts.{round_text};
ghost use Rattle.guppy_data.specs.declared.records.PackageRecord.{PackageRecord};
ghost use Rattle.guppy_data.specs.declared.texts.fault.VerifyFault.TheVariants.{Cycle};
ghost use Rattle.guppy_graph.specs.Verified.{TellsVerifyFault, IsVerifyFault as IsGraphFault};
ghost use Rattle.guppy_program.specs.Answer.{IsToldAs, IsVerifyTold};
ghost use Rattle.guppy_print.specs.Printed.{called};

use guppy::{Error, PackageGraph, PackageId};
use guppy_command::Options;
use guppy_data::VerifyFault;
use guppy_print::{Format, text_of};
use guppy_process::fault::want_of_memory;
use guppy_process::{Fault, ProgramFault};
use std::alloc::{AllocError, Global};

// What the packages with these IDs are called, with an arrow behind each, and the first one again.
fn round_of<F: Format>(
    alloc: Global,
    options: &Options,
    names: &F::Names,
    ids: &[PackageId],
) -> Result<String, AllocError>
    ensures { (packages : List PackageRecord) → F.are_names names.now packages
        → IfOk result (λ round. string_bytes round
        ≡ round_text (map (called options.now (F.format.text packages)) ids.now)) }
{
    let mut round = String::new(alloc);
    let Some(first) = ids.first() else {
        return Ok(round);
    };
    for id in ids {
        round.push_str(text_of::<F>(options, names, id))?;
        round.push_str(" -> ")?;
    }
    round.push_str(text_of::<F>(options, names, first))?;
    Ok(round)
}

// The fault of a cycle of these packages.
fn cycle<F: Format>(
    alloc: Global,
    options: &Options,
    names: &F::Names,
    ids: Vec<PackageId>,
) -> F::Fault
    ensures { (packages : List PackageRecord) → F.are_names names.now packages
        → IsToldAs F.format (called options.now (F.format.text packages)) (Cycle ids) result
        (F.Fault.cause result) }
{
    match round_of::<F>(alloc, options, names, ids.as_slice()) {
        Ok(round) => F::cycle(ids, round),
        Err(_) => want_of_memory(),
    }
}

// The fault that tells this one.
fn told_as<F: Format>(
    alloc: Global,
    options: &Options,
    names: &F::Names,
    fault: VerifyFault,
) -> F::Fault
    ensures { (packages : List PackageRecord) → F.are_names names.now packages
        → IsToldAs F.format (called options.now (F.format.text packages)) fault result
        (F.Fault.cause result) }
{
    match fault {
        VerifyFault::Cycle(ids) => cycle::<F>(alloc, options, names, ids),
        fault => F::Fault::of(Fault::Library(Error::PackageGraphInternalError(fault))),
    }
}

// The fault that tells this error.
fn told<F: Format>(
    alloc: Global,
    graph: &PackageGraph,
    names: &F::Names,
    options: &Options,
    error: Error,
) -> F::Fault
    requires names { F.are_names names.now graph.now.packages }
    requires fault { TellsVerifyFault (IsGraphFault graph.now) error }
    ensures { IsVerifyTold F.format (called options.now (F.format.text graph.now.packages)) graph.now
        result (F.Fault.cause result) }
{
    match error {
        Error::PackageGraphInternalError(fault) => told_as::<F>(alloc, options, names, fault),
        error => F::Fault::of(Fault::Library(error)),
    }
}

/// Passes on what comes of the graph once it is verified, or why it isn't: a cycle by what its packages are called.
pub(crate) fn verified<T: Drop, F: Format>(
    alloc: Global,
    graph: &PackageGraph,
    names: &F::Names,
    options: &Options,
    given: Result<T, Error>,
) -> Result<T, F::Fault>
    requires names { F.are_names names.now graph.now.packages }
    requires fault { IfErr given (TellsVerifyFault (IsGraphFault graph.now)) }
    ensures ok { IfOk result (λ value. given ≡ Ok value) }
    ensures err { IfErr result (λ fault. IsVerifyTold F.format
        (called options.now (F.format.text graph.now.packages)) graph.now fault (F.Fault.cause fault)) }
{
    match given {
        Ok(value) => Ok(value),
        Err(error) => Err(told::<F>(alloc, graph, names, options, error)),
    }
}
