//! What `guppy-run` is asked, and reads: lines, each of which says a package or a link. A package is called by its ID.
ghost use Rattle.std.specs.Prelude.{◌≡◌, IfNone, IfSome};
ghost use Rattle.guppy_data.specs.declared.texts.error.Error.TheVariants.{OutOfMemory};
ghost use Rattle.guppy_lines.specs.declared.fault.RunFault.TheVariants.{BadArguments, Library};
ghost use Rattle.guppy_command.specs.Shown.{misread_shown, program_shown};
ghost use Rattle.guppy_lines.specs.Lines.{lines_format, lines_program};

use crate::fault::RunFault;
use crate::input::records_of;
use crate::records::id_of;
use guppy::{Error, PackageGraph, PackageId};
use guppy_command::found::asked_of;
use guppy_command::table::{
    ALL_FEATURES, CFGS, FEATURES, FORMAT, HOST, HOST_CFGS, IDS, KINDS, MEMBER, NO_DEFAULT_FEATURES,
    NULL, PLATFORM, RESOLVER, TESTS, WORKSPACE,
};
use guppy_command::{Asked, Files, Misread, OptionRow, Program};
use guppy_data::{Details, PackageRecord, Records, VerifyFault};
use guppy_print::{Format, has_package};
use std::alloc::{AllocError, Global};

// The commands that ask about links.
const OF_LINKS: &[&str] = &[
    "reach",
    "depends",
    "why",
    "order",
    "roots",
    "links",
    "cycles",
    "duplicates",
    "verify",
    "publish-order",
    "dot",
];

// The commands whose answer is a list, an item a line.
const OF_LISTS: &[&str] = &[
    "reach",
    "why",
    "order",
    "roots",
    "links",
    "cycles",
    "duplicates",
    "built",
    "features",
    "why-feature",
    "publish-order",
];

// The commands that ask what Cargo builds.
const OF_BUILDS: &[&str] = &["built", "features", "why-feature"];

// What stands in front of a command. There is no help.
const OPTIONS: &[OptionRow] = &[
    (KINDS, Some("KINDS"), false, Some(OF_LINKS), ""),
    (PLATFORM, Some("TRIPLE"), true, None, ""),
    (CFGS, Some("FILE"), true, None, ""),
    (HOST, Some("TRIPLE"), false, None, ""),
    (HOST_CFGS, Some("FILE"), false, None, ""),
    (WORKSPACE, None, false, None, ""),
    (IDS, None, false, None, ""),
    (NULL, None, false, Some(OF_LISTS), ""),
    (FORMAT, Some("FORMAT"), false, Some(OF_LISTS), ""),
    (MEMBER, Some("MEMBER"), true, Some(OF_BUILDS), ""),
    (FEATURES, Some("LIST"), true, Some(OF_BUILDS), ""),
    (ALL_FEATURES, None, false, Some(OF_BUILDS), ""),
    (NO_DEFAULT_FEATURES, None, false, Some(OF_BUILDS), ""),
    (TESTS, None, false, Some(OF_BUILDS), ""),
    (RESOLVER, Some("N"), false, Some(OF_BUILDS), ""),
];

const COMMANDS: &[&str] = &[
    "reach",
    "depends",
    "why",
    "order",
    "roots",
    "links",
    "cycles",
    "duplicates",
    "built",
    "features",
    "why-feature",
    "verify",
    "publish-order",
    "dot",
];

fn program() -> Program
    ensures { program_shown result ≡ lines_program }
{
    Program {
        options: OPTIONS,
        anywhere: false,
        commands: COMMANDS,
    }
}

// What is told where arguments ask nothing.
fn fault_of(misread: Misread<'_>) -> RunFault
    ensures misread { IfSome (misread_shown misread.entry) (λ _. result ≡ BadArguments) }
    ensures memory { IfNone (misread_shown misread.entry) (result ≡ Library OutOfMemory) }
{
    match misread {
        Misread::OutOfMemory => RunFault::Library(Error::OutOfMemory),
        _ => RunFault::BadArguments,
    }
}

/// Lines, each of which says a package or a link: with it `run_process` is the program.
///
/// `BadLine` has the number of the first bad line, and `Library` the first fault of the records, the first unknown ID of
/// the command, or what `verify` refuses. The statuses are those of [`RunFault::status`].
#[derive(Clone, Copy, Debug)]
pub struct Lines;

impl Format for Lines {
    type Fault = RunFault;

    type Names = ();

    ghost format = { lines_format };

    ghost are_names = { λ names packages. Unit {0} };

    fn asked_of<'a, D: Files>(
        alloc: Global,
        args: &'a [String],
        files: &D,
    ) -> Result<Asked<'a>, RunFault> {
        match asked_of(alloc, &program(), args, files) {
            Ok(asked) => Ok(asked),
            Err(misread) => Err(fault_of(misread)),
        }
    }

    fn records_of(alloc: Global, input: &[u8], _details: Details) -> Result<Records, RunFault> {
        records_of(alloc, input)
    }

    fn declared_in(alloc: Global, _input: &[u8]) -> Result<Vec<(String, String)>, AllocError> {
        Ok(Vec::new(alloc))
    }

    fn names_of(_alloc: Global, _packages: &[PackageRecord]) -> Result<(), AllocError> {
        Ok(())
    }

    fn text_of<'a>(_names: &'a (), id: &'a PackageId) -> &'a str {
        id.repr()
    }

    fn cycle(ids: Vec<PackageId>, _round: String) -> RunFault {
        RunFault::Library(Error::PackageGraphInternalError(VerifyFault::Cycle(ids)))
    }

    fn told(alloc: Global, fault: &RunFault) -> Result<String, AllocError> {
        format!(in alloc; "{fault}")
    }

    fn means(
        alloc: Global,
        graph: &PackageGraph,
        _names: &(),
        word: &str,
        id: &PackageId,
    ) -> Result<bool, AllocError> {
        let Ok(other) = id_of(alloc, word) else {
            return Err(AllocError);
        };
        match has_package(graph, &other) {
            Ok(has) => Ok(has && *id == other),
            Err(_) => Err(AllocError),
        }
    }

    fn find(
        alloc: Global,
        graph: &PackageGraph,
        _names: &(),
        word: &str,
    ) -> Result<PackageId, RunFault> {
        let id = id_of(alloc, word)?;
        if has_package(graph, &id)? {
            Ok(id)
        } else {
            Err(RunFault::Library(Error::UnknownPackageId(id)))
        }
    }
}
