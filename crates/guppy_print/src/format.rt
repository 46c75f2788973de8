//! What differs between programs: what they are asked, how they read their input, and what they call packages.
ghost use Rattle.std.specs.Prelude.{◌≡◌, ◌↔◌, ◌∷◌, [], ℕ, List, map, string_bytes, Contains, IfOk, IfErr, IsOkUnless};
ghost use Rattle.guppy_data.specs.declared.records.PackageRecord.{PackageRecord as PackageData};
ghost use Rattle.guppy_data.specs.declared.texts.error.Error.TheVariants.{PackageGraphInternalError};
ghost use Rattle.guppy_data.specs.declared.texts.fault.VerifyFault.TheVariants.{Cycle};
ghost use Rattle.guppy_graph.specs.Ids.{IsKnown};
ghost use Rattle.guppy_publish.specs.Needs.{pair_texts};
ghost use Rattle.guppy_process.specs.Cause.{library};
ghost use Rattle.guppy_command.specs.Ids.{has_id, is_only};
ghost use Rattle.guppy_print.specs.Format.{Format as FormatOf, IsAskingFault, IsReadingFault, IsUnclear};
ghost use Rattle.guppy_command.specs.Shown.{asked_shown};

use guppy::{Error, PackageGraph, PackageId};
use guppy_command::{Asked, Files};
use guppy_data::{Details, PackageRecord, Records};
use guppy_process::ProgramFault;
use std::alloc::{AllocError, Global};

/// What a program is asked, how it reads its input, and what it calls packages.
pub trait Format {
    /// Why the program gives no answer.
    type Fault: ProgramFault;

    /// What the packages of a graph are called.
    type Names: Drop;

    /// What arguments ask, or with which fault they are refused; which records an input says, or with which fault it is
    /// refused; which members it says declare which others; which text is printed for a package, which packages a word
    /// may mean, and what is told of one that means none, and of a cycle; and by which text a fault is told.
    ghost format: { FormatOf Self.Fault };

    /// The names are those of these packages.
    ghost are_names: { Self.Names → List PackageData → Type 0 };

    /// What the arguments ask, with what the files that they name have, or why they ask nothing. Takes time linear in
    /// both, and memory for what is asked. Nothing is read where the words alone are wrong.
    fn asked_of<'a, D: Files>(
        alloc: Global,
        args: &'a [String],
        files: &D,
    ) -> Result<Asked<'a>, Self::Fault>
        ensures asked { IfOk result (λ asked.
            format.asks (D.has files.now) (map string_bytes args.now) (asked_shown asked)) }
        ensures misread { IfErr result (λ fault. IsAskingFault format (D.has files.now)
            (map string_bytes args.now) fault (Self.Fault.cause fault)) };

    /// The records that the input says, with details, as the build targets of packages, or without.
    fn records_of(alloc: Global, input: &[u8], details: Details) -> Result<Records, Self::Fault>
        ensures said { IfOk result (λ r.
            format.says details input.now r.packages.items r.links.items r.workspace) }
        ensures refused { IfErr result (λ fault.
            IsReadingFault format details input.now fault (Self.Fault.cause fault)) };

    /// Which members the input says declare which others, by their IDs: what it says beside its records, for
    /// `publish-order` alone. A pair may be there several times.
    fn declared_in(alloc: Global, input: &[u8]) -> Result<Vec<(String, String)>, AllocError>
        ensures { IfOk result (λ pairs. (from to : List ℕ) → Contains (map pair_texts pairs.items) (from, to)
            ↔ format.declares input.now from to) };

    /// The names of the packages.
    fn names_of(alloc: Global, packages: &[PackageRecord]) -> Result<Self::Names, AllocError>
        ensures { IfOk result (λ names. are_names names packages.now) };

    /// What is printed for the package with this ID.
    fn text_of<'a>(names: &'a Self::Names, id: &'a PackageId) -> &'a str
        ensures { (packages : List PackageData) → are_names names.now packages
            → result.now ≡ format.text packages id.now };

    /// The fault that tells a cycle over links that aren't dev-only, of the packages with these IDs: by the text of what
    /// they are called, or by the IDs.
    fn cycle(ids: Vec<PackageId>, round: String) -> Self::Fault
        ensures cause { Self.Fault.cause result ≡ library (PackageGraphInternalError (Cycle ids)) }
        ensures told { format.tells_cycle ids (string_bytes round) result };

    /// The text by which the fault is told. Takes memory for it.
    fn told(alloc: Global, fault: &Self::Fault) -> Result<String, AllocError>
        ensures { IfOk result (λ text. format.tells fault.now (Self.Fault.cause fault.now) (string_bytes text)) };

    /// Whether the word means the package with this ID alone. Takes memory for a copy of the word.
    fn means(
        alloc: Global,
        graph: &PackageGraph,
        names: &Self::Names,
        word: &str,
        id: &PackageId,
    ) -> Result<bool, AllocError>
        requires { are_names names.now graph.now.packages }
        ensures { IfOk result (λ means.
            means ≡ is_only id.now (format.meant graph.now.packages word.now)) };

    /// The ID of the package that the word means, where it means one alone. Takes memory for the ID, and
    /// for a fault.
    fn find(
        alloc: Global,
        graph: &PackageGraph,
        names: &Self::Names,
        word: &str,
    ) -> Result<PackageId, Self::Fault>
        requires { are_names names.now graph.now.packages }
        ensures found { IfOk result (λ id. format.meant graph.now.packages word.now ≡ id ∷ []) }
        ensures known { IfOk result (IsKnown graph.now.packages) }
        ensures unclear { IfErr result (λ fault.
            IsUnclear format graph.now.packages word.now fault (Self.Fault.cause fault)) };
}

/// Whether one of the graph's packages has the ID. Time grows with the logarithm of the packages; takes memory
/// for a copy of the ID where none has it.
pub fn has_package(graph: &PackageGraph, id: &PackageId) -> Result<bool, Error>
    ensures exact { IfOk result (λ has. has ≡ has_id id.now graph.now.packages) }
    ensures err { IsOkUnless result Error.OutOfMemory }
{
    match graph.metadata(id) {
        Ok(_) => Ok(true),
        Err(Error::OutOfMemory) => Err(Error::OutOfMemory),
        Err(_) => Ok(false),
    }
}
