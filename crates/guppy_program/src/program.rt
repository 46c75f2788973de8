//! A program, over any source and sink.
ghost use Rattle.std.specs.Prelude.{◌≡◌, ◌⊎◌, ◌++◌, ℕ, List, Some, option_map, false, length, map, string_bytes, Err, OnOk, IfOk, IfErr};
ghost use Rattle.std.specs.Io.KnownBytes.{Appends};
ghost use Rattle.guppy_graph.specs.Ids.{DistinctBelow};
ghost use Rattle.guppy_data.specs.declared.texts.error.Error.TheVariants.{OutOfMemory};
ghost use Rattle.guppy_process.specs.Cause.{Cause, library, bad_arguments, bad_before, output_failed, caused, is_input_fault, is_output_fault};
ghost use Rattle.guppy_program.specs.Loaded.{AreAskedOf, IsBadBefore, IsLoaded, IsLoadedBefore, IsLoadFault, asks_for_builds, counted_on, details_for};
ghost use Rattle.guppy_program.specs.Answer.{IsFaultOn};
ghost use Rattle.guppy_print.specs.Printed.{IsPrinted, called};
ghost use Rattle.guppy_command.specs.Shown.{asked_shown, command_shown};
ghost use Rattle.guppy_platforms.specs.Kept.{AreKept};
ghost use Rattle.guppy_program.specs.Run.{IsAnswerTo, IsAnswerOf, IsAnswerFault, IsFaultOf, IsSourceFault, IsAnswered, IsBegun, IsRun, IsRunFault, OfWholeInput, WritesNothing};
ghost use Rattle.guppy_program.specs.Builds.{places_of};

use crate::answer::answer_of;
use crate::members::shown;
use guppy::{IntoGraph, PackageGraph};
use guppy_command::options::keep_links;
use guppy_command::{Asked, Command, Files};
use guppy_data::{Details, LinkRecord, PackageRecord, PlatformSpec};
use guppy_platforms::{are_named, keep_counting};
use guppy_print::{Format, printed};
use guppy_process::fault::{passed_on, want_of_memory};
use guppy_process::transfer::{read_all, write_text};
use guppy_process::{Fault, ProgramFault, Sink, Source};
use guppy_publish::add_declared;
use std::alloc::Global;
use std::mem;

// Makes of the links those that the command asks about: for `publish-order` those by which members need each other to be
// published, with what the input says that they declare.
fn keep_asked<F: Format>(
    alloc: Global,
    command: &Command<'_>,
    input: &[u8],
    links: &mut Vec<LinkRecord>,
) -> Result<(), F::Fault>
    ensures ok { OnOk result (AreAskedOf F.format (command_shown command.now) input.now links.old.items
        links.new.items) }
    ensures err { IfErr result (λ fault. F.Fault.cause fault ≡ library OutOfMemory) }
{
    let Command::PublishOrder { .. } = command else {
        return Ok(());
    };
    let Ok(declared) = F::declared_in(alloc, input) else {
        return Err(want_of_memory());
    };
    match add_declared(alloc, links, declared.as_slice()) {
        Ok(()) => Ok(()),
        Err(_) => Err(want_of_memory()),
    }
}

// Whether the command asks what Cargo builds.
fn asks_for_builds(command: &Command<'_>) -> bool
    ensures { result ≡ asks_for_builds (command_shown command.now) }
{
    matches!(
        command,
        Command::Built(_) | Command::Features(..) | Command::WhyFeature(..)
    )
}

// Whether records are read with details: for build targets, which say where sources lie, what is built, and what runs on
// the host.
fn details_for(asked: &Asked<'_>) -> Details
    ensures { result ≡ details_for (asked_shown asked.now) }
{
    let wanted = are_named(&asked.platforms)
        || matches!(asked.command, Command::Affected { .. })
        || asks_for_builds(&asked.command);
    if wanted {
        Details::With
    } else {
        Details::Without
    }
}

// Leaves out the links that count on none of the platforms that are asked about, but where it is asked what Cargo builds,
// which looks at each itself.
fn keep_counted<F: Format>(
    alloc: Global,
    asked: &Asked<'_>,
    packages: &[PackageRecord],
    links: &mut Vec<LinkRecord>,
) -> Result<(), F::Fault>
    ensures ok { OnOk result (AreKept (counted_on (asked_shown asked.now)) (asked_shown asked.now).host packages.now
        links.old.items links.new.items) }
    ensures err { IfErr result (λ fault. F.Fault.cause fault ≡ library OutOfMemory) }
{
    let any = PlatformSpec::Any;
    let platforms = if asks_for_builds(&asked.command) {
        &any
    } else {
        &asked.platforms
    };
    match keep_counting(alloc, platforms, &asked.host, packages, links) {
        Ok(()) => Ok(()),
        Err(_) => Err(want_of_memory()),
    }
}

// The graph of the records that the input says, with the links that the options keep and the command asks about, and the
// names of its packages.
fn load<F: Format>(
    alloc: Global,
    asked: &Asked<'_>,
    input: &[u8],
) -> Result<(PackageGraph, F::Names), F::Fault>
    ensures ok { IfOk result (λ loaded. IsLoaded F.format (asked_shown asked.now) input.now loaded.0) }
    ensures names { IfOk result (λ loaded. F.are_names loaded.1 loaded.0.packages) }
    ensures err { IfErr result (λ fault. IsLoadFault F.format (asked_shown asked.now) input.now
        fault (F.Fault.cause fault)) }
{
    let mut records = F::records_of(alloc, input, details_for(asked))?;
    keep_counted::<F>(
        alloc,
        asked,
        records.packages.as_slice(),
        &mut records.links,
    )?;
    keep_links(asked.options.kinds, &mut records.links);
    keep_asked::<F>(alloc, &asked.command, input, &mut records.links)?;
    let Ok(names) = F::names_of(alloc, records.packages.as_slice()) else {
        return Err(want_of_memory());
    };
    let graph = passed_on(records.into_graph())?;
    Ok((graph, names))
}

// The fault that tells that the state before says no graph, which this one tells, unless memory is wanted.
fn before_told<F: Format>(alloc: Global, fault: F::Fault) -> F::Fault
    ensures { ((text : List ℕ) × F.format.tells fault (F.Fault.cause fault) text × (F.Fault.cause result ≡ bad_before text))
        ⊎ (F.Fault.cause result ≡ library OutOfMemory) }
{
    match F::told(alloc, &fault) {
        Ok(text) => F::Fault::of(Fault::Before(text)),
        Err(_) => want_of_memory(),
    }
}

// The graph of the state before, where its input is given.
fn load_before<F: Format>(
    alloc: Global,
    asked: &Asked<'_>,
) -> Result<Option<PackageGraph>, F::Fault>
    ensures ok { IfOk result (IsLoadedBefore F.format (asked_shown asked.now)) }
    ensures err { IfErr result (λ fault. ((text : List ℕ) × IsBadBefore F.format (asked_shown asked.now) text
        × (F.Fault.cause fault ≡ bad_before text)) ⊎ (F.Fault.cause fault ≡ library OutOfMemory)) }
{
    let Some(input) = &asked.before else {
        return Ok(None);
    };
    match load::<F>(alloc, asked, input.as_slice()) {
        Ok((graph, _)) => Ok(Some(graph)),
        Err(fault) => Err(before_told::<F>(alloc, fault)),
    }
}

// What is printed of the graph for what is asked, and of that of the state before, where there is one.
fn answer_text<F: Format>(
    alloc: Global,
    graph: &PackageGraph,
    before: Option<&PackageGraph>,
    names: &F::Names,
    asked: &Asked<'_>,
) -> Result<String, F::Fault>
    requires names { F.are_names names.now graph.now.packages }
    requires distinct { DistinctBelow graph.now.packages (length graph.now.packages) }
    ensures ok { IfOk result (λ text. IsAnswerOf F.format (asked_shown asked.now)
        (option_map (λ g. g.now) before.entry) graph.now (string_bytes text)) }
    ensures err { IfErr result (λ fault. IsFaultOn F.format (places_of (asked_shown asked.now))
        (called (asked_shown asked.now).options (F.format.text graph.now.packages))
        (asked_shown asked.now).command graph.now fault (F.Fault.cause fault)) }
{
    let answer = answer_of::<F>(alloc, graph, before, names, asked)?;
    let answer = passed_on(shown(graph, asked.options, answer))?;
    match printed::<F>(alloc, graph, &asked.options, names, &answer) {
        Ok(text) => Ok(text),
        Err(_) => Err(want_of_memory()),
    }
}

// Lets go of the graphs and of the names of packages, or forgets them, where the process ends once the answer is
// written, and gives all memory back at once: to let go of the parts of a large graph one by one takes some tenths of
// the whole time.
fn give_back<N: Drop>(
    graph: PackageGraph,
    before: Option<PackageGraph>,
    names: N,
    process_ends: bool,
) {
    if process_ends {
        mem::forget(graph);
        mem::forget(before);
        mem::forget(names);
    }
}

// What is printed for what is asked of the graph that the input says.
fn answer_input<F: Format>(
    alloc: Global,
    asked: &Asked<'_>,
    input: &[u8],
    process_ends: bool,
) -> Result<String, F::Fault>
    ensures ok { IfOk result (λ text. IsAnswerTo F.format (asked_shown asked.now) input.now
        (string_bytes text)) }
    ensures err { IfErr result (λ fault. IsFaultOf F.format (asked_shown asked.now) input.now
        fault (F.Fault.cause fault)) }
{
    let (graph, names) = load::<F>(alloc, asked, input)?;
    let before = load_before::<F>(alloc, asked)?;
    let text = answer_text::<F>(alloc, &graph, before.as_ref(), &names, asked);
    give_back(graph, before, names, process_ends);
    text
}

// What is printed for what is asked of the graph that the whole input says.
fn answer_source<F: Format, R: Source>(
    alloc: Global,
    asked: &Asked<'_>,
    reader: &mut R,
) -> Result<String, F::Fault>
    requires { R.has_failed reader.old ≡ false }
    ensures ok { IfOk result (λ text. OfWholeInput (R.left reader.old) (R.left reader.new) (λ input.
        IsAnswerTo F.format (asked_shown asked.now) input (string_bytes text))) }
    ensures err { IfErr result (λ fault. IsSourceFault F.format (asked_shown asked.now)
        (R.left reader.old) (R.left reader.new) fault (F.Fault.cause fault)) }
    ensures failed { R.has_failed reader.new ≡ is_input_fault (caused F.Fault.cause result) }
{
    let input = read_all::<R, F::Fault>(alloc, reader)?;
    answer_input::<F>(alloc, asked, input.as_slice(), true)
}

/// Reads the whole input, and writes what is asked by `args` of its package graph, with the links that are asked
/// for: those of some kinds, and on some platforms, and for `publish-order` what members declare of each other, too.
///
/// `args` are the arguments without the program's own name. They are judged first, then the files that they name are
/// read: where they ask nothing, that is told, and no input is read. Then all input is read, and kept; then
/// its format is judged, then its records, then the packages that the command names, or for `verify` and
/// `publish-order` the graph, and the first fault is given. Want of memory may come at any growth, in place
/// of every fault not yet found. The answer is whole before its first byte is written, so a refusal writes
/// nothing, and an output that fails has a beginning of the answer.
///
/// The graph is forgotten, not let go: its memory is given back when the process ends.
///
/// Neither device may have failed before. Time grows with the lengths of the files and of the input, and with the
/// packages and links times the logarithm of the packages; for `publish-order` also as [`add_declared`] says.
pub fn run_with<F: Format, D: Files, R: Source, W: Sink>(
    alloc: Global,
    args: &[String],
    files: &D,
    reader: &mut R,
    writer: &mut W,
) -> Result<(), F::Fault>
    requires input_works { R.has_failed reader.old ≡ false }
    requires output_works { W.has_failed writer.old ≡ false }

    // All input was read, and what was written is an answer to it.
    ensures ok { OnOk result (OfWholeInput (R.left reader.old) (R.left reader.new) (λ input.
        IsAnswered F.format (D.has files.now) (map string_bytes args.now) input
        (Appends (W.written writer.old) (W.written writer.new)))) }

    // Where the arguments are blamed, no input was read.
    ensures arguments_read { caused F.Fault.cause result ≡ Some bad_arguments
        → reader.new ≡ reader.old }

    // The fault is why the arguments ask nothing. Or they ask something, all input was read, and the fault is why the
    // input says no records, or the first fault of its records, or where they have none, the first word of the command
    // that doesn't mean one package or, for `verify` and `publish-order` alone, a fault that the graph's `verify` may
    // tell, or, of the members that can be published, the first that needs one that can't. Or memory ran out.
    ensures fault { (fault : F.Fault) → result ≡ Err fault
        → IsRunFault F.format (D.has files.now) (map string_bytes args.now) (R.left reader.old)
        (R.left reader.new) fault (F.Fault.cause fault) }

    // The devices are blamed exactly where they failed.
    ensures input_failed { R.has_failed reader.new ≡ is_input_fault (caused F.Fault.cause result) }
    ensures output_failed { W.has_failed writer.new
        ≡ is_output_fault (caused F.Fault.cause result) }

    // A refusal writes nothing, and a write that fails leaves a beginning of an answer.
    ensures refused { WritesNothing writer.old writer.new (caused F.Fault.cause result) }
    ensures begun { caused F.Fault.cause result ≡ Some output_failed
        → OfWholeInput (R.left reader.old) (R.left reader.new) (λ input.
        IsBegun F.format (D.has files.now) (map string_bytes args.now) input
        (Appends (W.written writer.old) (W.written writer.new))) }
{
    let asked = F::asked_of(alloc, args, files)?;
    let text = answer_source::<F, R>(alloc, &asked, reader)?;
    write_text::<W, F::Fault>(writer, text.as_str())
}

// `run_with`, and what it says as one fact.
pub(crate) fn run_of<F: Format, D: Files, R: Source, W: Sink>(
    alloc: Global,
    args: &[String],
    files: &D,
    reader: &mut R,
    writer: &mut W,
) -> Result<(), F::Fault>
    requires input_works { R.has_failed reader.old ≡ false }
    requires output_works { W.has_failed writer.old ≡ false }
    ensures { IsRun F.format F.Fault.cause (D.has files.now) R.left R.has_failed W.written
        W.has_failed (map string_bytes args.now) reader.old reader.new writer.old writer.new
        result }
{
    run_with::<F, D, R, W>(alloc, args, files, reader, writer)
}

/// What is printed for what is asked by `args` of the package graph that the input says, as [`run_with`] has it, for
/// callers that have the input and want the text. All else is let go of.
///
/// Where the arguments ask nothing, that is told. Time grows as that of [`run_with`].
pub fn answer_bytes<F: Format, D: Files>(
    alloc: Global,
    args: &[String],
    files: &D,
    input: &[u8],
) -> Result<String, F::Fault>
    // The text is an answer to the arguments and the input.
    ensures ok { IfOk result (λ text. IsAnswered F.format (D.has files.now)
        (map string_bytes args.now) input.now (λ output. output ≡ string_bytes text)) }

    // The fault is why the arguments ask nothing, or one of the input or of the command on its graph, or memory ran
    // out.
    ensures fault { IfErr result (λ fault. IsAnswerFault F.format (D.has files.now)
        (map string_bytes args.now) input.now fault (F.Fault.cause fault)) }
{
    let asked = F::asked_of(alloc, args, files)?;
    answer_input::<F>(alloc, &asked, input, false)
}
