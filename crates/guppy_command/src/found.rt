//! What arguments ask, with what the files have that they name.
ghost use Rattle.std.specs.Prelude.{◌≡◌, ◌++◌, ℕ, List, map, option_map, string_bytes, IfOk, IfErr, IfSome, OnOk};
ghost use Rattle.std.specs.List.{AllZip, flat_map};
ghost use Rattle.guppy_data.specs.Platform.{question_of};
ghost use Rattle.guppy_command.specs.Asked.{Asks, IsAsked, IsBefore, IsBeforeFault, IsMisread, IsNamed, IsOfOne, IsPathsFault, IsPlatformFault, IsUnfound, HasPaths, question_on, with_paths};
ghost use Rattle.guppy_command.specs.Paths.{are_ended, paths_of};
ghost use Rattle.guppy_command.specs.Shown.{asked_shown, command_shown, misread_shown, program_shown, wanted_shown, texts};

use crate::asked::{Asked, Wanted, wanted_of};
use crate::command::{Command, from_root};
use crate::files::{FileFault, Files};
use crate::grammar::{Misread, Program, read};
use guppy_data::PlatformSpec;
use guppy_target::{Platform, PlatformFault};
use std::alloc::{AllocError, Global};
use std::str;

// The platform of this name, whose file says what is set there.
fn platform_of<'a, D: Files>(
    alloc: Global,
    files: &D,
    triple: &'a str,
    file: &'a str,
) -> Result<Platform, Misread<'a>>
    ensures ok { IfOk result (IsNamed (D.has files.now) (triple.now, file.now)) }
    ensures err { IfErr result (λ misread. IfSome (misread_shown misread)
        (IsPlatformFault (D.has files.now) (triple.now, file.now))) }
{
    let bytes = match files.read(alloc, file) {
        Ok(bytes) => bytes,
        Err(FileFault::OutOfMemory) => return Err(Misread::OutOfMemory),
        Err(FileFault::Unreadable) => return Err(Misread::CfgsFailed(file)),
    };
    let Ok(cfgs) = str::from_utf8(bytes.as_slice()) else {
        return Err(Misread::CfgsFailed(file));
    };
    match Platform::new(alloc, triple, cfgs) {
        Ok(platform) => Ok(platform),
        Err(PlatformFault::NotASetting(before)) => Err(Misread::BadCfg(triple, before)),
        Err(PlatformFault::OutOfMemory) => Err(Misread::OutOfMemory),
    }
}

// The platforms of these names, each with its file.
fn platforms_of<'a, D: Files>(
    alloc: Global,
    files: &D,
    named: &[(&'a str, &'a str)],
) -> Result<Vec<Platform>, Misread<'a>>
    ensures ok { IfOk result (λ platforms. AllZip (IsNamed (D.has files.now))
        (map (λ named. (named.0.now, named.1.now)) named.now) platforms.items) }
    ensures err { IfErr result (λ misread. IfSome (misread_shown misread)
        (IsOfOne (IsPlatformFault (D.has files.now))
        (map (λ named. (named.0.now, named.1.now)) named.now))) }
{
    let mut platforms = Vec::with_capacity(alloc, named.len())?;
    for (triple, file) in named {
        platforms.push(platform_of(alloc, files, triple, file)?)?;
    }
    Ok(platforms)
}

// The question about these platforms, or about any where there is none.
fn question_on(platforms: Vec<Platform>) -> PlatformSpec<Platform>
    ensures { question_of result ≡ question_on platforms.items }
{
    if platforms.is_empty() {
        PlatformSpec::Any
    } else {
        PlatformSpec::Platforms(platforms)
    }
}

// Adds the paths that the text has: what stands between NULs, where that is anything.
fn add_paths(paths: &mut Vec<String>, alloc: Global, text: &str) -> Result<(), AllocError>
    ensures { OnOk result (map string_bytes paths.new.items
        ≡ map string_bytes paths.old.items ++ paths_of text.now) }
{
    for path in text.split('\0') {
        if !path.is_empty() {
            paths.push(String::from_str(alloc, from_root(path))?)?;
        }
    }
    Ok(())
}

// Whether each path is ended by a NUL.
fn are_ended(bytes: &[u8]) -> bool
    ensures { result ≡ are_ended bytes.now }
{
    bytes.is_empty() || bytes.ends_with(&[0])
}

// What the file has, where each path in it is ended.
fn list_of<'a, D: Files>(alloc: Global, files: &D, file: &'a str) -> Result<Vec<u8>, Misread<'a>>
    ensures ok { IfOk result (λ bytes. HasPaths (D.has files.now) file.now bytes.items) }
    ensures err { IfErr result (λ misread. IfSome (misread_shown misread)
        (IsPathsFault (D.has files.now) file.now)) }
{
    let bytes = match files.read(alloc, file) {
        Ok(bytes) => bytes,
        Err(FileFault::OutOfMemory) => return Err(Misread::OutOfMemory),
        Err(FileFault::Unreadable) => return Err(Misread::PathsFailed(file)),
    };
    if are_ended(bytes.as_slice()) {
        Ok(bytes)
    } else {
        Err(Misread::UnendedPaths(file))
    }
}

// Adds the paths that the file has.
fn add_list<'a, D: Files>(
    paths: &mut Vec<String>,
    alloc: Global,
    files: &D,
    file: &'a str,
) -> Result<(), Misread<'a>>
    ensures ok { OnOk result ((bytes : List ℕ) × HasPaths (D.has files.now) file.now bytes
        × (map string_bytes paths.new.items ≡ map string_bytes paths.old.items ++ paths_of bytes)) }
    ensures err { IfErr result (λ misread. IfSome (misread_shown misread)
        (IsPathsFault (D.has files.now) file.now)) }
{
    let bytes = list_of(alloc, files, file)?;
    let Ok(text) = str::from_utf8(bytes.as_slice()) else {
        return Err(Misread::PathsFailed(file));
    };
    Ok(add_paths(paths, alloc, text)?)
}

// The paths that the files have.
fn paths_in<'a, D: Files>(
    alloc: Global,
    files: &D,
    names: &[&'a str],
) -> Result<Vec<String>, Misread<'a>>
    ensures ok { IfOk result (λ paths. (lists : List (List ℕ))
        × AllZip (HasPaths (D.has files.now)) (texts names.now) lists
        × (map string_bytes paths.items ≡ flat_map paths_of lists)) }
    ensures err { IfErr result (λ misread. IfSome (misread_shown misread)
        (IsOfOne (IsPathsFault (D.has files.now)) (texts names.now))) }
{
    let mut paths = Vec::new(alloc);
    for file in names {
        add_list(&mut paths, alloc, files, file)?;
    }
    Ok(paths)
}

// What the file with the state before has, where one is named.
fn before_in<'a, D: Files>(
    alloc: Global,
    files: &D,
    names: &[&'a str],
) -> Result<Option<Vec<u8>>, Misread<'a>>
    ensures ok { IfOk result (λ before. IsBefore (D.has files.now) (texts names.now)
        (option_map (λ bytes. bytes.items) before)) }
    ensures err { IfErr result (λ misread. IfSome (misread_shown misread)
        (IsBeforeFault (texts names.now))) }
{
    let [file, ..] = names else {
        return Ok(None);
    };
    match files.read(alloc, file) {
        Ok(bytes) => Ok(Some(bytes)),
        Err(FileFault::OutOfMemory) => Err(Misread::OutOfMemory),
        Err(FileFault::Unreadable) => Err(Misread::BeforeFailed(file)),
    }
}

// The command with more paths.
fn with_paths(command: Command<'_>, more: Vec<String>) -> Result<Command<'_>, AllocError>
    ensures { IfOk result (λ changed. command_shown changed
        ≡ with_paths (map string_bytes more.items) (command_shown command.entry)) }
{
    match command {
        Command::Affected {
            ignored,
            also,
            mut paths,
        } => {
            let mut more = more;
            paths.append(&mut more)?;
            Ok(Command::Affected {
                ignored,
                also,
                paths,
            })
        }
        command => Ok(command),
    }
}

// What is wanted, with what the files have.
fn found<'a, D: Files>(
    alloc: Global,
    files: &D,
    wanted: Wanted<'a>,
) -> Result<Asked<'a>, Misread<'a>>
    ensures ok { IfOk result (λ asked. IsAsked (D.has files.now) (wanted_shown wanted.entry) (asked_shown asked)) }
    ensures err { IfErr result (λ misread. IfSome (misread_shown misread)
        (IsUnfound (D.has files.now) (wanted_shown wanted.entry))) }
{
    let platforms = platforms_of(alloc, files, wanted.platforms.as_slice())?;
    let host = platforms_of(alloc, files, wanted.host.as_slice())?;
    let more = paths_in(alloc, files, wanted.path_files.as_slice())?;
    let before = before_in(alloc, files, wanted.before.as_slice())?;
    Ok(Asked {
        options: wanted.options,
        platforms: question_on(platforms),
        host: question_on(host),
        command: with_paths(wanted.command, more)?,
        before,
        resolver: wanted.resolver,
    })
}

/// What the arguments ask, of which the files that they name have some, or why they ask nothing.
///
/// The arguments are read once, from front to end; where they ask nothing, that is told before a file is read. Takes
/// time linear in the arguments, times the options, and in the files, and memory for a reference an argument, for
/// copies of paths, and for the files.
pub fn asked_of<'a, D: Files>(
    alloc: Global,
    program: &Program,
    words: &'a [String],
    files: &D,
) -> Result<Asked<'a>, Misread<'a>>
    ensures ok { IfOk result (λ asked. Asks (D.has files.now) (program_shown program.now)
        (map string_bytes words.now) (asked_shown asked)) }
    ensures err { IfErr result (λ misread. IfSome (misread_shown misread)
        (IsMisread (D.has files.now) (program_shown program.now) (map string_bytes words.now))) }
{
    let given = read(alloc, program, words)?;
    let wanted = wanted_of(alloc, program, given.as_slice())?;
    found(alloc, files, wanted)
}
