//! What arguments ask.
ghost use Rattle.std.specs.Prelude.{◌≡◌, map, string_bytes, option_map, IfOk};
ghost use Rattle.std.specs.List.{filter_map, find, flat_map, zip};
ghost use Rattle.guppy_command.specs.Asked.{word_of, value_for, picked, is_option, values_of, has, is_among, takes, may_repeat, command_in, judged, all_judged, kinds_in, format_in, suited, pairs_in, platforms_in, host_in, options_in, says_changes, affected_of, standard_in, resolver_in, request_in, is_of_builds, is_of_packages, asked_of_builds, asked_by, wanted_of, is_all, halves_of, is_unparted, also_in, ignored_in};
ghost use Rattle.guppy_command.specs.declared.table.TheConstants.{FORMAT, KINDS, RESOLVER};
ghost use Rattle.guppy_command.specs.Builds.{features_of};
ghost use Rattle.guppy_command.specs.Command.{from_root};
ghost use Rattle.guppy_command.specs.Shown.{argument_shown, row_shown, program_shown, command_shown, request_shown, wanted_shown, texts, Gives};

use crate::builds::{add_features, resolver_of};
use crate::command::{BuildRequest, Command, build_command_of, command_of, from_root};
use crate::grammar::{Argument, Misread, OptionRow, Program, called, parts_of};
use crate::options::{Kinds, Options, OutputFormat, format_of, kinds_of};
use crate::table::{
    ALL_FEATURES, ALSO, BEFORE, CFGS, FEATURES, FORMAT, HOST, HOST_CFGS, IDS, IGNORE, KINDS,
    MEMBER, NO_DEFAULT_FEATURES, NULL, PATHS_FROM, PLATFORM, PUBLISHABLE, RESOLVER, TESTS,
    WORKSPACE,
};
use guppy_data::PlatformSpec;
use guppy_features::{CargoResolverVersion, StandardFeatures};
use guppy_target::Platform;
use std::alloc::{AllocError, Global};

/// What arguments ask, before the files that they name are read.
#[derive(Debug, Drop)]
pub struct Wanted<'a> {
    /// What is asked of every command.
    pub options: Options,
    /// The platforms by their names, each with the file that says what is set there.
    pub platforms: Vec<(&'a str, &'a str)>,
    /// The host, where it is named, with the file that says what is set there.
    pub host: Vec<(&'a str, &'a str)>,
    /// The command.
    pub command: Command<'a>,
    /// The files that have more paths.
    pub path_files: Vec<&'a str>,
    /// The file that has the input of the state before, where one is named.
    pub before: Vec<&'a str>,
    /// The resolver by which the states are compared.
    pub resolver: CargoResolverVersion,
}

/// What the program is asked.
#[derive(Debug, Drop)]
pub struct Asked<'a> {
    /// What is asked of every command.
    pub options: Options,
    /// The platforms on which links count.
    pub platforms: PlatformSpec<Platform>,
    /// The host, on which what is built to run there counts, too, or any where it isn't named.
    pub host: PlatformSpec<Platform>,
    /// The command.
    pub command: Command<'a>,
    /// The input of the state before, where it is named.
    pub before: Option<Vec<u8>>,
    /// The resolver by which the states are compared.
    pub resolver: CargoResolverVersion,
}

fn word_of<'a>(argument: &Argument<'a>) -> Option<&'a str>
    ensures { option_map (λ text. text.now) result ≡ word_of (argument_shown argument.now) }
{
    match argument {
        Argument::Word(text) => Some(text),
        Argument::Option(..) => None,
    }
}

// The value of the option, if the argument is that.
fn value_for<'a>(name: &str, argument: &Argument<'a>) -> Option<&'a str>
    ensures { option_map (λ text. text.now) result ≡ value_for name.now (argument_shown argument.now) }
{
    match argument {
        Argument::Option(other, value) if *other == name => *value,
        _ => None,
    }
}

fn is_option(name: &str, argument: &Argument<'_>) -> bool
    ensures { result ≡ is_option name.now (argument_shown argument.now) }
{
    match argument {
        Argument::Option(other, _) => *other == name,
        Argument::Word(_) => false,
    }
}

// The value of the option, if the argument is that, or where none is named the word.
fn picked<'a>(name: Option<&str>, argument: &Argument<'a>) -> Option<&'a str>
    ensures { option_map (λ text. text.now) result
        ≡ picked (option_map (λ name. name.now) name.entry) (argument_shown argument.now) }
{
    match name {
        Some(name) => value_for(name, argument),
        None => word_of(argument),
    }
}

// The values of the option, or where none is named the words that are no option and no value.
fn all_picked<'a>(
    alloc: Global,
    name: Option<&str>,
    given: &[Argument<'a>],
) -> Result<Vec<&'a str>, AllocError>
    ensures { IfOk result (λ values. texts values.items
        ≡ filter_map (picked (option_map (λ name. name.now) name.entry)) (map argument_shown given.now)) }
{
    let mut values = Vec::new(alloc);
    for argument in given {
        if let Some(value) = picked(name, argument) {
            values.push(value)?;
        }
    }
    Ok(values)
}

// The values of the option.
fn values_of<'a>(
    alloc: Global,
    name: &str,
    given: &[Argument<'a>],
) -> Result<Vec<&'a str>, AllocError>
    ensures { IfOk result (λ values. texts values.items
        ≡ values_of name.now (map argument_shown given.now)) }
{
    all_picked(alloc, Some(name), given)
}

// Whether the option is given.
fn has(name: &str, given: &[Argument<'_>]) -> bool
    ensures { result ≡ has name.now (map argument_shown given.now) }
{
    given.iter().any(|argument| is_option(name, argument))
}

/// Whether the text is one of these. Takes time linear in them, and no memory.
pub fn is_among(names: &[&str], text: &str) -> bool
    ensures { result ≡ is_among (texts names.now) text.now }
{
    names.contains(&text)
}

/// Whether the command takes the option, which is one of these. Takes time linear in the options and in the commands
/// that take it, and no memory.
pub fn takes(options: &'static [OptionRow], command: &str, name: &str) -> bool
    ensures { result ≡ takes (map row_shown options.now) command.now name.now }
{
    let Some(row) = called(options, name) else {
        return false;
    };
    match row.3 {
        Some(commands) => is_among(commands, command),
        None => true,
    }
}

// Whether the option may come again.
fn may_repeat(options: &'static [OptionRow], name: &str) -> bool
    ensures { result ≡ may_repeat (map row_shown options.now) name.now }
{
    match called(options, name) {
        None => false,
        Some((_, _, repeats, ..)) => *repeats,
    }
}

// The command, which comes first, and the words behind it.
fn command_in<'a, 'w>(
    program: &Program,
    words: &'w [&'a str],
) -> Result<(&'a str, &'w [&'a str]), Misread<'a>>
    ensures { Gives (λ found. (found.0.now, texts found.1.now))
        (command_in (program_shown program.now) (texts words.now)) result }
{
    let [word, words @ ..] = words else {
        return Err(Misread::NoCommand);
    };
    if is_among(program.commands, word) {
        Ok((word, words))
    } else {
        Err(Misread::UnknownCommand(word))
    }
}

// Whether an option is one that the command takes, and comes again behind it only if it may.
fn judge<'a>(
    program: &Program,
    command: &'a str,
    argument: &Argument<'a>,
    behind: &[Argument<'a>],
) -> Result<(), Misread<'a>>
    ensures { Gives (λ x. x) (judged (map row_shown program.now.options.now) command.now
        (argument_shown argument.now) (map argument_shown behind.now)) result }
{
    let Argument::Option(name, _) = argument else {
        return Ok(());
    };
    if !takes(program.options, command, name) {
        return Err(Misread::NotTaken(command, name));
    }
    if has(name, behind) && !may_repeat(program.options, name) {
        return Err(Misread::Repeated(name));
    }
    Ok(())
}

// Whether each option is so.
fn judge_all<'a>(
    program: &Program,
    command: &'a str,
    given: &[Argument<'a>],
) -> Result<(), Misread<'a>>
    ensures { Gives (λ x. x) (all_judged (map row_shown program.now.options.now) command.now
        (map argument_shown given.now)) result }
{
    let mut rest = given;
    while let [argument, behind @ ..] = rest {
        judge(program, command, argument, behind)?;
        rest = behind;
    }
    Ok(())
}

// The kinds that are named, where any are.
fn kinds_in<'a>(values: &[&'a str]) -> Result<Option<Kinds>, Misread<'a>>
    ensures { Gives (λ kinds. kinds) (kinds_in (texts values.now)) result }
{
    let [value, ..] = values else {
        return Ok(None);
    };
    match kinds_of(value) {
        Some(kinds) => Ok(Some(kinds)),
        None => Err(Misread::BadKinds(value)),
    }
}

// Each of the first with that of the second which stands at the same place.
fn paired<'a>(
    alloc: Global,
    firsts: &[&'a str],
    seconds: &[&'a str],
) -> Result<Vec<(&'a str, &'a str)>, AllocError>
    ensures { IfOk result (λ pairs. map (λ named. (named.0.now, named.1.now)) pairs.items
        ≡ zip (texts firsts.now) (texts seconds.now)) }
{
    let mut pairs = Vec::new(alloc);
    for (first, second) in firsts.iter().zip(seconds.iter()) {
        pairs.push((*first, *second))?;
    }
    Ok(pairs)
}

// The values of the option, each with that of the other one at the same place, where there are as many of both.
fn pairs_in<'a>(
    alloc: Global,
    name: &str,
    other: &str,
    given: &[Argument<'a>],
) -> Result<Option<Vec<(&'a str, &'a str)>>, AllocError>
    ensures { IfOk result (λ pairs. option_map (λ pairs. map (λ named. (named.0.now, named.1.now)) pairs.items) pairs
        ≡ pairs_in name.now other.now (map argument_shown given.now)) }
{
    let values = values_of(alloc, name, given)?;
    let others = values_of(alloc, other, given)?;
    if values.len() == others.len() {
        Ok(Some(paired(alloc, values.as_slice(), others.as_slice())?))
    } else {
        Ok(None)
    }
}

// The platforms, each with its file.
fn platforms_in<'a>(
    alloc: Global,
    given: &[Argument<'a>],
) -> Result<Vec<(&'a str, &'a str)>, Misread<'a>>
    ensures { Gives (λ pairs. map (λ named. (named.0.now, named.1.now)) pairs.items)
        (platforms_in (map argument_shown given.now)) result }
{
    match pairs_in(alloc, PLATFORM, CFGS, given)? {
        Some(platforms) => Ok(platforms),
        None => Err(Misread::LonePlatform),
    }
}

// The host with its file, where it is named.
fn host_in<'a>(
    alloc: Global,
    given: &[Argument<'a>],
) -> Result<Vec<(&'a str, &'a str)>, Misread<'a>>
    ensures { Gives (λ pairs. map (λ named. (named.0.now, named.1.now)) pairs.items)
        (host_in (map argument_shown given.now)) result }
{
    match pairs_in(alloc, HOST, HOST_CFGS, given)? {
        Some(host) => Ok(host),
        None => Err(Misread::LoneHost),
    }
}

// The format that is named, or lines.
fn format_in<'a>(values: &[&'a str]) -> Result<OutputFormat, Misread<'a>>
    ensures { Gives (λ format. format) (format_in (texts values.now)) result }
{
    let [value, ..] = values else {
        return Ok(OutputFormat::Lines);
    };
    match format_of(value) {
        Some(format) => Ok(format),
        None => Err(Misread::BadFormat(value)),
    }
}

// The kinds that the option names, where it is given.
fn kinds_given<'a>(alloc: Global, given: &[Argument<'a>]) -> Result<Option<Kinds>, Misread<'a>>
    ensures { Gives (λ kinds. kinds) (kinds_in (values_of KINDS.now (map argument_shown given.now))) result }
{
    let values = values_of(alloc, KINDS, given)?;
    kinds_in(values.as_slice())
}

// The format that the option names, or lines.
fn format_given<'a>(alloc: Global, given: &[Argument<'a>]) -> Result<OutputFormat, Misread<'a>>
    ensures { Gives (λ format. format) (format_in (values_of FORMAT.now (map argument_shown given.now))) result }
{
    let values = values_of(alloc, FORMAT, given)?;
    format_in(values.as_slice())
}

// How an answer is shown, and of which links.
fn options_in<'a>(alloc: Global, given: &[Argument<'a>]) -> Result<Options, Misread<'a>>
    ensures { Gives (λ options. options) (options_in (map argument_shown given.now)) result }
{
    let kinds = kinds_given(alloc, given)?;
    let format = format_given(alloc, given)?;
    Ok(Options {
        kinds,
        members_alone: has(WORKSPACE, given),
        by_id: has(IDS, given),
        nul_ended: has(NULL, given),
        format,
    })
}

// Whether the command's answer is packages alone.
fn is_of_packages(command: &str) -> bool
    ensures { result ≡ is_of_packages command.now }
{
    is_among(
        &["affected", "publish-order", "reach", "order", "roots"],
        command,
    )
}

// Whether the command takes the format: flags tell of packages alone.
fn suited(command: &str, format: OutputFormat) -> Result<(), Misread<'_>>
    ensures { Gives (λ x. x) (suited command.now format) result }
{
    match format {
        OutputFormat::Flags if !is_of_packages(command) => Err(Misread::NoFlags(command)),
        OutputFormat::Lines | OutputFormat::Flags | OutputFormat::Json => Ok(()),
    }
}

// Whether the folder is the whole workspace.
fn is_all(folder: &str) -> bool
    ensures { result ≡ is_all folder.now }
{
    matches!(from_root(folder), "" | ".")
}

// The paths without a `./` at their fronts.
fn from_roots(alloc: Global, paths: &[&str]) -> Result<Vec<String>, AllocError>
    ensures { IfOk result (λ copies. map string_bytes copies.items
        ≡ map from_root (texts paths.now)) }
{
    let mut copies = Vec::with_capacity(alloc, paths.len())?;
    for path in paths {
        copies.push(String::from_str(alloc, from_root(path))?)?;
    }
    Ok(copies)
}

// The first of the folders that is the whole workspace.
fn first_all<'a>(folders: &[&'a str]) -> Option<&'a str>
    ensures { option_map (λ folder. folder.now) result ≡ find is_all (texts folders.now) }
{
    folders.iter().find(|folder| is_all(folder)).copied()
}

// Whether it is said what changed: by paths, by files that have some, or by the state before.
fn says_changes(given: &[Argument<'_>], paths: &[&str]) -> bool
    ensures { result ≡ says_changes (map argument_shown given.now) (texts paths.now) }
{
    !paths.is_empty() || has(PATHS_FROM, given) || has(BEFORE, given)
}

// The folder and the package that the text names, parted by its first `=`.
fn halves_of(text: &str) -> Option<(&str, &str)>
    ensures { option_map (λ both. (both.0.now, both.1.now)) result ≡ halves_of text.now }
{
    let (folder, owner) = parts_of(text);
    let owner = owner?;
    if folder.is_empty() || owner.is_empty() {
        return None;
    }
    Some((folder, owner))
}

// Whether the text names none.
fn is_unparted(text: &str) -> bool
    ensures { result ≡ is_unparted text.now }
{
    halves_of(text).is_none()
}

// The first text that names none.
fn first_unparted<'a>(values: &[&'a str]) -> Option<&'a str>
    ensures { option_map (λ text. text.now) result ≡ find is_unparted (texts values.now) }
{
    values.iter().find(|text| is_unparted(text)).copied()
}

// The folders and the packages that the texts name.
fn all_halves<'a>(alloc: Global, values: &[&'a str]) -> Result<Vec<(&'a str, &'a str)>, AllocError>
    ensures { IfOk result (λ halves. map (λ both. (both.0.now, both.1.now)) halves.items
        ≡ filter_map halves_of (texts values.now)) }
{
    let mut halves = Vec::new(alloc);
    for text in values {
        if let Some(both) = halves_of(text) {
            halves.push(both)?;
        }
    }
    Ok(halves)
}

// The folders that belong to packages beside their own, each with the word for its package.
fn also_in<'a>(
    alloc: Global,
    given: &[Argument<'a>],
) -> Result<Vec<(&'a str, &'a str)>, Misread<'a>>
    ensures { Gives (λ pairs. map (λ both. (both.0.now, both.1.now)) pairs.items)
        (also_in (map argument_shown given.now)) result }
{
    let values = values_of(alloc, ALSO, given)?;
    match first_unparted(values.as_slice()) {
        Some(text) => Err(Misread::BadAlso(text)),
        None => Ok(all_halves(alloc, values.as_slice())?),
    }
}

// The folders to leave out.
fn ignored_in<'a>(alloc: Global, given: &[Argument<'a>]) -> Result<Vec<String>, Misread<'a>>
    ensures { Gives (λ folders. map string_bytes folders.items)
        (ignored_in (map argument_shown given.now)) result }
{
    let folders = values_of(alloc, IGNORE, given)?;
    match first_all(folders.as_slice()) {
        Some(folder) => Err(Misread::AllIgnored(folder)),
        None => Ok(from_roots(alloc, folders.as_slice())?),
    }
}

// The members that changes at these paths affect, with folders to leave out, and folders that belong to packages.
fn affected_of<'a>(
    alloc: Global,
    given: &[Argument<'a>],
    paths: &[&'a str],
) -> Result<Command<'a>, Misread<'a>>
    ensures { Gives command_shown (affected_of (map argument_shown given.now) (texts paths.now)) result }
{
    if !says_changes(given, paths) {
        return Err(Misread::NoPaths);
    }
    let ignored = ignored_in(alloc, given)?;
    let also = also_in(alloc, given)?;
    Ok(Command::Affected {
        ignored,
        also,
        paths: from_roots(alloc, paths)?,
    })
}

// What `--features` names.
fn features_in<'a>(alloc: Global, values: &[&'a str]) -> Result<Vec<&'a str>, AllocError>
    ensures { IfOk result (λ features. texts features.items
        ≡ flat_map features_of (texts values.now)) }
{
    let mut features = Vec::new(alloc);
    for value in values {
        add_features(&mut features, value)?;
    }
    Ok(features)
}

// Which features of the members beside those that are named.
fn standard_in(given: &[Argument<'_>]) -> StandardFeatures
    ensures { result ≡ standard_in (map argument_shown given.now) }
{
    if has(ALL_FEATURES, given) {
        StandardFeatures::All
    } else if has(NO_DEFAULT_FEATURES, given) {
        StandardFeatures::None
    } else {
        StandardFeatures::Default
    }
}

// The resolver that is named, or the second.
fn resolver_in<'a>(values: &[&'a str]) -> Result<CargoResolverVersion, Misread<'a>>
    ensures { Gives (λ resolver. resolver) (resolver_in (texts values.now)) result }
{
    let [value, ..] = values else {
        return Ok(CargoResolverVersion::V2);
    };
    match resolver_of(value) {
        Some(resolver) => Ok(resolver),
        None => Err(Misread::BadResolver(value)),
    }
}

// The resolver that is given.
fn resolver_given<'a>(
    alloc: Global,
    given: &[Argument<'a>],
) -> Result<CargoResolverVersion, Misread<'a>>
    ensures { Gives (λ resolver. resolver)
        (resolver_in (values_of RESOLVER.now (map argument_shown given.now))) result }
{
    let values = values_of(alloc, RESOLVER, given)?;
    resolver_in(values.as_slice())
}

// What Cargo is asked to build.
fn request_in<'a>(alloc: Global, given: &[Argument<'a>]) -> Result<BuildRequest<'a>, Misread<'a>>
    ensures { Gives request_shown (request_in (map argument_shown given.now)) result }
{
    let resolver = resolver_given(alloc, given)?;
    let features = values_of(alloc, FEATURES, given)?;
    Ok(BuildRequest {
        members: values_of(alloc, MEMBER, given)?,
        features: features_in(alloc, features.as_slice())?,
        standard: standard_in(given),
        tests: has(TESTS, given),
        resolver,
    })
}

// Whether the command asks what Cargo builds.
fn is_of_builds(command: &str) -> bool
    ensures { result ≡ is_of_builds command.now }
{
    matches!(command, "built" | "features" | "why-feature")
}

// What such a command asks with these words behind it.
fn asked_of_builds<'a>(
    alloc: Global,
    given: &[Argument<'a>],
    command: &'a str,
    words: &[&'a str],
) -> Result<Command<'a>, Misread<'a>>
    ensures { Gives command_shown
        (asked_of_builds (map argument_shown given.now) command.now (texts words.now)) result }
{
    let request = request_in(alloc, given)?;
    match build_command_of(request, command, words) {
        Some(asked) => Ok(asked),
        None => Err(Misread::BadWords(command)),
    }
}

// What the command asks with these words behind it.
fn asked_by<'a>(
    alloc: Global,
    given: &[Argument<'a>],
    command: &'a str,
    words: &[&'a str],
) -> Result<Command<'a>, Misread<'a>>
    ensures { Gives command_shown
        (asked_by (map argument_shown given.now) command.now (texts words.now)) result }
{
    if command == "affected" {
        return affected_of(alloc, given, words);
    }
    if is_of_builds(command) {
        return asked_of_builds(alloc, given, command, words);
    }
    match command_of(alloc, has(PUBLISHABLE, given), command, words)? {
        Some(asked) => Ok(asked),
        None => Err(Misread::BadWords(command)),
    }
}

/// What the arguments ask, before the files that they name are read, or why they ask nothing. Takes time linear in
/// them, times the options, and memory for a reference an argument.
pub fn wanted_of<'a>(
    alloc: Global,
    program: &Program,
    given: &[Argument<'a>],
) -> Result<Wanted<'a>, Misread<'a>>
    ensures { Gives wanted_shown
        (wanted_of (program_shown program.now) (map argument_shown given.now)) result }
{
    let words = all_picked(alloc, None, given)?;
    let (command, words) = command_in(program, words.as_slice())?;
    judge_all(program, command, given)?;
    let options = options_in(alloc, given)?;
    suited(command, options.format)?;
    let platforms = platforms_in(alloc, given)?;
    let host = host_in(alloc, given)?;
    let resolver = resolver_given(alloc, given)?;
    let command = asked_by(alloc, given, command, words)?;
    Ok(Wanted {
        options,
        platforms,
        host,
        command,
        path_files: values_of(alloc, PATHS_FROM, given)?,
        before: values_of(alloc, BEFORE, given)?,
        resolver,
    })
}
