//! Why arguments ask nothing, as it is told.
ghost use Rattle.std.specs.Prelude.{◌≡◌, map, string_bytes, Some, IfOk, IfErr};
ghost use Rattle.guppy_command.specs.Asked.{Asks};
ghost use Rattle.guppy_command.specs.Shown.{asked_shown, misread_shown};
ghost use Rattle.guppy_command.specs.Grammar.{no_option};
ghost use Rattle.guppy_arguments.specs.Nearest.{IsNearest};
ghost use Rattle.guppy_arguments.specs.Scripts.{all_names};
ghost use Rattle.guppy_arguments.specs.Table.{cargo_program};
ghost use Rattle.guppy_arguments.specs.Told.{misread_of, HasNearest, IsNearestIfAny, Tells, takers_of};

use crate::fault::CargoFault;
use crate::nearest::nearest_of;
use crate::scripts::{all_names, is_of_scripts};
use crate::table::{COMMANDS, program, usage_of};
use guppy_command::grammar::Misread;
use guppy_command::table::FORMAT;
use guppy_command::{Asked, Files, found};
use std::alloc::{AllocError, Global};
use std::fmt;

/// Why arguments ask nothing.
#[derive(Debug, Drop)]
pub enum ArgumentsFault {
    /// No option is called as the word says.
    NoOption {
        /// The word, as it was given.
        word: String,
        /// The nearest option, where one is near.
        nearest: Option<String>,
    },
    /// No option is called as the word says, and the nearest is one of the scripts.
    OfScripts {
        /// The word, as it was given.
        word: String,
        /// The nearest option.
        nearest: String,
    },
    /// Nothing stands behind the option, which takes a value.
    NoValue(String),
    /// The option takes no value.
    NeedlessValue(String),
    /// The option may be given once.
    Repeated(String),
    /// The command doesn't take the option.
    NotTaken {
        /// The command.
        command: String,
        /// The option.
        name: String,
    },
    /// There is no command.
    NoCommand,
    /// No command is called so.
    UnknownCommand {
        /// The word, as it was given.
        word: String,
        /// The nearest command, where one is near.
        nearest: Option<String>,
    },
    /// The words behind the command don't fit it.
    BadWords(String),
    /// These are no kinds of links.
    BadKinds(String),
    /// This is no resolver.
    BadResolver(String),
    /// This is no format.
    BadFormat(String),
    /// The command takes a format, but its answer isn't packages alone, of which flags tell.
    NoFlags(String),
    /// There is a platform without a file that has what is set there, or such a file without a platform.
    LonePlatform,
    /// The host has no file with what is set there, or there is such a file without a host.
    LoneHost,
    /// The folder to leave out is the whole workspace, or none.
    AllIgnored(String),
    /// The value names no folder and package, parted by a `=`.
    BadAlso(String),
    /// No path is given.
    NoPaths,
    /// The file with what is set on a platform can't be read.
    CfgsFailed(String),
    /// A line of that file doesn't say what is set.
    BadCfg {
        /// The platform.
        triple: String,
        /// How many lines are before it.
        before: usize,
    },
    /// The file with paths can't be read.
    PathsFailed(String),
    /// The paths in the file aren't each ended by a NUL.
    UnendedPaths(String),
    /// The file with the state before can't be read.
    BeforeFailed(String),
}

// Of the format, which commands take it.
fn takers_of(name: &str) -> &'static str
    ensures { result.now ≡ takers_of name.now }
{
    if name == FORMAT {
        ": all commands but depends, verify and dot do"
    } else {
        ""
    }
}

impl fmt::Display for ArgumentsFault {
    ghost use Rattle.std.specs.Prelude.{Some};
    ghost use Rattle.guppy_arguments.specs.Told.{arguments_text};

    ghost output = { λ fault. Some (arguments_text fault) };

    fn fmt<W: fmt::Write>(&self, f: &mut fmt::Formatter<W>) -> fmt::Result {
        match self {
            ArgumentsFault::NoOption {
                word,
                nearest: Some(nearest),
            } => write!(f, "{word} is no option: the nearest is {nearest}"),
            ArgumentsFault::NoOption { word, .. } => {
                write!(f, "{word} is no option: guppy-cargo help lists them")
            }
            ArgumentsFault::OfScripts { word, nearest } => write!(
                f,
                "{word} is no option of the program: the nearest is {nearest}, of the scripts"
            ),
            ArgumentsFault::NoValue(name) => write!(f, "a value is missing behind {name}"),
            ArgumentsFault::NeedlessValue(name) => write!(f, "{name} takes no value"),
            ArgumentsFault::Repeated(name) => write!(f, "{name} is given twice"),
            ArgumentsFault::NotTaken { command, name } => write!(
                f,
                "{command} takes no {name}{}",
                takers_of(name.as_str())
            ),
            ArgumentsFault::NoCommand => {
                f.write_str("give a command: guppy-cargo help lists them")
            }
            ArgumentsFault::UnknownCommand {
                word,
                nearest: Some(nearest),
            } => write!(f, "{word} is no command: the nearest is {nearest}"),
            ArgumentsFault::UnknownCommand { word, .. } => {
                write!(f, "{word} is no command: guppy-cargo help lists them")
            }
            ArgumentsFault::BadWords(command) => write!(
                f,
                "{command} takes other words: give {}",
                usage_of(command.as_str())
            ),
            ArgumentsFault::BadKinds(value) => write!(
                f,
                "{value} is no kind: give some of normal,build,dev, separated by commas"
            ),
            ArgumentsFault::BadResolver(value) => {
                write!(f, "{value} is no resolver: give 1, 2 or 3")
            }
            ArgumentsFault::BadFormat(value) => {
                write!(f, "{value} is no format: give lines, flags or json")
            }
            ArgumentsFault::NoFlags(command) => {
                write!(f, "{command} takes --format lines or json, not flags")
            }
            ArgumentsFault::LonePlatform => {
                f.write_str("give --cfgs FILE behind each --platform TRIPLE")
            }
            ArgumentsFault::LoneHost => {
                f.write_str("give both --host TRIPLE and --host-cfgs FILE")
            }
            ArgumentsFault::AllIgnored(folder) => {
                write!(f, "--ignore {folder} leaves out everything: give a folder")
            }
            ArgumentsFault::BadAlso(text) => {
                write!(
                    f,
                    "{text} is no folder of a package: give --also FOLDER=PACKAGE"
                )
            }
            ArgumentsFault::NoPaths => f.write_str(
                "affected needs a path, --paths-from FILE or, of the scripts, --since REVISION",
            ),
            ArgumentsFault::CfgsFailed(file) => write!(f, "{file}: the cfgs in it can't be read"),
            ArgumentsFault::BadCfg { triple, before } => write!(
                f,
                "{triple}: line {} of its cfgs is neither a name nor a key with a value",
                *before as u128 + 1
            ),
            ArgumentsFault::PathsFailed(file) => write!(f, "{file}: the paths in it can't be read"),
            ArgumentsFault::UnendedPaths(file) => write!(
                f,
                "{file}: its paths aren't each ended by a NUL: give it what git writes with -z"
            ),
            ArgumentsFault::BeforeFailed(file) => {
                write!(f, "{file}: the state before can't be read")
            }
        }
    }
}

// The nearest of the names, where one is near.
fn copy_of_nearest(alloc: Global, word: &str, names: &[&str]) -> Result<Option<String>, AllocError>
    ensures { IfOk result (IsNearestIfAny (map (λ name. name.now) names.now) word.now) }
{
    match nearest_of(alloc, word, names)? {
        Some(name) => Ok(Some(String::from_str(alloc, name)?)),
        None => Ok(None),
    }
}

// The fault of a word that no option is called, to which this one is nearest.
fn nearest_told(alloc: Global, word: &str, nearest: &str) -> Result<ArgumentsFault, AllocError>
    ensures misread { IfOk result (λ fault. misread_of fault ≡ no_option word.now) }
    ensures nearest { IsNearest word.now all_names nearest.now → IfOk result HasNearest }
{
    let word = String::from_str(alloc, word)?;
    let name = String::from_str(alloc, nearest)?;
    if is_of_scripts(nearest) {
        Ok(ArgumentsFault::OfScripts {
            word,
            nearest: name,
        })
    } else {
        Ok(ArgumentsFault::NoOption {
            word,
            nearest: Some(name),
        })
    }
}

// The fault of a word that no option is called.
fn no_option(alloc: Global, word: &str) -> Result<ArgumentsFault, AllocError>
    ensures misread { IfOk result (λ fault. misread_of fault ≡ no_option word.now) }
    ensures nearest { IfOk result HasNearest }
{
    match nearest_of(alloc, word, all_names(alloc)?.as_slice())? {
        Some(nearest) => nearest_told(alloc, word, nearest),
        None => Ok(ArgumentsFault::NoOption {
            word: String::from_str(alloc, word)?,
            nearest: None,
        }),
    }
}

// The fault that tells why arguments ask nothing.
fn told(alloc: Global, misread: Misread<'_>) -> Result<ArgumentsFault, AllocError>
    ensures misread { IfOk result (λ fault. misread_shown misread.entry ≡ Some (misread_of fault)) }
    ensures nearest { IfOk result HasNearest }
{
    let copy = |text: &str| String::from_str(alloc, text);
    match misread {
        Misread::NoOption(word) => no_option(alloc, word),
        Misread::NoValue(name) => Ok(ArgumentsFault::NoValue(copy(name)?)),
        Misread::NeedlessValue(name) => Ok(ArgumentsFault::NeedlessValue(copy(name)?)),
        Misread::Repeated(name) => Ok(ArgumentsFault::Repeated(copy(name)?)),
        Misread::NotTaken(command, name) => Ok(ArgumentsFault::NotTaken {
            command: copy(command)?,
            name: copy(name)?,
        }),
        Misread::NoCommand => Ok(ArgumentsFault::NoCommand),
        Misread::UnknownCommand(word) => Ok(ArgumentsFault::UnknownCommand {
            word: String::from_str(alloc, word)?,
            nearest: copy_of_nearest(alloc, word, COMMANDS)?,
        }),
        Misread::BadWords(command) => Ok(ArgumentsFault::BadWords(copy(command)?)),
        Misread::BadKinds(value) => Ok(ArgumentsFault::BadKinds(copy(value)?)),
        Misread::BadResolver(value) => Ok(ArgumentsFault::BadResolver(copy(value)?)),
        Misread::BadFormat(value) => Ok(ArgumentsFault::BadFormat(copy(value)?)),
        Misread::NoFlags(command) => Ok(ArgumentsFault::NoFlags(copy(command)?)),
        Misread::LonePlatform => Ok(ArgumentsFault::LonePlatform),
        Misread::LoneHost => Ok(ArgumentsFault::LoneHost),
        Misread::AllIgnored(folder) => Ok(ArgumentsFault::AllIgnored(copy(folder)?)),
        Misread::BadAlso(text) => Ok(ArgumentsFault::BadAlso(copy(text)?)),
        Misread::NoPaths => Ok(ArgumentsFault::NoPaths),
        Misread::CfgsFailed(file) => Ok(ArgumentsFault::CfgsFailed(copy(file)?)),
        Misread::BadCfg(triple, before) => Ok(ArgumentsFault::BadCfg {
            triple: copy(triple)?,
            before,
        }),
        Misread::PathsFailed(file) => Ok(ArgumentsFault::PathsFailed(copy(file)?)),
        Misread::UnendedPaths(file) => Ok(ArgumentsFault::UnendedPaths(copy(file)?)),
        Misread::BeforeFailed(file) => Ok(ArgumentsFault::BeforeFailed(copy(file)?)),
        Misread::OutOfMemory => Err(AllocError),
    }
}

/// What the arguments ask, of which the files that they name have some: a command, and options anywhere among its
/// words. Where they ask nothing, the fault tells why, with the nearest option or command to a word that is none.
///
/// Takes time linear in their lengths, times the options, and in what the files have. Takes memory for a reference or
/// two a word, and for what the files have.
pub fn asked_of<'a, D: Files>(
    alloc: Global,
    args: &'a [String],
    files: &D,
) -> Result<Asked<'a>, CargoFault>
    ensures ok { IfOk result (λ asked. Asks (D.has files.now) cargo_program
        (map string_bytes args.now) (asked_shown asked)) }
    ensures err { IfErr result (Tells (D.has files.now) (map string_bytes args.now)) }
{
    match found::asked_of(alloc, &program(), args, files) {
        Ok(asked) => Ok(asked),
        Err(misread) => Err(CargoFault::Arguments(told(alloc, misread)?)),
    }
}
