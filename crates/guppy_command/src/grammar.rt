//! Arguments, read from front to end: options, each with its value where it takes one, and other words.
ghost use Rattle.std.specs.Prelude.{◌≡◌, ◌≤◌, ◌++◌, length, map, string_bytes, option_map, IfOk, OnOk};
ghost use Rattle.guppy_command.specs.declared.grammar.Misread.TheVariants.{OutOfMemory};
ghost use Rattle.guppy_command.specs.Grammar.{word, is_dashed, name_in, value_in, called, valued_at, option_at, first_at, goes_on, Reads};
ghost use Rattle.guppy_command.specs.Shown.{row_shown, program_shown, argument_shown, Gives, Unless};

use std::alloc::{AllocError, AllocFailed, Global};

/// An option: its name, the word for its value where it takes one, whether it may come again, the commands that take
/// it, where not all do, and its line of help.
pub type OptionRow = (
    &'static str,
    Option<&'static str>,
    bool,
    Option<&'static [&'static str]>,
    &'static str,
);

/// What a program takes.
#[derive(Clone, Copy, Debug)]
pub struct Program {
    /// Its options.
    pub options: &'static [OptionRow],
    /// Whether they may stand anywhere, and not in front of other words alone.
    pub anywhere: bool,
    /// What its commands are called.
    pub commands: &'static [&'static str],
}

/// What stands among arguments.
#[derive(Clone, Copy, Debug)]
pub enum Argument<'a> {
    /// An option by its name, with its value where it takes one.
    Option(&'a str, Option<&'a str>),
    /// Another word.
    Word(&'a str),
}

/// Why arguments ask nothing.
#[derive(Clone, Copy, Debug)]
pub enum Misread<'a> {
    /// No option is called so.
    NoOption(&'a str),
    /// Nothing stands behind the option, which takes a value.
    NoValue(&'a str),
    /// The option takes no value.
    NeedlessValue(&'a str),
    /// The option may be given once.
    Repeated(&'a str),
    /// The command, which comes first, doesn't take the option.
    NotTaken(&'a str, &'a str),
    /// There is no command.
    NoCommand,
    /// No command is called so.
    UnknownCommand(&'a str),
    /// The words behind the command don't fit it.
    BadWords(&'a str),
    /// These are no kinds of links.
    BadKinds(&'a str),
    /// This is no resolver.
    BadResolver(&'a str),
    /// This is no format.
    BadFormat(&'a str),
    /// The command takes a format, but its answer isn't packages alone, of which flags tell.
    NoFlags(&'a str),
    /// There is a platform without a file that has what is set there, or such a file without a platform.
    LonePlatform,
    /// The host has no file with what is set there, or there is such a file without a host.
    LoneHost,
    /// The folder to leave out is the whole workspace, or none.
    AllIgnored(&'a str),
    /// The value names no folder and package, parted by a `=`.
    BadAlso(&'a str),
    /// No path is given.
    NoPaths,
    /// The file with what is set on a platform can't be read.
    CfgsFailed(&'a str),
    /// Behind so many lines of the platform's file comes one that doesn't say what is set there.
    BadCfg(&'a str, usize),
    /// The file with paths can't be read.
    PathsFailed(&'a str),
    /// A path in the file isn't ended by a NUL.
    UnendedPaths(&'a str),
    /// The file with the state before can't be read.
    BeforeFailed(&'a str),
    /// Memory is wanted.
    OutOfMemory,
}

impl From<AllocError> for Misread<'_> {
    ghost from_gives = { λ _ misread. misread ≡ OutOfMemory };

    fn from(_error: AllocError) -> Self {
        Misread::OutOfMemory
    }
}

impl<T: Drop> From<AllocFailed<T>> for Misread<'_> {
    ghost from_gives = { λ _ misread. misread ≡ OutOfMemory };

    fn from(_error: AllocFailed<T>) -> Self {
        Misread::OutOfMemory
    }
}

fn is_dashed(text: &str) -> bool
    ensures { result ≡ is_dashed text.now }
{
    text.starts_with('-')
}

// The name of an option, and its value in the same word.
pub(crate) fn parts_of(text: &str) -> (&str, Option<&str>)
    ensures name { result.0.now ≡ name_in text.now }
    ensures value { option_map (λ value. value.now) result.1 ≡ value_in text.now }
{
    match text.split_once('=') {
        Some((name, value)) => (name, Some(value)),
        None => (text, None),
    }
}

// The option that is called so.
pub(crate) fn called(options: &'static [OptionRow], name: &str) -> Option<&'static OptionRow>
    ensures { option_map (λ row. row_shown row.now) result
        ≡ called (map row_shown options.now) name.now }
{
    options.iter().find(|row| row.0 == name)
}

// An option alone, or with its value, in the same word or the next, and the words behind it.
fn valued_at<'a>(
    takes_value: bool,
    text: &'a str,
    words: &'a [String],
) -> Result<(Argument<'a>, &'a [String]), Misread<'a>>
    ensures short { IfOk result (λ first. length first.1.now ≤ length words.now) }
    ensures first { Gives (λ first. (argument_shown first.0, map string_bytes first.1.now))
        (valued_at takes_value text.now (map string_bytes words.now)) result }
{
    let (name, value) = parts_of(text);
    match (takes_value, value, words) {
        (false, None, _) => Ok((Argument::Option(name, None), words)),
        (false, Some(_), _) => Err(Misread::NeedlessValue(name)),
        (true, Some(value), _) => Ok((Argument::Option(name, Some(value)), words)),
        (true, None, [next, behind @ ..]) => {
            Ok((Argument::Option(name, Some(next.as_str())), behind))
        }
        (true, None, []) => Err(Misread::NoValue(name)),
    }
}

// The option at the front of the words, and the words behind it.
fn option_at<'a>(
    program: &Program,
    text: &'a str,
    words: &'a [String],
) -> Result<(Argument<'a>, &'a [String]), Misread<'a>>
    ensures short { IfOk result (λ first. length first.1.now ≤ length words.now) }
    ensures first { Gives (λ first. (argument_shown first.0, map string_bytes first.1.now))
        (option_at (map row_shown program.now.options.now) text.now (map string_bytes words.now))
        result }
{
    let (name, _) = parts_of(text);
    match called(program.options, name) {
        None => Err(Misread::NoOption(name)),
        Some(row) => valued_at(row.1.is_some(), text, words),
    }
}

// The argument at the front of the words, and the words behind it.
fn first_at<'a>(
    program: &Program,
    text: &'a str,
    words: &'a [String],
) -> Result<(Argument<'a>, &'a [String]), Misread<'a>>
    ensures short { IfOk result (λ first. length first.1.now ≤ length words.now) }
    ensures first { Gives (λ first. (argument_shown first.0, map string_bytes first.1.now))
        (first_at (program_shown program.now) text.now (map string_bytes words.now)) result }
{
    if is_dashed(text) {
        option_at(program, text, words)
    } else {
        Ok((Argument::Word(text), words))
    }
}

// Whether options may stand here or further on.
fn goes_on(program: &Program, text: &str) -> bool
    ensures { result ≡ goes_on (program_shown program.now) text.now }
{
    is_dashed(text) || program.anywhere
}

// Adds the words, none of which is an option.
fn add_words<'a>(given: &mut Vec<Argument<'a>>, words: &'a [String]) -> Result<(), AllocError>
    ensures { OnOk result (map argument_shown given.new.items
        ≡ map argument_shown given.old.items ++ map word (map string_bytes words.now)) }
{
    for word in words {
        given.push(Argument::Word(word.as_str()))?;
    }
    Ok(())
}

/// The words as arguments, or the first that is none, and why. Takes time linear in the words, times the options, and
/// memory for an argument a word.
pub fn read<'a>(
    alloc: Global,
    program: &Program,
    words: &'a [String],
) -> Result<Vec<Argument<'a>>, Misread<'a>>
    ensures { Unless (λ given. map argument_shown given.items)
        (Reads (program_shown program.now) (map string_bytes words.now)) result }
{
    let mut given = Vec::with_capacity(alloc, words.len())?;
    let mut rest = words;
    while let [word, behind @ ..] = rest {
        let text = word.as_str();
        if !goes_on(program, text) {
            add_words(&mut given, rest)?;
            return Ok(given);
        }
        let (argument, behind) = first_at(program, text, behind)?;
        given.push(argument)?;
        rest = behind;
    }
    Ok(given)
}
