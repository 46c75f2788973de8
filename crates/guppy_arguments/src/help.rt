//! What the program says of itself.

use crate::table::{OPTIONS, USAGES};
use guppy_command::asked::takes;
use guppy_command::grammar::OptionRow;
use std::alloc::{AllocError, Global};

const FRONT: &str = "\
Answers questions on the packages of a Cargo workspace. The scripts guppy-cargo
and cargo guppy ask cargo about it; the program itself reads from standard input
what `cargo metadata --format-version 1` prints.

Usage: guppy-cargo [OPTION].. COMMAND

";

const BEHIND: &str = "
An option may stand before the command or anywhere behind it, and its value behind
it or behind a = in the same word. A PACKAGE is named by its name, by name@version,
or by its ID. guppy-cargo help COMMAND says what the command takes.

The scripts also take, before the command or behind it:

  --manifest-path PATH      the Cargo.toml of another workspace
  --metadata FILE           what cargo metadata printed; - is standard input
  --features F, -F F, --all-features, --no-default-features,
  --filter-platform TRIPLE, --locked, --offline, --frozen
                            passed on to cargo; affected and publish-order ask for
                            all features unless some are named, and built, features
                            and why-feature always, which say by those options what
                            is built
";

const VERSION: &str = "guppy-cargo of guppy 0.19.1, proved\n";

fn asks_for_help(word: &str) -> bool {
    matches!(word, "--help" | "-h" | "help")
}

// Adds what the option is called, and its help.
fn add_option(text: &mut String, row: &OptionRow) -> Result<(), AllocError> {
    let (name, value, _, _, help) = *row;
    match value {
        Some(value) => write!(text, "  {name} {value}\n      {help}\n"),
        None => write!(text, "  {name}\n      {help}\n"),
    }
}

// Adds the options that the command takes.
fn add_options(text: &mut String, command: &str) -> Result<(), AllocError> {
    for row in OPTIONS {
        if takes(OPTIONS, command, row.0) {
            add_option(text, row)?;
        }
    }
    Ok(())
}

// What it says of a command.
fn help_on(alloc: Global, command: &str) -> Result<Option<String>, AllocError> {
    let Some((_, usage, help)) = USAGES.iter().find(|row| row.0 == command) else {
        return Ok(None);
    };
    let mut text = format!(in alloc; "Usage: guppy-cargo [OPTION].. {usage}\n\n      {help}\n\n")?;
    add_options(&mut text, command)?;
    Ok(Some(text))
}

// What it says of all commands, with the options that `order` takes, as most do.
fn help(alloc: Global) -> Result<String, AllocError> {
    let mut text = String::from_str(alloc, FRONT)?;
    for (_, usage, help) in USAGES {
        write!(text, "  {usage}\n      {help}\n")?;
    }
    text.push('\n')?;
    add_options(&mut text, "order")?;
    text.push_str(BEHIND)?;
    Ok(text)
}

/// What the program says of itself, where the arguments ask for that alone: `--help`, `-h` or `help`, perhaps with
/// a command before or behind it, or `--version` or `-V`. Takes time linear in their lengths, and memory for the text.
pub fn help_of(alloc: Global, args: &[String]) -> Result<Option<String>, AllocError> {
    match args {
        [word] if asks_for_help(word.as_str()) => Ok(Some(help(alloc)?)),
        [word] if matches!(word.as_str(), "--version" | "-V") => {
            Ok(Some(String::from_str(alloc, VERSION)?))
        }
        [first, second] if asks_for_help(first.as_str()) => help_on(alloc, second.as_str()),
        [first, second] if matches!(second.as_str(), "--help" | "-h") => {
            help_on(alloc, first.as_str())
        }
        _ => Ok(None),
    }
}
