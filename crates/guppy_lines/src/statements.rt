//! What a line says.
ghost use Rattle.std.specs.Prelude.{◌≡◌, ◌∷◌, codes, option_map};
ghost use Rattle.std.specs.Option.{option_copied};
ghost use Rattle.guppy_lines.specs.Text.{words, words_after, statement_of, statement_of_words, statement_of_text};
ghost use Rattle.guppy_lines.specs.Stated.{statement_shown};

use guppy_command::options::section_of;
use guppy_data::DependencyKind;

/// What one line says.
#[derive(Clone, Copy, Debug)]
pub enum Statement<'a> {
    /// There is a package with this ID.
    Package(&'a str),
    /// The first package depends on the second, in this section.
    Link(&'a str, &'a str, DependencyKind),
}

// The first word, and what stands behind the space after it.
fn cut(text: &str) -> (&str, Option<&str>)
    ensures { words text.now ≡ result.0.now ∷ words_after (option_copied result.1) }
{
    match text.split_once(' ') {
        Some((word, rest)) => (word, Some(rest)),
        None => (text, None),
    }
}

// What a line says that begins with `package` and a space, behind which this stands.
fn package_of(text: &str) -> Option<Statement<'_>>
    ensures { option_map statement_shown result
        ≡ statement_of_words (codes "package" ∷ words text.now) }
{
    let (id, rest) = cut(text);
    if id.is_empty() || rest.is_some() {
        return None;
    }
    Some(Statement::Package(id))
}

// What a line says that begins with `link` and a space, behind which this stands.
fn link_of(text: &str) -> Option<Statement<'_>>
    ensures { option_map statement_shown result
        ≡ statement_of_words (codes "link" ∷ words text.now) }
{
    let (from, rest) = cut(text);
    let (to, rest) = cut(rest?);
    let section = section_of(rest?)?;
    if from.is_empty() || to.is_empty() {
        return None;
    }
    Some(Statement::Link(from, to, section))
}

fn statement_of_text(text: &str) -> Option<Statement<'_>>
    ensures { option_map statement_shown result ≡ statement_of_text text.now }
{
    if let Some(words) = text.strip_prefix("package ") {
        return package_of(words);
    }
    link_of(text.strip_prefix("link ")?)
}

/// What a line says, if it says anything. Takes time linear in the line's length, and no memory.
pub fn statement_of(line: &[u8]) -> Option<Statement<'_>>
    ensures { option_map statement_shown result ≡ statement_of line.now }
{
    match str::from_utf8(line) {
        Ok(text) => statement_of_text(text),
        Err(_) => None,
    }
}
