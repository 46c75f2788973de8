//! Texts on lines, as answers are printed.
ghost use Rattle.std.specs.Prelude.{◌≡◌, ◌∷◌, ◌++◌, [], map, string_bytes, codes, IfOk, OnOk, if◌then◌else◌};
ghost use Rattle.guppy_command.specs.Printed.{joined, kind_names, line_end, line_of, lines_of, truth_line};

use crate::options::{Kinds, Options};
use std::alloc::{AllocError, Global};

/// What ends a line of an answer that is a list: a newline or, where the options have it so, a NUL.
pub fn line_end(options: &Options) -> &'static str
    ensures { result.now ≡ line_end options.now }
{
    if options.nul_ended { "\0" } else { "\n" }
}

/// These texts, one a line, each with this end. Takes memory for them.
pub fn lines_of(alloc: Global, end: &str, texts: &[&str]) -> Result<String, AllocError>
    ensures { IfOk result (λ lines. string_bytes lines
        ≡ lines_of end.now (map (λ text. text.now) texts.now)) }
{
    let mut lines = String::new(alloc);
    for text in texts {
        lines.push_str(text)?;
        lines.push_str(end)?;
    }
    Ok(lines)
}

/// Adds two texts, parted by a space, on a line with this end.
pub fn push_pair(text: &mut String, end: &str, from: &str, to: &str) -> Result<(), AllocError>
    ensures { OnOk result (string_bytes text.new ≡ string_bytes text.old
        ++ line_of end.now (joined (from.now ∷ to.now ∷ []))) }
{
    text.push_str(from)?;
    text.push(' ')?;
    text.push_str(to)?;
    text.push_str(end)
}

// Adds a space and the name of a kind, if it is one of those that are told.
fn push_kind(text: &mut String, is_told: bool, name: &str) -> Result<(), AllocError>
    ensures { OnOk result (string_bytes text.new ≡ string_bytes text.old
        ++ (if is_told then codes " " ++ name.now else [])) }
{
    if is_told {
        text.push(' ')?;
        text.push_str(name)?;
    }
    Ok(())
}

/// Adds what a package is called, and the names of the kinds, on a line with this end.
pub fn push_step(text: &mut String, end: &str, called: &str, kinds: Kinds) -> Result<(), AllocError>
    ensures { OnOk result (string_bytes text.new ≡ string_bytes text.old
        ++ line_of end.now (joined (called.now ∷ kind_names kinds))) }
{
    text.push_str(called)?;
    push_kind(text, kinds.normal, "normal")?;
    push_kind(text, kinds.build, "build")?;
    push_kind(text, kinds.dev, "dev")?;
    text.push_str(end)
}

/// Whether something holds, on a line.
pub fn truth_line(holds: bool) -> &'static str
    ensures { result.now ≡ truth_line holds }
{
    if holds { "true\n" } else { "false\n" }
}
