//! Texts in quotation marks, as Graphviz reads them.
ghost use Rattle.std.specs.Prelude.{◌≡◌, ◌++◌, ℕ, List, OnOk, string_bytes};
ghost use Rattle.std.specs.Char.{encode_utf8};
ghost use Rattle.guppy_dot.specs.Quoted.{escaped, quoted};

use std::alloc::AllocError;

// Adds the character, behind a backslash where it is a quotation mark or a backslash.
fn push_character(text: &mut String, character: char) -> Result<(), AllocError>
    ensures { OnOk result (string_bytes text.new
        ≡ string_bytes text.old ++ escaped (encode_utf8 character)) }
{
    if character == '"' {
        text.push_str("\\\"")
    } else if character == '\\' {
        text.push_str("\\\\")
    } else {
        text.push(character)
    }
}

// Adds the text, with a backslash before each quotation mark and each backslash.
fn push_escaped(text: &mut String, added: &str) -> Result<(), AllocError>
    ensures { OnOk result (string_bytes text.new ≡ string_bytes text.old ++ escaped added.now) }
{
    for character in added.chars() {
        push_character(text, character)?;
    }
    Ok(())
}

/// Adds the text in quotation marks, with a backslash before each quotation mark and each backslash.
pub fn push_quoted(text: &mut String, added: &str) -> Result<(), AllocError>
    ensures { OnOk result (string_bytes text.new ≡ string_bytes text.old ++ quoted added.now) }
{
    text.push('"')?;
    push_escaped(text, added)?;
    text.push('"')
}

/// Behind a quoted text a text goes on at one place, and the quoted one is quoted from one text alone: so what is
/// read from the front is what was written.
pub fn quoted_reads_back()
    ensures { (a b rest more : List ℕ) → quoted a ++ rest ≡ quoted b ++ more
        → (a ≡ b) × (rest ≡ more) }
{}
