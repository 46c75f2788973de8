//! Parts of a text that tell how long they are.
ghost use Rattle.std.specs.Prelude.{◌≡◌, ◌++◌, ℕ, List, OnOk, codes, string_bytes};
ghost use Rattle.std.specs.Fmt.{decimal};
ghost use Rattle.guppy_wire.specs.Parts.{field, string_field, version_field, optional, listed, yes_or_no};

use guppy_data::{PackageId, TargetSpec, Utf8PathBuf};
use semver::Version;
use std::alloc::{AllocError, Global};

/// What can be told as a text.
pub(crate) trait Tell {
    /// The text.
    ghost told: { Self → List ℕ };

    /// Adds the text.
    fn tell(&self, alloc: Global, text: &mut String) -> Result<(), AllocError>
        ensures { OnOk result (string_bytes text.new ≡ string_bytes text.old ++ told self.now) };
}

/// Adds the number.
pub(crate) fn push_number(text: &mut String, number: usize) -> Result<(), AllocError>
    ensures { OnOk result (string_bytes text.new ≡ string_bytes text.old ++ decimal number) }
{
    let mut digits = itoa::Buffer::new();
    text.push_str(digits.format(number))
}

/// Adds the text behind its length.
pub(crate) fn push_field(text: &mut String, part: &str) -> Result<(), AllocError>
    ensures { OnOk result (string_bytes text.new ≡ string_bytes text.old ++ field part.now) }
{
    push_number(text, part.len())?;
    text.push(':')?;
    text.push_str(part)
}

/// Adds whether it is so.
pub(crate) fn push_flag(text: &mut String, flag: bool) -> Result<(), AllocError>
    ensures { OnOk result (string_bytes text.new ≡ string_bytes text.old ++ yes_or_no flag) }
{
    text.push(if flag { 'y' } else { 'n' })
}

/// Adds the item, or that there is none.
pub(crate) fn push_optional<T: Tell>(
    alloc: Global,
    text: &mut String,
    item: &Option<T>,
) -> Result<(), AllocError>
    ensures { OnOk result (string_bytes text.new
        ≡ string_bytes text.old ++ optional T.told item.now) }
{
    match item {
        Some(item) => item.tell(alloc, text),
        None => text.push('-'),
    }
}

/// Adds how many items there are, and a mark.
pub(crate) fn push_count(text: &mut String, count: usize) -> Result<(), AllocError>
    ensures { OnOk result (string_bytes text.new
        ≡ string_bytes text.old ++ decimal count ++ codes ";") }
{
    // Most lists are empty.
    if count == 0 {
        return text.push_str("0;");
    }
    push_number(text, count)?;
    text.push(';')
}

/// Adds the items behind their number.
pub(crate) fn push_list<T: Tell>(
    alloc: Global,
    text: &mut String,
    items: &[T],
) -> Result<(), AllocError>
    ensures { OnOk result (string_bytes text.new
        ≡ string_bytes text.old ++ listed T.told items.now) }
{
    push_count(text, items.len())?;
    for item in items {
        item.tell(alloc, text)?;
    }
    Ok(())
}

impl Tell for String {
    ghost told = { string_field };

    fn tell(&self, _alloc: Global, text: &mut String) -> Result<(), AllocError> {
        push_field(text, self.as_str())
    }
}

impl Tell for PackageId {
    ghost told = { field };

    fn tell(&self, _alloc: Global, text: &mut String) -> Result<(), AllocError> {
        push_field(text, self.repr())
    }
}

impl Tell for Utf8PathBuf {
    ghost told = { field };

    fn tell(&self, _alloc: Global, text: &mut String) -> Result<(), AllocError> {
        push_field(text, self.as_path().as_str())
    }
}

impl Tell for TargetSpec {
    ghost told = { field };

    fn tell(&self, _alloc: Global, text: &mut String) -> Result<(), AllocError> {
        push_field(text, self.as_str())
    }
}

impl Tell for Version {
    ghost told = { version_field };

    fn tell(&self, alloc: Global, text: &mut String) -> Result<(), AllocError> {
        let version = format!(in alloc; "{self}")?;
        push_field(text, version.as_str())
    }
}
