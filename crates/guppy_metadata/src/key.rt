//! What of names is compared first.
ghost use Rattle.std.specs.Prelude.{◌≡◌};
ghost use Rattle.guppy_metadata.specs.Key.{name_key};

/// The last four letters of a name as a number, which lies beside the name's place: names with other letters there are
/// told apart with no look at the text.
pub(crate) fn name_key(name: &str) -> u32
    ensures { result ≡ name_key name.now }
{
    let letters = name.as_bytes();
    let last = &letters[letters.len().saturating_sub(4)..];
    let mut key: u32 = 0;
    for letter in last {
        key = key % 0x100_0000 * 0x100 + *letter as u32;
    }
    key
}
