//! Arguments as one run of bytes, for callers that are no process.
ghost use Rattle.std.specs.Prelude.{◌≡◌, map, string_bytes, IfOk};
ghost use Rattle.guppy_arguments.specs.Words.{arguments_in};

use std::alloc::{AllocError, Global};

/// The arguments that the text has, parted by zero bytes. Takes memory for a text a word.
pub fn arguments_in(alloc: Global, text: &str) -> Result<Vec<String>, AllocError>
    ensures { IfOk result (λ args. map string_bytes args.items ≡ arguments_in text.now) }
{
    let mut args = Vec::new(alloc);
    for word in text.split('\0') {
        args.push(String::from_str(alloc, word)?)?;
    }
    Ok(args)
}
