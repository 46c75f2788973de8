//! Arguments as one run of bytes, answered, for callers that are no process.
ghost use Rattle.std.specs.Prelude.{◌≡◌, string_bytes, IfOk, IfErr};
ghost use Rattle.guppy_cargo.specs.Words.{IsJsonAnswer, IsJsonFault};

use crate::input::Json;
use guppy_arguments::{CargoFault, arguments_in};
use guppy_command::{FileFault, Files};
use guppy_process::Fault;
use guppy_program::answer_bytes;
use std::alloc::Global;
use std::str;

/// Files in whose names' places stands what they have.
#[derive(Clone, Copy, Debug)]
struct InPlace;

impl Files for InPlace {
    ghost has = { λ files name bytes. bytes ≡ name };

    fn read(&self, alloc: Global, name: &str) -> Result<Vec<u8>, FileFault> {
        match name.as_bytes().to_vec(alloc) {
            Ok(bytes) => Ok(bytes),
            Err(_) => Err(FileFault::OutOfMemory),
        }
    }
}

/// What the program prints for the arguments, which zero bytes part, of the workspace that the JSON describes. No file
/// is read: what it has stands in the place of its name.
///
/// A fault is one that the program would tell; arguments that are no UTF-8 are bad ones. Takes memory for a text a word
/// beside what the program takes, and lets go of all but the text. Time grows as the program's.
pub fn answer_json(alloc: Global, args: &[u8], json: &[u8]) -> Result<String, CargoFault>
    ensures answered { IfOk result (λ text. IsJsonAnswer args.now json.now (string_bytes text)) }
    ensures refused { IfErr result (IsJsonFault args.now json.now) }
{
    let Ok(text) = str::from_utf8(args) else {
        return Err(CargoFault::Program(Fault::BadArguments));
    };
    let words = arguments_in(alloc, text)?;
    answer_bytes::<Json, InPlace>(alloc, words.as_slice(), &InPlace, json)
}
