//! Answers as text, of the JSON that `cargo metadata` prints.
ghost use Rattle.std.specs.Prelude.{◌≡◌, ◌≢◌, ◌<◌, ◌≤◌, ◌⊎◌, ℕ, List, length, take};
ghost use Rattle.guppy_cargo.specs.Words.{IsJsonAnswer};
ghost use Rattle.guppy_c.specs.Answer.{IsRefusal, Refuses};

use guppy_cargo::{CargoFault, answer_json};
use guppy_data::Error;
use guppy_process::Fault;
use std::alloc::Global;

/// How a call ended that writes a text.
#[repr(C)]
#[derive(Clone, Copy, Debug, PartialEq, Eq)]
pub struct Answer {
    /// 0: answered. 1: refused. 2: there was no room for the text. 3: there was no memory. Of `guppy_records` also 4:
    /// the bytes are no JSON. 5: no dependencies are resolved.
    pub status: u32,
    /// How many bytes the text has, 0 where there was no memory.
    pub len: usize,
}

/// Puts the text to the front of the bytes, where there is room.
pub(crate) fn put(text: &str, status: u32, out: &mut [u8]) -> Answer
    requires { status ≢ 2 }
    ensures len { result.len ≡ length text.now }
    ensures status { (result.status ≡ status) ⊎ (result.status ≡ 2) }
    ensures written { result.status ≡ status → take result.len out.new ≡ text.now }
    ensures room { result.status ≡ status → result.len ≤ length out.new }
    ensures no_room { result.status ≡ 2 → length out.old < result.len }
    ensures unchanged { result.status ≡ 2 → out.new ≡ out.old }
{
    let bytes = text.as_bytes();
    let len = bytes.len();
    if len > out.len() {
        return Answer { status: 2, len };
    }
    out[..len].copy_from_slice(bytes);
    Answer { status, len }
}

// Puts the text that tells the fault to the front of the bytes, where there is room, unless memory is wanted.
fn refuse(alloc: Global, fault: CargoFault, out: &mut [u8]) -> Answer
    ensures refused { result.status ≡ 1 → Refuses fault (take result.len out.new) }
    ensures room { result.status ≡ 1 → result.len ≤ length out.new }
    ensures no_room { result.status ≡ 2 → (length out.old < result.len)
        × (text : List ℕ) × (length text ≡ result.len) × Refuses fault text }
    ensures no_memory { result.status ≡ 3 → result.len ≡ 0 }
    ensures least { 1 ≤ result.status }
    ensures most { result.status ≤ 3 }
    ensures unchanged { result.status ≢ 1 → out.new ≡ out.old }
{
    if let CargoFault::Program(Fault::Library(Error::OutOfMemory)) = fault {
        return Answer { status: 3, len: 0 };
    }
    match format!(in alloc; "{fault}") {
        Ok(text) => put(text.as_str(), 1, out),
        Err(_) => Answer { status: 3, len: 0 },
    }
}

/// Writes what `guppy-cargo` prints for the arguments, which zero bytes part, of the workspace that the JSON
/// describes: what `cargo metadata --format-version 1` prints. Options and commands are those of `guppy-cargo
/// help`, but no file is read: what it has stands in the place of its name, as `unix` behind `--cfgs`. A refusal
/// says why, with no newline at its end.
#[unsafe(no_mangle)]
pub extern "C" fn guppy_answer(alloc: Global, json: &[u8], args: &[u8], out: &mut [u8]) -> Answer
    ensures answered { result.status ≡ 0
        → IsJsonAnswer args.now json.now (take result.len out.new) }
    ensures refused { result.status ≡ 1
        → IsRefusal args.now json.now (take result.len out.new) }
    ensures room { result.status ≤ 1 → result.len ≤ length out.new }
    ensures no_room { result.status ≡ 2 → (length out.old < result.len)
        × (text : List ℕ) × (length text ≡ result.len)
        × (IsJsonAnswer args.now json.now text ⊎ IsRefusal args.now json.now text) }
    ensures no_memory { result.status ≡ 3 → result.len ≡ 0 }
    ensures status { result.status ≤ 3 }
    ensures unchanged { 2 ≤ result.status → out.new ≡ out.old }
{
    match answer_json(alloc, args, json) {
        Ok(text) => put(text.as_str(), 0, out),
        Err(fault) => refuse(alloc, fault, out),
    }
}
