//! What `cfg(..)` and the names of platforms say of a platform: the answers of `guppy_target`.
ghost use Rattle.std.specs.Prelude.{◌≡◌, ◌≢◌, ◌≤◌, ◌↔◌, IsUtf8, true, false, Some, IfOk};
ghost use Rattle.std.specs.Str.Lines.{lines};
ghost use Rattle.guppy_target.specs.Answer.{Says};
ghost use Rattle.guppy_target.specs.Platform.{IsFirstFault};
ghost use Rattle.guppy_c.specs.Platform.{TellsWhatIsSaid};

use guppy_data::{TargetEval, TargetSpec};
use guppy_target::{CfgEval, Platform, PlatformFault};
use std::alloc::{AllocError, Global};
use std::str;

/// What a text says of a platform.
#[repr(C)]
#[derive(Clone, Copy, Debug, PartialEq, Eq)]
pub struct Evaluated {
    /// 0: answered. 1: a line sets nothing. 2: not all that is passed is UTF-8. 3: there was no memory.
    pub status: u32,
    /// At 0 what the text says, 0: that it is another platform, 1: nothing, 2: that it is this one; else 0.
    pub value: u32,
    /// At 1 how many lines stand before the first that sets nothing, else 0.
    pub line: usize,
}

// No value.
fn refused(status: u32, line: usize) -> Evaluated
    ensures { result ≡ record { status = status; value = 0; line = line } }
{
    Evaluated {
        status,
        value: 0,
        line,
    }
}

// The number of an answer.
fn value_of(answer: Option<bool>) -> u32
    ensures enabled { (result ≡ 2) ↔ (answer ≡ Some true) }
    ensures disabled { (result ≡ 0) ↔ (answer ≡ Some false) }
    ensures most { result ≤ 2 }
{
    match answer {
        Some(false) => 0,
        None => 1,
        Some(true) => 2,
    }
}

// What the text says of the platform, as such a number.
fn said(alloc: Global, text: &str, platform: &Platform) -> Result<u32, AllocError>
    ensures enabled { IfOk result (λ value. (value ≡ 2) ↔ Says text.now platform.now true) }
    ensures disabled { IfOk result (λ value. (value ≡ 0) ↔ Says text.now platform.now false) }
    ensures most { IfOk result (λ value. value ≤ 2) }
{
    let spec = TargetSpec::new(String::from_str(alloc, text)?);
    Ok(value_of(CfgEval.eval(&spec, platform)))
}

/// Tells what the text, as `cfg(unix)` or the name of a platform, says of the platform with this name, for which a
/// compiler prints these lines, as `rustc --print cfg --target NAME` does: names, as `unix`, and keys with a value,
/// as `target_os="linux"`. Unknown is what reads as neither a predicate nor a name.
#[unsafe(no_mangle)]
pub extern "C" fn guppy_eval(alloc: Global, text: &[u8], triple: &[u8], cfgs: &[u8]) -> Evaluated
    ensures said { result.status ≡ 0
        → TellsWhatIsSaid text.now triple.now cfgs.now result.value }
    ensures line { result.status ≡ 1 → IsFirstFault (lines cfgs.now) result.line }
    ensures bytes { (result.status ≡ 2)
        ↔ (¬ (IsUtf8 text.now × IsUtf8 triple.now × IsUtf8 cfgs.now)) }
    ensures status { result.status ≤ 3 }
    ensures no_value { result.status ≢ 0 → result.value ≡ 0 }
    ensures no_line { result.status ≢ 1 → result.line ≡ 0 }
{
    let (Ok(text), Ok(triple), Ok(cfgs)) = (
        str::from_utf8(text),
        str::from_utf8(triple),
        str::from_utf8(cfgs),
    ) else {
        return refused(2, 0);
    };
    let platform = match Platform::new(alloc, triple, cfgs) {
        Ok(platform) => platform,
        Err(PlatformFault::NotASetting(line)) => return refused(1, line),
        Err(PlatformFault::OutOfMemory) => return refused(3, 0),
    };
    match said(alloc, text, &platform) {
        Ok(value) => Evaluated {
            status: 0,
            value,
            line: 0,
        },
        Err(_) => refused(3, 0),
    }
}
