ghost use Rattle.std.specs.Prelude.{◌≡◌, ℕ, List, Option, Bool, IfOk};
ghost use Rattle.std.specs.String.{string_bytes};

use std::alloc::{AllocError, Global};
use std::marker::Model;

/// A text that names platforms, as `cfg(windows)` or a target triple.
///
/// The text is opaque here: a [`TargetEval`] says what it means.
#[derive(Debug, Drop)]
pub struct TargetSpec {
    text: String,
}

impl Model for TargetSpec {
    ghost use Rattle.std.specs.Prelude.{ℕ, List};
    ghost use Rattle.std.specs.String.{string_bytes};

    ghost Value = { List ℕ };

    ghost view = { λ spec. string_bytes spec.text };
}

impl TargetSpec {
    /// Takes any text. Takes no memory.
    pub fn new(text: String) -> Self
        ensures { result ≡ string_bytes text }
    {
        TargetSpec { text }
    }

    /// The text as it was given.
    pub fn as_str(&self) -> &str
        ensures { result.now ≡ self.now }
    {
        self.text.as_str()
    }

    pub(crate) fn copied(&self, alloc: Global) -> Result<TargetSpec, AllocError>
        ensures { IfOk result (λ copy. copy ≡ self.now) }
    {
        Ok(TargetSpec {
            text: String::from_str(alloc, self.as_str())?,
        })
    }
}

/// Answers whether a text fits a platform.
///
/// The answer is a function of the evaluator, the text and the platform: the same question gets
/// the same answer. In guppy a platform and the meaning of a text are fixed.
pub trait TargetEval {
    /// What is known of a platform.
    type Platform;

    ghost answer: { Self → List ℕ → Self.Platform → Option Bool };

    /// `Some(true)` where `spec` fits `platform`, `Some(false)` where it doesn't, and `None` where
    /// too little is known to tell.
    fn eval(&self, spec: &TargetSpec, platform: &Self::Platform) -> Option<bool>
        ensures { result ≡ answer self.now spec.now platform.now };
}
