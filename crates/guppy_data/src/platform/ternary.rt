ghost use Rattle.std.specs.Prelude.{◌≡◌, ◌≢◌};
ghost use Rattle.std.specs.Bool.{OnTrue, OnFalse};

use std::ops::{BitAnd, BitOr};

/// Whether something is enabled on a platform, as far as is known.
///
/// `Disabled < Unknown < Enabled`.
#[derive(Clone, Copy, Debug, PartialEq, Eq, PartialOrd, Ord, Hash)]
pub enum EnabledTernary {
    /// It isn't enabled.
    Disabled,
    /// Too little is known to tell.
    Unknown,
    /// It is enabled.
    Enabled,
}

impl EnabledTernary {
    ghost use Rattle.guppy_data.specs.Ternary.{ternary_of};

    /// The value of an evaluator's answer: `Some(false)`, `None` and `Some(true)` are `Disabled`,
    /// `Unknown` and `Enabled`.
    pub(crate) fn new(answer: Option<bool>) -> Self
        ensures { result ≡ ternary_of answer }
    {
        match answer {
            Some(false) => EnabledTernary::Disabled,
            None => EnabledTernary::Unknown,
            Some(true) => EnabledTernary::Enabled,
        }
    }

    /// False for `Unknown` alone.
    pub fn is_known(self) -> bool
        ensures known { OnTrue result (self ≢ EnabledTernary.Unknown) }
        ensures unknown { OnFalse result (self ≡ EnabledTernary.Unknown) }
    {
        self != EnabledTernary::Unknown
    }
}

/// The lesser of the two.
impl BitAnd for EnabledTernary {
    ghost use Rattle.std.specs.Prelude.{◌≡◌};
    ghost use Rattle.guppy_data.specs.Ternary.{lesser};

    type Output = EnabledTernary;

    ghost bitand_gives = { λ a b c. c ≡ lesser a b };

    fn bitand(self, other: Self) -> Self {
        self.min(other)
    }
}

/// The greater of the two.
impl BitOr for EnabledTernary {
    ghost use Rattle.std.specs.Prelude.{◌≡◌};
    ghost use Rattle.guppy_data.specs.Ternary.{greater};

    type Output = EnabledTernary;

    ghost bitor_gives = { λ a b c. c ≡ greater a b };

    fn bitor(self, other: Self) -> Self {
        self.max(other)
    }
}
