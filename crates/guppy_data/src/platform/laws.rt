//! Laws on values and statuses, each stated by the contract of a function.
ghost use Rattle.std.specs.Prelude.{◌≡◌, ◌⊎◌, List, [], ◌∷◌, ◌++◌, OnOk};
ghost use Rattle.std.specs.Ordering.{nat_cmp};
ghost use Rattle.guppy_data.specs.Ternary.{rank, AtMost, greater};
ghost use Rattle.guppy_data.specs.Platform.{Status, Question, OnAlways, OnPlatforms, OnAny, status_value, recorded_status};

use crate::platform::status::PlatformStatusImpl;
use crate::platform::target::TargetEval;
use crate::platform::ternary::EnabledTernary;
use std::alloc::AllocError;
use std::cmp::Ordering;

/// The order of two values: `Disabled < Unknown < Enabled`.
pub fn ternaries_ascend(a: EnabledTernary, b: EnabledTernary) -> Ordering
    ensures { result ≡ nat_cmp (rank a) (rank b) }
{
    a.cmp(&b)
}

/// `&` gives one of the two, and neither is less.
pub fn and_is_the_minimum(a: EnabledTernary, b: EnabledTernary) -> EnabledTernary
    ensures one_of_both { (result ≡ a) ⊎ (result ≡ b) }
    ensures below_a { AtMost result a }
    ensures below_b { AtMost result b }
{
    a & b
}

/// `|` gives one of the two, and neither is greater.
pub fn or_is_the_maximum(a: EnabledTernary, b: EnabledTernary) -> EnabledTernary
    ensures one_of_both { (result ≡ a) ⊎ (result ≡ b) }
    ensures above_a { AtMost a result }
    ensures above_b { AtMost b result }
{
    a | b
}

/// On every status and by every evaluator the value for `Platforms` of an empty list is at most
/// that for `Always`, this at most that for `Platforms` of a list with an element, and this at
/// most that for `Any`.
pub fn questions_ascend<E: TargetEval>()
    ensures empty_below_always { (eval : E) (status : Status) →
        AtMost (status_value (E.answer eval) status (OnPlatforms []))
        (status_value (E.answer eval) status OnAlways) }
    ensures always_below_some { (eval : E) (status : Status) (platform : E.Platform)
        (others : List E.Platform) →
        AtMost (status_value (E.answer eval) status OnAlways)
        (status_value (E.answer eval) status (OnPlatforms (platform ∷ others))) }
    ensures some_below_any { (eval : E) (status : Status) (platforms : List E.Platform) →
        AtMost (status_value (E.answer eval) status (OnPlatforms platforms))
        (status_value (E.answer eval) status OnAny) }
{}

/// On every status and by every evaluator the value for two lists of platforms, one behind the
/// other, is the greater of the values for each.
pub fn platforms_together_are_either<E: TargetEval>()
    ensures { (eval : E) (status : Status) (first second : List E.Platform) →
        status_value (E.answer eval) status (OnPlatforms (first ++ second))
        ≡ greater (status_value (E.answer eval) status (OnPlatforms first))
        (status_value (E.answer eval) status (OnPlatforms second)) }
{}

/// [`PlatformStatusImpl::extend`]: on every question and by every evaluator the new status is
/// worth the greater of the values of the old one and of `other`.
pub fn extended_is_either<E: TargetEval>(
    status: &mut PlatformStatusImpl,
    other: &PlatformStatusImpl,
) -> Result<(), AllocError>
    ensures { OnOk result ((eval : E) (question : Question E.Platform) →
        status_value (E.answer eval) (recorded_status status.new) question
        ≡ greater (status_value (E.answer eval) (recorded_status status.old) question)
        (status_value (E.answer eval) (recorded_status other.now) question)) }
{
    status.extend(other)
}
