ghost use Rattle.std.specs.Prelude.{◌≡◌, ◌↔◌, IsTrue};
ghost use Rattle.guppy_data.specs.Ternary.{greater};
ghost use Rattle.guppy_data.specs.Platform.{status_value, seen_status, question_of};
ghost use Rattle.guppy_data.specs.EnabledStatus.{required_of, optional_of, IsNowhere};

use crate::platform::spec::PlatformSpec;
use crate::platform::status::PlatformStatus;
use crate::platform::target::TargetEval;
use crate::platform::ternary::EnabledTernary;

/// On which platforms something is enabled as a required part of a dependency, and on which as an
/// optional one. No call takes memory.
#[derive(Clone, Copy, Debug)]
pub struct EnabledStatus<'g> {
    required: PlatformStatus<'g>,
    optional: PlatformStatus<'g>,
}

impl<'g> EnabledStatus<'g> {
    /// The pair of the two statuses.
    pub fn new(required: PlatformStatus<'g>, optional: PlatformStatus<'g>) -> Self
        ensures required { required_of result ≡ seen_status required.entry }
        ensures optional { optional_of result ≡ seen_status optional.entry }
    {
        EnabledStatus { required, optional }
    }

    /// Whether it is enabled on no platform: both statuses are never.
    pub fn is_never(self) -> bool
        ensures { IsTrue result ↔ IsNowhere self.entry }
    {
        self.required.is_never() && self.optional.is_never()
    }

    /// Whether it is enabled as a required part on the platforms of `spec`, as far as `eval` can tell:
    /// [`PlatformStatus::enabled_on`] of the required status, which asks `eval` at most once for each
    /// text and platform.
    pub fn required_on<E: TargetEval>(
        self,
        spec: &PlatformSpec<E::Platform>,
        eval: &E,
    ) -> EnabledTernary
        ensures { result ≡ status_value (E.answer eval.now) (required_of self.entry)
            (question_of spec.now) }
    {
        self.required.enabled_on(spec, eval)
    }

    /// Whether it is enabled on the platforms of `spec`, as far as `eval` can tell: the greater of
    /// [`PlatformStatus::enabled_on`] of the required and of the optional status, each of which asks
    /// `eval` at most once for each text and platform.
    pub fn enabled_on<E: TargetEval>(
        self,
        spec: &PlatformSpec<E::Platform>,
        eval: &E,
    ) -> EnabledTernary
        ensures { result ≡ greater
            (status_value (E.answer eval.now) (required_of self.entry) (question_of spec.now))
            (status_value (E.answer eval.now) (optional_of self.entry) (question_of spec.now)) }
    {
        self.required.enabled_on(spec, eval) | self.optional.enabled_on(spec, eval)
    }

    /// The status of the required part.
    pub fn required_status(self) -> PlatformStatus<'g>
        ensures { seen_status result ≡ required_of self.entry }
    {
        self.required
    }

    /// The status of the optional part.
    pub fn optional_status(self) -> PlatformStatus<'g>
        ensures { seen_status result ≡ optional_of self.entry }
    {
        self.optional
    }
}
