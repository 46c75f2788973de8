ghost use Rattle.std.specs.Prelude.{◌≡◌, ◌≢◌, ◌↔◌, ◌++◌, map, IsTrue, IsOk, IfOk, OnOk, OnErr};
ghost use Rattle.std.specs.Bool.{OnTrue, OnFalse};
ghost use Rattle.std.specs.Option.{option_copied};
ghost use Rattle.guppy_data.specs.Ternary.{greatest};
ghost use Rattle.guppy_data.specs.Platform.{Never, Always, texts_value, status_value, recorded_status, eval_texts, seen_status, question_of, extended, with_spec};

use crate::platform::spec::PlatformSpec;
use crate::platform::target::{TargetEval, TargetSpec};
use crate::platform::ternary::EnabledTernary;
use std::alloc::{AllocError, Global};

/// On which platforms something is enabled, as it is recorded: on all, or on those that one of
/// the texts fits, so on none where the list is empty.
#[derive(Debug, Drop)]
pub enum PlatformStatusImpl {
    /// On all platforms.
    Always,
    /// On the platforms that one of the texts fits.
    Specs(Vec<TargetSpec>),
}

impl PlatformStatusImpl {
    /// The status without texts, enabled on no platform: guppy's `Default`. Takes no memory;
    /// `alloc` is what later texts are taken from.
    pub fn never(alloc: Global) -> Self
        ensures { recorded_status result ≡ Never }
    {
        PlatformStatusImpl::Specs(Vec::new(alloc))
    }

    /// Whether it is enabled on no platform, as it has no texts.
    pub fn is_never(&self) -> bool
        ensures { IsTrue result ↔ (recorded_status self.now ≡ Never) }
    {
        match self {
            PlatformStatusImpl::Always => false,
            PlatformStatusImpl::Specs(specs) => specs.is_empty(),
        }
    }

    /// Makes it enabled where `other` is, too: `Always` stays, anything becomes `Always` by
    /// `Always`, else copies of the other's texts come behind its own.
    ///
    /// The error is want of memory, and then nothing has changed. Copies are taken from the own
    /// list's allocator. Takes no memory where one of the two is `Always`, and else room for the
    /// other's texts.
    pub fn extend(&mut self, other: &PlatformStatusImpl) -> Result<(), AllocError>
        ensures extended { OnOk result
            (recorded_status self.new ≡ extended (recorded_status self.old)
            (recorded_status other.now)) }
        ensures unchanged { OnErr result (recorded_status self.new ≡ recorded_status self.old) }
        ensures always_stays { recorded_status self.old ≡ Always → IsOk result }
        ensures becomes_always { recorded_status other.now ≡ Always → IsOk result }
    {
        match other {
            PlatformStatusImpl::Always => *self = PlatformStatusImpl::Always,
            PlatformStatusImpl::Specs(more) => {
                if let PlatformStatusImpl::Specs(specs) = self {
                    append_copies(specs, more)?;
                }
            }
        }
        Ok(())
    }

    /// Makes it enabled where `spec` fits, too, and `Always` by `None`: a copy of the text comes
    /// behind its own. `Always` stays.
    ///
    /// The error is want of memory for the copy, and then nothing has changed. Takes none for
    /// `None`, or where it is `Always`.
    pub fn add_spec(&mut self, spec: Option<&TargetSpec>) -> Result<(), AllocError>
        ensures added { OnOk result (recorded_status self.new
            ≡ with_spec (recorded_status self.old) (option_copied spec.entry)) }
        ensures unchanged { OnErr result (recorded_status self.new ≡ recorded_status self.old) }
        ensures always_stays { recorded_status self.old ≡ Always → IsOk result }
        ensures becomes_always { option_copied spec.entry ≡ None → IsOk result }
    {
        match spec {
            None => *self = PlatformStatusImpl::Always,
            Some(spec) => {
                if let PlatformStatusImpl::Specs(specs) = self {
                    let copy = spec.copied(*specs.allocator())?;
                    specs.push(copy)?;
                }
            }
        }
        Ok(())
    }
}

/// Copies of all texts, or want of memory.
fn copies_of(alloc: Global, specs: &[TargetSpec]) -> Result<Vec<TargetSpec>, AllocError>
    ensures { IfOk result (λ copies. copies.items ≡ specs.now) }
{
    let mut copies = Vec::with_capacity(alloc, specs.len())?;
    for spec in specs {
        copies.push(spec.copied(alloc)?)?;
    }
    Ok(copies)
}

/// Appends copies of `more`, or nothing where memory is wanting.
fn append_copies(specs: &mut Vec<TargetSpec>, more: &[TargetSpec]) -> Result<(), AllocError>
    ensures ok { OnOk result (specs.new.items ≡ specs.old.items ++ more.now) }
    ensures err { OnErr result (specs.new.items ≡ specs.old.items) }
{
    let mut copies = copies_of(*specs.allocator(), more)?;
    specs.append(&mut copies)
}

/// On which platforms something is enabled, as a view of a [`PlatformStatusImpl`].
#[derive(Clone, Copy, Debug)]
pub enum PlatformStatus<'g> {
    /// On no platform.
    Never,
    /// On all platforms.
    Always,
    /// On the platforms that one of its texts fits.
    PlatformDependent {
        /// The texts, to be evaluated.
        eval: PlatformEval<'g>,
    },
}

impl<'g> PlatformStatus<'g> {
    /// The view of a recorded status. Takes no memory.
    pub fn new(status: &'g PlatformStatusImpl) -> Self
        ensures { seen_status result ≡ recorded_status status.now }
    {
        match status {
            PlatformStatusImpl::Always => PlatformStatus::Always,
            PlatformStatusImpl::Specs(specs) => {
                if specs.is_empty() {
                    PlatformStatus::Never
                } else {
                    PlatformStatus::PlatformDependent {
                        eval: PlatformEval {
                            specs: specs.as_slice(),
                        },
                    }
                }
            }
        }
    }

    /// Whether it is enabled on all platforms.
    pub fn is_always(self) -> bool
        ensures { IsTrue result ↔ (seen_status self.entry ≡ Always) }
    {
        matches!(self, PlatformStatus::Always)
    }

    /// Whether it is enabled on no platform.
    pub fn is_never(self) -> bool
        ensures { IsTrue result ↔ (seen_status self.entry ≡ Never) }
    {
        matches!(self, PlatformStatus::Never)
    }

    /// Whether it may be enabled on some platform: it isn't `Never`.
    pub fn is_present(self) -> bool
        ensures present { OnTrue result (seen_status self.entry ≢ Never) }
        ensures never { OnFalse result (seen_status self.entry ≡ Never) }
    {
        !self.is_never()
    }

    /// Whether it is enabled on the platforms of `spec`, as far as `eval` can tell.
    ///
    /// | status | `Any` | `Always` | `Platforms` |
    /// |---|---|---|---|
    /// | `Never` | `Disabled` | `Disabled` | `Disabled` |
    /// | `Always` | `Enabled` | `Enabled` | `Disabled` if the list is empty, else `Enabled` |
    /// | `PlatformDependent` | `Enabled` | `Disabled` | the greatest of [`PlatformEval::eval`] over the list, `Disabled` if it is empty |
    ///
    /// Takes no memory. Asks `eval` at most once for each text and platform, up to the first
    /// `Some(true)`.
    pub fn enabled_on<E: TargetEval>(
        self,
        spec: &PlatformSpec<E::Platform>,
        eval: &E,
    ) -> EnabledTernary
        ensures { result ≡ status_value (E.answer eval.now) (seen_status self.entry)
            (question_of spec.now) }
    {
        match self {
            PlatformStatus::Never => EnabledTernary::Disabled,
            PlatformStatus::Always => match spec {
                PlatformSpec::Platforms(list) if list.is_empty() => EnabledTernary::Disabled,
                _ => EnabledTernary::Enabled,
            },
            PlatformStatus::PlatformDependent { eval: texts } => match spec {
                PlatformSpec::Any => EnabledTernary::Enabled,
                PlatformSpec::Always => EnabledTernary::Disabled,
                PlatformSpec::Platforms(list) => texts.eval_all(list.as_slice(), eval),
            },
        }
    }
}

/// The texts of a status, to be evaluated.
#[derive(Clone, Copy, Debug)]
pub struct PlatformEval<'g> {
    specs: &'g [TargetSpec],
}

impl<'g> PlatformEval<'g> {
    /// Whether one of the texts fits `platform`, as far as `eval` can tell: the greatest value
    /// over the texts, where the answers `Some(false)`, `None` and `Some(true)` are `Disabled`,
    /// `Unknown` and `Enabled`.
    ///
    /// Takes no memory. Asks `eval` once for each text, up to the first `Some(true)`.
    pub fn eval<E: TargetEval>(self, platform: &E::Platform, eval: &E) -> EnabledTernary
        ensures { result ≡ texts_value (E.answer eval.now) (eval_texts self.entry) platform.now }
    {
        let mut value = EnabledTernary::Disabled;
        for spec in self.specs {
            value = value | EnabledTernary::new(eval.eval(spec, platform));
            if value == EnabledTernary::Enabled {
                return value;
            }
        }
        value
    }

    /// The greatest value over the platforms.
    fn eval_all<E: TargetEval>(self, platforms: &[E::Platform], eval: &E) -> EnabledTernary
        ensures { result ≡ greatest (map
            (texts_value (E.answer eval.now) (eval_texts self.entry)) platforms.now) }
    {
        let mut value = EnabledTernary::Disabled;
        for platform in platforms {
            value = value | self.eval(platform, eval);
            if value == EnabledTernary::Enabled {
                return value;
            }
        }
        value
    }

    /// The texts, in the order of the record.
    pub fn target_specs(self) -> &'g [TargetSpec]
        ensures { result.now ≡ eval_texts self.entry }
    {
        self.specs
    }
}
