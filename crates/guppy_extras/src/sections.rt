//! Which sections of a link are on on a platform.
//!
//! ```
//! let on = guppy_extras::sections_on(link, &PlatformSpec::one(alloc, platform)?, &CfgEval);
//! if on.build != EnabledTernary::Disabled {
//!     println!(rt; "{} needs {} to build", link.from().name(), link.to().name())?;
//! }
//! ```
ghost use Rattle.std.specs.Prelude.{◌≡◌};
ghost use Rattle.guppy_data.specs.Platform.{question_of};
ghost use Rattle.guppy.specs.Views.{OfLink};
ghost use Rattle.guppy_target.specs.Sections.{section_value};

use guppy::PackageLink;
use guppy::platform::{EnabledTernary, PlatformSpec, TargetEval};

/// Whether each section of a link is on: whether it asks for the dependency, as a required or as an optional one.
#[derive(Clone, Copy, Debug, PartialEq, Eq, Hash)]
pub struct SectionsOn {
    /// As a normal dependency.
    pub normal: EnabledTernary,
    /// As a build dependency.
    pub build: EnabledTernary,
    /// As a dev-dependency.
    pub dev: EnabledTernary,
}

/// Which sections of the link are on on one of the platforms of `spec`, as far as `eval` can tell: of each section the
/// status's [`enabled_on`](guppy::platform::EnabledStatus::enabled_on).
///
/// Takes no memory, and time for asking `eval` about each text of the sections on each platform of `spec`.
pub fn sections_on<E: TargetEval>(
    link: PackageLink<'_>,
    spec: &PlatformSpec<E::Platform>,
    eval: &E,
) -> SectionsOn
    ensures normal { OfLink link.entry (λ l. result.normal
        ≡ section_value (E.answer eval.now) (question_of spec.now) l.edge.normal) }
    ensures build { OfLink link.entry (λ l. result.build
        ≡ section_value (E.answer eval.now) (question_of spec.now) l.edge.build) }
    ensures dev { OfLink link.entry (λ l. result.dev
        ≡ section_value (E.answer eval.now) (question_of spec.now) l.edge.dev) }
{
    SectionsOn {
        normal: link.normal().status().enabled_on(spec, eval),
        build: link.build().status().enabled_on(spec, eval),
        dev: link.dev().status().enabled_on(spec, eval),
    }
}
