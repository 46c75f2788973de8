//! Which sections of a link count on the platforms that are asked about.
ghost use Rattle.std.specs.Prelude.{◌≡◌};
ghost use Rattle.guppy_data.specs.Platform.{question_of};
ghost use Rattle.guppy_platforms.specs.Counting.{counts, counts_either, counting_of, is_asked_for, has_section};

use guppy_data::{DependencyReq, DependencyReqImpl, EnabledTernary, LinkRecord, PlatformSpec};
use guppy_target::{CfgEval, Platform};

/// Which sections of a link count.
#[derive(Clone, Copy, Debug, PartialEq, Eq)]
pub struct Counting {
    /// The normal one.
    pub normal: bool,
    /// The build section.
    pub build: bool,
    /// The dev section.
    pub dev: bool,
}

/// Whether the section asks for the dependency, required or optional, on one of the platforms, or that isn't known. Takes
/// no memory, and asks once for each text of the section and platform.
pub fn counts(platforms: &PlatformSpec<Platform>, section: &DependencyReqImpl) -> bool
    ensures { result ≡ counts (question_of platforms.now) section.now }
{
    DependencyReq::new(section)
        .status()
        .enabled_on(platforms, &CfgEval)
        != EnabledTernary::Disabled
}

// Whether the section counts on the platforms or, where it is judged there too, on the host.
fn counts_either(
    platforms: &PlatformSpec<Platform>,
    host: &PlatformSpec<Platform>,
    there: bool,
    section: &DependencyReqImpl,
) -> bool
    ensures { result ≡ counts_either (question_of platforms.now) (question_of host.now) there section.now }
{
    counts(platforms, section) || (there && counts(host, section))
}

impl Counting {
    // The sections that count of the link whose package runs on the host, or doesn't.
    pub(crate) fn of(
        platforms: &PlatformSpec<Platform>,
        host: &PlatformSpec<Platform>,
        runs: bool,
        link: &LinkRecord,
    ) -> Self
        ensures { result ≡ counting_of (question_of platforms.now) (question_of host.now) runs link.now }
    {
        Counting {
            normal: counts_either(platforms, host, runs, &link.normal),
            build: counts_either(platforms, host, true, &link.build),
            dev: counts_either(platforms, host, runs, &link.dev),
        }
    }
}

/// Whether the section asks for the dependency, required or optional, on some platform. Takes constant time, and no memory.
pub fn is_asked_for(section: &DependencyReqImpl) -> bool
    ensures { result ≡ is_asked_for section.now }
{
    counts(&PlatformSpec::Any, section)
}

/// Whether the link has a section that asks for the dependency on some platform. Takes constant time, and no memory.
pub fn has_section(link: &LinkRecord) -> bool
    ensures { result ≡ has_section link.now }
{
    is_asked_for(&link.normal) || is_asked_for(&link.build) || is_asked_for(&link.dev)
}
