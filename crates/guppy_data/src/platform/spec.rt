ghost use Rattle.std.specs.Prelude.{◌≡◌, [], ◌∷◌, IfOk};
ghost use Rattle.std.specs.Iterator.{IsFinite};
ghost use Rattle.std.specs.Iterator.Runs.{WholeRun};

use std::alloc::{AllocError, Global};

/// The platforms that are asked about.
///
/// The more of them, the more is enabled: `Platforms` of an empty list, `Always`, `Platforms` of
/// a list with an element, `Any`.
#[derive(Debug, Drop)]
pub enum PlatformSpec<P> {
    /// All platforms: what is enabled on each.
    Always,
    /// These platforms: what is enabled on one of them.
    Platforms(Vec<P>),
    /// Any platform: what may be enabled on some.
    Any,
}

impl<P: Drop> PlatformSpec<P> {
    ghost use Rattle.guppy_data.specs.Platform.{OnPlatforms, question_of};

    /// `Platforms` with all items of `platforms`, in their order.
    ///
    /// The iterator ends. The error is want of memory; the items are then dropped.
    /// Takes time and room for the items.
    pub fn platforms<I: Iterator<Item = P>>(alloc: Global, platforms: I) -> Result<Self, AllocError>
        requires can { I.can_next platforms }
        requires finite { IsFinite (I.remaining platforms) }
        ensures { IfOk result
            (λ spec. WholeRun I.next_gives platforms
            (λ run. question_of spec ≡ OnPlatforms run.items)) }
    {
        Ok(PlatformSpec::Platforms(platforms.collect(alloc)?))
    }

    /// `Platforms` with this one platform, in place of guppy's `From`.
    ///
    /// The error is want of memory for a list of one; the platform is then dropped.
    pub fn one(alloc: Global, platform: P) -> Result<Self, AllocError>
        ensures { IfOk result (λ spec. question_of spec ≡ OnPlatforms (platform ∷ [])) }
    {
        let mut platforms = Vec::new(alloc);
        platforms.push(platform)?;
        Ok(PlatformSpec::Platforms(platforms))
    }
}
