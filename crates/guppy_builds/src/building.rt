//! What is asked of Cargo with the features that are on, and where what is built has them.
ghost use Rattle.std.specs.Prelude.{◌≡◌, ◌↔◌, ◌<◌, length, IsTrue};
ghost use Rattle.guppy_closure.specs.Relations.{HoldsBy};
ghost use Rattle.guppy_features.specs.Follows.{FollowsFor};
ghost use Rattle.guppy_features.specs.Dependencies.{seen_dependency};
ghost use Rattle.guppy_features.specs.Questions.{question_of as asked_question, use_of};
ghost use Rattle.guppy_builds.specs.Required.{IsOn};

use guppy_features::dependencies::Dependency;
use guppy_features::{Asked, BuildPlatform, CargoSet, Fact};

/// What is asked of Cargo, and the features that are on.
#[derive(Clone, Copy)]
pub(crate) struct Building<'a> {
    pub(crate) asked: Asked<'a>,
    pub(crate) set: &'a CargoSet<'a>,
    ghost same: { set.now ≡ asked_question asked },
}

impl<'a> Building<'a> {
    pub(crate) fn new(set: &'a CargoSet<'a>) -> Self
        ensures { asked_question result.asked ≡ set.now }
    {
        Building {
            asked: set.asked(),
            set,
        }
    }

    /// Whether there is the fact, and it holds.
    pub(crate) fn is_on(self, fact: Option<Fact>) -> bool
        ensures { IsTrue result ↔ IsOn (asked_question self.entry.asked) fact }
    {
        match fact {
            Some(fact) => self.set.contains(fact),
            None => false,
        }
    }

    /// Whether the dependency is used on the side.
    pub(crate) fn is_used(self, side: BuildPlatform, dependency: &Dependency<'_>) -> bool
        requires { dependency.now.from < length self.asked.graph.now.packages }
        ensures { IsTrue result ↔ IsOn (asked_question self.entry.asked)
            (use_of (asked_question self.entry.asked) side (seen_dependency dependency.now)) }
    {
        self.is_on(self.asked.use_of(side, dependency))
    }
}
