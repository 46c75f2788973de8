//! Laws on what texts say, each stated by the contract of a function.
ghost use Rattle.std.specs.Prelude.{◌≡◌, ◌↔◌, ℕ, List, Bool};
ghost use Rattle.guppy_target.specs.Cfg.{Predicate};
ghost use Rattle.guppy_target.specs.Grammar.{Reads};
ghost use Rattle.guppy_target.specs.Platform.{PlatformData};
ghost use Rattle.guppy_target.specs.Answer.{Says, answer_of};

/// A text reads as one predicate.
pub fn reads_in_one_way()
    ensures { (text : List ℕ) (p q : Predicate) → Reads text p → Reads text q → p ≡ q }
{}

/// What [`CfgEval`](crate::CfgEval) answers, by its `answer`, is what the text says, and it answers nothing
/// where the text says nothing.
pub fn answers_what_is_said()
    ensures { (text : List ℕ) (platform : PlatformData) (b : Bool) →
        (answer_of text platform ≡ Some b) ↔ Says text platform b }
{}
