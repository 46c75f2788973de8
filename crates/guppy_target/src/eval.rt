//! The evaluator of `cfg(..)` and triples.
ghost use Rattle.std.specs.Prelude.{◌≡◌, ◌↔◌, Bool, option_map};
ghost use Rattle.std.specs.List.{list_all};
ghost use Rattle.guppy_target.specs.Cfg.{holds};
ghost use Rattle.guppy_target.specs.Grammar.{is_of_triple};
ghost use Rattle.guppy_target.specs.Reading.{inner_of, predicate_of};
ghost use Rattle.guppy_target.specs.Answer.{Says, answer_of};

use crate::platform::Platform;
use crate::predicate::predicate_at;
use crate::text::after_spaces;
use guppy_data::{TargetEval, TargetSpec};

// How many levels a predicate may have.
const MAX_LEVELS: usize = 128;

// What stands in `cfg(..)`.
#[tactic(auto, unfolding(crate::specs::Reading::inner_of))]
fn inner_of(text: &[u8]) -> Option<&[u8]>
    ensures { option_map (λ x. x.now) result ≡ inner_of text.now }
{
    text.strip_prefix(b"cfg(".as_slice())?
        .strip_suffix(b")".as_slice())
}

// Whether the predicate that the text is holds.
#[tactic(auto, unfolding(crate::specs::Reading::predicate_of))]
fn predicate_of(platform: &Platform, text: &[u8]) -> Option<bool>
    ensures { result ≡ option_map (holds platform.now.settings) (predicate_of text.now) }
{
    let (holds, rest) = predicate_at(platform, MAX_LEVELS, text)?;
    if after_spaces(rest).is_empty() {
        Some(holds)
    } else {
        None
    }
}

fn is_of_triple(byte: u8) -> bool
    ensures { result ≡ is_of_triple byte }
{
    byte.is_ascii_alphanumeric() || byte == b'_' || byte == b'-' || byte == b'.'
}

fn is_triple(text: &[u8]) -> bool
    ensures { result ≡ list_all is_of_triple text.now }
{
    text.iter().all(|byte| is_of_triple(*byte))
}

#[tactic(auto, unfolding(crate::specs::Answer::answer_of))]
fn answer_of(platform: &Platform, text: &[u8]) -> Option<bool>
    ensures { result ≡ answer_of text.now platform.now }
{
    match inner_of(text) {
        Some(inner) => predicate_of(platform, inner),
        None => {
            if is_triple(text) {
                Some(platform.is_named(text))
            } else {
                None
            }
        }
    }
}

/// Tells what `cfg(..)` and the names of platforms say of a [`Platform`].
#[derive(Clone, Copy, Debug)]
pub struct CfgEval;

impl TargetEval for CfgEval {
    ghost use Rattle.guppy_target.specs.Answer.{answer_of};

    type Platform = Platform;

    ghost answer = { λ eval text platform. answer_of text platform };

    fn eval(&self, spec: &TargetSpec, platform: &Platform) -> Option<bool>
        ensures answer { result ≡ answer_of spec.now platform.now }
        ensures exact { (b : Bool) → (result ≡ Some b) ↔ Says spec.now platform.now b }
    {
        answer_of(platform, spec.as_str().as_bytes())
    }
}
