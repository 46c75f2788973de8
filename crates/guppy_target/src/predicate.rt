//! Whether the predicate at the front of a text holds on a platform.
ghost use Rattle.std.specs.Prelude.{◌≡◌, length, option_map};
ghost use Rattle.guppy_target.specs.Cfg.{all_of, any_of, holds};
ghost use Rattle.guppy_target.specs.Reading.{bare, setting_at, negated_at, operands_at, all_operands_at, predicate_from, predicate_at, truth_of, truths_of};

use crate::platform::Platform;
use crate::text::{mark_at, quoted_at, word_at};

// Whether what a word alone asks holds.
fn bare(platform: &Platform, word: &[u8]) -> bool
    ensures { result ≡ holds platform.now.settings (bare word.now) }
{
    if word == b"true".as_slice() {
        true
    } else if word == b"false".as_slice() {
        false
    } else {
        platform.has_name(word)
    }
}

// Behind a word that is no operator: whether what it asks, alone or with a value, is set.
#[tactic(auto, unfolding(crate::specs::Reading::setting_at))]
fn setting_at<'a>(platform: &Platform, word: &[u8], text: &'a [u8]) -> Option<(bool, &'a [u8])>
    ensures { option_map (λ x. (x.0, x.1.now)) result
        ≡ truth_of platform.now.settings (setting_at word.now text.now) }
{
    match mark_at(b'=', text) {
        None => Some((bare(platform, word), text)),
        Some(text) => {
            let (value, rest) = quoted_at(text)?;
            Some((platform.has_pair(word, value), rest))
        }
    }
}

// Behind `not`.
#[cycle(predicate)]
#[tactic(auto, unfolding(crate::specs::Reading::negated_at))]
fn negated_at<'a>(platform: &Platform, levels: usize, text: &'a [u8]) -> Option<(bool, &'a [u8])>
    ensures { option_map (λ x. (x.0, x.1.now)) result
        ≡ truth_of platform.now.settings (negated_at (predicate_at levels) text.now) }
{
    let text = mark_at(b'(', text)?;
    let (holds, text) = predicate_at(platform, levels, text)?;
    let rest = mark_at(b')', text)?;
    Some((!holds, rest))
}

// The operands of `all` and `any`, and the parenthesis behind them: whether all hold, and whether one does.
#[cycle(predicate)]
fn operands_at<'a>(
    platform: &Platform,
    levels: usize,
    text: &'a [u8],
) -> Option<(bool, bool, &'a [u8])>
    ensures { option_map (λ x. (x.0, x.1, x.2.now)) result
        ≡ truths_of platform.now.settings
        (operands_at (predicate_at levels) (length text.now) text.now) }
{
    let mut every = true;
    let mut one = false;
    let mut text = text;
    loop {
        if let Some(rest) = mark_at(b')', text) {
            return Some((every, one, rest));
        }
        let (holds, behind) = predicate_at(platform, levels, text)?;
        every &= holds;
        one |= holds;
        match mark_at(b',', behind) {
            Some(more) => text = more,
            None => {
                let rest = mark_at(b')', behind)?;
                return Some((every, one, rest));
            }
        }
    }
}

// Behind `all` and `any`.
#[cycle(predicate)]
#[tactic(auto, unfolding(crate::specs::Reading::all_operands_at))]
fn all_operands_at<'a>(
    platform: &Platform,
    levels: usize,
    text: &'a [u8],
) -> Option<(bool, bool, &'a [u8])>
    ensures { option_map (λ x. (x.0, x.1, x.2.now)) result
        ≡ truths_of platform.now.settings (all_operands_at (predicate_at levels) text.now) }
{
    operands_at(platform, levels, mark_at(b'(', text)?)
}

#[cycle(predicate)]
#[tactic(auto, using(crate::proofs::Operands::every_operand))]
fn all_at<'a>(platform: &Platform, levels: usize, text: &'a [u8]) -> Option<(bool, &'a [u8])>
    ensures { option_map (λ x. (x.0, x.1.now)) result
        ≡ truth_of platform.now.settings (option_map (λ x. (all_of x.0, x.1))
        (all_operands_at (predicate_at levels) text.now)) }
{
    let (every, _, rest) = all_operands_at(platform, levels, text)?;
    Some((every, rest))
}

#[cycle(predicate)]
#[tactic(auto, using(crate::proofs::Operands::one_operand))]
fn any_at<'a>(platform: &Platform, levels: usize, text: &'a [u8]) -> Option<(bool, &'a [u8])>
    ensures { option_map (λ x. (x.0, x.1.now)) result
        ≡ truth_of platform.now.settings (option_map (λ x. (any_of x.0, x.1))
        (all_operands_at (predicate_at levels) text.now)) }
{
    let (_, one, rest) = all_operands_at(platform, levels, text)?;
    Some((one, rest))
}

// Behind the word that is first.
#[cycle(predicate)]
fn predicate_from<'a>(
    platform: &Platform,
    levels: usize,
    word: &[u8],
    text: &'a [u8],
) -> Option<(bool, &'a [u8])>
    ensures { option_map (λ x. (x.0, x.1.now)) result
        ≡ truth_of platform.now.settings
        (predicate_from (predicate_at levels) word.now text.now) }
{
    if word == b"not".as_slice() {
        negated_at(platform, levels, text)
    } else if word == b"all".as_slice() {
        all_at(platform, levels, text)
    } else if word == b"any".as_slice() {
        any_at(platform, levels, text)
    } else {
        setting_at(platform, word, text)
    }
}

// The predicate of so many levels or fewer that is first: whether it holds, and what is behind it.
#[cycle(predicate)]
pub(crate) fn predicate_at<'a>(
    platform: &Platform,
    levels: usize,
    text: &'a [u8],
) -> Option<(bool, &'a [u8])>
    ensures { option_map (λ x. (x.0, x.1.now)) result
        ≡ truth_of platform.now.settings (predicate_at levels text.now) }
{
    if levels == 0 {
        return None;
    }
    let (word, text) = word_at(text)?;
    predicate_from(platform, levels - 1, word, text)
}
