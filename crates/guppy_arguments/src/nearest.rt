//! The nearest of some names.
ghost use Rattle.std.specs.Prelude.{map, IfOk, MatchOption};
ghost use Rattle.guppy_arguments.specs.Nearest.{IsNearest, IsFar};

use std::alloc::{AllocError, Global};
use strsim::levenshtein;

/// The first of the names to which the fewest edits lead from the word, where at most three do: letters left out,
/// put in, or changed. Time grows with the length of the word, times that of the names. Takes memory for a number
/// a letter of a name.
pub fn nearest_of<'a>(
    alloc: Global,
    word: &str,
    names: &[&'a str],
) -> Result<Option<&'a str>, AllocError>
    ensures { IfOk result (λ found. MatchOption found
        (IsFar word.now (map (λ name. name.now) names.now))
        (λ name. IsNearest word.now (map (λ name. name.now) names.now) name.now)) }
{
    let mut least = 4;
    let mut nearest = None;
    for name in names {
        let distance = levenshtein(alloc, word, name)?;
        if distance < least {
            least = distance;
            nearest = Some(*name);
        }
    }
    Ok(nearest)
}
