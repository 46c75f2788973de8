//! Laws on arguments, each stated by the contract of a function.
ghost use Rattle.std.specs.Prelude.{◌≡◌, ℕ, List, Result};
ghost use Rattle.guppy_command.specs.Asked.{Asked, Asks, IsMisread, IsUnfound, Wanted};
ghost use Rattle.guppy_command.specs.Grammar.{Argument, Misread, Program, Reads};

use crate::files::Files;

/// Words read in one way: as these arguments, or not, and why.
pub fn reads_in_one_way()
    ensures { (p : Program) (words : List (List ℕ)) (a b : Result (List Argument) Misread)
        → Reads p words a → Reads p words b → a ≡ b }
{}

/// Where words ask something, a misread is one of a file that they name. So words that are wrong by themselves ask
/// nothing, and a program that answers wasn't given them.
pub fn asked_or_misread<D: Files>(files: &D)
    ensures { (p : Program) (words : List (List ℕ)) (asked : Asked) (misread : Misread)
        → Asks (D.has files.now) p words asked → IsMisread (D.has files.now) p words misread
        → (wants : Wanted) × IsUnfound (D.has files.now) wants misread }
{
    let _ = files;
}
