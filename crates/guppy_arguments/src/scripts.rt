//! The options of the scripts, which take them out of the words before the program is given these.
ghost use Rattle.std.specs.Prelude.{◌≡◌, map, IfOk};
ghost use Rattle.guppy_arguments.specs.Scripts.{is_of_scripts, all_names};

use crate::table::OPTIONS;
use guppy_command::asked::is_among;
use std::alloc::{AllocError, Global};

/// What the options of the scripts are called, but for `-F`, which is near to any short word.
pub const SCRIPT_OPTIONS: &[&str] = &[
    "--since",
    "--with",
    "--metadata",
    "--manifest-path",
    "--features",
    "--all-features",
    "--no-default-features",
    "--filter-platform",
    "--locked",
    "--offline",
    "--frozen",
];

/// Whether an option of the scripts is called so. Takes no memory.
pub fn is_of_scripts(name: &str) -> bool
    ensures { result ≡ is_of_scripts name.now }
{
    is_among(SCRIPT_OPTIONS, name)
}

/// What the program's options are called, and then those of the scripts. Takes memory for a reference an option.
pub fn all_names(alloc: Global) -> Result<Vec<&'static str>, AllocError>
    ensures { IfOk result (λ names. map (λ name. name.now) names.items ≡ all_names) }
{
    let own = OPTIONS.iter().map(|row| row.0);
    own.chain(SCRIPT_OPTIONS.iter().copied()).collect(alloc)
}
