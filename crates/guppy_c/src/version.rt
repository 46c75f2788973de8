//! Which interface an archive has.
ghost use Rattle.std.specs.Prelude.{◌≡◌};

/// The number of the archive's interface. A program that was built with another `GUPPY_C_VERSION` must make no
/// other call: the number changes with each export, parameter, struct and status, and with the layout of a text.
#[unsafe(no_mangle)]
pub extern "C" fn guppy_version() -> u32
    ensures number { result ≡ 4 }
{
    4
}
