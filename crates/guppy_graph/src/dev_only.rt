ghost use Rattle.std.specs.Prelude.{◌≡◌};
ghost use Rattle.guppy_graph.specs.DevOnly.{is_dev_only};

use guppy_data::{DependencyReq, LinkRecord};

/// Whether neither the normal nor the build section of the link has a status other than never, also
/// where no section has.
pub fn is_dev_only(link: &LinkRecord) -> bool
    ensures { result ≡ is_dev_only link.now }
{
    let normal = DependencyReq::new(&link.normal);
    let build = DependencyReq::new(&link.build);
    !normal.is_present() && !build.is_present()
}
