//! What has to hold, under a name that is told where it doesn't.

use std::process::Abort;

pub(crate) fn hold(rt: &impl Abort, name: &str, holds: bool) {
    assert!(rt; holds, "{name}");
}

pub(crate) fn is_text(rt: &impl Abort, name: &str, text: &str, wanted: &str) {
    assert!(rt; text == wanted, "{name}: {text} is not {wanted}");
}
