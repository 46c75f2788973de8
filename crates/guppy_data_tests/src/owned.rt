//! Owned texts, IDs and paths. Where memory is refused, the test fails at once.

use guppy_data::{PackageId, Utf8PathBuf};
use std::alloc::Global;
use std::process::Abort;

pub(crate) fn text(rt: &impl Abort, alloc: Global, text: &str) -> String {
    String::from_str(alloc, text).expect(rt, text)
}

pub(crate) fn texts(rt: &impl Abort, alloc: Global, texts: &[&str]) -> Vec<String> {
    let mut owned = Vec::new(alloc);
    for item in texts {
        owned.push(text(rt, alloc, item)).expect(rt, item);
    }
    owned
}

pub(crate) fn id(rt: &impl Abort, alloc: Global, id: &str) -> PackageId {
    PackageId::new(text(rt, alloc, id))
}

pub(crate) fn path(rt: &impl Abort, alloc: Global, path: &str) -> Utf8PathBuf {
    Utf8PathBuf::new(text(rt, alloc, path))
}
