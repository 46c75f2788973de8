//! What Rust, C and other languages call of the proved layer.
//!
//! Nothing is kept from one call to the next, and no call takes or gives a pointer to anything but the
//! caller's own slices, each a pointer and a length. A call tests what it needs of them, and tells a status.
//!
//! - `answer`: answers as text, of the JSON that `cargo metadata` prints;
//! - `flat`: answers about a graph that the caller holds as slices;
//! - `platform`: what a text says of a platform;
//! - `records`: the records of that JSON, as one text;
//! - `version`: which interface this is.
#![tactic(auto)]

pub mod answer;
pub mod flat;
pub mod platform;
pub mod records;
pub mod version;
