//! Folders as lists of components, and which of them hold paths.
//!
//! The modules, from the bottom up:
//!
//! - `names`: components that are names;
//! - `folders`: when a folder holds a path, and the longest of several that does;
//! - `places`: where paths lead, each `.` and `..` resolved, and which folders hold such places;
//! - `touched`: the longest folders that hold some of many paths, and the paths that count.
#![tactic(auto)]

mod folders;
mod names;
mod places;
mod touched;

pub use folders::{add_folder, is_one_of, lies_in_one};
pub use places::{folder_above, is_inside, meets_one, place_of, places_of};
pub use touched::{counted_paths, touched_folders};
