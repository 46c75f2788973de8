//! The graph of packages, as Graphviz draws it.
//!
//! The modules, from the bottom up:
//!
//! - `drawing`: packages and links as they are drawn;
//! - `quoted`: texts in quotation marks;
//! - `text`: a package or a link on a line of the drawing's text.
#![tactic(auto)]

pub mod drawing;
pub mod quoted;
pub mod text;

pub use drawing::{Drawing, Edge, LinkStyle, Node, drawing_of};
pub use text::{push_edge, push_node};
