//! The program `guppy-run`, over any source and sink: answers on packages, of which it reads lines of text.
//!
//! The modules, from the bottom up:
//!
//! - `fault`: why the program gives no answer;
//! - `statements`: what one line says;
//! - `records`: the records that lines say; `input`: those of a whole input;
//! - `format`: what the program is asked, how it reads its input, and what it calls packages.
#![tactic(auto)]

pub mod fault;
pub mod format;
pub mod input;
pub mod records;
pub mod statements;

pub use fault::RunFault;
pub use format::Lines;
pub use input::records_of;
