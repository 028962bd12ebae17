// How an answer, and the parts of a held question, stand in cells that a caller lends: for the calls as C and Rust link them.
#![tactic(auto)]

mod lending;
mod telling;

pub use lending::copy_parts;
pub use telling::{tell, tell_import};
