// Reads a program's text: words out, or a refusal with its line.
#![tactic(auto)]

mod cutting;
pub mod reader;
pub mod refusal;
mod section;

pub use reader::read;
pub use refusal::{Cause, Refusal};
