// Typed patterns, document 02's Job 7, byte by byte: whether a text is in the grammar, and its tokens with
// their numbers.
#![tactic(auto)]

pub mod grammar;
mod reader;
mod token;
pub mod tokens;
mod wants;
