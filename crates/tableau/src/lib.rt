// A tableau: what its steps do to the open branches, when it closes, and what judging one finds.
#![tactic(auto)]

pub mod finding;

// Document 01's mark of a tableau file.
pub const MARK: [u8; 3] = *b"TAB";
