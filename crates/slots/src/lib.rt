// The places of what is learned of entries: the sets of node entries in the working area, and the slots of
// the rows of paths, whose rows each has, and which may go.
#![tactic(auto)]

pub mod area;
pub mod marks;
pub mod uses;
