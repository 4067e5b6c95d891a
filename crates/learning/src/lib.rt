// Where the root of a pattern holds in a finite data model: by what is learned of the entries that it
// reaches, one after the other.
#![tactic(auto)]

mod learn;
mod root;

pub use root::root_nodes;
