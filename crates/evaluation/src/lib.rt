// Where an entry of a pattern holds in a finite data model: node evaluation and path ends. The model comes
// in tables of node sets (`relations`).
#![tactic(auto)]

mod entries;
mod judged;

pub use judged::{Judged, Known};
