// The tables of a data model, as sets of nodes, and what evaluation computes with whole sets: the
// relations of a model, and the values of its nodes.
#![tactic(auto)]

pub mod fill;
pub mod kinds;
pub mod model;
pub mod rows;
pub mod values;
