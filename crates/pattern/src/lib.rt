// Patterns: formulas of hybrid XPath with data comparisons, as document 01's pattern file holds them.
#![tactic(auto)]

pub mod entry;
pub mod finding;
pub mod names;
pub mod table;
pub mod types;
