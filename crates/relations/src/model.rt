// The table of a model, row by row, and its axes between whole sets. Each function asks for a table that is long
// enough, and takes a longer one: an array whose length is its type would ask more of callers.
ghost use Rattle.std.specs.Prelude.{◌≡◌, ◌+◌, ◌≤◌, ◌<◌, length};
ghost use Rattle.nodeset.specs.Set.{width};
ghost use Rattle.nodeset.specs.Stored.{table_bytes, set_at};
ghost use Rattle.nodeset.specs.Members.{HasExactly};
ghost use Rattle.pattern.specs.File.Types.{max_axis, max_property, max_name};
ghost use Rattle.relations.specs.Tables.{successors_row, property_row, name_row, nodes_row, model_rows, Before};
ghost use Rattle.relations.specs.Members.{Image};
ghost use Rattle.relations.specs.Covered.{Within};

use crate::rows::{NAMES, NODES, PROPERTIES, row_of};
use nodeset::NodeSet;

// The successors of node u on an axis.
pub fn successors(table: &[u8], axis: u8, u: u8) -> NodeSet
    requires model_rows_in_bounds { table_bytes model_rows ≤ length table.now }
    requires axis_le_max_axis { (axis ≤ max_axis) × (u < width) }
    ensures { result ≡ set_at table.now (successors_row axis u) }
{
    NodeSet::load(table, row_of(axis, u))
}

// A function for each block of the table, whose rows differ in their range.

// The nodes that have a property.
pub fn with_property(table: &[u8], property: u8) -> NodeSet
    requires model_rows_in_bounds { table_bytes model_rows ≤ length table.now }
    requires property_le_max_property { property ≤ max_property }
    ensures { result ≡ set_at table.now (property_row property) }
{
    NodeSet::load(table, PROPERTIES + (property as usize))
}

// The node of a name, as a set.
pub fn with_name(table: &[u8], name: u8) -> NodeSet
    requires model_rows_in_bounds { table_bytes model_rows ≤ length table.now }
    requires name_le_max_name { name ≤ max_name }
    ensures { result ≡ set_at table.now (name_row name) }
{
    NodeSet::load(table, NAMES + (name as usize))
}

// All nodes of the model.
pub fn all_nodes(table: &[u8]) -> NodeSet
    requires { table_bytes model_rows ≤ length table.now }
    ensures { result ≡ set_at table.now nodes_row }
{
    NodeSet::load(table, NODES)
}

// The union of the rows from `first` on of the nodes of a set, where no such row has a node that `all`
// lacks: when all are found the other rows add none.
pub fn union_within(rows: &[u8], first: usize, s: NodeSet, all: NodeSet) -> NodeSet
    requires { Within rows.now first s all }
    ensures { HasExactly (Image (λ u. set_at rows.now (first + u)) s) result }
{
    let mut rest = s;
    let mut sum = NodeSet::empty();
    // As all loops over the members of a set: no iterator, which would be longer than what it saves.
    while let Some(u) = rest.lowest() {
        sum = sum.union(NodeSet::load(rows, first + (u as usize)));
        if all.minus(sum).is_empty() {
            return sum;
        }
        rest = rest.but_lowest();
    }
    sum
}

// The successors on an axis of the nodes of a set.
pub fn image(table: &[u8], axis: u8, s: NodeSet) -> NodeSet
    requires model_rows_in_bounds { table_bytes model_rows ≤ length table.now }
    requires axis_le_max_axis { axis ≤ max_axis }
    ensures { HasExactly (Image (λ u. set_at table.now (successors_row axis u)) s) result }
{
    union_within(table, row_of(axis, 0), s, NodeSet::below(NodeSet::WIDTH))
}

// The nodes below n that have a successor on an axis in a set.
pub fn before(table: &[u8], n: u8, axis: u8, s: NodeSet) -> NodeSet
    requires model_rows_in_bounds { table_bytes model_rows ≤ length table.now }
    requires n_le_width { (n ≤ width) × (axis ≤ max_axis) }
    ensures { HasExactly (Before table.now n axis s) result }
{
    NodeSet::filter_below(n, |u| !successors(table, axis, u).meet(s).is_empty())
}
