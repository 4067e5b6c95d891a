// The rows of the successors in the table of a model.
ghost use Rattle.std.specs.Prelude.{◌≡◌, false, ℕ, ◌≤◌, ◌<◌, length};
ghost use Rattle.nodeset.specs.Set.{has};
ghost use Rattle.nodeset.specs.Stored.{table_bytes, set_at};
ghost use Rattle.relations.specs.Tables.{successors_rows};
ghost use Rattle.model_records.specs.Layout.{edge_count};
ghost use Rattle.model_records.specs.Valid.{ValidModel};
ghost use Rattle.model_tables.specs.Successors.{link_of, Linked};

use model_records::{Edge, edge_count};
use nodeset::NodeSet;
use relations::rows::row_of;

// The row of edge record i, that of its axis and of the node it leads from, gets the node it leads to.
fn add_edge(d: &[u8], table: &mut [u8], i: u16)
    requires valid_model { ValidModel d.now }
    requires successors_rows_in_bounds { table_bytes successors_rows ≤ length table.old }
    requires i_bound { i < edge_count d.now }
    ensures { table.new ≡ link_of d.now i table.old }
{
    let edge = Edge::at(d, i);
    let row = row_of(edge.axis, edge.from);
    let set = NodeSet::load(table, row);
    let grown = set.insert(edge.to);
    grown.store(table, row);
}

// The rows of the successors get the edges; they are empty before.
pub fn fill_successors(d: &[u8], table: &mut [u8])
    requires valid_model { ValidModel d.now }
    requires successors_rows_in_bounds { table_bytes successors_rows ≤ length table.old }
    requires by_index { (i u : ℕ) → has (set_at table.old i) u ≡ false }
    ensures { Linked d.now (edge_count d.now) table.old table.new }
{
    for i in 0..edge_count(d) {
        add_edge(d, table, i);
    }
}
