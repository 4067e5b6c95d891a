// Where each set stands in the tables of a model: the successors of the nodes, axis by axis, then the
// sets of the properties, those of the names, and all nodes; and in the table of its values, the
// nodes of equal value, channel by channel.
ghost use Rattle.std.specs.Prelude.{◌≡◌};
ghost use Rattle.relations.specs.Tables.{row_of};

use nodeset::NodeSet;
use pattern::types::{Axis, Channel, Name, Property};

const WIDTH: usize = NodeSet::WIDTH as usize;

// The first row of the properties, of the names, and the row of all nodes.
pub const PROPERTIES: usize = WIDTH * (Axis::MAX as usize + 1);

pub const NAMES: usize = PROPERTIES + (Property::MAX as usize + 1);

pub const NODES: usize = NAMES + (Name::MAX as usize + 1);

// The bytes of the rows of the successors, which stand first, of the table of a model, and of the table
// of its values.
pub const SUCCESSORS_BYTES: usize = NodeSet::BYTES * PROPERTIES;

pub const TABLE_BYTES: usize = NodeSet::BYTES * (NODES + 1);

pub const ALIKE_BYTES: usize = NodeSet::BYTES * (WIDTH * (Channel::MAX as usize + 1));

// The row of node u among the rows of an axis or of a channel.
pub fn row_of(group: u8, u: u8) -> usize
    ensures { result ≡ row_of group u }
{
    WIDTH * (group as usize) + (u as usize)
}
