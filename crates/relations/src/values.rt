// The table of the values of a model, and comparing the values of the nodes of two sets.
ghost use Rattle.std.specs.Prelude.{◌≡◌, true, ◌↔◌, ◌≤◌, ◌<◌, length};
ghost use Rattle.nodeset.specs.Set.{width};
ghost use Rattle.nodeset.specs.Stored.{table_bytes, set_at};
ghost use Rattle.pattern.specs.File.Types.{max_channel};
ghost use Rattle.relations.specs.Tables.{alike_row, alike_rows};
ghost use Rattle.relations.specs.Values.{Partner, Common, PairFound};

use crate::rows::row_of;
use nodeset::NodeSet;
use pattern::types::Comparison;

// The nodes whose value on a channel is that of node u, in a table of its own with its own bounds.
fn alike_to(alike: &[u8], channel: u8, u: u8) -> NodeSet
    requires alike_rows_in_bounds { table_bytes alike_rows ≤ length alike.now }
    requires channel_le_max_channel { (channel ≤ max_channel) × (u < width) }
    ensures { result ≡ set_at alike.now (alike_row channel u) }
{
    NodeSet::load(alike, row_of(channel, u))
}

// Whether a set has a node that compares so with the node whose set of equal values is given.
fn has_partner(c: Comparison, alike: NodeSet, t: NodeSet) -> bool
    ensures { (result ≡ true) ↔ Partner c alike t }
{
    match c {
        Comparison::Same => !t.meet(alike).is_empty(),
        Comparison::Differ => !t.minus(alike).is_empty(),
    }
}

// Whether the two sets have a node in common, where a node compares so with itself.
fn has_common(c: Comparison, s: NodeSet, t: NodeSet) -> bool
    ensures { (result ≡ true) ↔ Common c s t }
{
    match c {
        Comparison::Same => !s.meet(t).is_empty(),
        Comparison::Differ => false,
    }
}

// Whether some node of the first set and some node of the second compare so on a channel. A node that
// both have is found at once, where it compares so with itself. Nodes of one value have the same
// partners, so it goes from one value to the next; and of two values one differs from any node.
pub fn some_pair(alike: &[u8], channel: u8, c: Comparison, s: NodeSet, t: NodeSet) -> bool
    requires alike_rows_in_bounds { table_bytes alike_rows ≤ length alike.now }
    requires channel_le_max_channel { channel ≤ max_channel }
    ensures { PairFound alike.now channel c s t result }
{
    if has_common(c, s, t) {
        return true;
    }
    let mut rest = s;
    // No iterator: a turn takes the nodes of a whole value out of the set.
    while let Some(u) = rest.lowest() {
        let class = alike_to(alike, channel, u);
        if has_partner(c, class, t) {
            return true;
        }
        rest = rest.but_lowest().minus(class);
    }
    false
}
