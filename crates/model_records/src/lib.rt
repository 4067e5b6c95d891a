// The counts of a model file, where its records stand, and the fields of the records, read and, of its
// edges, written. The readers and writers are for files that are long enough: each asks for the bytes that it
// reads, since the checks call them before the file is known to be valid.
#![tactic(auto)]

ghost use Rattle.std.specs.Prelude.{◌≡◌, ◌+◌, ◌≤◌, length};
ghost use Rattle.wire.specs.Blocks.{put_from};
ghost use Rattle.pattern.specs.File.Types.{max_property, max_channel};
ghost use Rattle.model_records.specs.Layout.{node_count, name_count, edge_count, with_edge_count, node_record, name_record, edge_record, value_on, name_of, node_of_record};
ghost use Rattle.model_records.specs.Contents.{has_property};
ghost use Rattle.model_records.specs.Order.{edge_at, edge_bytes};

// How the edges of a model file must stand: in any order, as document 01 has it, or rising, as document
// 02 has it. It stays an enum, not a closure: the theorems of both documents name it (`judging_by`).
#[derive(Clone, Copy)]
pub enum Order {
    Any,
    Rising,
}

// A name and its node.
#[derive(Clone, Copy)]
pub struct NameRecord {
    pub name: u8,
    pub node: u8,
}

// An edge. Its derived order goes by from, then axis, then to; the checks compare edges as numbers.
#[derive(Clone, Copy, PartialEq, Eq, PartialOrd, Ord)]
pub struct Edge {
    pub from: u8,
    pub axis: u8,
    pub to: u8,
}

// The count of the nodes.
pub fn node_count(d: &[u8]) -> u8
    requires { 9 ≤ length d.now }
    ensures { result ≡ node_count d.now }
{
    d[5]
}

// The count of the name records.
pub fn name_count(d: &[u8]) -> u8
    requires { 9 ≤ length d.now }
    ensures { result ≡ name_count d.now }
{
    d[6]
}

// The count of the edge records.
pub fn edge_count(d: &[u8]) -> u16
    requires { 9 ≤ length d.now }
    ensures { result ≡ edge_count d.now }
{
    wire::word(d, 7)
}

// Where the record of node u begins.
fn node_record(u: u8) -> usize
    ensures { result ≡ node_record u }
{
    9 + 12 * (u as usize)
}

// Where name record j begins.
fn name_record(d: &[u8], j: u8) -> usize
    requires { 9 ≤ length d.now }
    ensures { result ≡ name_record d.now j }
{
    node_record(node_count(d)) + 2 * (j as usize)
}

// Where edge record i begins.
pub fn edge_record(d: &[u8], i: u16) -> usize
    requires { 9 ≤ length d.now }
    ensures { result ≡ edge_record d.now i }
{
    name_record(d, name_count(d)) + 3 * (i as usize)
}

// Whether property p is in the property set of node u.
pub fn has_property(d: &[u8], p: u8, u: u8) -> bool
    requires u_in_bounds { node_record u + 12 ≤ length d.now }
    requires p_le_max_property { p ≤ max_property }
    ensures { result ≡ has_property d.now p u }
{
    let set = wire::word32(d, node_record(u));
    (set >> p) % 2 == 1
}

// The value of node u on channel e.
pub fn value_on(d: &[u8], e: u8, u: u8) -> u16
    requires u_in_bounds { node_record u + 12 ≤ length d.now }
    requires e_le_max_channel { e ≤ max_channel }
    ensures { result ≡ value_on d.now e u }
{
    wire::word(d, node_record(u) + 4 + 2 * (e as usize))
}

impl NameRecord {
    // The fields of name record j.
    pub fn at(d: &[u8], j: u8) -> NameRecord
        requires { name_record d.now j + 2 ≤ length d.now }
        ensures name { result.name ≡ name_of d.now j }
        ensures node { result.node ≡ node_of_record d.now j }
    {
        let at = name_record(d, j);
        NameRecord {
            name: d[at],
            node: d[at + 1],
        }
    }
}

impl Edge {
    // The fields of edge record i.
    pub fn at(d: &[u8], i: u16) -> Edge
        requires { edge_record d.now i + 3 ≤ length d.now }
        ensures { result ≡ edge_at d.now i }
    {
        let at = edge_record(d, i);
        Edge {
            from: d[at],
            axis: d[at + 1],
            to: d[at + 2],
        }
    }

    // The edge record at this place becomes that of the edge.
    pub fn put(self, d: &mut [u8], at: usize)
        requires { at + 3 ≤ length d.old }
        ensures { d.new ≡ put_from d.old at 0 (edge_bytes self) }
    {
        wire::copy_at(d, at, &[self.from, self.axis, self.to]);
    }
}

// The count of the edge records becomes k.
pub fn put_edge_count(d: &mut [u8], k: u16)
    requires { 9 ≤ length d.old }
    ensures { d.new ≡ with_edge_count d.old k }
{
    wire::put_word(d, 7, k);
}
