// The table of a model for a pattern: of its properties and names what the pattern uses.
ghost use Rattle.std.specs.Prelude.{◌≡◌, true, false, ℕ, ◌≤◌};
ghost use Rattle.nodeset.specs.Set.{has};
ghost use Rattle.nodeset.specs.Stored.{set_at};
ghost use Rattle.pattern.specs.Checks.Finding.{found};
ghost use Rattle.pattern.specs.File.Types.{max_property};
ghost use Rattle.pattern.specs.File.Reading.{count_of, reading_of};
ghost use Rattle.relations.specs.Tables.{IsSet, Tabled};
ghost use Rattle.model_records.specs.Contents.{has_property, NamesListed, model_from};
ghost use Rattle.model_records.specs.Valid.{ValidModel};
ghost use Rattle.model_tables.specs.Entries.{Grown, MadeBelow};
ghost use Rattle.model_tables.specs.Tables.{PropertyMade, is_property, SuccessorsStay, NamesAtRecords};

use crate::successors::fill_successors;
use model_records::{NameRecord, has_property, name_count, node_count};
use nodeset::NodeSet;
use pattern::entry::Entry;
use pattern::table::Kind;
use relations::rows::{NAMES, NODES, PROPERTIES, TABLE_BYTES};

// The nodes that have property p.
fn property_set(d: &[u8], p: u8) -> NodeSet
    requires valid_model { ValidModel d.now }
    requires p_le_max_property { p ≤ max_property }
    ensures { IsSet (model_from d.now) (λ u. has_property d.now p u.0 ≡ true) result }
{
    NodeSet::filter_below(node_count(d), |u| has_property(d, p, u))
}

// The row of the property of an entry, if it has one, gets the nodes that have it.
fn fill_property(d: &[u8], e: Entry, table: &mut [u8; TABLE_BYTES])
    requires valid_model { ValidModel d.now }
    requires x_le_max_property { is_property e.kind ≡ true → e.x ≤ max_property }
    ensures grown { Grown (PropertyMade d.now) (is_property e.kind) e.x table.old table.new }
    ensures stay { SuccessorsStay table.old table.new }
{
    if matches!(e.kind, Kind::Property) {
        let set = property_set(d, e.x);
        set.store(table, PROPERTIES + (e.x as usize));
    }
}

// The row of each property that the pattern has gets the nodes that have it.
fn fill_properties(p: &[u8], d: &[u8], table: &mut [u8; TABLE_BYTES])
    requires p_value { reading_of p.now ≡ found (count_of p.now) }
    requires valid_model { ValidModel d.now }
    ensures made { MadeBelow (PropertyMade d.now) is_property p.now (count_of p.now) table.new }
    ensures stay { SuccessorsStay table.old table.new }
{
    for k in 0..p[5] {
        fill_property(d, Entry::at(p, k), table);
    }
}

// The row of each listed name gets the node of its record.
fn list_names(d: &[u8], table: &mut [u8; TABLE_BYTES])
    requires valid_model { ValidModel d.now }
    ensures { NamesAtRecords d.now table.old table.new }
{
    for j in 0..name_count(d) {
        let record = NameRecord::at(d, j);
        let set = NodeSet::only(record.node);
        set.store(table, NAMES + (record.name as usize));
    }
}

// The table of the model that a file gives, for a pattern whose names the file lists; it is empty
// before.
pub fn tabulate(p: &[u8], d: &[u8], table: &mut [u8; TABLE_BYTES])
    requires p_value { reading_of p.now ≡ found (count_of p.now) }
    requires valid_model { ValidModel d.now }
    requires names_listed { NamesListed p.now d.now }
    requires by_index { (i u : ℕ) → has (set_at table.old i) u ≡ false }
    ensures { Tabled (model_from d.now) p.now table.new }
{
    fill_successors(d, table);
    fill_properties(p, d, table);
    list_names(d, table);
    let set = NodeSet::below(node_count(d));
    set.store(table, NODES);
}
