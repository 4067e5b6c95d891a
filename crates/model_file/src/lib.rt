// The checks of a model file, document 01's refusals 10 to 14 and, where its edges must rise, document
// 02's 28, in their order, and the names that it lists. Each check answers that it passed or the
// refusal, and the first refusal decides.
#![tactic(auto)]

mod edges;
mod refusal;

ghost use Rattle.std.specs.Prelude.{◌≡◌, ◌+◌, ◌≤◌, length};
ghost use Rattle.names.specs.Set.{SetOf};
ghost use Rattle.pattern.specs.Checks.Range.{each_below};
ghost use Rattle.model_records.specs.Layout.{name_count, name_record, length_of};
ghost use Rattle.model_records.specs.Checks.{counts_wrong, header_check, name_check, model_check};
ghost use Rattle.model_file.specs.Enums.{check_of};
ghost use Rattle.model_records.specs.Contents.{is_listed_below, is_listed};
ghost use Rattle.model_records.specs.Valid.{ValidModel};

use edges::check_edges;
use model_records::{NameRecord, Order, edge_count, edge_record, name_count, node_count};
use names::NameSet;
use nodeset::NodeSet;
use pattern::types::Name;
pub use refusal::ModelRefusal;

// Document 01's bounds of the three counts.
const MAX_NODES: u8 = NodeSet::WIDTH;

const MAX_NAMES: u8 = 128;

const MAX_EDGES: u16 = 4096;

// Whether a count is out of range or the length isn't the one that the counts ask for.
fn counts_wrong(d: &[u8]) -> bool
    requires { 9 ≤ length d.now }
    ensures { result ≡ counts_wrong d.now }
{
    let n = node_count(d);
    let k = edge_count(d);
    n == 0
        || MAX_NODES < n
        || MAX_NAMES < name_count(d)
        || MAX_EDGES < k
        || d.len() != edge_record(d, k)
}

// Refusals 10 to 12.
fn check_header(d: &[u8]) -> Result<(), ModelRefusal>
    ensures { check_of result ≡ header_check d.now }
{
    if d.len() < 9 || !wire::begins(d, b"DAT") {
        return Err(ModelRefusal::Mark);
    }
    if wire::word(d, 3) != 1 {
        return Err(ModelRefusal::Version);
    }
    if counts_wrong(d) {
        return Err(ModelRefusal::Count);
    }
    Ok(())
}

// Refusal 13 of name record j, where these are the names of the records before it.
fn check_name(d: &[u8], j: u8, seen: NameSet) -> Result<(), ModelRefusal>
    requires j_in_bounds { name_record d.now j + 2 ≤ length d.now }
    requires set_of { SetOf (is_listed_below d.now j) seen }
    ensures { check_of result ≡ name_check d.now j }
{
    let record = NameRecord::at(d, j);
    if Name::try_from(record.name).is_err()
        || node_count(d) <= record.node
        || seen.has(record.name)
    {
        return Err(ModelRefusal::Name(j));
    }
    Ok(())
}

// Refusal 13 of the name records, in their order.
fn check_names(d: &[u8]) -> Result<(), ModelRefusal>
    requires { length d.now ≡ length_of d.now }
    ensures { check_of result ≡ each_below (name_count d.now) (name_check d.now) }
{
    let mut seen = NameSet::empty();
    for j in 0..name_count(d) {
        check_name(d, j, seen)?;
        seen = seen.insert(NameRecord::at(d, j).name);
    }
    Ok(())
}

// Checks a model file whose edges must stand so: any bytes of any length pass, or give the first
// refusal.
pub fn check(d: &[u8], order: Order) -> Result<(), ModelRefusal>
    ensures { check_of result ≡ model_check order d.now }
{
    check_header(d)?;
    check_names(d)?;
    check_edges(d, order)
}

// The names that a file that passed its checks lists.
pub fn listed_names(d: &[u8]) -> NameSet
    requires { ValidModel d.now }
    ensures { SetOf (is_listed d.now) result }
{
    let mut names = NameSet::empty();
    for j in 0..name_count(d) {
        names = names.insert(NameRecord::at(d, j).name);
    }
    names
}
