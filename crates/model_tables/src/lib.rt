// Where a pattern holds in the data model of a model file that passed its checks: the tables of node
// sets that evaluation reads are made on the stack, of what the pattern uses.
#![tactic(auto)]

mod model;
mod successors;
mod values;

ghost use Rattle.std.specs.Prelude.{◌≡◌, ℕ, length, replicate};
ghost use Rattle.nodeset.specs.Set.{has};
ghost use Rattle.pattern.specs.Checks.Finding.{found};
ghost use Rattle.pattern.specs.File.Reading.{count_of, reading_of};
ghost use Rattle.decision.specs.Root.{root_holds};
ghost use Rattle.slots.specs.Area.{area_bytes};
ghost use Rattle.model_records.specs.Contents.{NamesListed, model_from};
ghost use Rattle.model_records.specs.Valid.{ValidModel};

use model::tabulate;
use model_records::node_count;
use nodeset::NodeSet;
use relations::rows::{ALIKE_BYTES, TABLE_BYTES};
pub use successors::fill_successors;
use values::tabulate_values;

// The set of the nodes of the model of a file at which the root of a pattern that was read, and whose
// names the file lists, holds. The work slice, of the bytes of the sets of its node entries, is left zero.
pub fn root_nodes(p: &[u8], d: &[u8], work: &mut [u8]) -> NodeSet
    requires p_value { reading_of p.now ≡ found (count_of p.now) }
    requires valid_model { ValidModel d.now }
    requires names_listed { NamesListed p.now d.now }
    requires work_len { length work.old ≡ area_bytes p.now }
    ensures nodes { (u : ℕ) → has result u ≡ root_holds p.now (model_from d.now) u }
    ensures work { work.new ≡ replicate (length work.old) 0 }
{
    // Fixed memory, on the stack: the unit has no heap.
    let mut table = [0u8; TABLE_BYTES];
    let mut alike = [0u8; ALIKE_BYTES];
    tabulate(p, d, &mut table);
    tabulate_values(p, d, &mut alike);
    learning::root_nodes(p, &table, &alike, work, node_count(d))
}
