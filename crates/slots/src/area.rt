// The working area of judging a model: a set for each node entry of the pattern, in the order of the
// entries. Paths have none.
ghost use Rattle.std.specs.Prelude.{◌≡◌};
ghost use Rattle.pattern.specs.Checks.Finding.{found};
ghost use Rattle.pattern.specs.File.Reading.{reading_of};
ghost use Rattle.slots.specs.Area.{node_entries, area_bytes};

use nodeset::NodeSet;
use pattern::entry::sort_at;

// How many node entries a pattern that was read, of n entries, has, whether the root reaches them or not.
fn node_entries(p: &[u8], n: u8) -> u8
    requires { reading_of p.now ≡ found n }
    ensures { result ≡ node_entries p.now }
{
    let mut found = 0;
    for k in 0..n {
        found += u8::from(sort_at(p, k).is_node());
    }
    found
}

// The bytes of their sets.
pub fn area_bytes(p: &[u8], n: u8) -> usize
    requires { reading_of p.now ≡ found n }
    ensures { result ≡ area_bytes p.now }
{
    NodeSet::BYTES * (node_entries(p, n) as usize)
}
