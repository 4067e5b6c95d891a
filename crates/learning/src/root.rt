// Where the root holds: the entries that it reaches are learned in their order, by as many slots as the
// rows have room for.
ghost use Rattle.std.specs.Prelude.{◌≡◌, ◌-◌, ◌*◌, ◌≤◌, ◌<◌, length, replicate};
ghost use Rattle.nodeset.specs.Stored.{table_bytes};
ghost use Rattle.pattern.specs.File.Reading.{count_of};
ghost use Rattle.slots.specs.Area.{area_bytes};
ghost use Rattle.evaluation.specs.Standing.{Lent, RootNodes};
ghost use Rattle.evaluation.specs.Judged.{FindsNodes};

use crate::learn::{Memory, Plan};
use evaluation::Judged;
use nodeset::NodeSet;
use path_rows::fill_end;
use slots::marks::{Marks, slot_count};
use slots::uses::{USES_BYTES, last_uses, path_count};
use wire::clear;

// The bytes of the rows: of most judgements, so that little is cleared, and of the largest.
const FEW_ROWS: usize = 4096;

const MANY_ROWS: usize = 49152;

// The set of the root, by rows that these bytes have room for.
fn run(q: &Judged, area: &mut [u8], rows: &mut [u8], last: &[u8; USES_BYTES]) -> NodeSet
    requires area_len { length area.old ≡ area_bytes q.now.p.now }
    requires n_in_bounds { table_bytes (2 * q.now.n) ≤ length rows.old }
    ensures { FindsNodes q.now (count_of q.now.p.now - 1) result }
{
    let slots = slot_count(rows.len(), q.n);
    fill_end(rows, q.n);
    let mut memory = Memory {
        area,
        rows,
        marks: Marks::new(),
    };
    Plan { q, last, slots }.learn_all(&mut memory);
    q.evaluate(&memory.known(), q.p[5] - 1)
}

// The same with rows of so many bytes.
fn run_in<const ROWS: usize>(q: &Judged, area: &mut [u8], last: &[u8; USES_BYTES]) -> NodeSet
    requires area_len { length area.old ≡ area_bytes q.now.p.now }
    requires rows_long { (FEW_ROWS ≤ ROWS) × (ROWS ≤ MANY_ROWS) }
    ensures { FindsNodes q.now (count_of q.now.p.now - 1) result }
{
    let mut rows = [0u8; ROWS];
    run(q, area, &mut rows, last)
}

// Whether the rows of so many paths, and those of the end of path, are few.
fn are_few(paths: u8, n: u8) -> bool {
    NodeSet::BYTES * ((paths as usize + 1) * (n as usize)) <= FEW_ROWS
}

// The same, by as many rows as are worth their clearing. The paths that the root reaches are counted only
// where the rows of all paths aren't few.
fn run_sized(q: &Judged, area: &mut [u8]) -> NodeSet
    requires area_len { length area.old ≡ area_bytes q.now.p.now }
    ensures { FindsNodes q.now (count_of q.now.p.now - 1) result }
{
    let mut last = [0u8; USES_BYTES];
    last_uses(q.p, &mut last);
    let nodes = area.len() / NodeSet::BYTES;
    if are_few(q.p[5] - (nodes as u8), q.n) || are_few(path_count(q.p, &last), q.n) {
        return run_in::<FEW_ROWS>(q, area, &last);
    }
    run_in::<MANY_ROWS>(q, area, &last)
}

// The set of the nodes at which the root of a pattern that was read holds, in the data model of n nodes
// that the tables stand for. The area, which has room for the sets of the node entries and no more, is left
// zero.
pub fn root_nodes(p: &[u8], table: &[u8], alike: &[u8], area: &mut [u8], n: u8) -> NodeSet
    requires lent { Lent p.now table.now alike.now n }
    requires area_len { length area.old ≡ area_bytes p.now }
    ensures root { RootNodes p.now table.now alike.now n result }
    ensures area { area.new ≡ replicate (length area.old) 0 }
{
    let q = Judged { p, table, alike, n };
    let s = run_sized(&q, area);
    clear(area);
    s
}
