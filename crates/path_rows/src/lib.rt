// The rows of a path, one for each node: its ends from that node. They are made from the rows of the
// paths that it goes on by, and compared with those of another path.
#![tactic(auto)]

ghost use Rattle.std.specs.Prelude.{◌≡◌, true, ◌+◌, ◌≤◌, ◌<◌, length};
ghost use Rattle.nodeset.specs.Set.{width};
ghost use Rattle.nodeset.specs.Stored.{table_bytes, set_at};
ghost use Rattle.nodeset.specs.Members.{HasExactly};
ghost use Rattle.pattern.specs.File.Types.{max_axis, max_channel};
ghost use Rattle.relations.specs.Tables.{successors_row, model_rows, alike_rows};
ghost use Rattle.relations.specs.Filled.{Filled};
ghost use Rattle.relations.specs.Covered.{RowsFit, Covers, Within};
ghost use Rattle.path_rows.specs.Paths.{Apart, Parts, LeadsAlike, StepRow, RowBy, FilledBelow, RowsCompared};

use nodeset::NodeSet;
use pattern::types::Comparison;
use relations::fill::fill;
use relations::kinds::PathKind;
use relations::model::{successors, union_within, with_name};
use relations::values::some_pair;

// A set that has all nodes of the n rows from `first` on: of a step, whose rows are unions, no more than
// those, and of the others every node.
fn reach(rows: &[u8], n: u8, kind: Option<PathKind>, first: usize) -> NodeSet
    requires { (n ≤ width) × RowsFit rows.now n first }
    ensures { Covers rows.now n first result }
{
    let every = NodeSet::below(NodeSet::WIDTH);
    if matches!(kind, Some(PathKind::Step)) {
        return union_within(rows, first, NodeSet::below(n), every);
    }
    every
}

// Whether node u has the successors on an axis of the node before it.
fn leads_alike(table: &[u8], axis: u8, u: u8) -> bool
    requires model_rows_in_bounds { table_bytes model_rows ≤ length table.now }
    requires axis_le_max_axis { (axis ≤ max_axis) × (u < width) }
    ensures { result ≡ true → LeadsAlike table.now axis u }
{
    if u == 0 {
        return false;
    }
    successors(table, axis, u) == successors(table, axis, u - 1)
}

// The row of node u for a step: that of the node before it, if it has the successors of that node, else
// the union of the rows of its successors.
fn step_row(
    table: &[u8],
    rows: &[u8],
    axis: u8,
    second: usize,
    all: NodeSet,
    at: usize,
    u: u8,
) -> NodeSet
    requires model_rows_in_bounds { (table_bytes model_rows ≤ length table.now) × (axis ≤ max_axis) × (u < width) }
    requires within { Within rows.now second (set_at table.now (successors_row axis u)) all }
    requires filled_below { FilledBelow (StepRow table.now rows.now axis second) rows.now at u }
    ensures { HasExactly (StepRow table.now rows.now axis second u) result }
{
    if leads_alike(table, axis, u) {
        return NodeSet::load(rows, at + ((u - 1) as usize));
    }
    union_within(rows, second, successors(table, axis, u), all)
}

// The row of node u, by the clause of the path's kind: x is its first field, `held` where its test
// holds, and the rows of the paths that it goes on by begin at `first` and at `second`. From `at` on
// stand the rows of the nodes before u.
fn clause_row(
    table: &[u8],
    rows: &[u8],
    kind: Option<PathKind>,
    x: u8,
    held: NodeSet,
    first: usize,
    second: usize,
    all: NodeSet,
    at: usize,
    n: u8,
    u: u8,
) -> NodeSet
    requires parts { Parts table.now rows.now n kind x first second }
    requires covers { Covers rows.now n second all }
    requires u_lt_n { u < n }
    requires filled_below { FilledBelow (RowBy kind table.now rows.now x held first second) rows.now at u }
    ensures { HasExactly (RowBy kind table.now rows.now x held first second u) result }
{
    match kind {
        Some(PathKind::Step) => step_row(table, rows, x, second, all, at, u),
        Some(PathKind::Jump) => union_within(rows, second, with_name(table, x), all),
        Some(PathKind::Test) => {
            if held.has(u) {
                return NodeSet::load(rows, second + (u as usize));
            }
            NodeSet::empty()
        }
        Some(PathKind::Fork) => {
            let s = NodeSet::load(rows, first + (u as usize));
            s.union(NodeSet::load(rows, second + (u as usize)))
        }
        None => NodeSet::empty(),
    }
}

// The n rows of a path, from row `at` on.
pub fn fill_rows(
    table: &[u8],
    rows: &mut [u8],
    n: u8,
    kind: Option<PathKind>,
    x: u8,
    held: NodeSet,
    first: usize,
    second: usize,
    at: usize,
)
    requires parts { Parts table.now rows.old n kind x first second }
    requires rows_fit { RowsFit rows.old n at }
    requires apart { Apart n first at × Apart n second at }
    ensures { Filled (λ u. at + u) (RowBy kind table.now rows.old x held first second) n rows.old rows.new }
{
    let all = reach(rows, n, kind, second);
    fill(
        rows,
        at,
        n,
        |rows, u| clause_row(table, rows, kind, x, held, first, second, all, at, n, u),
    );
}

// The n rows of the end of path, which leads from each node to itself.
pub fn fill_end(rows: &mut [u8], n: u8)
    requires { (n ≤ width) × RowsFit rows.old n 0 }
    ensures { Filled (λ u. u) (λ u v. v ≡ u) n rows.old rows.new }
{
    fill(rows, 0, n, |_, u| NodeSet::only(u));
}

// The nodes below n from which some end of the one path and some end of the other compare so on a
// channel, by the rows of the two paths.
pub fn compare_rows(
    alike: &[u8],
    rows: &[u8],
    n: u8,
    channel: u8,
    c: Comparison,
    first: usize,
    second: usize,
) -> NodeSet
    requires alike_rows_in_bounds { (table_bytes alike_rows ≤ length alike.now) × (channel ≤ max_channel) × (n ≤ width) }
    requires rows_fit { RowsFit rows.now n first × RowsFit rows.now n second }
    ensures { RowsCompared alike.now rows.now n channel c first second result }
{
    NodeSet::filter_below(n, |u| {
        let here = NodeSet::load(rows, first + (u as usize));
        let there = NodeSet::load(rows, second + (u as usize));
        some_pair(alike, channel, c, here, there)
    })
}
