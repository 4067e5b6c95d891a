// Node evaluation and path ends, which are defined by each other: a comparison asks where paths
// lead, and a path asks at its tests where a node entry holds. The entry number falls at each
// reference.
//
// What was learned is loaded, and the rest is computed: the set of a node entry is in the area, and the
// ends of a path are in the rows, where the marks say so. Which entries are learned, and in which slot,
// is a matter of speed alone.
ghost use Rattle.std.specs.Prelude.{◌≡◌, ◌+◌, ◌≤◌, ◌<◌, length};
ghost use Rattle.nodeset.specs.Stored.{table_bytes};
ghost use Rattle.pattern.specs.declared.table.Sort.{Sort};
ghost use Rattle.pattern.specs.File.Entries.{entry_at};
ghost use Rattle.pattern.specs.File.Reading.{count_of, sort_at};
ghost use Rattle.relations.specs.Kinds.{comparison_kind};
ghost use Rattle.evaluation.specs.Standing.{pending_bytes};
ghost use Rattle.evaluation.specs.Judged.{FindsNodes, FindsEnds, Sweeps, Knows};
ghost use Rattle.slots.specs.Marks.{PathOf};
ghost use Rattle.evaluation.specs.Sweep.{add_to, entries_swept};

use crate::judged::{Judged, Known};
use nodeset::NodeSet;
use path_rows::compare_rows;
use pattern::entry::Entry;
use pattern::table::END;
use pattern::types::Comparison;
use relations::kinds::{NodeKind, PathKind, node_kind, path_kind};
use relations::model::{all_nodes, before, image, with_name, with_property};
use relations::values::some_pair;

// The bytes of the pending sets of a sweep: one for each reference, the end of path the last.
const PENDING_BYTES: usize = NodeSet::BYTES * (ENDS + 1);

const ENDS: usize = END as usize;

impl Judged<'_> {
    // The set of the nodes at which node entry k holds.
    #[cycle(evaluation)]
    pub fn evaluate(&self, known: &Known, k: u8) -> NodeSet
        requires learned { Knows self.now known.now }
        requires k_bound { (k < count_of self.now.p.now) × (sort_at self.now.p.now k ≡ Sort.Node) }
        ensures { FindsNodes self.now k result }
    {
        if known.marks.is_known(k) {
            return NodeSet::load(known.area, known.marks.set_place(k) as usize);
        }
        self.compute(known, k)
    }

    // The same from the sets and the ends of the entries that it refers to.
    #[cycle(evaluation)]
    fn compute(&self, known: &Known, k: u8) -> NodeSet
        requires learned { Knows self.now known.now }
        requires k_bound { (k < count_of self.now.p.now) × (sort_at self.now.p.now k ≡ Sort.Node) }
        ensures { FindsNodes self.now k result }
    {
        let e = Entry::at(self.p, k);
        let Some(kind) = node_kind(e) else {
            return NodeSet::empty();
        };
        match kind {
            NodeKind::Property => with_property(self.table, e.x),
            NodeKind::Name => with_name(self.table, e.x),
            NodeKind::Not => {
                let s = self.evaluate(known, e.x);
                all_nodes(self.table).minus(s)
            }
            NodeKind::Both => {
                let s = self.evaluate(known, e.x);
                s.meet(self.evaluate(known, e.y))
            }
            NodeKind::Either => {
                let s = self.evaluate(known, e.x);
                s.union(self.evaluate(known, e.y))
            }
            NodeKind::After => {
                let s = self.evaluate(known, e.y);
                before(self.table, self.n, e.x, s)
            }
            NodeKind::Compare(c) => self.compare(known, k, c),
        }
    }

    // The set of the nodes at which entry k, a comparison, holds.
    #[cycle(evaluation)]
    fn compare(&self, known: &Known, k: u8, c: Comparison) -> NodeSet
        requires learned { Knows self.now known.now }
        requires k_bound { (k < count_of self.now.p.now) × ((entry_at self.now.p.now k).kind ≡ comparison_kind c) }
        ensures { FindsNodes self.now k result }
    {
        let e = Entry::at(self.p, k);
        if known.marks.is_held(e.y) && known.marks.is_held(e.z) {
            let first = known.marks.row_of_path(self.n, e.y);
            let second = known.marks.row_of_path(self.n, e.z);
            return compare_rows(self.alike, known.rows, self.n, e.x, c, first, second);
        }
        let mut found = NodeSet::empty();
        for u in 0..self.n {
            let s = self.ends(known, e.y, u);
            let t = self.ends(known, e.z, u);
            found = found.insert_if(u, some_pair(self.alike, e.x, c, s, t));
        }
        found
    }

    // The nodes to which a path leads from a node: by its rows, or by one sweep down the entries from its
    // first, with a pending set for each reference. The set of the end of path is the answer then.
    #[cycle(evaluation)]
    fn ends(&self, known: &Known, path: u8, u: u8) -> NodeSet
        requires learned { Knows self.now known.now }
        requires path_of { PathOf self.now.p.now path × (u < self.now.n) }
        ensures { FindsEnds self.now path u result }
    {
        if known.marks.is_held(path) {
            return NodeSet::load(
                known.rows,
                known.marks.row_of_path(self.n, path) + (u as usize),
            );
        }
        let mut pending = [0u8; PENDING_BYTES];
        NodeSet::only(u).store(&mut pending, path as usize);
        for j in (0..entries_swept(path)).rev() {
            self.sweep_entry(known, j, &mut pending);
        }
        NodeSet::load(&pending, ENDS)
    }

    // Entry i of a sweep: what is pending there moves on to the rest of its path.
    #[cycle(evaluation)]
    fn sweep_entry(&self, known: &Known, i: u8, pending: &mut [u8])
        requires learned { Knows self.now known.now }
        requires i_bound { i < count_of self.now.p.now }
        requires pending_bytes_in_bounds { pending_bytes ≤ length pending.old }
        ensures { Sweeps self.now i pending.old pending.new }
    {
        let s = NodeSet::load(pending, i as usize);
        if s.is_empty() {
            return;
        }
        let e = Entry::at(self.p, i);
        let Some(kind) = path_kind(e) else {
            return;
        };
        match kind {
            PathKind::Step => add(pending, e.y, image(self.table, e.x, s)),
            PathKind::Jump => add(pending, e.y, with_name(self.table, e.x)),
            PathKind::Test => {
                let t = self.evaluate(known, e.x);
                add(pending, e.y, s.meet(t));
            }
            PathKind::Fork => {
                add(pending, e.x, s);
                add(pending, e.y, s);
            }
        }
    }
}

// Adds a set to the pending set of a path reference.
fn add(pending: &mut [u8], r: u8, s: NodeSet)
    requires { table_bytes (r + 1) ≤ length pending.old }
    ensures { pending.new ≡ add_to pending.old r s }
{
    let at = r as usize;
    NodeSet::load(pending, at).union(s).store(pending, at);
}

// How many entries a sweep from a path reference goes through: the entry itself and those below it,
// none from the end of path.
fn entries_swept(first: u8) -> u8
    ensures { result ≡ entries_swept first }
{
    if first == END {
        return 0;
    }
    first + 1
}
