// Learning an entry: of a node entry its set, of a path its rows. The rows of a path take a slot, which
// loses the path that it had.
ghost use Rattle.std.specs.Prelude.{◌≡◌, ◌<◌};
ghost use Rattle.pattern.specs.declared.table.Sort.{Sort};
ghost use Rattle.pattern.specs.File.Reading.{count_of, sort_at};
ghost use Rattle.relations.specs.Covered.{RowsFit};
ghost use Rattle.slots.specs.Area.{place_of};
ghost use Rattle.slots.specs.Marks.{first_row, IsFree, MayHold};
ghost use Rattle.evaluation.specs.Judged.{Knows};
ghost use Rattle.learning.specs.Rows.{other_path, TestNode};
ghost use Rattle.learning.specs.Learns.{Remembers, FindsTest, Fills, Learns, Ready};

use evaluation::{Judged, Known};
use nodeset::NodeSet;
use path_rows::fill_rows;
use pattern::entry::{Entry, sort_at};
use pattern::table::END;
use relations::kinds::{PathKind, path_kind};
use slots::marks::{Marks, first_row};
use slots::uses::{USES_BYTES, free_slot, uses_again};

// What learning writes: the sets in the area, the rows, and the marks.
#[derive(Drop)]
pub struct Memory<'a> {
    pub area: &'a mut [u8],
    pub rows: &'a mut [u8],
    pub marks: Marks,
}

impl Memory<'_> {
    // What evaluation reads of it.
    pub fn known(&self) -> Known<'_>
        ensures area { result.area.now ≡ self.now.area.now }
        ensures rows { result.rows.now ≡ self.now.rows.now }
        ensures marks { result.marks.now ≡ self.now.marks }
    {
        Known {
            area: self.area,
            rows: self.rows,
            marks: &self.marks,
        }
    }
}

// What is learned for, until when each entry is used, and how many slots the rows have.
#[derive(Clone, Copy)]
pub struct Plan<'a> {
    pub q: &'a Judged<'a>,
    pub last: &'a [u8; USES_BYTES],
    pub slots: u8,
}

// Where the test of a path holds, if it has one.
fn test_nodes(q: &Judged, known: &Known, kind: Option<PathKind>, x: u8) -> NodeSet
    requires learned { Knows q.now known.now }
    requires test_node { TestNode q.now.p.now kind x }
    ensures { FindsTest q.now kind x result }
{
    if matches!(kind, Some(PathKind::Test)) {
        return q.evaluate(known, x);
    }
    NodeSet::empty()
}

// A fork goes on by the paths x and y, the other kinds by y alone: x, or y again.
fn other_path(kind: Option<PathKind>, x: u8, y: u8) -> u8
    ensures { result ≡ other_path kind x y }
{
    if matches!(kind, Some(PathKind::Fork)) {
        return x;
    }
    y
}

// Fills a slot that no path has with the rows of path entry k, if the paths that it goes on by have
// theirs.
fn fill(q: &Judged, memory: &mut Memory, k: u8, slot: u8) -> bool
    requires learned { Remembers q.now memory.old }
    requires k_bound { (k < count_of q.now.p.now) × (sort_at q.now.p.now k ≡ Sort.Path) }
    requires rows_fit { RowsFit memory.old.rows.now q.now.n (first_row q.now.n slot) × IsFree q.now.p.now memory.old.marks slot }
    ensures { Fills q.now k slot memory.old memory.new result }
{
    if !memory.marks.paths_held(q.p, k) {
        return false;
    }
    let e = Entry::at(q.p, k);
    let path = path_kind(e);
    let held = test_nodes(q, &memory.known(), path, e.x);
    let first = memory.marks.row_of_path(q.n, other_path(path, e.x, e.y));
    let second = memory.marks.row_of_path(q.n, e.y);
    let at = first_row(q.n, slot);
    fill_rows(
        q.table,
        memory.rows,
        q.n,
        path,
        e.x,
        held,
        first,
        second,
        at,
    );
    true
}

// Path entry k gets its rows in a slot; no path has the slot meanwhile.
fn learn_path(q: &Judged, memory: &mut Memory, k: u8, slot: u8)
    requires learned { Remembers q.now memory.old }
    requires k_bound { (k < count_of q.now.p.now) × (sort_at q.now.p.now k ≡ Sort.Path) }
    requires rows_fit { RowsFit memory.old.rows.now q.now.n (first_row q.now.n slot) × MayHold slot }
    ensures { Learns q.now memory.old memory.new }
{
    memory.marks.tag(slot, END);
    if fill(q, memory, k, slot) {
        memory.marks.give(k, slot);
        memory.marks.tag(slot, k);
    }
}

// Node entry k gets its set at its place in the area.
fn learn_node(q: &Judged, memory: &mut Memory, k: u8, place: u8)
    requires learned { Remembers q.now memory.old }
    requires k_bound { (k < count_of q.now.p.now) × (sort_at q.now.p.now k ≡ Sort.Node) × (place ≡ place_of q.now.p.now k) }
    ensures { Learns q.now memory.old memory.new }
{
    let s = q.evaluate(&memory.known(), k);
    s.store(memory.area, place as usize);
    memory.marks.know(k, place);
}

impl Plan<'_> {
    // Path entry j gets a slot and its rows for entry k, by these uses. It is passed over where a path that it
    // goes on by has no rows, so that no other loses a slot for it.
    fn learn_in_slot(&self, memory: &mut Memory, uses: &[u8; USES_BYTES], k: u8, j: u8)
        requires ready { Ready self.now memory.old }
        requires j_bound { (j < count_of self.now.q.now.p.now) × (sort_at self.now.q.now.p.now j ≡ Sort.Path) }
        ensures { Ready self.now memory.new }
    {
        let q = self.q;
        if !memory.marks.paths_held(q.p, j) {
            return;
        }
        let slot = free_slot(q.p, &memory.marks, self.last, uses, self.slots, k, j);
        learn_path(q, memory, j, slot);
    }

    // The same of entry j if it is a path without rows that is needed, or used behind k.
    fn learn_again(&self, memory: &mut Memory, uses: &[u8; USES_BYTES], k: u8, j: u8)
        requires ready { Ready self.now memory.old }
        requires j_bound { j < count_of self.now.q.now.p.now }
        ensures { Ready self.now memory.new }
    {
        if sort_at(self.q.p, j).is_node() || memory.marks.is_held(j) || uses[j as usize] == 0 {
            return;
        }
        self.learn_in_slot(memory, uses, k, j);
    }

    // The paths below entry k without rows that it needs, or that are used behind it, get their rows again, in
    // the order of the entries.
    fn learn_needed(&self, memory: &mut Memory, k: u8)
        requires ready { Ready self.now memory.old }
        requires k_bound { k < count_of self.now.q.now.p.now }
        ensures { Ready self.now memory.new }
    {
        let mut uses = [0u8; USES_BYTES];
        uses_again(self.q.p, &memory.marks, self.last, k, &mut uses);
        for j in 0..k {
            self.learn_again(memory, &uses, k, j);
        }
    }

    // The same where a path that entry k refers to has lost its rows.
    fn bring_back(&self, memory: &mut Memory, k: u8)
        requires ready { Ready self.now memory.old }
        requires k_bound { k < count_of self.now.q.now.p.now }
        ensures { Ready self.now memory.new }
    {
        if memory.marks.paths_held(self.q.p, k) {
            return;
        }
        self.learn_needed(memory, k);
    }

    // Entry k gets its set at this place in the area, or its rows in a slot; the paths that it needs get theirs
    // back first.
    fn learn(&self, memory: &mut Memory, k: u8, place: u8)
        requires ready { Ready self.now memory.old }
        requires k_bound { (k < count_of self.now.q.now.p.now) × (place ≡ place_of self.now.q.now.p.now k) }
        ensures { Ready self.now memory.new }
    {
        self.bring_back(memory, k);
        if sort_at(self.q.p, k).is_node() {
            learn_node(self.q, memory, k, place);
            return;
        }
        self.learn_in_slot(memory, self.last, k, k);
    }

    // The entries that the root reaches, in their order; the place of each set is the number of node entries
    // before it.
    pub fn learn_all(&self, memory: &mut Memory)
        requires { Ready self.now memory.old }
        ensures { Ready self.now memory.new }
    {
        let p = self.q.p;
        let mut place = 0;
        for k in 0..p[5] {
            if self.last[k as usize] != 0 {
                self.learn(memory, k, place);
            }
            place += u8::from(sort_at(p, k).is_node());
        }
    }
}
