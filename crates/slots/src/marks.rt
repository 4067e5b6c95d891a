// What was learned, and where the rows of a slot stand. The rows of the end of path are in slot 0, which no
// other path is given.
ghost use Rattle.std.specs.Prelude.{◌≡◌, ◌+◌, ◌*◌, ◌≤◌, ◌<◌};
ghost use Rattle.nodeset.specs.Set.{width};
ghost use Rattle.nodeset.specs.Stored.{table_bytes};
ghost use Rattle.pattern.specs.File.Table.{end_of_path};
ghost use Rattle.pattern.specs.File.Entries.{HasEntry, entry_at};
ghost use Rattle.pattern.specs.File.Fields.{each_field};
ghost use Rattle.slots.specs.Marks.{mark_of, tag_of, tag_for, unmarked, marked, tagged, is_known, set_place, is_held, field_held, first_row, row_of_path};

use nodeset::NodeSet;
use pattern::entry::Entry;
use pattern::table::{END, Field};

// As many marks as references, and as many tags.
pub const REFERENCES: usize = END as usize + 1;

#[derive(Drop)]
pub struct Marks {
    // Of each entry its mark, and of the end of path. That of a node entry is 0 until its set is in the area,
    // and then one more than the place of the set; that of a path is the slot that it was given last. An Option
    // is no plainer: a path has a slot always, and its tag says whether it is its own.
    pub marks: [u8; REFERENCES],
    // Of each slot whose rows it has: END less the number of the path, so that at first every slot has the tag
    // of the end of path.
    pub tags: [u8; REFERENCES],
}

impl Marks {
    // Nothing was learned.
    pub fn new() -> Marks
        ensures { result ≡ unmarked (end_of_path + 1) }
    {
        Marks {
            marks: [0; REFERENCES],
            tags: [0; REFERENCES],
        }
    }

    // Whether the set of node entry k is in the area.
    pub fn is_known(&self, k: u8) -> bool
        ensures { result ≡ is_known self.now k }
    {
        self.marks[k as usize] != 0
    }

    // Where in the area the set of a marked node entry k is.
    pub fn set_place(&self, k: u8) -> u8
        requires { 0 < mark_of self.now k }
        ensures { result ≡ set_place self.now k }
    {
        self.marks[k as usize] - 1
    }

    // The set of node entry k is at this place.
    pub fn know(&mut self, k: u8, place: u8)
        requires { place < end_of_path }
        ensures { self.new ≡ marked self.old k (place + 1) }
    {
        self.marks[k as usize] = place + 1;
    }

    // The path whose rows a slot has.
    pub(crate) fn path_in(&self, slot: u8) -> u8
        ensures { result ≡ tag_for (tag_of self.now slot) }
    {
        END - self.tags[slot as usize]
    }

    // Whether the slot that a path was given has its rows.
    pub fn is_held(&self, path: u8) -> bool
        ensures { result ≡ is_held self.now path }
    {
        let slot = self.marks[path as usize];
        self.tags[slot as usize] == END - path
    }

    // A slot is given to a path.
    pub fn give(&mut self, path: u8, slot: u8)
        ensures { self.new ≡ marked self.old path slot }
    {
        self.marks[path as usize] = slot;
    }

    // A slot has the rows of a path.
    pub fn tag(&mut self, slot: u8, path: u8)
        ensures { self.new ≡ tagged self.old slot path }
    {
        self.tags[slot as usize] = END - path;
    }

    // Whether a field that refers to a path refers to one that has its rows.
    fn field_held(&self, field: Field, value: u8) -> bool
        ensures { result ≡ field_held self.now field value }
    {
        !matches!(field, Field::Path) || self.is_held(value)
    }

    // Whether all paths that entry k refers to have their rows.
    pub fn paths_held(&self, p: &[u8], k: u8) -> bool
        requires { HasEntry p.now k }
        ensures { result ≡ each_field (field_held self.now) (entry_at p.now k) }
    {
        let e = Entry::at(p, k);
        let form = e.kind.form();
        let first = self.field_held(form.x, e.x) & self.field_held(form.y, e.y);
        first & self.field_held(form.z, e.z)
    }

    // The first row of the slot that a path was given last.
    pub fn row_of_path(&self, n: u8, path: u8) -> usize
        ensures { result ≡ row_of_path self.now n path }
    {
        first_row(n, self.marks[path as usize])
    }
}

// The first row of a slot of n rows.
pub fn first_row(n: u8, slot: u8) -> usize
    ensures { result ≡ first_row n slot }
{
    (n as usize) * (slot as usize)
}

// How many slots of n rows there is room for, at most one for each tag.
pub fn slot_count(bytes: usize, n: u8) -> u8
    requires { (0 < n) × (n ≤ width) × (table_bytes (2 * n) ≤ bytes) }
    ensures { (2 ≤ result) × (table_bytes (first_row n result) ≤ bytes) }
{
    let slots = bytes / (NodeSet::BYTES * (n as usize));
    slots.min(255) as u8
}
