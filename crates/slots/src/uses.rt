// What the root reaches, and until when: which entries are worth learning, and which slot may go. It is
// a matter of speed alone, whatever the answers.
ghost use Rattle.std.specs.Prelude.{◌≡◌, ◌⊎◌, ◌≤◌, ◌<◌};
ghost use Rattle.pattern.specs.Checks.Finding.{found};
ghost use Rattle.pattern.specs.File.Entries.{HasEntry};
ghost use Rattle.pattern.specs.File.Reading.{count_of, reading_of};

use crate::marks::Marks;
use pattern::entry::{Entry, sort_at};
use pattern::table::{END, Field};

// For each reference an entry that the root reaches and that has it; 0 where there is none. No Option, by fixed
// memory: it takes two bytes, and the stack of a judgement has three of these arrays.
pub const USES_BYTES: usize = END as usize + 1;

// Whether a field refers to an entry.
fn is_reference(field: Field) -> bool {
    matches!(field, Field::Node | Field::Path)
}

// Whether no use is noted.
fn is_none(noted: u8) -> bool {
    noted == 0
}

// Entry j has a field that holds this: it is noted as a use, if the use that is noted is replaced. Entries are
// met from the last down, so that the last use stays where only none is replaced, and the next where each is.
// Here and in `marks`, `&` in place of `&&` takes one branch for two cheap tests.
fn refer<F: Fn(u8) -> bool>(
    uses: &mut [u8; USES_BYTES],
    replaced: &F,
    field: Field,
    value: u8,
    j: u8,
)
    requires { F.IsAlwaysCallable replaced.now }
{
    if is_reference(field) & replaced(uses[value as usize]) {
        uses[value as usize] = j;
    }
}

// Entry j, which the root reaches, uses its parts.
fn refer_to_parts<F: Fn(u8) -> bool>(p: &[u8], uses: &mut [u8; USES_BYTES], replaced: &F, j: u8)
    requires entry { HasEntry p.now j }
    requires callable { F.IsAlwaysCallable replaced.now }
{
    let e = Entry::at(p, j);
    let form = e.kind.form();
    refer(uses, replaced, form.x, e.x, j);
    refer(uses, replaced, form.y, e.y, j);
    refer(uses, replaced, form.z, e.z, j);
}

// The last uses of all entries. The root counts as used to the end, and the end of path, of which every
// slot without rows has the tag, as not used.
pub fn last_uses(p: &[u8], last: &mut [u8; USES_BYTES])
    requires { reading_of p.now ≡ found (count_of p.now) }
{
    let count = p[5];
    last[(count - 1) as usize] = END;
    for j in (0..count).rev() {
        if last[j as usize] != 0 {
            refer_to_parts(p, last, &is_none, j);
        }
    }
    last[END as usize] = 0;
}

// The next uses from entry k on.
fn next_uses(p: &[u8], last: &[u8; USES_BYTES], k: u8, next: &mut [u8; USES_BYTES])
    requires { reading_of p.now ≡ found (count_of p.now) }
{
    for j in (k..p[5]).rev() {
        if last[j as usize] != 0 {
            refer_to_parts(p, next, &|_| true, j);
        }
    }
}

// How many path entries the root reaches.
pub fn path_count(p: &[u8], last: &[u8; USES_BYTES]) -> u8
    requires { reading_of p.now ≡ found (count_of p.now) }
{
    let mut found = 0;
    for k in 0..p[5] {
        found += u8::from((last[k as usize] != 0) & sort_at(p, k).is_path());
    }
    found
}

// The one of two slots whose path is used later.
fn later_slot(marks: &Marks, next: &[u8; USES_BYTES], s: u8, t: u8) -> u8
    ensures { (result ≡ s) ⊎ (result ≡ t) }
{
    let first = marks.path_in(s);
    let second = marks.path_in(t);
    if next[first as usize] < next[second as usize] {
        return t;
    }
    s
}

// The slot whose path is used again last of all, not that of the end of path.
fn latest_slot(marks: &Marks, next: &[u8; USES_BYTES], slots: u8) -> u8
    requires { 2 ≤ slots }
    ensures { (0 < result) × (result < slots) }
{
    let mut latest = 1;
    for slot in 2..slots {
        latest = later_slot(marks, next, latest, slot);
    }
    latest
}

// The slot that is taken from its path for entry k where all are in use.
fn taken_slot(p: &[u8], marks: &Marks, last: &[u8; USES_BYTES], slots: u8, k: u8) -> u8
    requires p_value { reading_of p.now ≡ found (count_of p.now) }
    requires le_slots { 2 ≤ slots }
    ensures { (0 < result) × (result < slots) }
{
    let mut next = [0u8; USES_BYTES];
    next_uses(p, last, k, &mut next);
    latest_slot(marks, &next, slots)
}

// Whether entry j is a path without rows.
fn is_lost(p: &[u8], marks: &Marks, j: u8) -> bool
    requires { HasEntry p.now j }
{
    sort_at(p, j).is_path() & !marks.is_held(j)
}

// The paths that entry k needs, those that it refers to and those that paths without rows among them go on
// by: the last use of each up to k.
fn needed_uses(p: &[u8], marks: &Marks, k: u8, uses: &mut [u8; USES_BYTES])
    requires p_value { reading_of p.now ≡ found (count_of p.now) }
    requires k_bound { k < count_of p.now }
{
    refer_to_parts(p, uses, &is_none, k);
    for j in (0..k).rev() {
        if is_lost(p, marks, j) & (uses[j as usize] != 0) {
            refer_to_parts(p, uses, &is_none, j);
        }
    }
}

// What is used behind entry k counts as used to the end.
fn keep_later(last: &[u8; USES_BYTES], k: u8, uses: &mut [u8; USES_BYTES]) {
    for r in 0..END {
        if k < last[r as usize] {
            uses[r as usize] = END;
        }
    }
}

// Until when each path is used while those that entry k needs are learned again: those to the last that
// needs them, and what is used behind k to the end.
pub fn uses_again(
    p: &[u8],
    marks: &Marks,
    last: &[u8; USES_BYTES],
    k: u8,
    uses: &mut [u8; USES_BYTES],
)
    requires p_value { reading_of p.now ≡ found (count_of p.now) }
    requires k_bound { k < count_of p.now }
{
    needed_uses(p, marks, k, uses);
    keep_later(last, k, uses);
    uses[END as usize] = 0;
}

// A slot for path entry j, which is learned for entry k, not that of the end of path: the first whose path
// isn't used from j on, else the one whose path is used from k on last.
pub fn free_slot(
    p: &[u8],
    marks: &Marks,
    last: &[u8; USES_BYTES],
    uses: &[u8; USES_BYTES],
    slots: u8,
    k: u8,
    j: u8,
) -> u8
    requires p_value { reading_of p.now ≡ found (count_of p.now) }
    requires le_slots { 2 ≤ slots }
    ensures { (0 < result) × (result < slots) }
{
    // 0 says that there is no use, for entry 0 too.
    let least = j.max(1);
    for slot in 1..slots {
        let path = marks.path_in(slot);
        if uses[path as usize] < least {
            return slot;
        }
    }
    taken_slot(p, marks, last, slots, k)
}
