// Reading a pattern: document 01's refusals 1 to 8, in its order. Any bytes whatever give the number of
// entries, or the first refusal that applies: each check answers that it passed or the refusal.
#![tactic(auto)]

ghost use Rattle.std.specs.Prelude.{◌≡◌, ◌+◌, ◌*◌, length};
ghost use Rattle.pattern.specs.Checks.Range.{each_below};
ghost use Rattle.pattern.specs.File.Entries.{HasEntry};
ghost use Rattle.pattern.specs.File.Reading.{header_check, entry_check, reading_of, finding_of};
ghost use Rattle.pattern_read.specs.Enums.{check_of};
ghost use Rattle.repeats.specs.Seen.{Seen};

use fields::{all_in_range, all_refer_back};
use pattern::entry::{Entry, sort_at};
use pattern::finding::PatternRefusal;
use pattern::table::Sort;
use repeats::{SLOTS, mark, repeats_seen};

// Refusals 1 to 3.
#[tactic(auto, unfolding(pattern::specs::File::Reading::header_check))]
fn check_header(p: &[u8]) -> Result<(), PatternRefusal>
    ensures { check_of result ≡ header_check p.now }
{
    if p.len() < 6 {
        return Err(PatternRefusal::Mark);
    }
    if !wire::begins(p, b"PAT") {
        return Err(PatternRefusal::Mark);
    }
    if wire::word(p, 3) != 1 {
        return Err(PatternRefusal::Version);
    }
    let n = p[5];
    if n == 0 {
        return Err(PatternRefusal::Count);
    }
    if p.len() != 6 + 4 * (n as usize) {
        return Err(PatternRefusal::Count);
    }
    Ok(())
}

// Refusals 4 to 7 of entry k, where the slots of the earlier ones are marked.
#[tactic(auto, unfolding(pattern::specs::File::Reading::entry_check))]
fn check_entry(p: &[u8], k: u8, seen: &[u8; SLOTS]) -> Result<(), PatternRefusal>
    requires has_entry { HasEntry p.now k }
    requires seen { Seen p.now k seen.now }
    ensures { check_of result ≡ entry_check p.now k }
{
    let e = Entry::at(p, k);
    if e.kind.sort() == Sort::Neither {
        return Err(PatternRefusal::Kind(k));
    }
    if !all_in_range(e) {
        return Err(PatternRefusal::Field(k));
    }
    if !all_refer_back(p, k, e) {
        return Err(PatternRefusal::Reference(k));
    }
    if repeats_seen(p, k, seen) {
        return Err(PatternRefusal::Repeat(k));
    }
    Ok(())
}

// Refusals 4 to 7 of the entries below n, in their order.
fn check_entries(p: &[u8], n: u8) -> Result<(), PatternRefusal>
    requires { length p.now ≡ 6 + 4 * n }
    ensures { check_of result ≡ each_below n (entry_check p.now) }
{
    // Fixed memory, on the stack: the unit has no heap.
    let mut seen = [0u8; SLOTS];
    for k in 0..n {
        check_entry(p, k, &seen)?;
        mark(p, k, &mut seen);
    }
    Ok(())
}

// Reads a pattern: any bytes of any length give the number of entries or the first refusal.
pub fn read(p: &[u8]) -> Result<u8, PatternRefusal>
    ensures { finding_of result ≡ reading_of p.now }
{
    check_header(p)?;
    let n = p[5];
    check_entries(p, n)?;
    let root = n - 1;
    if sort_at(p, root).is_path() {
        return Err(PatternRefusal::RootPath(root));
    }
    Ok(n)
}
