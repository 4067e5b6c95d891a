// Whether an entry is equal to an earlier one, for refusal 7. Each entry has a slot, equal ones the same,
// and the slots of the entries that passed are marked. An entry whose slot is unmarked is compared with
// none; otherwise it is compared with every earlier one, so that even a pattern whose entries were made
// to share slots takes hardly more time than without slots.
#![tactic(auto)]

ghost use Rattle.std.specs.Prelude.{◌≡◌, set};
ghost use Rattle.wire.specs.Fields.{word32_at};
ghost use Rattle.pattern.specs.File.Entries.{offset, HasEntry, same_bytes};
ghost use Rattle.pattern.specs.File.Reading.{repeats_at};
ghost use Rattle.repeats.specs.Seen.{slot_of, slot_at, Seen};

// How many slots there are: many more than entries, so that entries that differ seldom share one. A slot
// is a byte and not a bool: any byte but 0 is a mark, and a bool would ask more of callers.
pub const SLOTS: usize = 2048;

// The four bytes of entry k as one number.
fn entry_word(p: &[u8], k: u8) -> u32
    requires { HasEntry p.now k }
    ensures { result ≡ word32_at p.now (offset k) }
{
    wire::word32(p, 6 + 4 * (k as usize))
}

// Whether entries j and k have the same four bytes: compared as they lie in the file, since an `Entry` of each
// would be made first.
#[tactic(auto, using(crate::specs::Words::word_same))]
fn same_entry(p: &[u8], j: u8, k: u8) -> bool
    requires has_entry { HasEntry p.now j }
    requires has_entry_2 { HasEntry p.now k }
    ensures { result ≡ same_bytes p.now j k }
{
    entry_word(p, j) == entry_word(p, k)
}

// Whether entry k is equal to an earlier one. Every earlier one is compared, without a way out of the
// loop, so that the compiler can compare many at once.
#[tactic(auto, unfolding(pattern::specs::Checks::Range::some_below))]
fn repeats(p: &[u8], k: u8) -> bool
    requires { HasEntry p.now k }
    ensures { result ≡ repeats_at p.now k }
{
    let mut repeated = false;
    for j in 0..k {
        repeated |= same_entry(p, j, k);
    }
    repeated
}

// The slot of an entry whose four bytes are w, by multiplicative hashing: bits 21 to 31 of the product
// with a prime near 2 ^ 32 over the golden ratio, so that entries that are alike get slots far apart.
#[tactic(auto, unfolding(crate::specs::Seen::slot_of))]
fn slot_of(w: u32) -> usize
    ensures { result ≡ slot_of w }
{
    ((w as u64) * 2654435761 / 2097152 % (SLOTS as u64)) as usize
}

// The slot of entry k.
fn slot_at(p: &[u8], k: u8) -> usize
    requires { HasEntry p.now k }
    ensures { result ≡ slot_at p.now k }
{
    slot_of(entry_word(p, k))
}

// Whether entry k is equal to an earlier one, where the slots of the earlier ones are marked.
#[tactic(auto, using(crate::specs::Slots::slot_below, crate::specs::Slots::unseen))]
pub fn repeats_seen(p: &[u8], k: u8, seen: &[u8; SLOTS]) -> bool
    requires has_entry { HasEntry p.now k }
    requires seen { Seen p.now k seen.now }
    ensures { result ≡ repeats_at p.now k }
{
    seen[slot_at(p, k)] != 0 && repeats(p, k)
}

// Marks the slot of entry k.
#[tactic(auto, using(crate::specs::Slots::slot_below))]
pub fn mark(p: &[u8], k: u8, seen: &mut [u8; SLOTS])
    requires { HasEntry p.now k }
    ensures { seen.new ≡ set seen.old (slot_at p.now k) 1 }
{
    seen[slot_at(p, k)] = 1;
}
