// Placing an entry, four bytes, among those that stand.
ghost use Rattle.std.specs.Prelude.{◌≡◌, ◌<◌, length};
ghost use Rattle.typed_file.specs.Entries.{same_entry, find_from};
ghost use Rattle.text_entries.specs.Placing.{entry_in, entries_from, number_found, stored_if, found_as, within_room};

use crate::{ENTRIES, ENTRY_BYTES, TooMany};

// Whether entry i is this one.
fn is_entry(entries: &[u8; ENTRY_BYTES], i: u8, entry: [u8; 4]) -> bool
    requires { i < 255 }
    ensures { result ≡ same_entry (entry_in entries.now i) (entry_in entry 0) }
{
    let at = 4 * i as usize;
    entries[at..at + 4] == entry[..]
}

// The number of the first of n entries that is this one.
fn find(entries: &[u8; ENTRY_BYTES], n: u8, entry: [u8; 4]) -> Option<u8>
    ensures { found_as result ≡ find_from (entries_from n 0 entries.now) (entry_in entry 0) 0 }
{
    for i in 0..n {
        if is_entry(entries, i, entry) {
            return Some(i);
        }
    }
    None
}

// The number of the entry, which is stored behind the n entries if none of them is equal and there is room
// for it.
pub fn place(entries: &mut [u8; ENTRY_BYTES], n: u8, entry: [u8; 4]) -> Result<u8, TooMany>
    requires { length entries.old ≡ 1020 }
    ensures number { result ≡ within_room (number_found (find_from (entries_from n 0 entries.old) (entry_in entry 0) 0) n) }
    ensures entries { entries.new ≡ stored_if (find_from (entries_from n 0 entries.old) (entry_in entry 0) 0) n entry entries.old }
{
    match find(entries, n, entry) {
        Some(number) => Ok(number),
        None if n < ENTRIES => {
            wire::copy_at(entries, 4 * n as usize, &entry);
            Ok(n)
        }
        None => Err(TooMany),
    }
}
