// One entry of a pattern file: four bytes, its kind and its fields x, y and z.
ghost use Rattle.std.specs.Prelude.{◌≡◌};
ghost use Rattle.pattern.specs.File.Entries.{HasEntry, entry_at};
ghost use Rattle.pattern.specs.File.Reading.{sort_at};

use crate::table::{Kind, Sort};

#[derive(Clone, Copy, PartialEq, Eq)]
pub struct Entry {
    pub kind: Kind,
    pub x: u8,
    pub y: u8,
    pub z: u8,
}

impl Entry {
    // Entry k of the file.
    pub fn at(p: &[u8], k: u8) -> Entry
        requires { HasEntry p.now k }
        ensures { result ≡ entry_at p.now k }
    {
        let at = 6 + 4 * (k as usize);
        Entry {
            kind: Kind::from(p[at]),
            x: p[at + 1],
            y: p[at + 2],
            z: p[at + 3],
        }
    }
}

// The sort of entry k.
pub fn sort_at(p: &[u8], k: u8) -> Sort
    requires { HasEntry p.now k }
    ensures { result ≡ sort_at p.now k }
{
    Entry::at(p, k).kind.sort()
}
