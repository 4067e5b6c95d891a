// The entries of a typed pattern in the order of their first completion, from its cells: the parts of a
// cell before it, in the order of its fields, each different entry once.
#![tactic(auto)]

mod placed;

ghost use Rattle.std.specs.Prelude.{◌≡◌, ◌+◌, ◌-◌, ◌*◌, ◌≤◌, ◌<◌, length, get_or, take};
ghost use Rattle.wire.specs.Onto.{onto};
ghost use Rattle.typed_file.specs.Trees.{Tree};
ghost use Rattle.typed_file.specs.Entries.{entries_of, entry_bytes};
ghost use Rattle.text_cells.specs.Cells.{CellIs};
ghost use Rattle.text_entries.specs.Completing.{number_of, fields_of, count_after, counted_as};

use placed::place;
use text_cells::{CELLS, TOKENS};

// The most entries, and their bytes.
const ENTRIES: u8 = 255;

pub const ENTRY_BYTES: usize = 4 * ENTRIES as usize;

// There would be over 255 entries.
#[derive(Clone, Copy, Debug, PartialEq, Eq)]
pub struct TooMany;

// A part of a cell that has no number yet.
#[derive(Clone, Copy, Debug, PartialEq, Eq)]
struct Open(u16);

// A field's number, unless it is a part that has none yet. What is kept of a part is one more than its
// number, since an array of options would take twice the fixed memory.
fn number_of(numbers: &[u8; TOKENS], field: u16) -> Result<u8, Open>
    requires { field < 1280 }
    ensures { result ≡ number_of numbers.now field }
{
    if field < 256 {
        return Ok(field as u8);
    }
    let part = field - 256;
    numbers[part as usize].checked_sub(1).ok_or(Open(part))
}

// The numbers of a cell's fields, in their order; or the first that is a part without a number.
fn fields_of(cells: &[u16; CELLS], numbers: &[u8; TOKENS], cell: u16) -> Result<[u8; 3], Open>
    requires cell_bound { cell < 1024 }
    requires cell_is { (t : Tree) × CellIs cells.now cell t }
    ensures { result ≡ fields_of cells.now numbers.now cell }
{
    let at = 4 * cell as usize;
    let x = number_of(numbers, cells[at + 1])?;
    let y = number_of(numbers, cells[at + 2])?;
    let z = number_of(numbers, cells[at + 3])?;
    Ok([x, y, z])
}

// The kind of a cell.
fn kind_of(cells: &[u16; CELLS], cell: u16) -> u8
    requires cell_bound { cell < 1024 }
    requires cell_bound_2 { get_or cells.now (4 * cell) 0 < 256 }
    ensures { result ≡ get_or cells.now (4 * cell) 0 }
{
    cells[4 * cell as usize] as u8
}

// How many entries there are after one was placed.
fn count_after(n: u8, number: u8) -> u8
    requires { number < 255 }
    ensures { result ≡ count_after n number }
{
    if number == n { n + 1 } else { n }
}

// Completes the root's cell, the last of count, and answers how many entries there are: up to the 255th,
// they stand at the front of the lent bytes.
pub fn complete(
    cells: &[u16; CELLS],
    count: u16,
    entries: &mut [u8; ENTRY_BYTES],
) -> Result<u8, TooMany>
    requires entries_len { length entries.old ≡ 1020 }
    requires le_count { (1 ≤ count) × (count ≤ 1024) }
    requires cell_is { (t : Tree) × CellIs cells.now (count - 1) t }
    ensures answer { (t : Tree) → CellIs cells.now (count - 1) t → result ≡ counted_as (length (entries_of t)) }
    ensures bytes { (t : Tree) → CellIs cells.now (count - 1) t → entries.new ≡ onto (entry_bytes (take 255 (entries_of t))) entries.old }
{
    let mut numbers = [0u8; TOKENS];
    let mut stack = [0u16; TOKENS];
    let mut at = TOKENS - 1;
    stack[at] = count - 1;
    let mut n = 0;
    // The cells under way lie on a stack in fixed memory, up to its end: they come and go as parts do.
    while at < TOKENS {
        let cell = stack[at];
        match fields_of(cells, &numbers, cell) {
            Err(Open(part)) => {
                at -= 1;
                stack[at] = part;
            }
            Ok(fields) => {
                let [x, y, z] = fields;
                let number = place(entries, n, [kind_of(cells, cell), x, y, z])?;
                n = count_after(n, number);
                numbers[cell as usize] = number + 1;
                at += 1;
            }
        }
    }
    Ok(n)
}
