// The entries that a typed pattern asks for, as cells in lent numbers, made from its tokens, the last
// token first: so what follows an item of a row is there when the item comes, and what follows a brace
// is shared by its two paths. A cell is a kind and three fields, each a number below 256 or, from 256
// on, the cell of a part.
#![tactic(auto)]

mod letters;

ghost use Rattle.std.specs.Prelude.{◌≡◌, [], ◌∷◌, ◌*◌, ◌≤◌, ◌<◌, length, take};
ghost use Rattle.wire.specs.Blocks.{put_from};
ghost use Rattle.wire.specs.Onto.{onto};
ghost use Rattle.text_cells.specs.Building.{built_of};
ghost use Rattle.text_cells.specs.Held.{Took};

use letters::{Made, Marks, made_by, marks_by};

// The most tokens of a text, and the most cells: a token makes one at most.
pub const TOKENS: usize = 1024;

// The numbers of all cells.
pub const CELLS: usize = 4 * TOKENS;

// The stack begins in the middle: a token takes at most two items more than it puts there, and puts at
// most two more than it takes, so that any tokens have room.
const MIDDLE: usize = 2 * TOKENS;

const ITEMS: usize = 2 * MIDDLE + 3;

// How far the stack goes, and how many cells there are.
#[derive(Clone, Copy, Debug, PartialEq, Eq)]
struct Built {
    at: usize,
    count: u16,
}

// Stores a cell behind those that are there. Four writes: `copy_from_slice` at a place is no shorter.
fn store(cells: &mut [u16; CELLS], count: u16, made: Made)
    requires { count < 1024 }
    ensures { cells.new ≡ put_from cells.old (4 * count) 0 (made.kind ∷ made.x ∷ made.y ∷ made.z ∷ []) }
{
    let at = 4 * count as usize;
    cells[at] = made.kind;
    cells[at + 1] = made.x;
    cells[at + 2] = made.y;
    cells[at + 3] = made.z;
}

// What a token does: its cell is stored behind those that are there, or its marks are put on the stack.
fn take_token(word: u16, cells: &mut [u16; CELLS], items: &mut [u16; ITEMS], built: Built) -> Built
    requires { (length items.old ≡ 4099) × (2 ≤ built.at) × (built.at ≤ 4096) × (built.count < 1024) }
    ensures { Took word cells.old built.count items.old built.at result.at result.count cells.new items.new }
{
    let Built { at, count } = built;
    let letter = (word / 256) as u8;
    let value = word % 256;
    if let Some(made) = made_by(letter, value, items[at], items[at + 1], items[at + 2]) {
        store(cells, count, made);
        let above = at + made.takes - 1;
        items[above] = 2 * (256 + count) + made.tag;
        return Built {
            at: above,
            count: count + 1,
        };
    }
    match marks_by(letter, value, items[at], items[at + 1]) {
        Marks::Nothing => built,
        Marks::One(mark) => {
            items[at - 1] = mark;
            Built { at: at - 1, count }
        }
        Marks::Two(under, upper) => {
            items[at - 1] = under;
            items[at - 2] = upper;
            Built { at: at - 2, count }
        }
    }
}

// Makes the cells of the first n tokens, and answers how many they are; the root's is the last.
pub fn build(tokens: &[u16; TOKENS], n: u16, cells: &mut [u16; CELLS]) -> u16
    requires { (length cells.old ≡ 4096) × (length tokens.now ≡ 1024) × (n ≤ 1024) }
    ensures count { result ≡ (built_of (take n tokens.now)).count }
    ensures cells { cells.new ≡ onto (built_of (take n tokens.now)).cells cells.old }
{
    let mut items = [0u16; ITEMS];
    let mut built = Built {
        at: MIDDLE,
        count: 0,
    };
    for i in (0..n as usize).rev() {
        built = take_token(tokens[i], cells, &mut items, built);
    }
    built.count
}
