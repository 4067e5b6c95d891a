// What each letter of a typed pattern makes of the items on the stack. A row's item is twice its field,
// a node's one more; between the parts of a node and the paths of a comparison stand marks, a kind by 256
// and a channel. Items and cells are numbers, kinds those of the pattern file: enums would take more of the
// fixed memory.
ghost use Rattle.std.specs.Prelude.{◌≡◌, ◌≤◌, ◌<◌};
ghost use Rattle.text_cells.specs.declared.letters.Made.{Made};
ghost use Rattle.text_cells.specs.Building.{node, path, marked, made_by, bar_mark, marks_by};

// A cell, its kind and its fields; how many items it takes from the stack; and what is added there to
// twice its own field.
#[derive(Clone, Copy, Debug, PartialEq, Eq)]
pub struct Made {
    pub takes: usize,
    pub tag: u16,
    pub kind: u16,
    pub x: u16,
    pub y: u16,
    pub z: u16,
}

fn node(takes: usize, kind: u16, x: u16, y: u16, z: u16) -> Made
    ensures { result ≡ node takes kind x y z }
{
    Made {
        takes,
        tag: 1,
        kind,
        x,
        y,
        z,
    }
}

fn path(takes: usize, kind: u16, x: u16, y: u16) -> Made
    ensures { result ≡ path takes kind x y }
{
    Made {
        tag: 0,
        ..node(takes, kind, x, y, 0)
    }
}

// The cell of two parts, whose kind stands between them as a number of the stack, 0 where none does.
fn marked(made: Made) -> Option<Made>
    ensures { result ≡ marked made }
{
    if made.kind == 0 { None } else { Some(made) }
}

// A table by letters, as the grammar is one: a row says what a letter makes.

// The cell that a letter makes of its number and of the three items on top of the stack, if it makes one.
pub fn made_by(letter: u8, value: u16, a: u16, b: u16, c: u16) -> Option<Made>
    ensures made { result ≡ made_by letter value a b c }
    ensures few { (m : Made) → result ≡ Some m → (m.takes ≤ 3) × (m.tag ≤ 1) }
{
    match letter {
        b'p' => Some(node(0, 1, value, 0, 0)),
        b'n' => Some(node(0, 2, value, 0, 0)),
        b'!' => Some(node(1, 3, a / 2, 0, 0)),
        b'(' => marked(node(3, b / 256, a / 2, c / 2, 0)),
        b'<' => Some(node(1, 5, value, a / 2, 0)),
        b'[' => marked(node(3, b / 256, b % 256, a / 2, c / 2)),
        b'/' => Some(path(1, 8, value, a / 2)),
        b'@' => Some(path(1, 9, value, a / 2)),
        b'?' => Some(path(2, 10, a / 2, b / 2)),
        b'{' => Some(path(3, 11, a / 2, b / 2)),
        _ => None,
    }
}

// What a letter that makes no cell puts on the stack: the last item is then the uppermost.
#[derive(Clone, Copy, Debug, PartialEq, Eq)]
pub enum Marks {
    Nothing,
    One(u16),
    Two(u16, u16),
}

// A bar stands between the parts of an either, over the second of them, or between the paths of a brace,
// over the second and what follows both.
fn bar_mark(a: u16, b: u16) -> u16
    ensures { result ≡ bar_mark a b }
{
    if a % 2 == 0 {
        return b;
    }
    12 * 256
}

// The marks of a letter that makes no cell, of its number and of the two items on top of the stack.
pub fn marks_by(letter: u8, value: u16, a: u16, b: u16) -> Marks
    requires { value < 256 }
    ensures { result ≡ marks_by letter value a b }
{
    match letter {
        b'&' => Marks::One(4 * 256),
        b'|' => Marks::One(bar_mark(a, b)),
        b'}' => Marks::One(a),
        b']' => Marks::One(2 * 255),
        b'=' => Marks::Two(6 * 256 + value, 2 * 255),
        b'#' => Marks::Two(7 * 256 + value, 2 * 255),
        _ => Marks::Nothing,
    }
}
