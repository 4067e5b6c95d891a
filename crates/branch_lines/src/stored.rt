// Lines in lent bytes, eight a line. Each function asks for the bytes of its line alone, so no struct has the fact
// for all.
ghost use Rattle.std.specs.Prelude.{◌≡◌, ◌+◌, ◌*◌, ◌≤◌, length};
ghost use Rattle.lines.specs.declared.line.Line.{Line};
ghost use Rattle.lines.specs.Lines.{line_has};
ghost use Rattle.branch_lines.specs.Stored.{sign_at, comparison_at, bytes_of, form_at, has_at, is_at, edge_at, compare_at, line_at, put_line};

use lines::line::{CompareLine, EdgeLine, Form, HasLine, IsLine, Line, Side, channel_at};
use pattern::types::{Axis, Comparison, Name, Sign};

// The sign and the comparison of a stored bit, two types of two values each. No conversion: every number stands
// for one, and the types are of `pattern`.
fn sign_at(number: u8) -> Sign
    ensures { result ≡ sign_at number }
{
    if number == 0 {
        return Sign::Positive;
    }
    Sign::Negative
}

fn comparison_at(number: u8) -> Comparison
    ensures { result ≡ comparison_at number }
{
    if number == 0 {
        return Comparison::Same;
    }
    Comparison::Differ
}

// The byte of a comparison's form: the highest, so that a further form is one of the numbers below it.
const COMPARISON: u8 = 255;

// The eight bytes of a comparison.
fn compare_bytes(l: CompareLine) -> [u8; 8]
    ensures { result ≡ bytes_of (Line.Compare l) }
{
    [
        COMPARISON,
        l.sign as u8,
        l.comparison as u8,
        l.channel as u8,
        l.left.name.number,
        l.left.path,
        l.right.name.number,
        l.right.path,
    ]
}

// The eight bytes of a line, as it is stored: no conversion, since other bytes stand for a line too.
fn bytes(line: Line) -> [u8; 8]
    ensures { result ≡ bytes_of line }
{
    match line {
        Line::Has(l) => [0, l.sign as u8, l.name.number, l.node, 0, 0, 0, 0],
        Line::Is(l) => [1, l.sign as u8, l.first.number, l.second.number, 0, 0, 0, 0],
        Line::Edge(l) => [2, l.axis.number, l.from.number, l.to.number, 0, 0, 0, 0],
        Line::Compare(l) => compare_bytes(l),
    }
}

// The form of line k.
pub fn form_at(area: &[u8], k: usize) -> Form
    requires { 8 * (k + 1) ≤ length area.now }
    ensures { result ≡ form_at area.now k }
{
    match area[8 * k] {
        0 => Form::Has,
        1 => Form::Is,
        2 => Form::Edge,
        _ => Form::Compare,
    }
}

// Line k as a has/lacks line. Of a sign, a comparison and a channel the lowest bits are read: that takes
// no branch.
pub fn load_has(area: &[u8], k: usize) -> HasLine
    requires { 8 * (k + 1) ≤ length area.now }
    ensures { result ≡ has_at area.now k }
{
    let at = 8 * k;
    HasLine {
        sign: sign_at(area[at + 1] % 2),
        name: Name {
            number: area[at + 2],
        },
        node: area[at + 3],
    }
}

// Line k as an is/is not line.
pub fn load_is(area: &[u8], k: usize) -> IsLine
    requires { 8 * (k + 1) ≤ length area.now }
    ensures { result ≡ is_at area.now k }
{
    let at = 8 * k;
    IsLine {
        sign: sign_at(area[at + 1] % 2),
        first: Name {
            number: area[at + 2],
        },
        second: Name {
            number: area[at + 3],
        },
    }
}

// Line k as an axis line.
fn load_edge(area: &[u8], k: usize) -> EdgeLine
    requires { 8 * (k + 1) ≤ length area.now }
    ensures { result ≡ edge_at area.now k }
{
    let at = 8 * k;
    EdgeLine {
        axis: Axis {
            number: area[at + 1],
        },
        from: Name {
            number: area[at + 2],
        },
        to: Name {
            number: area[at + 3],
        },
    }
}

// Line k as a comparison.
pub fn load_compare(area: &[u8], k: usize) -> CompareLine
    requires { 8 * (k + 1) ≤ length area.now }
    ensures { result ≡ compare_at area.now k }
{
    let at = 8 * k;
    CompareLine {
        sign: sign_at(area[at + 1] % 2),
        comparison: comparison_at(area[at + 2] % 2),
        channel: channel_at(area[at + 3] % 4),
        left: Side {
            name: Name {
                number: area[at + 4],
            },
            path: area[at + 5],
        },
        right: Side {
            name: Name {
                number: area[at + 6],
            },
            path: area[at + 7],
        },
    }
}

// Line k of the area.
pub fn load(area: &[u8], k: usize) -> Line
    requires { 8 * (k + 1) ≤ length area.now }
    ensures { result ≡ line_at area.now k }
{
    match form_at(area, k) {
        Form::Has => Line::Has(load_has(area, k)),
        Form::Is => Line::Is(load_is(area, k)),
        Form::Edge => Line::Edge(load_edge(area, k)),
        Form::Compare => Line::Compare(load_compare(area, k)),
    }
}

// Whether line k of the area has the name. The names are at bytes 2 and 3, those of a comparison at 4 and
// 6; a line of form 0 has one.
pub fn line_has(area: &[u8], k: usize, name: Name) -> bool
    requires { 8 * (k + 1) ≤ length area.now }
    ensures { result ≡ line_has (line_at area.now k) name.number }
{
    let at = 8 * k;
    let n = name.number;
    if 2 < area[at] {
        if area[at + 4] == n {
            return true;
        }
        return area[at + 6] == n;
    }
    if area[at + 2] == n {
        return true;
    }
    if area[at + 3] == n {
        return area[at] != 0;
    }
    false
}

// Line k of the area becomes this one.
pub fn store(area: &mut [u8], k: usize, line: Line)
    requires { 8 * (k + 1) ≤ length area.old }
    ensures { area.new ≡ put_line area.old k line }
{
    wire::put_block(area, k, bytes(line));
}
