// Rule 19: a line with one of its names replaced.
ghost use Rattle.std.specs.Prelude.{◌≡◌};
ghost use Rattle.lines.specs.declared.line.Line.{Line};
ghost use Rattle.rules.specs.Rules.{replaced_first, replaced_second, replaced};

use lines::line::{CompareLine, Line, edge_line, has_line, is_line, side_of};
use pattern::types::Name;
use rules::conclusion::Conclusion;
use rules::fit::one_if;

// A comparison with its left name, which is i, replaced by j.
fn replaced_left(i: Name, q: CompareLine, j: Name) -> Option<Conclusion>
    ensures { result ≡ replaced_first i (Line.Compare q) j }
{
    one_if(q.left.name == i, q.with_left(side_of(j, q.left.path)))
}

// A line with its first or left name, which is i, replaced by j.
fn replaced_first(i: Name, q: Line, j: Name) -> Option<Conclusion>
    ensures { result ≡ replaced_first i q j }
{
    match q {
        Line::Has(m) => one_if(m.name == i, has_line(m.sign, j, m.node)),
        Line::Is(m) => one_if(m.first == i, is_line(m.sign, j, m.second)),
        Line::Edge(m) => one_if(m.from == i, edge_line(m.axis, j, m.to)),
        Line::Compare(m) => replaced_left(i, m, j),
    }
}

// A comparison with its right name, which is i, replaced by j.
fn replaced_right(i: Name, q: CompareLine, j: Name) -> Option<Conclusion>
    ensures { result ≡ replaced_second i (Line.Compare q) j }
{
    let right = side_of(j, q.right.path);
    one_if(q.right.name == i, Line::Compare(CompareLine { right, ..q }))
}

// A line with its second or right name, which is i, replaced by j. "Has/lacks" lines have none.
fn replaced_second(i: Name, q: Line, j: Name) -> Option<Conclusion>
    ensures { result ≡ replaced_second i q j }
{
    match q {
        Line::Has(_) => None,
        Line::Is(m) => one_if(m.second == i, is_line(m.sign, m.first, j)),
        Line::Edge(m) => one_if(m.to == i, edge_line(m.axis, m.from, j)),
        Line::Compare(m) => replaced_right(i, m, j),
    }
}

// A line with i replaced by j at the place of the argument: 0 (first or left name) or 1 (second or
// right).
pub fn replaced(argument: u8, i: Name, q: Line, j: Name) -> Option<Conclusion>
    ensures { result ≡ replaced argument i q j }
{
    match argument {
        0 => replaced_first(i, q, j),
        1 => replaced_second(i, q, j),
        _ => None,
    }
}
