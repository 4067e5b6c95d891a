// What a rule concludes where lines and argument fit, and where an axis line leads.
ghost use Rattle.std.specs.Prelude.{◌≡◌};
ghost use Rattle.lines.specs.declared.line.Line.{Line};
ghost use Rattle.rules.specs.declared.conclusion.Conclusion.{Conclusion};
ghost use Rattle.rules.specs.Rules.{when, clash_if, near_end, far_end, arrival};

use crate::conclusion::Conclusion;
use lines::line::{EdgeLine, Line};
use pattern::types::Name;

// One line, where the test passed.
pub fn one_if(fits: bool, l: Line) -> Option<Conclusion>
    ensures { result ≡ when fits (Conclusion.One l) }
{
    fits.then_some(Conclusion::One(l))
}

// A clash, where the test passed.
pub fn clash_if(fits: bool) -> Option<Conclusion>
    ensures { result ≡ clash_if fits }
{
    fits.then_some(Conclusion::Clash)
}

// The way that an axis line is gone: as its axis leads, or back. The rules' equations name it.
#[derive(Clone, Copy, PartialEq, Eq)]
pub enum Direction {
    Along,
    Against,
}

// The two ends of an axis line: each function is the other's reverse, and says so by its name.

// The end of an axis line at which one stands.
fn near_end(l: EdgeLine, direction: Direction) -> Name
    ensures { result ≡ near_end direction l }
{
    match direction {
        Direction::Along => l.from,
        Direction::Against => l.to,
    }
}

// The end of an axis line at which one arrives.
fn far_end(l: EdgeLine, direction: Direction) -> Name
    ensures { result ≡ far_end direction l }
{
    match direction {
        Direction::Along => l.to,
        Direction::Against => l.from,
    }
}

// Where an axis line leads on an axis from a name: on that axis and from that name alone.
fn arrive_by(l: EdgeLine, direction: Direction, a: u8, i: Name) -> Option<Name>
    ensures { result ≡ arrival (Line.Edge l) direction a i }
{
    let leads = l.axis.number == a && near_end(l, direction) == i;
    leads.then_some(far_end(l, direction))
}

// Where a line leads on an axis from a name: "Q: that axis leads from i to j".
pub fn arrive(q: Line, direction: Direction, a: u8, i: Name) -> Option<Name>
    ensures { result ≡ arrival q direction a i }
{
    arrive_by(q.as_edge()?, direction, a, i)
}
