// Document 01's rules 1 and 4 to 7, of a has/lacks line P and the entry of its node, rule 21 of such a
// line, and what the rule of any number gives for it; those of a node with two parts are in `part_rules`.
#![tactic(auto)]

ghost use Rattle.std.specs.Prelude.{◌≡◌, ◌+◌, ◌*◌, ◌≤◌, length};
ghost use Rattle.pattern.specs.File.Entries.{HasEntry};
ghost use Rattle.lines.specs.declared.line.Line.{Line};
ghost use Rattle.branch_lines.specs.Stored.{line_at};
ghost use Rattle.rules.specs.declared.conclusion.Conclusion.{Conclusion};
ghost use Rattle.rules.specs.Rules.{comparing, rule1, rule4, rule5, rule6, rule7, clash_if, opposed_has, rule21, rule_at};

use branch_lines::load;
use lines::line::{HasLine, Line, channel_at, compare_line, edge_line, has_line, is_line, side_of};
use part_rules::{has_at, lacks_at, rule2, rule3, rule24, rule25};
use pattern::entry::Entry;
use pattern::table::Kind;
use pattern::types::{Axis, Comparison, Name, Sign};
use rules::conclusion::Conclusion;
use rules::fit::{Direction, arrive, clash_if, one_if};

// 1. "P has/lacks not φ: lacks/has φ."
fn rule1(h: HasLine, e: Entry) -> Option<Conclusion>
    ensures { result ≡ rule1 h e }
{
    one_if(
        e.kind == Kind::Not,
        has_line(h.sign.opposite(), h.name, e.x),
    )
}

// 4. "P has/lacks name j: is/is not j."
fn rule4(h: HasLine, e: Entry) -> Option<Conclusion>
    ensures { result ≡ rule4 h e }
{
    one_if(
        e.kind == Kind::Name,
        is_line(h.sign, h.name, Name { number: e.x }),
    )
}

// 5. "P: i has after; argument a fresh j: axis leads from i to j, then j has φ."
fn rule5(h: HasLine, e: Entry, argument: u8) -> Option<Conclusion>
    ensures { result ≡ rule5 h e argument }
{
    let j = Name::try_from(argument).ok()?;
    let edge = edge_line(Axis { number: e.x }, h.name, j);
    let there = has_line(Sign::Positive, j, e.y);
    has_at(h, e, Kind::After).then_some(Conclusion::New(j, edge, there))
}

// 6. "P: i lacks after; Q: that axis leads from i to j: j lacks φ."
fn rule6(h: HasLine, e: Entry, q: Line) -> Option<Conclusion>
    ensures { result ≡ rule6 h e q }
{
    let j = arrive(q, Direction::Along, e.x, h.name)?;
    one_if(
        lacks_at(h, e, Kind::After),
        has_line(Sign::Negative, j, e.y),
    )
}

// "that comparison of (i, α) and (i, β)".
fn comparing(h: HasLine, e: Entry, c: Comparison) -> Line
    ensures { Conclusion.One result ≡ comparing h e c }
{
    let left = side_of(h.name, e.y);
    let right = side_of(h.name, e.z);
    compare_line(h.sign, c, channel_at(e.x), left, right)
}

// 7. "P: i has/lacks same or differ: that comparison of (i, α) and (i, β) holds/is barred."
fn rule7(h: HasLine, e: Entry) -> Option<Conclusion>
    ensures { result ≡ rule7 h e }
{
    match e.kind {
        Kind::Same => Some(Conclusion::One(comparing(h, e, Comparison::Same))),
        Kind::Differ => Some(Conclusion::One(comparing(h, e, Comparison::Differ))),
        _ => None,
    }
}

// Whether two has/lacks lines are alike but for sign: as of is/is not lines, over other fields.
fn opposes(h: HasLine, q: HasLine) -> bool
    ensures { result ≡ opposed_has h q }
{
    h.sign != q.sign && h.name == q.name && h.node == q.node
}

// 21. "Clash: P and Q alike but for sign." One for each form of P, since each compares other parts.
fn rule21(h: HasLine, q: Line) -> bool
    ensures { clash_if result ≡ rule21 (Line.Has h) q }
{
    q.as_has().is_some_and(|m| opposes(h, m))
}

// What the rule of a number gives where P is a has/lacks line whose node is an entry of the pattern, and
// Q is line q of the area, which is read by the rules alone that use it; rules that P doesn't fit give
// nothing.
pub fn outcome(
    p: &[u8],
    area: &[u8],
    rule: u8,
    h: HasLine,
    q: usize,
    argument: u8,
) -> Option<Conclusion>
    requires has_entry { HasEntry p.now h.node }
    requires q_in_bounds { 8 * (q + 1) ≤ length area.now }
    ensures { result ≡ (rule_at rule).outcome p.now (Line.Has h) (line_at area.now q) argument }
{
    let e = Entry::at(p, h.node);
    match rule {
        1 => rule1(h, e),
        2 => rule2(h, e),
        3 => rule3(h, e),
        4 => rule4(h, e),
        5 => rule5(h, e, argument),
        6 => rule6(h, e, load(area, q)),
        7 => rule7(h, e),
        21 => clash_if(rule21(h, load(area, q))),
        24 => rule24(h, e),
        25 => rule25(h, e),
        _ => None,
    }
}
