// Document 01's rules 9 to 15, of a comparison P and the entry e of its left path; i is its left name,
// and "the rest is kept".
#![tactic(auto)]

ghost use Rattle.std.specs.Prelude.{◌≡◌, ◌&&◌, ◌+◌, ◌*◌, ◌≤◌, length};
ghost use Rattle.pattern.specs.File.Table.{same_kind};
ghost use Rattle.lines.specs.declared.line.Line.{Line};
ghost use Rattle.lines.specs.Lines.{has, leads, side};
ghost use Rattle.lines.specs.Formed.{PathWithin};
ghost use Rattle.lines.specs.Parts.{positive, negative, with_left};
ghost use Rattle.branch_lines.specs.Stored.{line_at};
ghost use Rattle.rules.specs.Rules.{rule9, rule10, rule11, rule12, rule13, rule14, rule15, rule_at};
ghost use Rattle.rules.specs.Table.{NoneOf};
ghost use Rattle.left_rules.specs.Listed.{whole_rules};

use branch_lines::load;
use lines::line::{CompareLine, Line, edge_line, has_line, side_of};
use pattern::entry::Entry;
use pattern::table::Kind;
use pattern::types::{Axis, Name, Sign};
use rules::conclusion::Conclusion;
use rules::fit::{Direction, arrive, one_if};

// The comparison with (k, α) for its left side.
fn going_from(l: CompareLine, k: Name, path: u8) -> Line
    ensures { result ≡ with_left l (side k path) }
{
    l.with_left(side_of(k, path))
}

// Three parts of the rules, each of another type.

// The comparison with α for its left path.
fn going_on(l: CompareLine, path: u8) -> Line
    ensures { result ≡ with_left l (side l.left.name path) }
{
    going_from(l, l.left.name, path)
}

// The left name has or lacks a node entry.
fn left_has(l: CompareLine, sign: Sign, node: u8) -> Line
    ensures { result ≡ has sign l.left.name node }
{
    has_line(sign, l.left.name, node)
}

// An axis leads from the left name to k.
fn left_edge(l: CompareLine, axis: Axis, k: Name) -> Line
    ensures { result ≡ leads axis l.left.name k }
{
    edge_line(axis, l.left.name, k)
}

// Whether the left path is of the kind and the comparison is held.
fn held_at(l: CompareLine, e: Entry, wanted: Kind) -> bool
    ensures { result ≡ same_kind e.kind wanted && positive l.sign }
{
    e.kind == wanted && l.sign == Sign::Positive
}

// Whether the left path is of the kind and the comparison is barred.
fn barred_at(l: CompareLine, e: Entry, wanted: Kind) -> bool
    ensures { result ≡ same_kind e.kind wanted && negative l.sign }
{
    e.kind == wanted && l.sign == Sign::Negative
}

// 9. "Left path jump to k: the left side becomes (k, α)."
fn rule9(l: CompareLine, e: Entry) -> Option<Conclusion>
    ensures { result ≡ rule9 l e }
{
    one_if(
        e.kind == Kind::Jump,
        going_from(l, Name { number: e.x }, e.y),
    )
}

// The rules 10 and 11, and 12 and 13, differ in a word of the document, and are two functions as they are two
// sentences there.

// 10. "Held, left path test: i has φ, then the comparison with α."
fn rule10(l: CompareLine, e: Entry) -> Option<Conclusion>
    ensures { result ≡ rule10 l e }
{
    let tested = left_has(l, Sign::Positive, e.x);
    let rest = going_on(l, e.y);
    held_at(l, e, Kind::Test).then_some(Conclusion::Two(tested, rest))
}

// 11. "Barred, left path test: fork, i lacks φ or barred with α."
fn rule11(l: CompareLine, e: Entry) -> Option<Conclusion>
    ensures { result ≡ rule11 l e }
{
    let tested = left_has(l, Sign::Negative, e.x);
    let rest = going_on(l, e.y);
    barred_at(l, e, Kind::Test).then_some(Conclusion::Fork(tested, rest))
}

// 12. "Held, left path fork: fork, with α or with β."
fn rule12(l: CompareLine, e: Entry) -> Option<Conclusion>
    ensures { result ≡ rule12 l e }
{
    held_at(l, e, Kind::Fork).then_some(Conclusion::Fork(going_on(l, e.x), going_on(l, e.y)))
}

// 13. "Barred, left path fork: barred with α, then with β."
fn rule13(l: CompareLine, e: Entry) -> Option<Conclusion>
    ensures { result ≡ rule13 l e }
{
    barred_at(l, e, Kind::Fork).then_some(Conclusion::Two(going_on(l, e.x), going_on(l, e.y)))
}

// 14. "Held, left path step; argument a fresh k: axis leads from i to k, then held with (k, α)."
fn rule14(l: CompareLine, e: Entry, argument: u8) -> Option<Conclusion>
    ensures { result ≡ rule14 l e argument }
{
    let k = Name::try_from(argument).ok()?;
    let edge = left_edge(l, Axis { number: e.x }, k);
    let rest = going_from(l, k, e.y);
    held_at(l, e, Kind::Step).then_some(Conclusion::New(k, edge, rest))
}

// 15. "Barred, left path step; Q: that axis leads from i to k: barred with (k, α)."
fn rule15(l: CompareLine, e: Entry, q: Line) -> Option<Conclusion>
    ensures { result ≡ rule15 l e q }
{
    let k = arrive(q, Direction::Along, e.x, l.left.name)?;
    one_if(barred_at(l, e, Kind::Step), going_from(l, k, e.y))
}

// What the rules 9 to 15 conclude, which go by the left path; at its end they conclude nothing, and any
// other rule here doesn't fit. Q is line q of the area, which rule 15 alone reads.
pub fn outcome(
    p: &[u8],
    area: &[u8],
    rule: u8,
    l: CompareLine,
    q: usize,
    argument: u8,
) -> Option<Conclusion>
    requires none_of { NoneOf rule whole_rules }
    requires path_within { PathWithin p.now l.left.path }
    requires q_in_bounds { 8 * (q + 1) ≤ length area.now }
    ensures { result ≡ (rule_at rule).outcome p.now (Line.Compare l) (line_at area.now q) argument }
{
    if l.left.at_end() {
        return None;
    }
    let e = Entry::at(p, l.left.path);
    match rule {
        9 => rule9(l, e),
        10 => rule10(l, e),
        11 => rule11(l, e),
        12 => rule12(l, e),
        13 => rule13(l, e),
        14 => rule14(l, e, argument),
        15 => rule15(l, e, load(area, q)),
        _ => None,
    }
}
