// Document 01's rules 8, 16, 20 and 22, of a comparison P as a whole, and the rules 21 and 23 of such a
// line.
#![tactic(auto)]

ghost use Rattle.std.specs.Prelude.{◌≡◌, ◌&&◌};
ghost use Rattle.pattern.specs.declared.types.Sign.{Sign};
ghost use Rattle.pattern.specs.File.Types.{other_of};
ghost use Rattle.lines.specs.declared.line.Line.{Line};
ghost use Rattle.lines.specs.Lines.{compare};
ghost use Rattle.lines.specs.Parts.{positive, is_same, same_name, both_at_end};
ghost use Rattle.rules.specs.Rules.{rule8, rule16, chains, rule20, alike_sides, opposed_compare, clash_if, rule21, contrary, rule22, rule23};

use lines::line::{CompareLine, Line, compare_line};
use pattern::types::{Comparison, Sign};
use rules::conclusion::Conclusion;
use rules::fit::one_if;

// 8. "P a comparison: its two sides exchanged."
pub fn rule8(l: CompareLine) -> Option<Conclusion>
    ensures { result ≡ rule8 l }
{
    Some(Conclusion::One(l.exchanged()))
}

// The other of same and differ, held.
fn other_held(l: CompareLine) -> Line
    ensures { result ≡ compare Sign.Positive (other_of l.comparison) l.channel l.left l.right }
{
    Line::Compare(CompareLine {
        sign: Sign::Positive,
        comparison: l.comparison.other(),
        ..l
    })
}

// 16. "Barred, both paths at end: the other of same and differ holds."
pub fn rule16(l: CompareLine) -> Option<Conclusion>
    ensures { result ≡ rule16 l }
{
    let fits = l.sign == Sign::Negative && l.both_at_end();
    one_if(fits, other_held(l))
}

// Whether the comparison is held, of same, and both paths are at end.
fn held_same(l: CompareLine) -> bool
    ensures { result ≡ positive l.sign && is_same l.comparison && both_at_end l }
{
    l.sign == Sign::Positive && l.comparison == Comparison::Same && l.both_at_end()
}

// Whether the right name of P is the left name of Q.
fn meets(l: CompareLine, q: CompareLine) -> bool
    ensures { result ≡ same_name l.right.name q.left.name }
{
    l.right.name == q.left.name
}

// Whether P and Q chain.
fn chains(l: CompareLine, q: CompareLine) -> bool
    ensures { result ≡ chains l q }
{
    held_same(l)
        && q.sign == Sign::Positive
        && q.both_at_end()
        && meets(l, q)
        && l.channel == q.channel
}

// "(i, end) and (k, end) compare as in Q".
fn chain(l: CompareLine, q: CompareLine) -> Line
    ensures { result ≡ compare Sign.Positive q.comparison l.channel l.left q.right }
{
    compare_line(Sign::Positive, q.comparison, l.channel, l.left, q.right)
}

// 20. "P: (i, end) same (j, end) holds; Q: (j, end) same or differ (k, end) holds, one channel: (i,
// end) and (k, end) compare as in Q."
pub fn rule20(l: CompareLine, q: Line) -> Option<Conclusion>
    ensures { result ≡ rule20 l q }
{
    let m = q.as_compare()?;
    one_if(chains(l, m), chain(l, m))
}

// Whether two comparisons are on one channel and between the same sides.
fn alike_sides(l: CompareLine, q: CompareLine) -> bool
    ensures { result ≡ alike_sides l q }
{
    l.channel == q.channel && l.left == q.left && l.right == q.right
}

// Whether two comparisons are alike but for sign.
fn opposes(l: CompareLine, q: CompareLine) -> bool
    ensures { result ≡ opposed_compare l q }
{
    l.sign != q.sign && l.comparison == q.comparison && alike_sides(l, q)
}

// 21. "Clash: P and Q alike but for sign." One for each form of P, since each compares other parts.
pub fn rule21(l: CompareLine, q: Line) -> bool
    ensures { clash_if result ≡ rule21 (Line.Compare l) q }
{
    q.as_compare().is_some_and(|m| opposes(l, m))
}

// Whether P is same and held, Q is differ and held, all else is alike and both paths are at end.
fn contrary(l: CompareLine, q: CompareLine) -> bool
    ensures { result ≡ contrary l q }
{
    let held = held_same(l) && q.sign == Sign::Positive && q.comparison == Comparison::Differ;
    held && alike_sides(l, q)
}

// 22. "Clash: P same and Q differ hold, all else alike and both paths at end."
pub fn rule22(l: CompareLine, q: Line) -> bool
    ensures { clash_if result ≡ rule22 l q }
{
    q.as_compare().is_some_and(|m| contrary(l, m))
}

// 23 of a comparison. "Clash: P is .. (i, end) differ (i, end) holds."
pub fn rule23(l: CompareLine) -> bool
    ensures { clash_if result ≡ rule23 (Line.Compare l) }
{
    l.sign == Sign::Positive
        && l.comparison == Comparison::Differ
        && l.both_at_end()
        && l.left.name == l.right.name
}
