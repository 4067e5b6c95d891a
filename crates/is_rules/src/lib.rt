// Document 01's rules 17, 18 and 19, of an is/is not line P, and the rules 21 and 23 of such a line.
#![tactic(auto)]

mod replaced;

ghost use Rattle.std.specs.Prelude.{◌≡◌, List, ℕ, ◌+◌, ◌*◌, ◌≤◌, length};
ghost use Rattle.lines.specs.declared.line.Line.{Line};
ghost use Rattle.branch_lines.specs.Stored.{line_at};
ghost use Rattle.rules.specs.Rules.{rule17, rule18, rule19, clash_if, opposed_is, rule21, rule23, rule_at};

use crate::replaced::replaced;
use branch_lines::load;
use lines::line::{IsLine, Line, compare_line, is_line, side_of};
use pattern::table::END;
use pattern::types::{Channel, Comparison, Sign};
use rules::conclusion::Conclusion;
use rules::fit::{clash_if, one_if};

// 17. "P: i is j: j is i."
fn rule17(l: IsLine) -> Option<Conclusion>
    ensures { result ≡ rule17 l }
{
    one_if(
        l.sign == Sign::Positive,
        is_line(Sign::Positive, l.second, l.first),
    )
}

// 18. "P: i is j; argument a channel: (i, end) and (j, end) same holds."
fn rule18(l: IsLine, argument: u8) -> Option<Conclusion>
    ensures { result ≡ rule18 l argument }
{
    let channel = Channel::try_from(argument).ok()?;
    let left = side_of(l.first, END);
    let right = side_of(l.second, END);
    let same = compare_line(Sign::Positive, Comparison::Same, channel, left, right);
    one_if(l.sign == Sign::Positive, same)
}

// 19. "P: i is j; argument 0 (first or left name) or 1 (second or right): Q with i at that place
// replaced by j."
fn rule19(l: IsLine, q: Line, argument: u8) -> Option<Conclusion>
    ensures { result ≡ rule19 l q argument }
{
    if l.sign == Sign::Positive {
        return replaced(argument, l.first, q, l.second);
    }
    None
}

// Whether two is/is not lines are alike but for sign.
fn opposes(l: IsLine, q: IsLine) -> bool
    ensures { result ≡ opposed_is l q }
{
    l.sign != q.sign && l.first == q.first && l.second == q.second
}

// 21. "Clash: P and Q alike but for sign." One for each form of P, since each compares other parts.
fn rule21(l: IsLine, q: Line) -> bool
    ensures { clash_if result ≡ rule21 (Line.Is l) q }
{
    q.as_is().is_some_and(|m| opposes(l, m))
}

// 23 of an is/is not line: "Clash: P is "i is not i"".
fn rule23(l: IsLine) -> bool
    ensures { clash_if result ≡ rule23 (Line.Is l) }
{
    l.sign == Sign::Negative && l.first == l.second
}

// What the rule of a number concludes where P is an is/is not line, whatever the pattern, and Q is line
// q of the area, which is read by the rules alone that use it; rules that P doesn't fit conclude nothing.
pub fn outcome(area: &[u8], rule: u8, l: IsLine, q: usize, argument: u8) -> Option<Conclusion>
    requires { 8 * (q + 1) ≤ length area.now }
    ensures { (bs : List ℕ) → result ≡ (rule_at rule).outcome bs (Line.Is l) (line_at area.now q) argument }
{
    match rule {
        17 => rule17(l),
        18 => rule18(l, argument),
        19 => rule19(l, load(area, q), argument),
        21 => clash_if(rule21(l, load(area, q))),
        23 => clash_if(rule23(l)),
        _ => None,
    }
}
