// The rules of a has/lacks line P whose node has two parts: document 01's 2 and 3 of a both, and 24 and 25
// of an either, of document 02's Job 6.
#![tactic(auto)]

ghost use Rattle.std.specs.Prelude.{◌≡◌, ◌&&◌};
ghost use Rattle.pattern.specs.File.Table.{same_kind};
ghost use Rattle.lines.specs.Lines.{has};
ghost use Rattle.lines.specs.Parts.{positive, negative};
ghost use Rattle.rules.specs.declared.conclusion.Conclusion.{Conclusion};
ghost use Rattle.rules.specs.Rules.{when, rule2, rule3, rule24, rule25};

use lines::line::{HasLine, has_line};
use pattern::entry::Entry;
use pattern::table::Kind;
use pattern::types::Sign;
use rules::conclusion::Conclusion;

// The rules say "has" and "lacks", and those of a left path "held" and "barred" (`left_rules`): with the sign
// as a parameter the four would be no shorter, and the rules further from the words.

// Whether the node is of the kind and the line is a has line.
pub fn has_at(h: HasLine, e: Entry, wanted: Kind) -> bool
    ensures { result ≡ same_kind e.kind wanted && positive h.sign }
{
    e.kind == wanted && h.sign == Sign::Positive
}

// Whether the node is of the kind and the line is a lacks line.
pub fn lacks_at(h: HasLine, e: Entry, wanted: Kind) -> bool
    ensures { result ≡ same_kind e.kind wanted && negative h.sign }
{
    e.kind == wanted && h.sign == Sign::Negative
}

// Two lines or a fork: what a rule concludes is its sentence, so each is a function.

// Both parts of the node, x and then y, had or lacked at the name, where the test passed.
fn both_parts(fits: bool, sign: Sign, h: HasLine, e: Entry) -> Option<Conclusion>
    ensures { result ≡ when fits (Conclusion.Two (has sign h.name e.x) (has sign h.name e.y)) }
{
    let first = has_line(sign, h.name, e.x);
    let second = has_line(sign, h.name, e.y);
    fits.then_some(Conclusion::Two(first, second))
}

// A fork where the test passed: the part x of the node had or lacked at the name, or the part y.
fn either_part(fits: bool, sign: Sign, h: HasLine, e: Entry) -> Option<Conclusion>
    ensures { result ≡ when fits (Conclusion.Fork (has sign h.name e.x) (has sign h.name e.y)) }
{
    let left = has_line(sign, h.name, e.x);
    let right = has_line(sign, h.name, e.y);
    fits.then_some(Conclusion::Fork(left, right))
}

// Each rule is a sentence of the document and a function, however alike two of them are.

// 2. "P has both: has φ, then has ψ."
pub fn rule2(h: HasLine, e: Entry) -> Option<Conclusion>
    ensures { result ≡ rule2 h e }
{
    both_parts(has_at(h, e, Kind::Both), Sign::Positive, h, e)
}

// 3. "P lacks both: fork, lacks φ or lacks ψ."
pub fn rule3(h: HasLine, e: Entry) -> Option<Conclusion>
    ensures { result ≡ rule3 h e }
{
    either_part(lacks_at(h, e, Kind::Both), Sign::Negative, h, e)
}

// 24. "P has either, fork, has φ or has ψ."
pub fn rule24(h: HasLine, e: Entry) -> Option<Conclusion>
    ensures { result ≡ rule24 h e }
{
    either_part(has_at(h, e, Kind::Either), Sign::Positive, h, e)
}

// 25. "P lacks either, lacks φ then lacks ψ."
pub fn rule25(h: HasLine, e: Entry) -> Option<Conclusion>
    ensures { result ≡ rule25 h e }
{
    both_parts(lacks_at(h, e, Kind::Either), Sign::Negative, h, e)
}
