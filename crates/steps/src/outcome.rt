// What the rule of a step gives: the families of rules, by the form of the line P. P is read as a line of
// its form, and Q by the rules alone that use it.
ghost use Rattle.std.specs.Prelude.{◌≡◌, ◌+◌, ◌*◌, ◌≤◌, length};
ghost use Rattle.lines.specs.declared.line.Line.{Line};
ghost use Rattle.lines.specs.Formed.{PathWithin};
ghost use Rattle.branch_lines.specs.Stored.{compare_at, line_at};
ghost use Rattle.rules.specs.Rules.{rule_at};
ghost use Rattle.steps.specs.Forms.{LineWithin};

use branch_lines::{form_at, load, load_compare, load_has, load_is};
use compare_rules::{rule8, rule16, rule20, rule21, rule22, rule23};
use lines::line::Form;
use rules::conclusion::Conclusion;
use rules::fit::clash_if;

// What the rule of a number gives where P, line first of the area, is a comparison whose left path is at
// its end or an entry of the pattern. A rule that doesn't take it as a whole goes by its left path. Each
// rule reads P itself: what was read before the rule is chosen would be kept on the stack.
fn compare(
    p: &[u8],
    area: &[u8],
    rule: u8,
    first: usize,
    second: usize,
    argument: u8,
) -> Option<Conclusion>
    requires first_in_bounds { 8 * (first + 1) ≤ length area.now }
    requires second_in_bounds { 8 * (second + 1) ≤ length area.now }
    requires path_within { PathWithin p.now (compare_at area.now first).left.path }
    ensures { result ≡ (rule_at rule).outcome p.now (Line.Compare (compare_at area.now first)) (line_at area.now second) argument }
{
    match rule {
        8 => rule8(load_compare(area, first)),
        16 => rule16(load_compare(area, first)),
        20 => rule20(load_compare(area, first), load(area, second)),
        21 => clash_if(rule21(load_compare(area, first), load(area, second))),
        22 => clash_if(rule22(load_compare(area, first), load(area, second))),
        23 => clash_if(rule23(load_compare(area, first))),
        _ => {
            let l = load_compare(area, first);
            left_rules::outcome(p, area, rule, l, second, argument)
        }
    }
}

// What the rule of a number gives, from the lines P and Q, which are first and second of the area, and
// the argument, for a pattern that has the entries of P. An axis line is the line P of no rule. The rules are
// told apart by their numbers, here and in the families: they take different parts, so no table of functions
// has them all.
pub fn outcome(
    p: &[u8],
    area: &[u8],
    rule: u8,
    first: usize,
    second: usize,
    argument: u8,
) -> Option<Conclusion>
    requires first_in_bounds { 8 * (first + 1) ≤ length area.now }
    requires second_in_bounds { 8 * (second + 1) ≤ length area.now }
    requires line_within { LineWithin p.now (line_at area.now first) }
    ensures { result ≡ (rule_at rule).outcome p.now (line_at area.now first) (line_at area.now second) argument }
{
    match form_at(area, first) {
        Form::Has => has_rules::outcome(p, area, rule, load_has(area, first), second, argument),
        Form::Is => is_rules::outcome(area, rule, load_is(area, first), second, argument),
        Form::Edge => None,
        Form::Compare => compare(p, area, rule, first, second, argument),
    }
}
