// A step on a branch: document 01's refusals 19 to 22, in its order, and then what the step concludes.
ghost use Rattle.std.specs.Prelude.{◌≡◌, false, List, ℕ, ◌*◌, ◌≤◌, ltb, length};
ghost use Rattle.pattern.specs.Meaning.Names.{uses_name};
ghost use Rattle.names.specs.Set.{SetOf};
ghost use Rattle.lines.specs.declared.line.Line.{Line};
ghost use Rattle.branch_lines.specs.Stored.{lines_from};
ghost use Rattle.steps.specs.Steps.{line_fault, argument_fault, field_fault, step_outcome, is_stale, stepping, answer_of};
ghost use Rattle.steps.specs.AtStep.{AtStep, Readable};

use crate::outcome::outcome;
use crate::step::{Step, StepRefusal};
use crate::table::{is_known, uses_argument, uses_q};
use branch_lines::is_fresh;
use names::NameSet;
use rules::conclusion::Conclusion;

// Whether a branch of so many lines has a line of the number.
fn on_branch(len: usize, k: u16) -> bool
    ensures { result ≡ ltb k len }
{
    (k as usize) < len
}

// Whether a field that holds the number of a line is at fault: a used one is on the branch, an unused
// one zero.
fn line_fault(used: bool, len: usize, k: u16) -> bool
    ensures { (b : List Line) → length b ≡ len → result ≡ line_fault used b k }
{
    if used { !on_branch(len, k) } else { k != 0 }
}

// Whether an argument is at fault: an unused one is zero.
fn argument_fault(used: bool, argument: u8) -> bool
    ensures { result ≡ argument_fault used argument }
{
    !used && argument != 0
}

// Refusal 20: whether "a used line not on the branch or an unused field not zero", on a branch of so
// many lines.
fn field_fault(len: usize, s: Step) -> bool
    ensures { (b : List Line) → length b ≡ len → result ≡ field_fault b s }
{
    !on_branch(len, s.p)
        || line_fault(uses_q(s.rule), len, s.q)
        || argument_fault(uses_argument(s.rule), s.argument)
}

// What the rule of a step without such a fault makes of its lines and argument. Where a rule doesn't use
// Q its number is 0, and the line isn't read.
fn step_outcome(p: &[u8], area: &[u8], len: usize, s: Step) -> Option<Conclusion>
    requires readable { Readable p.now area.now len }
    requires s_value { field_fault (lines_from area.now 0 len) s ≡ false }
    ensures { result ≡ step_outcome p.now (lines_from area.now 0 len) s }
{
    let first = s.p as usize;
    let second = s.q as usize;
    outcome(p, area, s.rule, first, second, s.argument)
}

// Refusal 22: whether the conclusion wants a name fresh that isn't, for a pattern that uses these names.
fn is_stale(used: NameSet, area: &[u8], len: usize, conclusion: Conclusion) -> bool
    requires { 8 * len ≤ length area.now }
    ensures { (bs : List ℕ) → SetOf (uses_name bs) used → result ≡ is_stale bs (lines_from area.now 0 len) conclusion }
{
    match conclusion {
        Conclusion::New(name, _, _) => !is_fresh(used, area, len, name),
        Conclusion::One(_) | Conclusion::Two(_, _) | Conclusion::Fork(_, _) | Conclusion::Clash =>
            false,
    }
}

// Step k, which is s, on a branch of so many lines, for a pattern that was read and uses these names.
pub fn take(
    p: &[u8],
    used: NameSet,
    area: &[u8],
    len: usize,
    s: Step,
    k: u16,
) -> Result<Conclusion, StepRefusal>
    requires at_step { AtStep p.now area.now len }
    requires set_of { SetOf (uses_name p.now) used }
    ensures { answer_of result ≡ stepping p.now (lines_from area.now 0 len) s k }
{
    if !is_known(s.rule) {
        return Err(StepRefusal::Rule(k));
    }
    if field_fault(len, s) {
        return Err(StepRefusal::Field(k));
    }
    // No `ok_or` with `?`: it copies the conclusion.
    let Some(conclusion) = step_outcome(p, area, len, s) else {
        return Err(StepRefusal::Fit(k));
    };
    if is_stale(used, area, len, conclusion) {
        return Err(StepRefusal::Fresh(k));
    }
    Ok(conclusion)
}
