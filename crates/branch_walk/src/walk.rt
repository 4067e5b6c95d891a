// The walk over the branches of a tableau. Line k of the branch that is being checked stands in block k
// of the area; at a fork nothing is copied, since the lines before it stay where they are and those of
// a side that is closed are dead.
ghost use Rattle.std.specs.Prelude.{◌≡◌, List, ℕ, ◌*◌, ◌≤◌, length, replicate};
ghost use Rattle.wire.specs.Cleared.{cleared};
ghost use Rattle.pattern.specs.Checks.Finding.{found};
ghost use Rattle.pattern.specs.File.Reading.{reading_of};
ghost use Rattle.pattern.specs.Meaning.Names.{uses_name};
ghost use Rattle.names.specs.Set.{SetOf};
ghost use Rattle.tableau.specs.Run.{max_waiting};
ghost use Rattle.tableau.specs.Judging.{max_steps, area_need, area_after, finding_of};
ghost use Rattle.branch_walk.specs.Straight.{WalkLent};
ghost use Rattle.branch_walk.specs.Walk.{Bounded, Walked, steps_found};

use crate::straight::{Given, Stop, straight};
use branch_end::{FIRST_REFUSAL, count_clash, count_fork, end_of, finish, refusal_code};
use branch_lines::store;
use lines::line::{HasLine, Line};
use names::NameSet;
use pattern::types::{Name, Sign};
use tableau::finding::{Counts, TableauFinding, WalkRefusal};
use wire::clear;

// Document 01's bound on the right sides that wait.
const MAX_WAITING: u8 = 64;

// Walks over a branch of so many lines, from step k on, with so many right sides waiting: to its clash,
// or at a fork over the left side and then over the right side. The number of unread steps falls. What
// the answer means, and the counts, stands in `branch_end`.
//
// The call for the right side comes last and is to be a jump, so that the stack doesn't grow with right
// sides. The compiler makes it one only where each argument is a number or a plain reference and the
// answer is a number; of a slice, a struct or an enum it passes the address of a copy. So what is given,
// the area and the counts come by references to them. `long` and `same`: the reference still leads
// to the caller's slice, as long as it was.
fn walk(
    given: &Given,
    area: &mut &mut [u8],
    k: u16,
    len: u16,
    waiting: u8,
    counts: &mut Counts,
) -> u32
    requires walk_lent { WalkLent given.now.p.now given.now.steps.now given.now.s area.old.now k len }
    requires set_of { SetOf (uses_name given.now.p.now) given.now.used }
    requires waiting_le_max_waiting { (waiting ≤ max_waiting) × Bounded k counts.old }
    ensures walks { Walked given.now.p.now given.now.steps.now given.now.s area.old.now k len waiting counts.old result counts.new area.new.now }
    ensures long { length area.new.now ≡ length area.old.now }
    ensures same { area.new.ghost_name ≡ area.old.ghost_name }
{
    match straight(given, *area, k, len) {
        Err(refusal) => refusal_code(refusal),
        Ok(Stop::Clash(at, lines)) => {
            count_clash(counts, lines);
            at as u32 + 1
        }
        Ok(Stop::Fork(at, lines, left, right)) => {
            if MAX_WAITING <= waiting {
                return refusal_code(WalkRefusal::Waiting(at));
            }
            let more = lines + 1;
            store(*area, lines as usize, left);
            count_fork(counts);
            let next = walk(given, area, at + 1, more, waiting + 1, counts);
            if FIRST_REFUSAL <= next {
                return next;
            }
            store(*area, lines as usize, right);
            walk(given, area, next as u16, more, waiting, counts)
        }
    }
}

// Walks over the first branch, of one line, from step 0 on. The area is handed back, the same slice:
// only so may the variable that holds it be lent to the walk.
fn walk_first<'a>(
    given: &Given,
    area: &'a mut [u8],
    answer: &mut u32,
    counts: &mut Counts,
) -> &'a mut [u8]
    requires walk_lent { WalkLent given.now.p.now given.now.steps.now given.now.s area.old 0 1 }
    requires set_of { SetOf (uses_name given.now.p.now) given.now.used }
    requires bounded { Bounded 0 counts.old }
    ensures walks { Walked given.now.p.now given.now.steps.now given.now.s area.old 0 1 0 counts.old answer.new counts.new result.now }
    ensures same { result.ghost_name ≡ area.entry.ghost_name }
{
    let mut lines = area;
    *answer = walk(given, &mut lines, 0, 1, 0, counts);
    let back = lines;
    back
}

// Checks the s steps of a tableau with this start name, for a pattern of n entries that was read and
// uses these names. The area is left zero.
pub fn check_steps(
    p: &[u8],
    n: u8,
    used: NameSet,
    steps: &[u8],
    area: &mut [u8],
    start: Name,
    s: u16,
) -> TableauFinding
    requires p_value { reading_of p.now ≡ found n }
    requires set_of { SetOf (uses_name p.now) used }
    requires steps_len { (length steps.now ≡ 6 * s) × (s ≤ max_steps) }
    requires area_len { length area.old ≡ area_need }
    ensures finding { finding_of result ≡ steps_found p.now n steps.now start s }
    ensures clears { (xs : List ℕ) → area_after (finding_of result) xs ≡ cleared area_need xs }
    ensures area { area.new ≡ replicate (length area.old) 0 }
{
    let first = Line::Has(HasLine {
        sign: Sign::Positive,
        name: start,
        node: n - 1,
    });
    store(area, 0, first);
    let mut counts = Counts {
        clashes: 0,
        forks: 0,
        most: 0,
    };
    let given = Given { p, used, steps, s };
    let mut answer = 0;
    walk_first(&given, area, &mut answer, &mut counts);
    clear(area);
    finish(end_of(answer, counts), s)
}
