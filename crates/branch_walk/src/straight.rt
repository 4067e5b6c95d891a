// The straight part of a branch: the steps that add lines to it, up to the clash, fork or refusal that
// ends them.
ghost use Rattle.std.specs.Prelude.{◌<◌};
ghost use Rattle.pattern.specs.Meaning.Names.{uses_name};
ghost use Rattle.names.specs.Set.{SetOf};
ghost use Rattle.branch_walk.specs.Straight.{WalkLent, Advances, Stops};

use branch_step::{Advance, added_by, extend};
use lines::line::Line;
use names::NameSet;
use steps::step::Step;
use steps::take::take;
use tableau::finding::WalkRefusal;

// Document 01's bound on the lines of a branch.
const MAX_LINES: u16 = 1024;

// What is lent to the walk and stays as it is: a pattern, the names that it uses, and the bytes of the
// s steps.
#[derive(Clone, Copy)]
pub struct Given<'a> {
    pub p: &'a [u8],
    pub used: NameSet,
    pub steps: &'a [u8],
    pub s: u16,
}

// Where the straight part of a branch ends: at a clash or a fork, with the number of that step and of
// the lines that the branch has at it, and of a fork the line of each side.
#[derive(Clone, Copy)]
pub enum Stop {
    Clash(u16, u16),
    Fork(u16, u16, Line, Line),
}

// Checks step k on a branch of so many lines, and adds its lines.
fn take_step(given: &Given, area: &mut [u8], k: u16, len: u16) -> Result<Advance, WalkRefusal>
    requires walk_lent { WalkLent given.now.p.now given.now.steps.now given.now.s area.old k len }
    requires set_of { SetOf (uses_name given.now.p.now) given.now.used }
    requires k_lt_s { k < given.now.s }
    ensures { Advances given.now.p.now given.now.steps.now given.now.s area.old k len result area.new }
{
    let step = Step::at(given.steps, k as usize);
    // No `?` here and in `straight`: tried, it copies what is large, and a step took half as long again.
    let conclusion = match take(given.p, given.used, area, len as usize, step, k) {
        Ok(conclusion) => conclusion,
        Err(refusal) => return Err(WalkRefusal::Step(refusal)),
    };
    if MAX_LINES < len + added_by(conclusion) {
        return Err(WalkRefusal::Lines(k));
    }
    Ok(extend(area, conclusion, len))
}

// Checks the steps from step k on that add lines to a branch of so many lines, up to the clash or fork
// or refusal that ends them.
pub fn straight(given: &Given, area: &mut [u8], k: u16, len: u16) -> Result<Stop, WalkRefusal>
    requires walk_lent { WalkLent given.now.p.now given.now.steps.now given.now.s area.old k len }
    requires set_of { SetOf (uses_name given.now.p.now) given.now.used }
    ensures { Stops given.now.p.now given.now.steps.now given.now.s area.old k len result area.new }
{
    let mut lines = len;
    for i in k..given.s {
        match take_step(given, area, i, lines) {
            Ok(Advance::Grown(more)) => lines = more,
            Ok(Advance::Clash) => return Ok(Stop::Clash(i, lines)),
            Ok(Advance::Fork(left, right)) => return Ok(Stop::Fork(i, lines, left, right)),
            Err(refusal) => return Err(refusal),
        }
    }
    Err(WalkRefusal::StillOpen(given.s))
}
