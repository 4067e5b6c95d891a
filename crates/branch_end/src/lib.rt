// How the walk over a branch ends, what is counted on the way, and what is found where the walk over the
// first branch ends so. The walk itself answers with a number, for the reason that stands there; here is
// what it means.
#![tactic(auto)]

ghost use Rattle.std.specs.Prelude.{◌≡◌, ◌<◌, Err};
ghost use Rattle.tableau.specs.declared.finding.Counts.{Counts};
ghost use Rattle.tableau.specs.Judging.{finding_of};
ghost use Rattle.branch_end.specs.Ends.{count_clash, count_fork, code_of, walk_refusal_of, end_of, finished};

use steps::step::StepRefusal;
use tableau::finding::{Closed, Counts, TableauFinding, TableauRefusal, WalkRefusal};

// How the walk over a branch ends: it is closed, with the number of the next step and the counts; or
// a refusal.
pub type BranchEnd = Result<(u16, Counts), WalkRefusal>;

// A walk's answer is one number. Below this one the branch is closed, and the answer is the number of
// the next step; from it on the answer is a refusal's number times this one, plus its place.
pub const FIRST_REFUSAL: u32 = 65536;

// Counts a clash on a branch of so many lines.
pub fn count_clash(counts: &mut Counts, len: u16)
    requires { counts.old.clashes < 65535 }
    ensures { counts.new ≡ count_clash len counts.old }
{
    counts.clashes += 1;
    counts.most = counts.most.max(len);
}

// Counts a fork.
pub fn count_fork(counts: &mut Counts)
    requires { counts.old.forks < 65535 }
    ensures { counts.new ≡ count_fork counts.old }
{
    counts.forks += 1;
}

// The answer of a walk that is refused so.
#[tactic(auto, using(crate::specs::Ends::end_code))]
pub fn refusal_code(refusal: WalkRefusal) -> u32
    ensures code { result ≡ code_of refusal }
    ensures ends { (c : Counts) → end_of result c ≡ Err refusal }
{
    refusal.number() as u32 * FIRST_REFUSAL + refusal.place() as u32
}

// The refusal of this number and place; a number that no refusal has stands for the last.
fn refusal_of(number: u32, place: u16) -> WalkRefusal
    ensures { result ≡ walk_refusal_of number place }
{
    match number {
        19 => WalkRefusal::Step(StepRefusal::Rule(place)),
        20 => WalkRefusal::Step(StepRefusal::Field(place)),
        21 => WalkRefusal::Step(StepRefusal::Fit(place)),
        22 => WalkRefusal::Step(StepRefusal::Fresh(place)),
        23 => WalkRefusal::Lines(place),
        24 => WalkRefusal::Waiting(place),
        25 => WalkRefusal::AllClosed(place),
        _ => WalkRefusal::StillOpen(place),
    }
}

// How the walk that answers so ends, where these are the counts.
#[tactic(auto, unfolding(crate::specs::Ends::end_of))]
pub fn end_of(answer: u32, counts: Counts) -> BranchEnd
    ensures { result ≡ end_of answer counts }
{
    if answer < FIRST_REFUSAL {
        return Ok((answer as u16, counts));
    }
    Err(refusal_of(answer / FIRST_REFUSAL, (answer % FIRST_REFUSAL) as u16))
}

// The finding where the walk over the first branch ends so: steps that are left are refused.
pub fn finish(end: BranchEnd, s: u16) -> TableauFinding
    ensures { finding_of result ≡ finished s end }
{
    let (k, counts) = end?;
    if k < s {
        return Err(TableauRefusal::Walk(WalkRefusal::AllClosed(k)));
    }
    Ok(Closed {
        steps: s,
        clashes: counts.clashes,
        forks: counts.forks,
        most: counts.most,
    })
}
