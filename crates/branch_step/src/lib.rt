// What a conclusion does to a branch: lines are added to it, or its straight part ends there. Line k of
// the branch stands in block k of the area.
#![tactic(auto)]

ghost use Rattle.std.specs.Prelude.{◌≡◌, ◌+◌, ◌≤◌, length};
ghost use Rattle.rules.specs.Sides.{sides};
ghost use Rattle.branch_lines.specs.Stored.{put_line};
ghost use Rattle.tableau.specs.Run.{longest, max_lines};
ghost use Rattle.tableau.specs.Judging.{area_need};
ghost use Rattle.branch_step.specs.declared.Advance.{Advance};
ghost use Rattle.branch_step.specs.Step.{advance_of, pushed};

use branch_lines::store;
use lines::line::Line;
use rules::conclusion::Conclusion;

// What a conclusion does to a branch: the branch has so many lines after it, or its straight part ends
// there, at a clash or at a fork with the line of each side.
#[derive(Clone, Copy)]
pub enum Advance {
    Grown(u16),
    Clash,
    Fork(Line, Line),
}

// The number of lines that a conclusion adds to a branch, or to each side.
pub fn added_by(c: Conclusion) -> u16
    ensures { (result ≡ longest (sides c)) × (result ≤ 2) }
{
    match c {
        Conclusion::One(_) | Conclusion::Fork(_, _) => 1,
        Conclusion::Two(_, _) | Conclusion::New(_, _, _) => 2,
        Conclusion::Clash => 0,
    }
}

// Adds a line to a branch of so many.
fn push(area: &mut [u8], len: u16, l: Line) -> Advance
    requires area_len { length area.old ≡ area_need }
    requires len_bound { len + 1 ≤ max_lines }
    ensures grown { result ≡ Advance.Grown (len + 1) }
    ensures area { area.new ≡ put_line area.old len l }
{
    store(area, len as usize, l);
    Advance::Grown(len + 1)
}

// Adds two lines to a branch of so many.
fn push_two(area: &mut [u8], len: u16, l: Line, m: Line) -> Advance
    requires area_len { length area.old ≡ area_need }
    requires len_bound { len + 2 ≤ max_lines }
    ensures grown { result ≡ Advance.Grown (len + 2) }
    ensures area { area.new ≡ put_line (put_line area.old len l) (len + 1) m }
{
    let next = len as usize;
    store(area, next, l);
    store(area, next + 1, m);
    Advance::Grown(len + 2)
}

// Adds the lines of a conclusion to a branch of so many lines.
pub fn extend(area: &mut [u8], c: Conclusion, len: u16) -> Advance
    requires area_len { length area.old ≡ area_need }
    requires c_bound { len + longest (sides c) ≤ max_lines }
    ensures advance { result ≡ advance_of len c }
    ensures area { area.new ≡ pushed area.old len c }
{
    match c {
        Conclusion::One(l) => push(area, len, l),
        // Two arms: tried as one, the lines are copied, and a step took a fifth longer.
        Conclusion::Two(l, m) => push_two(area, len, l, m),
        Conclusion::New(_, l, m) => push_two(area, len, l, m),
        Conclusion::Fork(l, r) => Advance::Fork(l, r),
        Conclusion::Clash => Advance::Clash,
    }
}
