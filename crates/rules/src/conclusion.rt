// What a rule concludes.
use lines::line::Line;
use pattern::types::Name;

// One line or two, added in this order; two lines that want a fresh name; a fork, a line for each side;
// or a clash. A rule gives none where the lines P and Q or the argument don't fit.
#[derive(Clone, Copy, PartialEq, Eq)]
pub enum Conclusion {
    One(Line),
    Two(Line, Line),
    New(Name, Line, Line),
    Fork(Line, Line),
    Clash,
}
