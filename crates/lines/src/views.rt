// A line seen as one of its forms, for a rule that wants that form and no other. A function for each form:
// one over a trait would want an impl for each, and be no shorter.
ghost use Rattle.std.specs.Prelude.{◌≡◌};
ghost use Rattle.lines.specs.Views.{has_view, is_view, edge_view, compare_view};

use crate::line::{CompareLine, EdgeLine, HasLine, IsLine, Line};

impl Line {
    pub fn as_has(self) -> Option<HasLine>
        ensures { result ≡ has_view self }
    {
        match self {
            Line::Has(l) => Some(l),
            _ => None,
        }
    }

    pub fn as_is(self) -> Option<IsLine>
        ensures { result ≡ is_view self }
    {
        match self {
            Line::Is(l) => Some(l),
            _ => None,
        }
    }

    pub fn as_edge(self) -> Option<EdgeLine>
        ensures { result ≡ edge_view self }
    {
        match self {
            Line::Edge(l) => Some(l),
            _ => None,
        }
    }

    pub fn as_compare(self) -> Option<CompareLine>
        ensures { result ≡ compare_view self }
    {
        match self {
            Line::Compare(l) => Some(l),
            _ => None,
        }
    }
}
