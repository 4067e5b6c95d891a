// Document 01's lines: "A line is one of four forms".
ghost use Rattle.std.specs.Prelude.{◌≡◌};
ghost use Rattle.lines.specs.Lines.{has, is, leads, side, compare};
ghost use Rattle.lines.specs.Parts.{channel_at, with_left};

use pattern::types::{Axis, Channel, Comparison, Name, Sign};

// "i has or lacks φ"; φ is a node entry's number.
#[derive(Clone, Copy, PartialEq, Eq)]
pub struct HasLine {
    pub sign: Sign,
    pub name: Name,
    pub node: u8,
}

// "i is or is not j".
#[derive(Clone, Copy, PartialEq, Eq)]
pub struct IsLine {
    pub sign: Sign,
    pub first: Name,
    pub second: Name,
}

// "axis a leads from i to j (no sign)".
#[derive(Clone, Copy, PartialEq, Eq)]
pub struct EdgeLine {
    pub axis: Axis,
    pub from: Name,
    pub to: Name,
}

// A side of a comparison, (i, α); α is a path reference.
#[derive(Clone, Copy, PartialEq, Eq)]
pub struct Side {
    pub name: Name,
    pub path: u8,
}

// "a comparison, holding or barred, of same or differ on channel e between (i, α) and (j, β)"; it is
// held where the sign is positive and barred where it is negative.
#[derive(Clone, Copy, PartialEq, Eq)]
pub struct CompareLine {
    pub sign: Sign,
    pub comparison: Comparison,
    pub channel: Channel,
    pub left: Side,
    pub right: Side,
}

// The form of a line, without its parts: it is read first, so that a rule reads the parts of its form alone.
#[derive(Clone, Copy, PartialEq, Eq)]
pub enum Form {
    Has,
    Is,
    Edge,
    Compare,
}

#[derive(Clone, Copy, PartialEq, Eq)]
pub enum Line {
    Has(HasLine),
    Is(IsLine),
    Edge(EdgeLine),
    Compare(CompareLine),
}

// The lines are written here and nowhere else, so that a rule reads as the document does: each form by a
// function of its own, since the forms share no field.
pub fn has_line(sign: Sign, name: Name, node: u8) -> Line
    ensures { result ≡ has sign name node }
{
    Line::Has(HasLine { sign, name, node })
}

pub fn is_line(sign: Sign, first: Name, second: Name) -> Line
    ensures { result ≡ is sign first second }
{
    Line::Is(IsLine {
        sign,
        first,
        second,
    })
}

pub fn edge_line(axis: Axis, from: Name, to: Name) -> Line
    ensures { result ≡ leads axis from to }
{
    Line::Edge(EdgeLine { axis, from, to })
}

pub fn side_of(name: Name, path: u8) -> Side
    ensures { result ≡ side name path }
{
    Side { name, path }
}

pub fn compare_line(
    sign: Sign,
    comparison: Comparison,
    channel: Channel,
    left: Side,
    right: Side,
) -> Line
    ensures { result ≡ compare sign comparison channel left right }
{
    Line::Compare(CompareLine {
        sign,
        comparison,
        channel,
        left,
        right,
    })
}

impl CompareLine {
    // The comparison with another left side; the rest is kept.
    pub fn with_left(self, left: Side) -> Line
        ensures { result ≡ with_left self left }
    {
        Line::Compare(CompareLine { left, ..self })
    }

    // The comparison with its two sides exchanged.
    pub fn exchanged(self) -> Line
        ensures { result ≡ compare self.sign self.comparison self.channel self.right self.left }
    {
        Line::Compare(CompareLine {
            left: self.right,
            right: self.left,
            ..self
        })
    }
}

// The channel of a number up to 3; a pattern that was read has no other. Not `Channel::try_from`: that one
// refuses, and here is nothing to refuse.
pub fn channel_at(number: u8) -> Channel
    ensures { result ≡ channel_at number }
{
    match number {
        0 => Channel::C0,
        1 => Channel::C1,
        2 => Channel::C2,
        _ => Channel::C3,
    }
}
