// Document 01's kind types: "Names run from 0 to 127, properties 0 to 31, axes 0 to 7, channels 0 to
// 3." Each is made from a number by `try_from`, which refuses one out of range. Beside them, the signs
// and the comparisons.
ghost use Rattle.std.specs.Prelude.{◌≡◌};
ghost use Rattle.pattern.specs.File.Types.{opposite, other_of};

// Each conversion below is one expression over its own type and bound; a generic one over a trait with both
// would want an impl for each type too.

// A number that is out of range.
#[derive(Clone, Copy, Debug, PartialEq, Eq)]
pub struct OutOfRange;

// A name, what source 000 calls a nominal: it stands for one node.
#[derive(Clone, Copy, PartialEq, Eq)]
pub struct Name {
    pub number: u8,
}

impl Name {
    pub const MAX: u8 = 127;
}

impl TryFrom<u8> for Name {
    ghost use Rattle.std.specs.Prelude.{◌≡◌};
    ghost use Rattle.pattern.specs.File.Made.{name_made, make};
    ghost use Rattle.pattern.specs.File.Types.{max_name};

    type Error = OutOfRange;

    ghost try_from_gives = { λ number r. name_made r ≡ make max_name number };

    fn try_from(number: u8) -> Result<Self, OutOfRange> {
        (number <= Self::MAX)
            .then_some(Name { number })
            .ok_or(OutOfRange)
    }
}

// A property, what source 000 calls a propositional symbol: it labels any set of nodes.
#[derive(Clone, Copy, PartialEq, Eq)]
pub struct Property {
    pub number: u8,
}

impl Property {
    pub const MAX: u8 = 31;
}

impl TryFrom<u8> for Property {
    ghost use Rattle.std.specs.Prelude.{◌≡◌};
    ghost use Rattle.pattern.specs.File.Made.{property_made, make};
    ghost use Rattle.pattern.specs.File.Types.{max_property};

    type Error = OutOfRange;

    ghost try_from_gives = { λ number r. property_made r ≡ make max_property number };

    fn try_from(number: u8) -> Result<Self, OutOfRange> {
        (number <= Self::MAX)
            .then_some(Property { number })
            .ok_or(OutOfRange)
    }
}

// An axis: one of the accessibility relations.
#[derive(Clone, Copy, PartialEq, Eq)]
pub struct Axis {
    pub number: u8,
}

impl Axis {
    pub const MAX: u8 = 7;
}

impl TryFrom<u8> for Axis {
    ghost use Rattle.std.specs.Prelude.{◌≡◌};
    ghost use Rattle.pattern.specs.File.Made.{axis_made, make};
    ghost use Rattle.pattern.specs.File.Types.{max_axis};

    type Error = OutOfRange;

    ghost try_from_gives = { λ number r. axis_made r ≡ make max_axis number };

    fn try_from(number: u8) -> Result<Self, OutOfRange> {
        (number <= Self::MAX)
            .then_some(Axis { number })
            .ok_or(OutOfRange)
    }
}

// A channel: each node has a data value on each.
#[derive(Clone, Copy, PartialEq, Eq)]
pub enum Channel {
    C0,
    C1,
    C2,
    C3,
}

impl Channel {
    pub const MAX: u8 = 3;
}

impl TryFrom<u8> for Channel {
    ghost use Rattle.std.specs.Prelude.{◌≡◌};
    ghost use Rattle.pattern.specs.File.Made.{channel_made, make};
    ghost use Rattle.pattern.specs.File.Types.{max_channel};

    type Error = OutOfRange;

    ghost try_from_gives = { λ number r. channel_made r ≡ make max_channel number };

    fn try_from(number: u8) -> Result<Self, OutOfRange> {
        match number {
            0 => Ok(Channel::C0),
            1 => Ok(Channel::C1),
            2 => Ok(Channel::C2),
            Self::MAX => Ok(Channel::C3),
            _ => Err(OutOfRange),
        }
    }
}

// Whether a statement is made or denied: has or lacks, is or is not, holds or is barred.
#[derive(Clone, Copy, PartialEq, Eq)]
pub enum Sign {
    Positive,
    Negative,
}

impl Sign {
    pub fn opposite(self) -> Sign
        ensures { result ≡ opposite self }
    {
        match self {
            Sign::Positive => Sign::Negative,
            Sign::Negative => Sign::Positive,
        }
    }
}

// The two comparisons of data values: equal, or unequal.
#[derive(Clone, Copy, PartialEq, Eq)]
pub enum Comparison {
    Same,
    Differ,
}

// Another type's `opposite`, by another word of the documents.
impl Comparison {
    pub fn other(self) -> Comparison
        ensures { result ≡ other_of self }
    {
        match self {
            Comparison::Same => Comparison::Differ,
            Comparison::Differ => Comparison::Same,
        }
    }
}
