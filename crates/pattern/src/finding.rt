// The refusals of reading a pattern.
ghost use Rattle.std.specs.Prelude.{◌≡◌};
ghost use Rattle.pattern.specs.File.Reading.{refusal_number, refusal_place};

// Document 01's refusals 1 to 8; those that have a place hold the entry's number.
#[derive(Clone, Copy, Debug, PartialEq, Eq)]
pub enum PatternRefusal {
    Mark,
    Version,
    Count,
    Kind(u8),
    Field(u8),
    Reference(u8),
    Repeat(u8),
    RootPath(u8),
}

// The documents number the refusals themselves, here and in the crates above: no order of variants gives the
// numbers, and a trait of number and place would be longer than the two functions.
impl PatternRefusal {
    // Document 01's number of the refusal.
    pub fn number(self) -> u8
        ensures { result ≡ refusal_number self }
    {
        match self {
            PatternRefusal::Mark => 1,
            PatternRefusal::Version => 2,
            PatternRefusal::Count => 3,
            PatternRefusal::Kind(_) => 4,
            PatternRefusal::Field(_) => 5,
            PatternRefusal::Reference(_) => 6,
            PatternRefusal::Repeat(_) => 7,
            PatternRefusal::RootPath(_) => 8,
        }
    }

    // Its place: the entry's number, or 0.
    pub fn place(self) -> u8
        ensures { result ≡ refusal_place self }
    {
        match self {
            PatternRefusal::Mark | PatternRefusal::Version | PatternRefusal::Count => 0,
            PatternRefusal::Kind(k)
            | PatternRefusal::Field(k)
            | PatternRefusal::Reference(k)
            | PatternRefusal::Repeat(k)
            | PatternRefusal::RootPath(k) => k,
        }
    }
}
