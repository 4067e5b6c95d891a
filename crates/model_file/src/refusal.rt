// The refusals of a model file.
ghost use Rattle.std.specs.Prelude.{◌≡◌};
ghost use Rattle.model_file.specs.Enums.{refusal_number, refusal_place};

// Document 01's refusals 10 to 14 and document 02's 28; those that have a place hold the record's number.
#[derive(Clone, Copy, Debug, PartialEq, Eq)]
pub enum ModelRefusal {
    Mark,
    Version,
    Count,
    Name(u8),
    Edge(u16),
    Order(u16),
}

impl ModelRefusal {
    // The documents' number of the refusal, by cases as those of a pattern.
    pub fn number(self) -> u8
        ensures { result ≡ refusal_number self }
    {
        match self {
            ModelRefusal::Mark => 10,
            ModelRefusal::Version => 11,
            ModelRefusal::Count => 12,
            ModelRefusal::Name(_) => 13,
            ModelRefusal::Edge(_) => 14,
            ModelRefusal::Order(_) => 28,
        }
    }

    // Its place: the record's number, or 0.
    pub fn place(self) -> u16
        ensures { result ≡ refusal_place self }
    {
        match self {
            ModelRefusal::Mark | ModelRefusal::Version | ModelRefusal::Count => 0,
            ModelRefusal::Name(j) => u16::from(j),
            ModelRefusal::Edge(i) | ModelRefusal::Order(i) => i,
        }
    }
}
