// What judging a tableau finds.
ghost use Rattle.std.specs.Prelude.{◌≡◌};
ghost use Rattle.tableau.specs.Judging.{header_number, walk_number, walk_place, refusal_number, refusal_place};

use pattern::finding::PatternRefusal;
use steps::step::StepRefusal;

// What is counted while steps are checked: steps that say clash, steps that fork their branch in two,
// and the largest number of lines that a branch had at its clash.
#[derive(Clone, Copy, Debug, PartialEq, Eq)]
pub struct Counts {
    pub clashes: u16,
    pub forks: u16,
    pub most: u16,
}

// Document 01's `closed`: the steps, and the counts at the end.
#[derive(Clone, Copy, Debug, PartialEq, Eq)]
pub struct Closed {
    pub steps: u16,
    pub clashes: u16,
    pub forks: u16,
    pub most: u16,
}

// Document 01's refusals 15 to 18, of the file's first 8 bytes and its length.
#[derive(Clone, Copy, Debug, PartialEq, Eq)]
pub enum HeaderRefusal {
    Mark,
    Version,
    Count,
    Start,
}

impl HeaderRefusal {
    // Document 01's number of the refusal; its place is 0, by cases as those of a pattern.
    pub fn number(self) -> u8
        ensures { result ≡ header_number self }
    {
        match self {
            HeaderRefusal::Mark => 15,
            HeaderRefusal::Version => 16,
            HeaderRefusal::Count => 17,
            HeaderRefusal::Start => 18,
        }
    }
}

// Document 01's refusals 19 to 26, each with the step's number; of 26 it is the number of steps.
#[derive(Clone, Copy, Debug, PartialEq, Eq)]
pub enum WalkRefusal {
    Step(StepRefusal),
    Lines(u16),
    Waiting(u16),
    AllClosed(u16),
    StillOpen(u16),
}

impl WalkRefusal {
    // Document 01's number of the refusal, by cases as those of a pattern.
    pub fn number(self) -> u8
        ensures { result ≡ walk_number self }
    {
        match self {
            WalkRefusal::Step(refusal) => refusal.number(),
            WalkRefusal::Lines(_) => 23,
            WalkRefusal::Waiting(_) => 24,
            WalkRefusal::AllClosed(_) => 25,
            WalkRefusal::StillOpen(_) => 26,
        }
    }

    // Its place: the number of the step, or of the steps.
    pub fn place(self) -> u16
        ensures { result ≡ walk_place self }
    {
        match self {
            WalkRefusal::Step(refusal) => refusal.place(),
            WalkRefusal::Lines(k)
            | WalkRefusal::Waiting(k)
            | WalkRefusal::AllClosed(k)
            | WalkRefusal::StillOpen(k) => k,
        }
    }
}

// Document 01's refusals of judging a tableau: 1 to 8 of the pattern, 9 of the working area, 15 to 18
// of the header, 19 to 26 of the steps.
#[derive(Clone, Copy, Debug, PartialEq, Eq)]
pub enum TableauRefusal {
    Pattern(PatternRefusal),
    Area,
    Header(HeaderRefusal),
    Walk(WalkRefusal),
}

impl TableauRefusal {
    // Document 01's number of the refusal, by cases as those of a pattern.
    pub fn number(self) -> u8
        ensures { result ≡ refusal_number self }
    {
        match self {
            TableauRefusal::Pattern(refusal) => refusal.number(),
            TableauRefusal::Area => 9,
            TableauRefusal::Header(refusal) => refusal.number(),
            TableauRefusal::Walk(refusal) => refusal.number(),
        }
    }

    // Its place: the number of the entry or of the step, or 0.
    pub fn place(self) -> u16
        ensures { result ≡ refusal_place self }
    {
        match self {
            TableauRefusal::Pattern(refusal) => refusal.place() as u16,
            TableauRefusal::Area | TableauRefusal::Header(_) => 0,
            TableauRefusal::Walk(refusal) => refusal.place(),
        }
    }
}

impl From<PatternRefusal> for TableauRefusal {
    ghost use Rattle.std.specs.Prelude.{◌≡◌};
    ghost use Rattle.tableau.specs.declared.finding.TableauRefusal.TheVariants.{Pattern};

    ghost from_gives = { λ refusal r. r ≡ Pattern refusal };

    fn from(refusal: PatternRefusal) -> TableauRefusal {
        TableauRefusal::Pattern(refusal)
    }
}

impl From<HeaderRefusal> for TableauRefusal {
    ghost use Rattle.std.specs.Prelude.{◌≡◌};
    ghost use Rattle.tableau.specs.declared.finding.TableauRefusal.TheVariants.{Header};

    ghost from_gives = { λ refusal r. r ≡ Header refusal };

    fn from(refusal: HeaderRefusal) -> TableauRefusal {
        TableauRefusal::Header(refusal)
    }
}

impl From<WalkRefusal> for TableauRefusal {
    ghost use Rattle.std.specs.Prelude.{◌≡◌};
    ghost use Rattle.tableau.specs.declared.finding.TableauRefusal.TheVariants.{Walk};

    ghost from_gives = { λ refusal r. r ≡ Walk refusal };

    fn from(refusal: WalkRefusal) -> TableauRefusal {
        TableauRefusal::Walk(refusal)
    }
}

// Closed, or refused.
pub type TableauFinding = Result<Closed, TableauRefusal>;
