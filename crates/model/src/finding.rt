// What judging a model finds, by the documents' numbers and places.
ghost use Rattle.std.specs.Prelude.{◌≡◌};
ghost use Rattle.model.specs.Judging.{refusal_number, refusal_place};

use model_file::ModelRefusal;
use pattern::finding::PatternRefusal;

// The refusals of judging a model: document 01's 1 to 8 of the pattern, 9 of the working area and 10 to
// 14 of the model file, with document 02's 28, and its 27, which holds the name that isn't listed.
#[derive(Clone, Copy, Debug, PartialEq, Eq)]
pub enum JudgeRefusal {
    Pattern(PatternRefusal),
    Area,
    Model(ModelRefusal),
    Unlisted(u8),
}

impl JudgeRefusal {
    // The documents' number of the refusal, by cases as those of a pattern.
    pub fn number(self) -> u8
        ensures { result ≡ refusal_number self }
    {
        match self {
            JudgeRefusal::Pattern(refusal) => refusal.number(),
            JudgeRefusal::Area => 9,
            JudgeRefusal::Model(refusal) => refusal.number(),
            JudgeRefusal::Unlisted(_) => 27,
        }
    }

    // Its place: the number of the entry or of the record, the name, or 0.
    pub fn place(self) -> u16
        ensures { result ≡ refusal_place self }
    {
        match self {
            JudgeRefusal::Pattern(refusal) => u16::from(refusal.place()),
            JudgeRefusal::Area => 0,
            JudgeRefusal::Model(refusal) => refusal.place(),
            JudgeRefusal::Unlisted(name) => u16::from(name),
        }
    }
}

impl From<PatternRefusal> for JudgeRefusal {
    ghost use Rattle.model.specs.declared.finding.JudgeRefusal.{JudgeRefusal};

    ghost from_gives = { λ e r. r ≡ JudgeRefusal.Pattern e };

    fn from(refusal: PatternRefusal) -> JudgeRefusal {
        JudgeRefusal::Pattern(refusal)
    }
}

impl From<ModelRefusal> for JudgeRefusal {
    ghost use Rattle.model.specs.declared.finding.JudgeRefusal.{JudgeRefusal};

    ghost from_gives = { λ e r. r ≡ JudgeRefusal.Model e };

    fn from(refusal: ModelRefusal) -> JudgeRefusal {
        JudgeRefusal::Model(refusal)
    }
}

// The nodes at which the root holds: the lowest of them, and their number.
#[derive(Clone, Copy, Debug, PartialEq, Eq)]
pub struct Met {
    pub lowest: u8,
    pub number: u8,
}

// What judging a model finds: the model meets the pattern, or the root holds at no node; or the first
// refusal.
pub type ModelFinding = Result<Option<Met>, JudgeRefusal>;
