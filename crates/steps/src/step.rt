// A step of a tableau, and the refusals of one.
ghost use Rattle.std.specs.Prelude.{◌≡◌, ◌+◌, ◌*◌, ◌≤◌, length};
ghost use Rattle.steps.specs.Steps.{step_at, refusal_number, refusal_place};

// Six bytes of a tableau file: "rule (one byte), lines P and Q (16 bits each), argument (one byte)".
#[derive(Clone, Copy, Debug, PartialEq, Eq)]
pub struct Step {
    pub rule: u8,
    pub p: u16,
    pub q: u16,
    pub argument: u8,
}

impl Step {
    // Step k of the bytes of the steps.
    #[tactic(auto, unfolding(crate::specs::Steps::step_at))]
    pub fn at(steps: &[u8], k: usize) -> Step
        requires { 6 * (k + 1) ≤ length steps.now }
        ensures { result ≡ step_at steps.now k }
    {
        let at = 6 * k;
        Step {
            rule: steps[at],
            p: wire::word(steps, at + 1),
            q: wire::word(steps, at + 3),
            argument: steps[at + 5],
        }
    }
}

// Document 01's refusals of a step that go by its rule, each with the step's number: 19, rule unknown;
// 20, a used line not on the branch or an unused field not zero; 21, lines or argument that don't fit;
// 22, a name that isn't fresh.
#[derive(Clone, Copy, Debug, PartialEq, Eq)]
pub enum StepRefusal {
    Rule(u16),
    Field(u16),
    Fit(u16),
    Fresh(u16),
}

impl StepRefusal {
    // Document 01's number of the refusal, by cases as those of a pattern.
    pub fn number(self) -> u8
        ensures { result ≡ refusal_number self }
    {
        match self {
            StepRefusal::Rule(_) => 19,
            StepRefusal::Field(_) => 20,
            StepRefusal::Fit(_) => 21,
            StepRefusal::Fresh(_) => 22,
        }
    }

    // Its place: the step's number.
    pub fn place(self) -> u16
        ensures { result ≡ refusal_place self }
    {
        match self {
            StepRefusal::Rule(k)
            | StepRefusal::Field(k)
            | StepRefusal::Fit(k)
            | StepRefusal::Fresh(k) => k,
        }
    }
}
