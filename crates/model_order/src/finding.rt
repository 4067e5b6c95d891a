// What putting a model file in order finds.
ghost use Rattle.std.specs.Prelude.{◌≡◌};
ghost use Rattle.model_order.specs.Ordering.{refusal_number, refusal_place};

use model_file::ModelRefusal;

// The refusals: document 01's 10 to 14 of the old file, and document 02's 29, a destination that is
// shorter than the new file.
#[derive(Clone, Copy, Debug, PartialEq, Eq)]
pub enum OrderRefusal {
    Model(ModelRefusal),
    Room,
}

impl OrderRefusal {
    // The documents' number of the refusal, by cases as those of a pattern.
    pub fn number(self) -> u8
        ensures { result ≡ refusal_number self }
    {
        match self {
            OrderRefusal::Model(refusal) => refusal.number(),
            OrderRefusal::Room => 29,
        }
    }

    // Its place: the record's number, or 0.
    pub fn place(self) -> u16
        ensures { result ≡ refusal_place self }
    {
        match self {
            OrderRefusal::Model(refusal) => refusal.place(),
            OrderRefusal::Room => 0,
        }
    }
}

impl From<ModelRefusal> for OrderRefusal {
    ghost use Rattle.model_order.specs.declared.finding.OrderRefusal.{OrderRefusal};

    ghost from_gives = { λ e r. r ≡ OrderRefusal.Model e };

    fn from(refusal: ModelRefusal) -> OrderRefusal {
        OrderRefusal::Model(refusal)
    }
}

// The new file's length, or the first refusal.
pub type OrderFinding = Result<u16, OrderRefusal>;
