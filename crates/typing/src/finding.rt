// What typing a pattern finds.
ghost use Rattle.std.specs.Prelude.{◌≡◌};
ghost use Rattle.typing.specs.Typing.{refusal_number, refusal_place};

use text_entries::TooMany;
use text_tokens::grammar::Fault;
use text_tokens::tokens::OutOfRange;

// The refusals, document 02's 30 to 32: a text that is too long, or that leaves the grammar at a place;
// a number out of range, at the place of its first digit; too many entries, or a destination that is
// shorter than the file.
#[derive(Clone, Copy, Debug, PartialEq, Eq)]
pub enum TypeRefusal {
    Grammar(u16),
    Range(u16),
    Room,
}

impl TypeRefusal {
    // The documents' number of the refusal, by cases as those of a pattern.
    pub fn number(self) -> u8
        ensures { result ≡ refusal_number self }
    {
        match self {
            TypeRefusal::Grammar(_) => 30,
            TypeRefusal::Range(_) => 31,
            TypeRefusal::Room => 32,
        }
    }

    // Its place in the text, or 0.
    pub fn place(self) -> u16
        ensures { result ≡ refusal_place self }
    {
        match self {
            TypeRefusal::Grammar(place) | TypeRefusal::Range(place) => place,
            TypeRefusal::Room => 0,
        }
    }
}

impl From<Fault> for TypeRefusal {
    ghost use Rattle.typing.specs.declared.finding.TypeRefusal.{TypeRefusal};

    ghost from_gives = { λ fault refusal. refusal ≡ TypeRefusal.Grammar fault.0 };

    fn from(fault: Fault) -> TypeRefusal {
        TypeRefusal::Grammar(fault.0)
    }
}

impl From<OutOfRange> for TypeRefusal {
    ghost use Rattle.typing.specs.declared.finding.TypeRefusal.{TypeRefusal};

    ghost from_gives = { λ number refusal. refusal ≡ TypeRefusal.Range number.0 };

    fn from(number: OutOfRange) -> TypeRefusal {
        TypeRefusal::Range(number.0)
    }
}

impl From<TooMany> for TypeRefusal {
    ghost use Rattle.typing.specs.declared.finding.TypeRefusal.{TypeRefusal};

    ghost from_gives = { λ entries refusal. refusal ≡ TypeRefusal.Room };

    fn from(_entries: TooMany) -> TypeRefusal {
        TypeRefusal::Room
    }
}

// The file's length, or the first refusal.
pub type TypeFinding = Result<u16, TypeRefusal>;
