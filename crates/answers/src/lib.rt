// What a linked program gets: one number, a packed finding. include/riser.h says how to take it apart.
#![tactic(auto)]

ghost use Rattle.std.specs.Prelude.{◌≡◌, ◌≤◌};
ghost use Rattle.pattern.specs.Checks.Finding.{found};
ghost use Rattle.pattern.specs.File.Reading as reading;
ghost use Rattle.model.specs.Judging as model-specs;
ghost use Rattle.model_order.specs.Ordering as order-specs;
ghost use Rattle.tableau.specs.Judging as tableau-specs;
ghost use Rattle.typing.specs.Typing as typing-specs;
ghost use Rattle.answers.specs.Packed as packed-specs;
ghost use Rattle.answers.specs.Packed.{refused_answer, read_answer, model_answer, tableau_answer, written_answer};

use model::finding::ModelFinding;
use model_order::OrderFinding;
use pattern::finding::PatternRefusal;
use tableau::finding::TableauFinding;
use typing::finding::TypeFinding;

// The kinds of an answer: numbers of the C interface, as include/riser.h has them.
const REFUSED: u8 = 1;

const READ: u8 = 2;

const MET: u8 = 3;

const UNMET: u8 = 4;

const CLOSED: u8 = 5;

const WRITTEN: u8 = 6;

// A part of an answer has 14 bits.
const PART: u64 = 16384;

// An answer: its kind in the lowest 4 bits, and above it four numbers, the first lowest.
fn packed(kind: u8, first: u16, second: u16, third: u16, fourth: u16) -> u64
    requires { kind ≤ 15 }
    ensures { result ≡ packed-specs.packed kind first second third fourth }
{
    let high = third as u64 + PART * fourth as u64;
    kind as u64 + 16 * (first as u64 + PART * (second as u64 + PART * high))
}

fn refused_answer(number: u8, place: u16) -> u64
    ensures { result ≡ refused_answer number place }
{
    packed(REFUSED, number as u16, place, 0, 0)
}

// The answer of a file that was written: its length.
fn file_answer(length: u16) -> u64
    ensures { result ≡ written_answer (found length) }
{
    packed(WRITTEN, length, 0, 0, 0)
}

// The answer of reading a pattern.
pub fn read_answer(f: Result<u8, PatternRefusal>) -> u64
    ensures { result ≡ read_answer (reading.finding_of f) }
{
    match f {
        Ok(n) => packed(READ, n as u16, 0, 0, 0),
        Err(refusal) => refused_answer(refusal.number(), refusal.place() as u16),
    }
}

// The answer of judging a model.
pub fn model_answer(f: ModelFinding) -> u64
    ensures { result ≡ model_answer (model-specs.finding_of f) }
{
    match f {
        Ok(Some(met)) => packed(MET, met.lowest as u16, met.number as u16, 0, 0),
        Ok(None) => packed(UNMET, 0, 0, 0, 0),
        Err(refusal) => refused_answer(refusal.number(), refusal.place()),
    }
}

// The answer of judging a tableau.
pub fn tableau_answer(f: TableauFinding) -> u64
    ensures { result ≡ tableau_answer (tableau-specs.finding_of f) }
{
    match f {
        Ok(c) => packed(CLOSED, c.steps, c.clashes, c.forks, c.most),
        Err(refusal) => refused_answer(refusal.number(), refusal.place()),
    }
}

// The two below differ in the type of the refusal: a trait for it would be longer than the second.

// The answer of putting a model file in order.
pub fn order_answer(f: OrderFinding) -> u64
    ensures { result ≡ written_answer (order-specs.finding_of f) }
{
    match f {
        Ok(length) => file_answer(length),
        Err(refusal) => refused_answer(refusal.number(), refusal.place()),
    }
}

// The answer of typing a pattern.
pub fn type_answer(f: TypeFinding) -> u64
    ensures { result ≡ written_answer (typing-specs.finding_of f) }
{
    match f {
        Ok(length) => file_answer(length),
        Err(refusal) => refused_answer(refusal.number(), refusal.place()),
    }
}
