// What programs in C and Rust link: reading a pattern, judging a model, judging a tableau, putting an
// older model file in order and typing a pattern, over byte slices. Each function calls the one of its
// name in `judge::exports`, and promises what that promises.
#![tactic(auto)]

ghost use Rattle.std.specs.Prelude.{◌≡◌, ℕ, ◌≤◌, length};
ghost use contract.Monad.{fact};
ghost use Rattle.pattern.specs.Checks.Finding.{Finding, written};
ghost use Rattle.pattern.specs.File.Reading as reading;
ghost use Rattle.decision.specs.Judged.{Judged};
ghost use Rattle.model.specs.Judging as model-specs;
ghost use Rattle.model_order.specs.Ordering.{ordering_of, OrderPromise};
ghost use Rattle.tableau.specs.declared.finding.Closed.{Closed};
ghost use Rattle.tableau.specs.Judging as tableau-specs;
ghost use Rattle.tableau.specs.Closure.{ExcludedEverywhere, Excluded};
ghost use Rattle.typing.specs.Typing.{typing_of, TypePromise, TypedEverywhere};
ghost use Rattle.answers.specs.Packed.{met_kind, closed_kind, answer_kind, read_answer, model_answer, tableau_answer, written_answer};
ghost use Rattle.answers.specs.Unpacked.{told, unpack_read, unpack_model, unpack_tableau, unpack_written};
ghost use Rattle.judge.specs.Promises.{NeverMet, NeverClosed, ModelPromise, TableauPromise};

// Reads a pattern.
#[unsafe(no_mangle)]
pub extern "C" fn riser_read(p: &[u8]) -> u64
    ensures answer { result ≡ read_answer (reading.reading_of p.now) }
    ensures finding { unpack_read result ≡ told (reading.reading_of p.now) }
{
    judge::exports::riser_read(p)
}

// The bytes of working area that a caller must lend to judge a model of the pattern; 0 for a pattern that
// is refused. 2,040 are always enough.
#[unsafe(no_mangle)]
pub extern "C" fn riser_model_area(p: &[u8]) -> usize
    ensures answer { result ≡ model-specs.area_wanted p.now }
    ensures enough { result ≤ 2040 }
{
    judge::exports::riser_model_area(p)
}

// Judges a model. If the answer is met, any bytes judged as a tableau for the pattern are refused.
#[unsafe(no_mangle)]
pub extern "C" fn riser_judge_model(p: &[u8], d: &[u8], area: &mut [u8]) -> u64
    ensures answer { result ≡ model_answer (model-specs.judging_of p.now d.now (length area.old)) }
    ensures finding { unpack_model result ≡ told (model-specs.judging_of p.now d.now (length area.old)) }
    ensures promise { (f : Finding Judged) → unpack_model result ≡ told f → ModelPromise p.now d.now area.old f area.new }
    ensures tableaux { answer_kind result ≡ met_kind → NeverClosed p.now }
{
    judge::exports::riser_judge_model(p, d, area)
}

// Judges a tableau. If the answer is closed, the root holds at no node of any data model, finite or
// not, and any bytes judged as a model of the pattern are refused or unmet.
#[unsafe(no_mangle)]
pub extern "C" fn riser_judge_tableau(p: &[u8], t: &[u8], area: &mut [u8]) -> u64
    ensures answer { result ≡ tableau_answer (tableau-specs.judging_of p.now t.now (length area.old)) }
    ensures finding { unpack_tableau result ≡ told (tableau-specs.judging_of p.now t.now (length area.old)) }
    ensures promise { (f : Finding Closed) → unpack_tableau result ≡ told f → TableauPromise p.now t.now area.old f area.new }
    ensures excludes { answer_kind result ≡ closed_kind → Excluded p.now }
    ensures models { answer_kind result ≡ closed_kind → NeverMet p.now }
    ensures* everywhere { fact 𝓤 (answer_kind result ≡ closed_kind → ExcludedEverywhere p.now) ∗ ⊤ₛ }
{
    judge::exports::riser_judge_tableau(p, t, area)
}

// Puts an older model file in order: the new file stands at the front of the destination, and every
// pattern gets on it the finding that it would get on the old one without 28.
#[unsafe(no_mangle)]
pub extern "C" fn riser_order(d: &[u8], out: &mut [u8]) -> u64
    ensures answer { result ≡ written_answer (written (ordering_of d.now (length out.old))) }
    ensures finding { unpack_written result ≡ told (written (ordering_of d.now (length out.old))) }
    ensures promise { (f : Finding ℕ) → unpack_written result ≡ told f → OrderPromise d.now out.old f out.new }
{
    judge::exports::riser_order(d, out)
}

// Types a pattern: its file stands at the front of the destination, and at every node of every data
// model, finite or not, the file's root holds exactly where the text does.
#[unsafe(no_mangle)]
pub extern "C" fn riser_type(text: &[u8], out: &mut [u8]) -> u64
    ensures answer { result ≡ written_answer (written (typing_of text.now (length out.old))) }
    ensures finding { unpack_written result ≡ told (written (typing_of text.now (length out.old))) }
    ensures promise { (f : Finding ℕ) → unpack_written result ≡ told f → TypePromise text.now out.old f out.new }
    ensures* everywhere { fact 𝓤 ((f : Finding ℕ) → unpack_written result ≡ told f → TypedEverywhere text.now f out.new) ∗ ⊤ₛ }
{
    judge::exports::riser_type(text, out)
}
