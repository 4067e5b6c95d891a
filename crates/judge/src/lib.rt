// Judging a model and judging a tableau. Each takes any bytes as pattern, as proposal and as working
// area, and each contract says, beside its own finding, what that finding rules out of the other
// judgement. `exports` has what programs in C and Rust link.
#![tactic(auto)]

pub mod exports;

ghost use Rattle.std.specs.Prelude.{◌≡◌};
ghost use contract.Monad.{fact};
ghost use Rattle.pattern.specs.Checks.Finding.{found};
ghost use Rattle.model.specs.Judging as model-specs;
ghost use Rattle.tableau.specs.declared.finding.Closed.{Closed};
ghost use Rattle.tableau.specs.Judging as tableau-specs;
ghost use Rattle.tableau.specs.Closure.{ExcludedEverywhere};
ghost use Rattle.judge.specs.Promises.{ModelPromise, TableauPromise};

use model::finding::ModelFinding;
use tableau::finding::TableauFinding;

// The bytes of working area that are enough for either judgement.
pub const AREA: usize = tableau_judge::judge::AREA;

// Judges a model. If it is met, any bytes judged as a tableau for the pattern are refused.
pub fn judge_model(p: &[u8], d: &[u8], area: &mut [u8]) -> ModelFinding
    ensures { ModelPromise p.now d.now area.old (model-specs.finding_of result) area.new }
{
    model_judge::judge(p, d, area)
}

// Judges a tableau. If it closes, the root holds at no node of any data model, finite or not, and any
// bytes judged as a model of the pattern are refused or unmet.
pub fn judge_tableau(p: &[u8], t: &[u8], area: &mut [u8]) -> TableauFinding
    ensures promise { TableauPromise p.now t.now area.old (tableau-specs.finding_of result) area.new }
    ensures* everywhere { fact 𝓤 ((c : Closed) → tableau-specs.finding_of result ≡ found c → ExcludedEverywhere p.now) ∗ ⊤ₛ }
{
    tableau_judge::judge::judge(p, t, area)
}
