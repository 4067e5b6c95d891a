// The line that the bench program prints of a pattern and a proposal, document 01's 'Bench program'. It
// is proved to be the line of what judging finds, byte for byte; that it is written, and what was
// read, is not. `typed` has the like of a typed pattern.
#![tactic(auto)]

pub mod typed;

ghost use Rattle.std.specs.Prelude.{◌≡◌, length};
ghost use Rattle.io.specs.Counts.{IsPrefixLen};
ghost use Rattle.model.specs.Judging as model-specs;
ghost use Rattle.tableau.specs.Judging as tableau-specs;
ghost use Rattle.wire.specs.Onto.{onto};
ghost use Rattle.report.specs.Report.{model_report, tableau_report, report_of, line_for};

use judge::{AREA, judge_model, judge_tableau};
pub use line::LINE_BYTES;
use line::Report;
use model::finding::ModelFinding;
use tableau::finding::TableauFinding;

// The report of what judging a model found.
fn model_report(finding: ModelFinding) -> Report
    ensures { result ≡ model_report (model-specs.finding_of finding) }
{
    match finding {
        Ok(Some(met)) => Report::Met(met.lowest, met.number),
        Ok(None) => Report::Unmet,
        Err(refusal) => Report::Refused(refusal.number(), refusal.place()),
    }
}

// The report of what judging a tableau found.
fn tableau_report(finding: TableauFinding) -> Report
    ensures { result ≡ tableau_report (tableau-specs.finding_of finding) }
{
    match finding {
        Ok(c) => Report::Closed(c.steps, c.clashes, c.forks, c.most),
        Err(refusal) => Report::Refused(refusal.number(), refusal.place()),
    }
}

// The report of a pattern and a proposal, which is judged as a tableau if it begins with that mark,
// and otherwise as a model.
fn report_for(pattern: &[u8], proposal: &[u8]) -> Report
    ensures { result ≡ report_of pattern.now proposal.now }
{
    // Fixed memory, as the unit has it: no heap.
    let mut area = [0u8; AREA];
    if wire::begins(proposal, &tableau::MARK) {
        return tableau_report(judge_tableau(pattern, proposal, &mut area));
    }
    model_report(judge_model(pattern, proposal, &mut area))
}

// Puts the line of a pattern and a proposal at the start of a buffer, and answers its length.
pub fn line_for(pattern: &[u8], proposal: &[u8], buf: &mut [u8; LINE_BYTES]) -> usize
    ensures length { result ≡ length (line_for pattern.now proposal.now) }
    ensures line { buf.new ≡ onto (line_for pattern.now proposal.now) buf.old }
    ensures counts { IsPrefixLen result buf.new }
{
    line::fill(report_for(pattern, proposal), buf)
}
