// Judging a model: the refusals of document 01 in its order, among them document 02's 28 and behind
// them its 27, and then met, with the lowest node and the number of nodes, or unmet; and how much working
// area it wants.
#![tactic(auto)]

ghost use Rattle.std.specs.Prelude.{◌≡◌, length};
ghost use Rattle.nodeset.specs.Set.{width, has};
ghost use Rattle.pattern.specs.Checks.Finding.{found};
ghost use Rattle.pattern.specs.File.Reading.{reading_of};
ghost use Rattle.decision.specs.Judged.{judged_by};
ghost use Rattle.model_records.specs.Valid.{ValidModel};
ghost use Rattle.model.specs.Judging.{area_wanted, names_check, judging_of, area_after, judged_as, finding_of};
ghost use Rattle.model_judge.specs.Checked.{check_of};

use model::finding::{JudgeRefusal, Met, ModelFinding};
use model_file::{check, listed_names};
use model_records::Order;
use model_tables::root_nodes;
use names::used_names;
use nodeset::NodeSet;
use pattern_read::read;
use slots::area::area_bytes;

// Refusal 27: a name that the pattern, of n entries, uses and the model doesn't list; the lowest.
fn check_listed(p: &[u8], n: u8, d: &[u8]) -> Result<(), JudgeRefusal>
    requires p_value { reading_of p.now ≡ found n }
    requires valid_model { ValidModel d.now }
    ensures { check_of result ≡ names_check p.now d.now }
{
    let unlisted = used_names(p, n).minus(listed_names(d));
    match unlisted.lowest() {
        Some(name) => Err(JudgeRefusal::Unlisted(name)),
        None => Ok(()),
    }
}

// Met or unmet, of the set of the nodes at which the root holds.
fn judged(s: NodeSet) -> Option<Met>
    ensures { judged_as result ≡ judged_by width (has s) }
{
    // No `?`, so that the must-fail edit `invents_a_node` changes this answer and nothing else.
    let Some(lowest) = s.lowest() else {
        return None;
    };
    let number = s.count();
    Some(Met { lowest, number })
}

// Judges a model: any bytes as pattern, as model and as working area give a finding or the first
// refusal that applies.
pub fn judge(p: &[u8], d: &[u8], area: &mut [u8]) -> ModelFinding
    ensures finding { finding_of result ≡ judging_of p.now d.now (length area.old) }
    ensures area { area.new ≡ area_after p.now (finding_of result) area.old }
{
    let n = read(p)?;
    let need = area_bytes(p, n);
    if area.len() < need {
        return Err(JudgeRefusal::Area);
    }
    check(d, Order::Rising)?;
    check_listed(p, n, d)?;
    Ok(judged(root_nodes(p, d, &mut area[..need])))
}

// The bytes of its working area that judging a model wants for a pattern, and zeroes; none for a pattern
// that is refused.
pub fn area_wanted(p: &[u8]) -> usize
    ensures { result ≡ area_wanted p.now }
{
    match read(p) {
        Ok(n) => area_bytes(p, n),
        Err(_) => 0,
    }
}
