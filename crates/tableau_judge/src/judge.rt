// Judging a tableau: document 01's refusals in its order, and then closed with its counts.
ghost use Rattle.std.specs.Prelude.{◌≡◌, length};
ghost use Rattle.pattern.specs.Checks.Finding.{found};
ghost use Rattle.pattern.specs.File.Reading.{reading_of};
ghost use Rattle.tableau.specs.Judging.{judging_of, area_after, finding_of};

use crate::header::{HEADER, Header, read_header};
use branch_walk::check_steps;
use names::used_names;
use pattern_read::read;
use tableau::finding::{TableauFinding, TableauRefusal};

// The bytes that judging wants of its working area, and zeroes: 1,024 lines of 8.
pub const AREA: usize = 8192;

// Judges a tableau for a pattern that was read, of n entries.
fn judge_read(p: &[u8], n: u8, t: &[u8], area: &mut [u8]) -> TableauFinding
    requires { reading_of p.now ≡ found n }
    ensures finding { finding_of result ≡ judging_of p.now t.now (length area.old) }
    ensures area { area.new ≡ area_after (finding_of result) area.old }
{
    if area.len() < AREA {
        return Err(TableauRefusal::Area);
    }
    let used = used_names(p, n);
    let Header { start, steps } = read_header(used, t)?;
    check_steps(p, n, used, &t[HEADER..], &mut area[..AREA], start, steps)
}

// Judges a tableau: any bytes as pattern, as tableau and as working area give a finding or the first
// refusal that applies.
pub fn judge(p: &[u8], t: &[u8], area: &mut [u8]) -> TableauFinding
    ensures finding { finding_of result ≡ judging_of p.now t.now (length area.old) }
    ensures area { area.new ≡ area_after (finding_of result) area.old }
{
    let n = read(p)?;
    judge_read(p, n, t, area)
}
