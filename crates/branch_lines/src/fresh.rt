// Names that are fresh: "not used in the pattern and on no line of the branch".
ghost use Rattle.std.specs.Prelude.{◌≡◌, List, ℕ, ◌*◌, ◌≤◌, length};
ghost use Rattle.pattern.specs.Meaning.Names.{uses_name};
ghost use Rattle.names.specs.Set.{SetOf};
ghost use Rattle.lines.specs.Lines.{branch_has, is_fresh};
ghost use Rattle.branch_lines.specs.Stored.{lines_from};

use crate::stored::line_has;
use names::NameSet;
use pattern::types::Name;

// Whether a branch of so many lines has the name: "a branch has a name if its first line has it or the
// rest, asked the same way, has it". The search stops at the first line that has it.
fn branch_has(area: &[u8], len: usize, name: Name) -> bool
    requires { 8 * len ≤ length area.now }
    ensures { result ≡ branch_has (lines_from area.now 0 len) name.number }
{
    for k in 0..len {
        if line_has(area, k, name) {
            return true;
        }
    }
    false
}

// Whether the name is fresh on a branch of so many lines, for a pattern that uses these names.
pub fn is_fresh(used: NameSet, area: &[u8], len: usize, name: Name) -> bool
    requires { 8 * len ≤ length area.now }
    ensures { (bs : List ℕ) → SetOf (uses_name bs) used → result ≡ is_fresh bs (lines_from area.now 0 len) name.number }
{
    if used.has(name.number) {
        return false;
    }
    !branch_has(area, len, name)
}
