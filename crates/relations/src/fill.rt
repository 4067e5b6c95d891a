// Rows of sets that are made one after the other.
ghost use Rattle.std.specs.Prelude.{ℕ, List, ◌<◌};
ghost use denote.Ref.{Bor};
ghost use Rattle.relations.specs.Covered.{RowsFit};
ghost use Rattle.relations.specs.Filled.{FilledBy, RuleGives};

use nodeset::NodeSet;

// The row of each node below n, from row `at` on, gets the set that a rule gives for the node: it sees
// the rows with those of the nodes before it made.
pub fn fill<R: Fn(&[u8], u8) -> NodeSet>(rows: &mut [u8], at: usize, n: u8, rule: R)
    requires rows_fit { RowsFit rows.old n at }
    requires callable { (u : ℕ) (made : Bor (List ℕ)) → u < n
        → FilledBy (RuleGives R.Fn rule) at u rows.old made.now → R.pre rule made u }
    ensures { FilledBy (RuleGives R.Fn rule) at n rows.old rows.new }
{
    for u in 0..n {
        let s = rule(rows, u);
        s.store(rows, at + (u as usize));
    }
}
