// What the table of the rules says of a rule's number: asked here alone, where a step is taken.
#![tactic(auto, unfolding(rules::specs::Rules::rule_at))]

ghost use Rattle.std.specs.Prelude.{◌≡◌, not};
ghost use Rattle.rules.specs.Rules.{rule_at, is_unknown};

// The documents' rules have the numbers from 1 to this one.
const LAST_RULE: u8 = 25;

pub fn is_known(rule: u8) -> bool
    ensures { result ≡ not (is_unknown (rule_at rule)) }
{
    matches!(rule, 1..=LAST_RULE)
}

// Whether the rule uses the line Q.
pub fn uses_q(rule: u8) -> bool
    ensures { result ≡ (rule_at rule).uses_q }
{
    matches!(rule, 6 | 15 | 19 | 20 | 21 | 22)
}

// Whether the rule uses the argument.
pub fn uses_argument(rule: u8) -> bool
    ensures { result ≡ (rule_at rule).uses_argument }
{
    matches!(rule, 5 | 14 | 18 | 19)
}
