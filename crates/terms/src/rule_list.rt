// The rules, scanned for a member.
ghost use Rattle.std.specs.Prelude.{◌≡◌};
ghost use Rattle.terms.specs.Words.RuleListContract.{has_member, first_with};

use super::Rule;

// Whether a rule has the member.
fn has_member(rule: Rule, member: u32) -> bool
    ensures { result ≡ has_member rule member }
{
    rule.member == member
}

// The index of the first rule that has the member.
pub fn first_with(rules: &[Rule], member: u32) -> Option<usize>
    ensures { result ≡ first_with rules.now member }
{
    rules.iter().position(|rule| has_member(*rule, member))
}
