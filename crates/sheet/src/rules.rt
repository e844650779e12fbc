// Rules: each is five fields that are read by a layout of their own, and a record that tells where these stand. The reading functions are lent
// the place; where they refuse it is of no use.
// Kinds and values that are written are lent as two slices: docs/DECISIONS.md, "How are the tokens lent?".
// `Ample` and `Free` are clauses: fields.rt says why.
ghost use Rattle.std.specs.Prelude.{◌≡◌, set};
ghost use Rattle.solver.specs.Terms.Tokens.{area};
ghost use Rattle.solver.specs.Terms.Outcomes.{step_of};
ghost use Rattle.sheet.specs.Fields.{rule, rule_list};
ghost use Rattle.sheet.specs.Words.FieldLayout.{Free, Ample, rule_from, WordsFit, RuleDone, RulesDone};

use super::fields::PlainField;
use super::layout::read_layout;
use super::{FieldSpots, Sort};
use solver::{Place, Refusal, Rule, clear_tokens};

// The layout of a rule: interface, receiver, the number of a member, arguments and value.
const RULE: [Sort; 5] = [
    Sort::Nominal,
    Sort::Term,
    Sort::Number,
    Sort::Arguments,
    Sort::Term,
];

// Stores the r-th rule, from its spots, where there is room; by its index, as `put_word` of terms.
fn keep_rule(rules: &mut [Rule], r: u64, o: FieldSpots)
    requires { WordsFit o }
    ensures { rules.new ≡ set rules.old r (rule_from o) }
{
    let i = r as usize;
    if i < rules.len() {
        rules[i] = Rule {
            interface: o.first.place as u32,
            receiver: o.second.place as u32,
            member: o.third.value as u32,
            arguments: o.fourth.place as u32,
            count: o.fourth.value as u32,
            value: o.fifth.place as u32,
        };
    }
}

// The r-th rule; on a refusal nothing of it remains in the areas.
fn read_rule(
    s: &[u8],
    kinds: &mut [u32],
    vals: &mut [u32],
    rules: &mut [Rule],
    place: &mut Place,
    r: u64,
    issued: u64,
) -> Result<(), Refusal>
    requires ample { Ample s.now place.old }
    requires free { Free place.old.top (area kinds.old vals.old) }
    ensures { RuleDone (rule s.now issued place.old.at) s.now place.old
        (area kinds.old vals.old) (area kinds.new vals.new) r rules.old rules.new
        (step_of result place.new) }
{
    let o = read_layout::<PlainField>(s, kinds, vals, rules, place, &RULE, issued)?;
    keep_rule(rules, r, o);
    Ok(())
}

// `count` rules; on a refusal nothing of them remains in the areas. `read_layout` clears so, too: a function of both would take what reads one as a closure
// that borrows the areas.
pub fn read_rules(
    s: &[u8],
    kinds: &mut [u32],
    vals: &mut [u32],
    rules: &mut [Rule],
    place: &mut Place,
    count: u64,
    issued: u64,
) -> Result<(), Refusal>
    requires ample { Ample s.now place.old }
    requires free { Free place.old.top (area kinds.old vals.old) }
    ensures { RulesDone (rule_list s.now issued count place.old.at) s.now place.old
        (area kinds.old vals.old) (area kinds.new vals.new) count rules.new
        (step_of result place.new) }
{
    let first = place.top;
    for r in 0..count {
        let last = place.top;
        if let Err(refusal) = read_rule(s, kinds, vals, rules, place, r, issued) {
            clear_tokens(kinds, vals, first, last - first);
            return Err(refusal);
        }
    }
    Ok(())
}
