// The rules of order 20.
// Kinds and tags are matched by number; the line in kinds.rt says why.
ghost use Rattle.terms.specs.Words.Lent.{shown, StandsFor, Fetches};
ghost use Rattle.std.specs.Prelude.{◌≡◌, Bool, true, false, List, ℕ, ◌+◌, ◌*◌, ◌≤◌, ◌<◌, length, get_or};
ghost use Rattle.terms.specs.Term.{Term, depths};
ghost use Rattle.terms.specs.Tree.{row};
ghost use Rattle.terms.specs.Lookup.{Pattern, by_patterns, Ruled};
ghost use Rattle.terms.specs.Words.Arena.{Tree, Fetched};
ghost use Rattle.terms.specs.Words.RulesContract.{TermStarts, Numbers, Fronted, MemberIn};

use super::rule_list::first_with;
use super::{Content, Cursor, Origin, Records, RowWalk, Rule, Seen};

// A term as it stands in the source.
pub fn source(p: u32) -> Content
    ensures { (result.head ≡ p) × (result.kids ≡ 0) }
{
    Content { head: p, kids: 0 }
}

impl<'a> Seen<'a> {
    // The term at p as a row of its own.
    fn term_cursor(&self, p: usize) -> Cursor
        requires small { p < 4294967296 }
        ensures { TermStarts (shown self.now) p result }
    {
        Cursor {
            at: p,
            end: self.end_at(p),
            child: 0,
            kids: 0,
        }
    }

    // Whether the number m stands at a place of a row that ends at `end`.
    fn number_next(&self, at: usize, end: usize, m: u32) -> bool
        ensures yes { result ≡ true
            → (at < end) × (get_or (shown self.now).kinds at 0 ≡ 0)
            × (get_or (shown self.now).vals at 0 ≡ m) }
        ensures no { result ≡ false
            → at < end
            → get_or (shown self.now).kinds at 0 ≡ 0
            → get_or (shown self.now).vals at 0 ≡ m
            → ⊥ }
    {
        let a = self.token(at);
        at < end && a.kind == 0 && a.value == m
    }

    // Whether two numbers come next in a row, and the place after them.
    fn two_numbers(&self, x: Cursor, m: u32, n: u32) -> Option<Cursor>
        ensures { Numbers (shown self.now) x m n result }
    {
        let at = x.at;
        if !self.number_next(at, x.end, m) {
            return None;
        }
        if !self.number_next(at + 1, x.end, n) {
            return None;
        }
        Some(Cursor {
            at: at + 2,
            end: x.end,
            child: x.child,
            kids: x.kids,
        })
    }

    // The last number but one of a row: of a projection's, its member.
    fn member_in(&self, x: Cursor) -> u32
        ensures { MemberIn (shown self.now) x result }
    {
        let row = RowWalk {
            seen: *self,
            at: x.at,
            end: x.end,
        };
        let mut before = 0;
        let mut last = 0;
        for (_, y) in row {
            if y.kind == 0 {
                before = last;
                last = y.value;
            }
        }
        before
    }
}

impl<'a> Records<'a> {
    // Whether a row begins with what a rule has before its arguments, and the place after that.
    fn same_front(&self, x: Cursor, rule: Rule, fuel: usize) -> Option<Cursor>
        ensures { Fronted self.now.seen.now.tokens.kinds.now self.now.seen.now.tokens.vals.now (shown self.now.seen.now) self.now.heads.now
            self.now.kids.now x rule fuel result }
    {
        let receiver = self.seen.term_cursor(rule.receiver as usize);
        let x = self.same_rows(x, receiver, fuel)?;
        let interface = self.seen.cursor(source(rule.interface));
        let x = self.same_rows(x, interface, fuel)?;
        self.seen.two_numbers(x, rule.member, rule.count)
    }

    // The value of the first rule whose four parts equal those of a projection; its children have at most `fuel` levels. The member is
    // looked for first, in the list of the rules; rule and argument walk are left together at the match.
    pub fn find_rule(&self, rules: &[Rule], x: Content, fuel: usize) -> Option<Content>
        ensures { (S : ℕ → Bool) (t : Term) (rs : List Pattern)
            → StandsFor self.now S x t
            → depths (row t) ≤ fuel
            → Ruled self.now.seen.now.tokens.kinds.now self.now.seen.now.tokens.vals.now rules.now rs
            → Fetches self.now S (by_patterns rs (row t)) result }
    {
        let s = self.seen.cursor(x);
        let member = self.seen.member_in(s);
        let mut r = 0;
        // Rules are skipped to the next with the member, and arguments are as wide as they say. Both are left at the match, in the inner loop (document 01): the
        // arguments left are counted down, so that it is there that none is left.
        'rules: loop {
            r += first_with(&rules[r..], member)?;
            let rule = rules[r];
            let mut m = self.same_front(s, rule, fuel);
            let mut a = rule.arguments;
            let mut left = rule.count;
            while let Some(z) = m {
                if left == 0 {
                    if z.end <= z.at {
                        break 'rules;
                    }
                    break;
                }
                let argument = self.seen.term_cursor(a as usize);
                m = self.same_rows(z, argument, fuel);
                a = argument.end as u32;
                left -= 1;
            }
            r += 1;
        }
        Some(source(rules[r].value))
    }
}
