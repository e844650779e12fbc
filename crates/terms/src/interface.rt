// Order 19: a projection is looked up in the given interface, or made anew through it.
ghost use Rattle.terms.specs.Words.Lent.{shown, StandsFor, Fetches};
ghost use Rattle.std.specs.Prelude.{◌≡◌, Bool, Some, ℕ, ◌+◌, ◌≤◌, ◌<◌, length, get_or, unwrap_or, IfSome};
ghost use Rattle.terms.specs.Words.VirtualTokens.{LentAt};
ghost use Rattle.terms.specs.Term.{Term, Parts, depth};
ghost use Rattle.terms.specs.Tree.{row, tag};
ghost use Rattle.terms.specs.Lookup.{output, through, HeldGiven};
ghost use Rattle.terms.specs.Words.Arena.{Tree, Fetched};

use super::members::Counted;
use super::rows::NOWHERE;
use super::rules::source;
use super::virtual_tokens::locate;
use super::{Content, Origin, Records, Seen, Spot};

impl<'a> Seen<'a> {
    // The lent token whose value the number at p has; where it has none's, the number is 0.
    fn lent_place(&self, p: usize) -> Option<usize>
        ensures within { IfSome result (λ q. q < length self.now.tokens.kinds.now) }
        ensures at { LentAt self.now.tokens.kinds.now self.now.tokens.vals.now self.now.given p (unwrap_or result (length self.now.tokens.kinds.now)) }
    {
        let len = self.tokens.kinds.len();
        let Spot::Lent(q) = locate(self.given, len, p) else {
            return None;
        };
        (q < len).then_some(q)
    }
}

impl<'a> Records<'a> {
    // The interface's term for the member at p, or the projection made anew.
    fn output(&self, given: Origin, p: usize) -> Content
        ensures { (S : ℕ → Bool) (i : Parts) (owner : Term)
            → self.now.seen.now.given ≡ Some given
            → HeldGiven self.now.seen.now.tokens.kinds.now self.now.seen.now.tokens.vals.now given i owner
            → get_or (shown self.now.seen.now).kinds p 0 ≡ 0
            → StandsFor self.now S result
            (output owner i (get_or (shown self.now.seen.now).vals p 0)) }
    {
        let seen = self.seen;
        let x = seen.token(p);
        let interface = self.with_counts(source(given.interface));
        let known = interface.member_of(0, x.value);
        if let Some(y) = known {
            return y;
        }
        let len = seen.tokens.kinds.len();
        let t = seen.lent_place(p).unwrap_or(len);
        // the width by what is seen, and not by `given`: that these are one is asked only by the promise, and this width keeps the place within bounds
        let width = seen.given.map_or(0, Origin::width);
        source((len + 1 + t * width) as u32)
    }
}

impl<'a> Counted<'a> {
    // What the given interface has for a projection with the interface's counts; its children have at most `fuel` levels.
    pub fn by_interface(&self, given: Origin, fuel: usize) -> Option<Content>
        requires low { fuel < 4294967296 }
        ensures { (S : ℕ → Bool) (t : Term) (i : Parts) (owner : Term)
            → StandsFor self.now.records.now S self.now.content t
            → tag t ≡ 18
            → depth t ≤ fuel + 1
            → self.now.records.now.seen.now.given ≡ Some given
            → HeldGiven self.now.records.now.seen.now.tokens.kinds.now self.now.records.now.seen.now.tokens.vals.now given i owner
            → Fetches self.now.records.now S (through i owner (row t)) result }
    {
        let records = self.records;
        let argument = records.child_at(self.content, 1 + self.arguments + self.members);
        if argument.is_some() {
            return None;
        }
        if records.seen.number_at(self.content.head, 0)
            != records.seen.number_at(given.interface, 0)
        {
            return None;
        }
        let y = records.child_at(self.content, 0)?;
        if !records.same_trees(y, source(given.owner), fuel) {
            return None;
        }
        // a projection that has no such number is looked up by 0, as in the definition: a place past all tokens has it
        let p = records
            .seen
            .number_place(self.content.head, 3 + self.members)
            .unwrap_or(NOWHERE);
        let value = records.output(given, p);
        if records.same_trees(self.content, value, fuel + 1) {
            return None;
        }
        Some(value)
    }
}
