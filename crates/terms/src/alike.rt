// Whether two contents stand for the same tree, each as in the source or built.
// Kinds and tags are matched by number; the line in kinds.rt says why.
ghost use Rattle.terms.specs.Words.Lent.{shown};
ghost use Rattle.std.specs.Prelude.{◌≡◌, ◌&&◌, ◌+◌, eqb, leb, length, get_or};
ghost use Rattle.terms.specs.Words.Held.{span};
ghost use Rattle.terms.specs.Words.Arena.{Alike, Begins, Starts};

use super::rows::child_here;
use super::runs::same_term;
use super::{Content, Cursor, Origin, Records, Seen, Tokens};

impl<'a> Seen<'a> {
    // The start of a content's row.
    pub fn cursor(&self, x: Content) -> Cursor
        ensures { Starts (shown self.now) x result }
    {
        let part = self.row_of(x.head);
        Cursor {
            at: part.from,
            end: part.end,
            child: 0,
            kids: x.kids,
        }
    }
}

// Whether a content is as in the source and all its tokens are lent. `has_projection` and `fixed_nodes` ask the like of a term of at least one token; here a
// head whose span is 0 is lent too, as the clause says.
fn is_lent(tokens: &Tokens, x: Content) -> bool
    ensures { result
        ≡ (eqb x.kids 0 && leb (x.head + span (get_or tokens.now.kinds.now x.head 0) (get_or tokens.now.vals.now x.head 0)) (length tokens.now.kinds.now)) }
{
    let p = x.head as usize;
    x.kids == 0 && p + tokens.token(p).span() <= tokens.kinds.len()
}

impl<'a> Records<'a> {
    // The place in x after all the parts that are at y, where those at x begin with them; the children at x have at most `fuel` levels.
    #[cycle(comparing)]
    pub fn same_rows(&self, x: Cursor, y: Cursor, fuel: usize) -> Option<Cursor>
        ensures { Begins (shown self.now.seen.now) self.now.heads.now self.now.kids.now x y fuel result }
    {
        // A `PairWalk` goes over lent tokens; here they are seen ones with children in records, and the first row is left where the second ends.
        let mut p = x.at;
        let mut i = x.child;
        let mut q = y.at;
        let mut j = y.child;
        while q < y.end {
            if x.end <= p {
                return None;
            }
            let s = self.seen.token(p);
            let t = self.seen.token(q);
            if t.kind == 0 {
                if s.kind != 0 || s.value != t.value {
                    return None;
                }
                p += 1;
                q += 1;
            } else {
                if s.kind == 0 {
                    return None;
                }
                let a = child_here(self.heads, self.kids, x.kids, p, i);
                let b = child_here(self.heads, self.kids, y.kids, q, j);
                if !self.same_trees(a, b, fuel) {
                    return None;
                }
                i += 1;
                j += 1;
                p += s.step();
                q += t.step();
            }
        }
        Some(Cursor {
            at: p,
            end: x.end,
            child: i,
            kids: x.kids,
        })
    }

    // Whether two contents stand for the same tree; the first has at most `fuel` levels. Lent ones are compared token by token.
    #[cycle(comparing)]
    pub fn same_trees(&self, x: Content, y: Content, fuel: usize) -> bool
        ensures { Alike (shown self.now.seen.now) self.now.heads.now self.now.kids.now x y fuel result }
    {
        if fuel == 0 {
            return false;
        }
        let s = self.seen.token(x.head as usize);
        let t = self.seen.token(y.head as usize);
        if s.kind != t.kind {
            return false;
        }
        if s.kind == 1 {
            return s.value == t.value;
        }
        if is_lent(&self.seen.tokens, x) {
            if is_lent(&self.seen.tokens, y) {
                return same_term(&self.seen.tokens, x.head as usize, y.head as usize);
            }
        }
        let a = self.seen.cursor(x);
        let b = self.seen.cursor(y);
        // no `is_some_and`: in a cycle of calls its closure needs clauses of its own, which are longer than the `let else`
        let Some(z) = self.same_rows(a, b, fuel - 1) else {
            return false;
        };
        z.end <= z.at
    }
}
