// The children of a content are put into records of their own.
// Kinds and tags are matched by number; the line in kinds.rt says why.
// Heads and kids are lent as two slices; the line in rows.rt says why.
ghost use Rattle.terms.specs.Words.Lent.{shown};
ghost use Rattle.std.specs.Prelude.{◌<◌};
ghost use Rattle.terms.specs.Words.Arena.{TagAt, OwnAt, RecordRoom, Opens, Prepares};

use super::questions::tag_of;
use super::rows::child_here;
use super::write::token_len;
use super::{Begun, Content, Origin, Seen};

impl<'a> Seen<'a> {
    // The tag of the term whose first token stands at h; 1 of a variable.
    pub fn tag_at(&self, h: u32) -> u32
        ensures { TagAt (shown self.now) h result }
    {
        tag_of(self.token(h as usize).kind)
    }

    // Puts the children of a content, in byte order, at the records next, next + 1, .. and says how many; None where they are too many. `next` and `most` are
    // no struct: from child to child `next` goes on and `most` stays, so it would be taken apart at each call.
    fn put_children(
        &self,
        heads: &mut [u32],
        kids: &mut [u32],
        x: Content,
        next: usize,
        most: usize,
    ) -> Option<usize>
        requires { RecordRoom self.now.tokens.kinds.now self.now.tokens.vals.now heads.old kids.old self.now.given next most }
        ensures { Opens (shown self.now) heads.old kids.old heads.new kids.new x.head x.kids
            next most result }
    {
        let mut n = 0;
        // Children are counted by hand: a step of `filter(..).enumerate()` is a run of numbers and a child, and the laws of a row go token by token.
        for (q, y) in self.walk_row(x.head) {
            if y.kind != 0 {
                if most <= next + n {
                    return None;
                }
                let z = child_here(heads, kids, x.kids, q, n);
                heads[next + n] = z.head;
                kids[next + n] = z.kids;
                n += 1;
            }
        }
        Some(n)
    }

    // Puts the children of a content into records, and says in which order they are to be visited: below the tag 12 in byte order, without the counts.
    // None where the children are too many.
    pub fn begin(
        &self,
        heads: &mut [u32],
        kids: &mut [u32],
        x: Content,
        next: usize,
        most: usize,
    ) -> Option<Begun>
        requires { RecordRoom self.now.tokens.kinds.now self.now.tokens.vals.now heads.old kids.old self.now.given next most }
        ensures { Prepares (shown self.now) heads.old kids.old heads.new kids.new x.head
            x.kids next most result }
    {
        let n = self.put_children(heads, kids, x, next, most)?;
        let tag = self.tag_at(x.head);
        if tag < 12 {
            return Some(Begun {
                n,
                tag,
                arguments: 0,
                members: 0,
            });
        }
        let arguments = self.number_at(x.head, 1);
        let members = self.number_at(x.head, 2);
        Some(Begun {
            n,
            tag,
            arguments,
            members,
        })
    }

    // How many bytes the term whose first token stands at h has besides those of its children.
    pub fn own_len(&self, h: u32) -> usize
        ensures bound { result < 34359738368 }
        ensures own { OwnAt (shown self.now) h result }
    {
        let x = self.token(h as usize);
        let mut n = token_len(x);
        for (_, y) in self.walk_row(h) {
            if y.kind == 0 {
                n += token_len(y);
            }
        }
        n
    }
}
