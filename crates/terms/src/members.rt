// What a projection is replaced by before the rules: a member of its own.
// Kinds and tags are matched by number; the line in kinds.rt says why.
ghost use Rattle.terms.specs.Words.Lent.{shown, StandsFor, Fetches};
ghost use Rattle.std.specs.Prelude.{◌≡◌, Bool, ℕ, ◌≤◌};
ghost use Rattle.terms.specs.Term.{Term};
ghost use Rattle.terms.specs.Tree.{row};
ghost use Rattle.terms.specs.Normal.{member_from, own_member};
ghost use Rattle.terms.specs.Words.Arena.{Tree, Counts, Fetched};

use super::{Content, Origin, Records};

// A content of the records, and its counts of arguments and members. It stands here and not in lib.rt, for its fact is of `Arena`, which needs `Cursor`.
#[derive(Clone, Copy)]
pub struct Counted<'a> {
    pub records: &'a Records<'a>,
    pub content: Content,
    pub arguments: usize,
    pub members: usize,
    ghost counts: { Counts (shown records.now.seen.now) content.head arguments members },
}

impl<'a> Records<'a> {
    // A content with its counts, which are the numbers 1 and 2 of its row.
    pub fn with_counts(&'a self, x: Content) -> Counted<'a>
        ensures { (result.records.now ≡ self.now) × (result.content ≡ x) }
    {
        Counted {
            records: self,
            content: x,
            arguments: self.seen.number_at(x.head, 1),
            members: self.seen.number_at(x.head, 2),
        }
    }
}

impl<'a> Counted<'a> {
    // The member `key` of the nominal in a content's row, whose arguments begin after b terms.
    pub fn member_of(&self, b: usize, key: u32) -> Option<Content>
        requires start { b ≤ 1 }
        ensures { (S : ℕ → Bool) (t : Term)
            → StandsFor self.now.records.now S self.now.content t
            → Fetches self.now.records.now S (member_from b key (row t)) result }
    {
        let records = self.records;
        let i = records.seen.key_at(self.content.head, key)?;
        if self.members <= i {
            return None;
        }
        records.child_at(self.content, b + self.arguments + i)
    }

    // The interface's own member, and then a Trait receiver's, where the projection has no arguments; the counts are the interface's.
    pub fn own_member(&self) -> Option<Content>
        ensures { (S : ℕ → Bool) (t : Term)
            → StandsFor self.now.records.now S self.now.content t
            → Fetches self.now.records.now S (own_member (row t)) result }
    {
        let records = self.records;
        let key = records.seen.number_at(self.content.head, 3 + self.members) as u32;
        let argument = records.child_at(self.content, 1 + self.arguments + self.members);
        if argument.is_some() {
            return None;
        }
        let own = self.member_of(1, key);
        if own.is_some() {
            return own;
        }
        let y = records.child_at(self.content, 0)?;
        if records.seen.tag_at(y.head) != 15 {
            return None;
        }
        records.with_counts(y).member_of(0, key)
    }
}
