// The order in which `map_children` comes to the children of a node.
// Kinds and tags are matched by number; the line in kinds.rt says why.
ghost use Rattle.std.specs.Prelude.{◌≡◌, ◌+◌, ◌-◌, ◌≤◌, ◌<◌};
ghost use Rattle.terms.specs.Tree.{class, nominal_slot, projection_slot, slot_by};

use super::{Begun, Class};

// The class of a tag.
impl From<u32> for Class {
    ghost use Rattle.std.specs.Prelude.{◌≡◌};
    ghost use Rattle.terms.specs.Tree.{class};
    ghost use Rattle.terms.specs.Words.SlotsContract.{class_number};

    ghost from_gives = { λ tag c. class_number c ≡ class tag };

    fn from(tag: u32) -> Class {
        match tag {
            12..=15 => Class::Nominal,
            18 => Class::Projection,
            _ => Class::Plain,
        }
    }
}

// Of a nominal with n arguments: members, then arguments.
fn nominal_slot(n: usize, c: usize, j: usize) -> usize
    requires { (n ≤ c) × (c < 4294967296) × (j < c) }
    ensures { (result ≡ nominal_slot n c j) × (result < c) }
{
    let a = c - n;
    if j < a {
        return n + j;
    }
    j - a
}

// Of a projection with n interface arguments and m interface members: arguments, receiver, interface members, interface arguments.
fn projection_slot(n: usize, m: usize, c: usize, j: usize) -> usize
    requires { (1 + n + m ≤ c) × (c < 4294967296) × (j < c) }
    ensures { (result ≡ projection_slot n m c j) × (result < c) }
{
    let a = c - (1 + n + m);
    if j < a {
        return 1 + n + m + j;
    }
    if j == a {
        return 0;
    }
    if j < c - n {
        return j + (1 + n) - (c - (n + m));
    }
    j + 1 - (c - n)
}

impl Begun {
    // Which of its children comes j-th, as a place in byte order.
    pub fn slot(self, j: usize) -> usize
        requires { (self.n < 4294967296) × (j < self.n) }
        ensures { (result ≡ slot_by (class self.tag) self.arguments self.members self.n j) × (result < self.n) }
    {
        match Class::from(self.tag) {
            Class::Plain => j,
            Class::Nominal => nominal_slot(self.arguments.min(self.n), self.n, j),
            Class::Projection => {
                let a = self.arguments.min(self.n - 1);
                projection_slot(a, self.members.min(self.n - 1 - a), self.n, j)
            }
        }
    }
}
