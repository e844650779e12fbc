// The pending pairs of `constrain`: whether two nodes have the same shape, and their children put on in pairs. Pair j stands in the word j:
// its left place, and 65,536 times its right place. The words and the count are lent side by side, for the reason at `Table` in lib.rt.
// Kinds are numbers: the line in kinds.rt of terms says why.
// A place is put on as half a word, so `push_range` and `push_children` ask that the tokens are at most 65,536, and `decompose` asks it for them.
// `same_shape` asks that they are fewer than 2 ^ 32, as `bind` and `bindings` do. Neither is a fact of `Tokens`: the operations on terms
// need it nowhere, and would ask it of their callers. `Bindings` has the latter as a fact, but with words of variables, which these functions do not look at.
ghost use Rattle.std.specs.Prelude.{Some, unwrap_or, ◌≡◌, [], ◌∷◌, not, ◌&&◌, ◌||◌, ℕ, ◌+◌, ◌*◌, ◌^◌, ◌≤◌, ◌<◌, eqb, length, get_or};
ghost use Rattle.terms.specs.Term.{Parts, node, Held};
ghost use Rattle.terms.specs.Words.Held.{HeldParts};
ghost use Rattle.terms.specs.Tree.{nums, children};
ghost use Rattle.solver.specs.Shapes.{notion, same_shape};
ghost use Rattle.solver.specs.Words.PendingContract.{strict_of, Laid, Taken, places, PushedPairs, Twins, agree, window, PartEnd, NumberAt};

use super::{Access, Counted, PairAt};
use terms::{PairStep, Part, Tokens, skip, walk_pair};

// Where the part at i ends, or end where it would go past it.
pub fn part_end(tokens: &Tokens, i: usize, end: usize) -> usize
    requires { (i < end) × (end ≤ length tokens.now.kinds.now) }
    ensures { PartEnd tokens.now.kinds.now tokens.now.vals.now i end result }
{
    i + skip(tokens, i, end - i)
}

// The row of the node at a: its parts.
pub fn row_of(tokens: &Tokens, a: usize) -> Part
    requires { a < length tokens.now.kinds.now }
    ensures { (result.from ≡ a + 1) × PartEnd tokens.now.kinds.now tokens.now.vals.now a (length tokens.now.kinds.now) result.end }
{
    Part {
        from: a + 1,
        end: part_end(tokens, a, tokens.kinds.len()),
    }
}

// Whether the parts at i and j agree, but for the terms that they are, and for the access where it is ignored.
pub fn parts_agree(tokens: &Tokens, i: usize, j: usize, access: Access) -> bool
    requires { (i < length tokens.now.kinds.now) × (j < length tokens.now.kinds.now) }
    ensures { result ≡ agree (not (strict_of access)) (get_or tokens.now.kinds.now i 0) (get_or tokens.now.vals.now i 0)
        (get_or tokens.now.kinds.now j 0) (get_or tokens.now.vals.now j 0) }
{
    if tokens.kinds[i] != 0 {
        return tokens.kinds[j] != 0;
    }
    if tokens.kinds[j] != 0 {
        return false;
    }
    match access {
        Access::Ignored => true,
        Access::Compared => tokens.vals[i] == tokens.vals[j],
    }
}

// What counts of a head: that of a Map or a Set is an access, that of another counts in any case.
pub fn access_of(kind: u32, access: Access) -> Access
    ensures { not (strict_of result) ≡ (not (strict_of access) && (eqb kind 12 || eqb kind 13)) }
{
    match kind {
        12 | 13 => access,
        _ => Access::Compared,
    }
}

// Whether the nodes at a and b have the same shape: heads of one kind, and rows of parts that agree.
pub fn same_shape(tokens: &Tokens, a: usize, b: usize, access: Access) -> bool
    requires { (a < length tokens.now.kinds.now) × (b < length tokens.now.kinds.now) × (length tokens.now.kinds.now < 2 ^ 32) }
    ensures { (k j : ℕ) (ps qs : Parts)
        → Held tokens.now.kinds.now tokens.now.vals.now a (node k ps)
        → Held tokens.now.kinds.now tokens.now.vals.now b (node j qs)
        → result ≡ same_shape (notion (strict_of access)) (node k ps) (node j qs) }
{
    if tokens.kinds[a] != tokens.kinds[b] {
        return false;
    }
    let x = row_of(tokens, a);
    let y = row_of(tokens, b);
    let mut counts = access_of(tokens.kinds[a], access);
    for step in walk_pair(tokens, x, y) {
        match step {
            // `parts_agree` looks at the kinds again. By `counts` and the values alone a sheet of deep terms took 3 percent more instructions.
            PairStep::Numbers(i, j) => {
                if !parts_agree(tokens, i, j, counts) {
                    return false;
                }
            }
            PairStep::Terms(_, _) => {}
            PairStep::Apart => return false,
        }
        counts = Access::Compared;
    }
    true
}

// Where the first number of a row stands.
pub fn number_from(tokens: &Tokens, row: Part) -> Option<usize>
    requires { (row.from ≤ row.end) × (row.end ≤ length tokens.now.kinds.now) }
    ensures place { (i : ℕ) → result ≡ Some i → i < row.end }
    ensures number { (ps : Parts) → HeldParts tokens.now.kinds.now tokens.now.vals.now row.from row.end ps
        → NumberAt tokens.now.kinds.now tokens.now.vals.now (unwrap_or result row.end) row.end ps }
{
    let mut i = row.from;
    // A step is as wide as what stands there. A `RowWalk` would ask that the row ends below 2 ^ 32, which is not told here.
    while i < row.end {
        if tokens.kinds[i] == 0 {
            return Some(i);
        }
        i = part_end(tokens, i, row.end);
    }
    None
}

// The second number of the row of the node at a: of a nominal, how many arguments it has.
pub fn second_number(tokens: &Tokens, a: usize) -> Option<usize>
    requires { a < length tokens.now.kinds.now }
    ensures { (k : ℕ) (ps : Parts) → Held tokens.now.kinds.now tokens.now.vals.now a (node k ps)
        → unwrap_or result 0 ≡ get_or (nums ps) 1 0 }
{
    let row = row_of(tokens, a);
    let p = number_from(tokens, row)?;
    let rest = Part {
        from: p + 1,
        end: row.end,
    };
    let q = number_from(tokens, rest)?;
    Some(tokens.vals[q] as usize)
}

// Puts a pair on top of the pending ones, and returns how many there are then.
pub fn put_pair(pending: &mut [u32], top: usize, i: usize, j: usize) -> usize
    requires room { top < length pending.old }
    requires small { (i < 65536) × (j < 65536) }
    ensures { Laid (i ∷ []) (j ∷ []) top pending.old pending.new result }
{
    pending[top] = i as u32 + 65536 * j as u32;
    top + 1
}

// Takes pair m off, and sets its word to 0.
pub fn take_pair(pending: &mut [u32], m: usize) -> PairAt
    requires { m < length pending.old }
    ensures { Taken m pending.old pending.new result.left result.right }
{
    let word = pending[m];
    pending[m] = 0;
    PairAt {
        left: (word % 65536) as usize,
        right: (word / 65536) as usize,
    }
}

// Puts the terms at i and j on as a pair, if their index is from lo up to hi.
pub fn push_part(
    pending: &mut [u32],
    from: Counted,
    i: usize,
    j: usize,
    lo: usize,
    hi: usize,
) -> Counted
    requires room { from.top + length (window lo hi from.child (i ∷ [])) ≤ length pending.old }
    requires small { (from.child < 65536) × (i < 65536) × (j < 65536) }
    ensures child { result.child ≡ from.child + 1 }
    ensures laid { Laid (window lo hi from.child (i ∷ [])) (window lo hi from.child (j ∷ [])) from.top pending.old pending.new result.top }
{
    let mut top = from.top;
    if lo <= from.child && from.child < hi {
        top = put_pair(pending, top, i, j);
    }
    Counted {
        child: from.child + 1,
        top,
    }
}

// Puts the children of the nodes at a and b on in pairs, those with an index from lo up to hi. It is taken into each of its calls, where lo or hi is known:
// apart, checks of short rows, as in a sheet of 200 levels of Sets, took 7% more instructions.
#[inline(always)]
pub fn push_range(
    tokens: &Tokens,
    a: usize,
    b: usize,
    lo: usize,
    hi: usize,
    pending: &mut [u32],
    count: usize,
) -> usize
    requires areas { (a < length tokens.now.kinds.now) × (b < length tokens.now.kinds.now) × (length tokens.now.kinds.now ≤ 65536) }
    requires room { (w : Twins tokens.now.kinds.now tokens.now.vals.now a b)
        × (count + length (window lo hi 0 (places (a + 1) w.left)) ≤ length pending.old) }
    ensures { (k j : ℕ) (ps qs : Parts)
        → Held tokens.now.kinds.now tokens.now.vals.now a (node k ps)
        → Held tokens.now.kinds.now tokens.now.vals.now b (node j qs)
        → Laid (window lo hi 0 (places (a + 1) ps)) (window lo hi 0 (places (b + 1) qs)) count pending.old pending.new result }
{
    let x = row_of(tokens, a);
    let y = row_of(tokens, b);
    let mut c = Counted {
        child: 0,
        top: count,
    };
    // Children are counted by hand: the steps at numbers come between, and what `enumerate` ensures over a filter is told of runs of steps.
    for step in walk_pair(tokens, x, y) {
        if let PairStep::Terms(t, u) = step {
            c = push_part(pending, c, t.from, u.from, lo, hi);
        }
    }
    c.top
}

// Puts the children of two nodes of one shape on in pairs, as `map_children` comes to them: a nominal's members, then its arguments;
// others in byte order. Returns how many pairs are pending then.
pub fn push_children(
    tokens: &Tokens,
    a: usize,
    b: usize,
    pending: &mut [u32],
    count: usize,
) -> usize
    requires areas { (a < length tokens.now.kinds.now) × (b < length tokens.now.kinds.now) × (length tokens.now.kinds.now ≤ 65536) }
    requires room { (w : Twins tokens.now.kinds.now tokens.now.vals.now a b)
        × (count + length (children (node w.tag w.left)) ≤ length pending.old) }
    ensures { (k j : ℕ) (ps qs : Parts)
        → Held tokens.now.kinds.now tokens.now.vals.now a (node k ps)
        → Held tokens.now.kinds.now tokens.now.vals.now b (node j qs)
        → PushedPairs tokens.now.kinds.now tokens.now.vals.now a b (node k ps) (node j qs) count pending.old pending.new result }
{
    let all = tokens.kinds.len();
    match tokens.kinds[a] {
        14..=17 => {
            let n = second_number(tokens, a).unwrap_or(0);
            let top = push_range(tokens, a, b, n, all, pending, count);
            push_range(tokens, a, b, 0, n, pending, top)
        }
        _ => push_range(tokens, a, b, 0, all, pending, count),
    }
}
