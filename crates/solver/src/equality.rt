// Equality of resolved terms in polynomial time, by classes of token places: union-find without path compression, where a place is linked below
// a lower one. A place is linked once, and only nodes are linked, so there are fewer links than nodes; the row of each place that is linked is walked once.
// The scratch is cut in two: a link of half a word for each place, 0 where it heads its class and else y + 1 for the place y that it is linked to; and the
// queue of the places that are linked, in the order in which that happened, each in a word with the place that it is linked to. Links, queue and the number
// of links are lent side by side, as in the search for a variable: `Wired` does not hold between the two writes of `link`, so it cannot be the invariant of
// a struct that holds them; so each function that joins asks for `Wired` and promises `Advanced`. Kinds are numbers: the line in kinds.rt of terms says why.
ghost use Rattle.std.specs.Prelude.{true, false, List, ◌≡◌, ℕ, ◌+◌, ◌*◌, ◌≤◌, ◌<◌, length, get_or, set};
ghost use Rattle.std.proofs.Math.Option.{Option};
ghost use Rattle.terms.specs.Term.{Term, Parts, node};
ghost use Rattle.terms.specs.Words.Held.{Held};
ghost use Rattle.terms.specs.Words.Lent.{PartOf};
ghost use Rattle.terms.specs.Tree.{same};
ghost use Rattle.solver.specs.Constrain.{resolve, follow};
ghost use Rattle.solver.specs.Words.ChainEnds.{HeldEnd, Inside};
ghost use Rattle.solver.specs.Words.Halves.{halves, half_words};
ghost use Rattle.solver.specs.Words.Lent.{HeldBy, RowBy, Ends};
ghost use Rattle.solver.specs.Words.Worklist.{Zero};
ghost use Rattle.solver.specs.Words.ReachContract.{Steady, Topped};
ghost use Rattle.solver.specs.Words.SessionRepresentation.{begins};
ghost use Rattle.solver.specs.Words.CongruenceClasses.{Wired, Advanced, Unlinking, Up, HeldSteady, stands_for, Standing, Coincide, Linked};
ghost use Rattle.solver.specs.Words.CongruenceClasses.{Fair, Outcome};
ghost use Rattle.solver.specs.Words.CongruenceClasses.{Closed, TermsJoined, RowsJoined};

use super::halves::{fill_half, half_at};
use super::pending::row_of;
use super::top::{code_at, shallow_resolve};
use super::{Bindings, ChainEnd};
use terms::{PairStep, Part, Tokens, walk_pair};

// The root of the class of a: a itself where its word is 0, as most are.
fn find(links: &[u32], a: usize) -> usize
    requires { (a < length (halves links.now)) × ((x : ℕ) → get_or (halves links.now) x 0 ≤ x) }
    ensures { (result < length (halves links.now)) × (get_or (halves links.now) result 0 ≡ 0) × Up (halves links.now) a result }
{
    if links[a / 2] == 0 {
        return a;
    }
    let mut r = a;
    let mut up = half_at(links, r);
    // It goes up the links; how many there are is not known.
    while up != 0 {
        r = up - 1;
        up = half_at(links, r);
    }
    r
}

// Links the root x below the lower place y, as the next entry of the queue.
fn link(links: &mut [u32], queue: &mut [u32], top: &mut usize, x: usize, y: usize)
    requires room { (x < length (halves links.old)) × (top.old < length queue.old) }
    requires root { (get_or (halves links.old) x 0 ≡ 0) × (y < x) × (x < 65536) }
    ensures { (halves links.new ≡ set (halves links.old) x (y + 1)) × (queue.new ≡ set queue.old top.old (x + 65536 * y)) × (top.new ≡ top.old + 1) }
{
    fill_half(links, x, y + 1);
    queue[*top] = (x + 65536 * y) as u32;
    *top += 1;
}

// Puts the nodes at a and b, of one tag, into one class. The places are compared, and the lower and the higher one are not made first: with that a sheet of
// 200 levels took 3% more instructions.
#[inline(always)]
fn union_classes(
    kinds: &[u32],
    a: usize,
    b: usize,
    links: &mut [u32],
    queue: &mut [u32],
    top: &mut usize,
)
    requires places { (a < length kinds.now) × (b < length kinds.now) × (2 ≤ get_or kinds.now a 0) × (get_or kinds.now a 0 ≡ get_or kinds.now b 0) }
    requires wired { Wired kinds.now (halves links.old) queue.old top.old }
    ensures advanced { Advanced kinds.now (halves links.old) queue.old top.old (halves links.new) queue.new top.new }
    ensures terms { (vs : List ℕ) (σ : ℕ → Term) (τ : Term → Term) (t u : Term)
        → Standing σ τ
        → Held kinds.now vs a (τ t)
        → Held kinds.now vs b (τ u)
        → Fair kinds.now vs (halves links.old)
        → Outcome kinds.now vs σ (halves links.old) (halves links.new) true
        (Linked kinds.now vs τ (halves links.new) t u) (Coincide σ t u) }
{
    let x = find(links, a);
    let y = find(links, b);
    if x < y {
        link(links, queue, top, y, x);
    } else if y < x {
        link(links, queue, top, x, y);
    }
}

// Puts the terms at a and b, which are tops, into one class, unless they differ in their first tokens.
#[inline(always)]
fn union_places(
    tokens: &Tokens,
    a: usize,
    b: usize,
    links: &mut [u32],
    queue: &mut [u32],
    top: &mut usize,
) -> bool
    requires places { (a < length tokens.now.kinds.now) × (b < length tokens.now.kinds.now) }
    requires wired { Wired tokens.now.kinds.now (halves links.old) queue.old top.old }
    ensures advanced { Advanced tokens.now.kinds.now (halves links.old) queue.old top.old (halves links.new) queue.new top.new }
    ensures terms { (σ : ℕ → Term) (τ : Term → Term) (t u : Term)
        → Standing σ τ
        → Held tokens.now.kinds.now tokens.now.vals.now a (τ t)
        → Held tokens.now.kinds.now tokens.now.vals.now b (τ u)
        → Fair tokens.now.kinds.now tokens.now.vals.now (halves links.old)
        → Outcome tokens.now.kinds.now tokens.now.vals.now σ (halves links.old) (halves links.new) result
        (Linked tokens.now.kinds.now tokens.now.vals.now τ (halves links.new) t u) (Coincide σ t u) }
{
    if tokens.kinds[a] != tokens.kinds[b] {
        return false;
    }
    if tokens.kinds[a] < 2 {
        return tokens.vals[a] == tokens.vals[b];
    }
    union_classes(tokens.kinds, a, b, links, queue, top);
    true
}

// Puts the terms at i and j into one class, unless their tops differ: what they stand for is looked up. It is taken into the join of the first pair, which most
// often is all there is to do: with a call there, sessions of few orders and terms of variables against builtins took 2% more instructions.
#[inline(always)]
fn union_ends(
    bindings: &Bindings,
    i: usize,
    j: usize,
    links: &mut [u32],
    queue: &mut [u32],
    top: &mut usize,
) -> bool
    requires places { (i < length bindings.now.tokens.kinds.now) × (j < length bindings.now.tokens.kinds.now) }
    requires wired { Wired bindings.now.tokens.kinds.now (halves links.old) queue.old top.old }
    ensures advanced { Advanced bindings.now.tokens.kinds.now (halves links.old) queue.old top.old (halves links.new) queue.new top.new }
    ensures terms { (b : ℕ → Option Term) (t u : Term)
        → HeldSteady bindings.now b
        → HeldBy bindings.now i t
        → HeldBy bindings.now j u
        → TermsJoined bindings.now b (halves links.old) (halves links.new) result t u }
{
    let tokens = &bindings.tokens;
    let a = shallow_resolve(tokens, bindings.bound, i);
    let b = shallow_resolve(tokens, bindings.bound, j);
    match (a, b) {
        (ChainEnd::At(x), ChainEnd::At(y)) => union_places(tokens, x, y, links, queue, top),
        (ChainEnd::At(x), ChainEnd::Default(c)) => code_at(tokens, x) == Some(c.code),
        (ChainEnd::Default(c), ChainEnd::At(y)) => code_at(tokens, y) == Some(c.code),
        (ChainEnd::Default(c), ChainEnd::Default(d)) => c.code == d.code,
    }
}

// The same, out of line: where the loop over rows comes to nodes alone, as in a sheet of 200 levels, it took 5 percent more instructions with this in it.
#[inline(never)]
fn union_apart(
    bindings: &Bindings,
    i: usize,
    j: usize,
    links: &mut [u32],
    queue: &mut [u32],
    top: &mut usize,
) -> bool
    requires places { (i < length bindings.now.tokens.kinds.now) × (j < length bindings.now.tokens.kinds.now) }
    requires wired { Wired bindings.now.tokens.kinds.now (halves links.old) queue.old top.old }
    ensures advanced { Advanced bindings.now.tokens.kinds.now (halves links.old) queue.old top.old (halves links.new) queue.new top.new }
    ensures terms { (b : ℕ → Option Term) (t u : Term)
        → HeldSteady bindings.now b
        → HeldBy bindings.now i t
        → HeldBy bindings.now j u
        → TermsJoined bindings.now b (halves links.old) (halves links.new) result t u }
{
    union_ends(bindings, i, j, links, queue, top)
}

// Puts the terms at i and j into one class, unless their tops differ. Most are nodes of one tag, and stand for themselves. The number of links is lent in a
// copy of its own to the rare call, so that it stays in a register where there is none: a sheet of 200 levels took 1.4% more instructions without.
#[inline(always)]
fn union_terms(
    bindings: &Bindings,
    i: usize,
    j: usize,
    links: &mut [u32],
    queue: &mut [u32],
    top: &mut usize,
) -> bool
    requires places { (i < length bindings.now.tokens.kinds.now) × (j < length bindings.now.tokens.kinds.now) }
    requires wired { Wired bindings.now.tokens.kinds.now (halves links.old) queue.old top.old }
    ensures advanced { Advanced bindings.now.tokens.kinds.now (halves links.old) queue.old top.old (halves links.new) queue.new top.new }
    ensures terms { (b : ℕ → Option Term) (t u : Term)
        → HeldSteady bindings.now b
        → HeldBy bindings.now i t
        → HeldBy bindings.now j u
        → TermsJoined bindings.now b (halves links.old) (halves links.new) result t u }
{
    let kinds = bindings.tokens.kinds;
    if kinds[i] < 2 || kinds[i] != kinds[j] {
        let mut count = *top;
        let good = union_apart(bindings, i, j, links, queue, &mut count);
        *top = count;
        return good;
    }
    union_classes(kinds, i, j, links, queue, top);
    true
}

// Joins the terms of two rows of parts, one after the other, unless the rows differ in a number or in where their terms stand.
fn union_rows(
    bindings: &Bindings,
    a: Part,
    b: Part,
    links: &mut [u32],
    queue: &mut [u32],
    top: &mut usize,
) -> bool
    requires places { PartOf bindings.now.tokens.kinds.now a × PartOf bindings.now.tokens.kinds.now b }
    requires wired { Wired bindings.now.tokens.kinds.now (halves links.old) queue.old top.old }
    ensures advanced { Advanced bindings.now.tokens.kinds.now (halves links.old) queue.old top.old (halves links.new) queue.new top.new }
    ensures terms { (h : ℕ → Option Term) (ps qs : Parts)
        → HeldSteady bindings.now h
        → RowBy bindings.now a ps
        → RowBy bindings.now b qs
        → RowsJoined bindings.now h (halves links.old) (halves links.new) result ps qs }
{
    for step in walk_pair(&bindings.tokens, a, b) {
        match step {
            PairStep::Numbers(i, j) => {
                if bindings.tokens.vals[i] != bindings.tokens.vals[j] {
                    return false;
                }
            }
            PairStep::Terms(x, y) => {
                if !union_terms(bindings, x.from, y.from, links, queue, top) {
                    return false;
                }
            }
            PairStep::Apart => return false,
        }
    }
    true
}

// Joins the parts of the nodes at x and y.
fn union_parts(
    bindings: &Bindings,
    x: usize,
    y: usize,
    links: &mut [u32],
    queue: &mut [u32],
    top: &mut usize,
) -> bool
    requires places { (x < length bindings.now.tokens.kinds.now) × (y < length bindings.now.tokens.kinds.now) }
    requires wired { Wired bindings.now.tokens.kinds.now (halves links.old) queue.old top.old }
    ensures advanced { Advanced bindings.now.tokens.kinds.now (halves links.old) queue.old top.old (halves links.new) queue.new top.new }
    ensures terms { (b : ℕ → Option Term) (k l : ℕ) (ps qs : Parts)
        → HeldSteady bindings.now b
        → HeldBy bindings.now x (node k ps)
        → HeldBy bindings.now y (node l qs)
        → RowsJoined bindings.now b (halves links.old) (halves links.new) result ps qs }
{
    let a = row_of(&bindings.tokens, x);
    let b = row_of(&bindings.tokens, y);
    union_rows(bindings, a, b, links, queue, top)
}

// Joins the parts of every place that is linked, those that come to be linked on the way too, until a difference shows.
fn close_congruence(
    bindings: &Bindings,
    links: &mut [u32],
    queue: &mut [u32],
    top: &mut usize,
) -> bool
    requires wired { Wired bindings.now.tokens.kinds.now (halves links.old) queue.old top.old }
    ensures advanced { Advanced bindings.now.tokens.kinds.now (halves links.old) queue.old top.old (halves links.new) queue.new top.new }
    ensures terms { (b : ℕ → Option Term)
        → HeldSteady bindings.now b
        → Fair bindings.now.tokens.kinds.now bindings.now.tokens.vals.now (halves links.old)
        → Closed bindings.now.tokens.kinds.now bindings.now.tokens.vals.now (stands_for bindings.now.most b) (follow bindings.now.most b)
        (halves links.old) (halves links.new) result }
{
    let mut done = 0;
    // It goes on until nothing is pending, and a step may add to that.
    while done < *top {
        let entry = queue[done] as usize;
        let x = entry % 65536;
        let y = entry / 65536;
        if !union_parts(bindings, x, y, links, queue, top) {
            return false;
        }
        done += 1;
    }
    true
}

// Sets the words of the links of the places that stand in the queue, and the queue, back to 0. The other half of such a word is one of these links, or 0.
#[inline(never)]
fn unlink(links: &mut [u32], queue: &mut [u32], top: usize)
    requires { Unlinking (halves links.old) queue.old top }
    ensures { Zero links.new × Zero queue.new }
{
    for k in (0..top).rev() {
        let x = queue[k] as usize % 65536;
        links[x / 2] = 0;
        queue[k] = 0;
    }
}

// The same, and no call where nothing is linked. With the loop in `same_terms` a sheet of 200 levels took 0.7% more instructions.
fn clear_links(links: &mut [u32], queue: &mut [u32], top: usize)
    requires { Unlinking (halves links.old) queue.old top }
    ensures { Zero links.new × Zero queue.new }
{
    if top > 0 {
        unlink(links, queue, top);
    }
}

// Whether the terms at p and q are the same, bound variables replaced: they are joined, and all that follows from it. The words of
// the scratch are 0 before and after.
pub fn same_terms(bindings: &Bindings, p: usize, q: usize, work: &mut [u32]) -> bool
    requires places { (p < length bindings.now.tokens.kinds.now) × (q < length bindings.now.tokens.kinds.now) }
    requires room { (half_words (length bindings.now.tokens.kinds.now) + begins bindings.now.tokens.kinds.now ≤ length work.old)
        × (length bindings.now.tokens.kinds.now ≤ 65536) × Zero work.old }
    ensures clear { Zero work.new }
    ensures term { (t u : Term) (b : ℕ → Option Term)
        → HeldBy bindings.now p t
        → HeldBy bindings.now q u
        → Ends bindings.now b
        → Steady bindings.now.most b
        → Topped bindings.now.most b
        → result ≡ same (resolve bindings.now.most b t) (resolve bindings.now.most b u) }
{
    let (links, queue) = work.split_at_mut((bindings.tokens.kinds.len() + 1) / 2);
    let mut top = 0;
    let equal = union_ends(bindings, p, q, links, queue, &mut top)
        && close_congruence(bindings, links, queue, &mut top);
    clear_links(links, queue, top);
    equal
}
