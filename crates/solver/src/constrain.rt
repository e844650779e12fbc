// `constrain`: the Rust's loop over pending pairs, a check each. The pairs stand after the columns of the table, which is cut in two there; a
// word a pair, the last is taken first. Kinds are numbers: the line in kinds.rt of terms says why.
ghost use Rattle.std.specs.Prelude.{◌≡◌, ◌||◌, List, ℕ, ◌+◌, ◌*◌, ◌≤◌, ◌<◌, eqb, length, drop};
ghost use Rattle.terms.specs.Term.{Term, Held, size};
ghost use Rattle.solver.specs.Shapes.{notion, same_shape};
ghost use Rattle.solver.specs.Constrain as solving;
ghost use Rattle.solver.specs.Constrain.{Pair, recovery, projects, decompose};
ghost use Rattle.solver.specs.Session.{Session, issued};
ghost use Rattle.solver.specs.Invariant.{InOrder};
ghost use Rattle.solver.specs.declared.ChainEnd.TheVariants.{At, Default};
ghost use Rattle.solver.specs.Words.ChainEnds.{is_builtin};
ghost use Rattle.solver.specs.Words.Worklist.{Zero};
ghost use Rattle.solver.specs.Words.SessionRepresentation.{Represents};
ghost use Rattle.solver.specs.Words.OrderTerms.{PosesPair};
ghost use Rattle.solver.specs.Words.PendingContract.{strict_of};
ghost use Rattle.solver.specs.Words.ConstrainContract.{Waiting, Known, Scratch, CheckRoom, Facing, Nodes, Met, Due, After, Constrained, Posed, pending_from};

use super::equality::same_terms;
use super::families::admissible;
use super::layout::lasting_words;
use super::pending::{push_children, put_pair, same_shape, take_pair};
use super::reach::{occurs, recovers};
use super::resolving::clear_words;
use super::top::{code_at, shallow_resolve, variable_of};
use super::{Access, Builtin, ChainEnd, Checked, PairAt, Solved, Solver, Table, Verdict};
use terms::Tokens;

// Whether a token is the head of an Unknown or Error.
fn heads_recovery(kind: u32) -> bool
    ensures { result ≡ (eqb kind 4 || eqb kind 5) }
{
    matches!(kind, 4 | 5)
}

// Whether a token is one, or another is.
pub fn either_recovers(left: u32, right: u32) -> bool
    ensures { result ≡ ((eqb left 4 || eqb left 5) || (eqb right 4 || eqb right 5)) }
{
    heads_recovery(left) || heads_recovery(right)
}

// Whether a default and the node at q are compatible: it is a recovery term, or the same builtin.
fn meets_default(tokens: &Tokens, q: usize, b: Builtin) -> bool
    requires { q < length tokens.now.kinds.now }
    ensures { (t : Term) → Held tokens.now.kinds.now tokens.now.vals.now q t → result ≡ (recovery t || is_builtin b.code t) }
{
    heads_recovery(tokens.kinds[q]) || code_at(tokens, q) == Some(b.code)
}

impl Solver {
    // What a check leaves: the solver, whether the pair is compatible so far, and how many pairs are pending.
    fn checked(self, good: bool, count: usize) -> Checked
        ensures { result ≡ record { solver = self; good = good; count = count } }
    {
        Checked {
            solver: self,
            good,
            count,
        }
    }

    // The unbound variable v meets the end q: recovery, then the family, then whether the variable occurs. It is taken into the two
    // functions that follow, each of one kind of end.
    #[inline(always)]
    pub fn unify_variable(
        self,
        tokens: &Tokens,
        table: &mut [u32],
        work: &mut [u32],
        v: u32,
        q: ChainEnd,
        count: usize,
    ) -> Checked
        requires faces { (s : Session) × (t : Term) × Facing self tokens.now.kinds.now tokens.now.vals.now table.old s v q t }
        requires room { (self.variables + self.variables ≤ length work.old) × Zero work.old }
        ensures after { (s : Session) (t a b : Term) (ps : List Pair) (st : List ℕ)
            → Facing self tokens.now.kinds.now tokens.now.vals.now table.old s v q t
            → Waiting tokens.now.kinds.now tokens.now.vals.now st count ps
            → After self tokens.now.kinds.now tokens.now.vals.now table.old table.new st st s a b count (solving.bind s.solver v t ps) result }
        ensures clear { Zero work.new }
    {
        // Both are lent from one borrow: the borrow checker does not cover a slice that is lent whole where a part of it is lent.
        let lent = &table[..];
        let bound = &lent[..self.variables];
        if recovers(tokens, bound, q, work) {
            return self.checked(true, count);
        }
        let read = Table {
            words: lent,
            variables: self.variables,
        };
        if !admissible(tokens, &read, v, q) || occurs(tokens, bound, q, v, work) {
            return self.checked(false, count);
        }
        self.bind(tokens, table, v, q).checked(true, count)
    }

    // It meets the term at p.
    fn unify_term(
        self,
        tokens: &Tokens,
        table: &mut [u32],
        work: &mut [u32],
        v: u32,
        p: usize,
        count: usize,
    ) -> Checked
        requires faces { (s : Session) × (t : Term) × Facing self tokens.now.kinds.now tokens.now.vals.now table.old s v (At p) t }
        requires room { (self.variables + self.variables ≤ length work.old) × Zero work.old }
        ensures after { (s : Session) (t a b : Term) (ps : List Pair) (st : List ℕ)
            → Facing self tokens.now.kinds.now tokens.now.vals.now table.old s v (At p) t
            → Waiting tokens.now.kinds.now tokens.now.vals.now st count ps
            → After self tokens.now.kinds.now tokens.now.vals.now table.old table.new st st s a b count (solving.bind s.solver v t ps) result }
        ensures clear { Zero work.new }
    {
        self.unify_variable(tokens, table, work, v, ChainEnd::At(p), count)
    }

    // It meets a default. It stays out of the loop over pairs, whose words then stay in registers: taken in, short scripts took 0.5% more instructions.
    #[inline(never)]
    fn unify_default(
        self,
        tokens: &Tokens,
        table: &mut [u32],
        work: &mut [u32],
        v: u32,
        d: Builtin,
        count: usize,
    ) -> Checked
        requires faces { (s : Session) × (t : Term) × Facing self tokens.now.kinds.now tokens.now.vals.now table.old s v (Default d) t }
        requires room { (self.variables + self.variables ≤ length work.old) × Zero work.old }
        ensures after { (s : Session) (t a b : Term) (ps : List Pair) (st : List ℕ)
            → Facing self tokens.now.kinds.now tokens.now.vals.now table.old s v (Default d) t
            → Waiting tokens.now.kinds.now tokens.now.vals.now st count ps
            → After self tokens.now.kinds.now tokens.now.vals.now table.old table.new st st s a b count (solving.bind s.solver v t ps) result }
        ensures clear { Zero work.new }
    {
        self.unify_variable(tokens, table, work, v, ChainEnd::Default(d), count)
    }

    // It meets the end q. Each kind of end has a function of its own, which a place or a builtin is handed to by value. An end that is handed on whole goes
    // through memory: so a session of few orders took 1.7% more instructions.
    #[inline(always)]
    fn unify_end(
        self,
        tokens: &Tokens,
        table: &mut [u32],
        work: &mut [u32],
        v: u32,
        q: ChainEnd,
        count: usize,
    ) -> Checked
        requires faces { (s : Session) × (t : Term) × Facing self tokens.now.kinds.now tokens.now.vals.now table.old s v q t }
        requires room { (self.variables + self.variables ≤ length work.old) × Zero work.old }
        ensures after { (s : Session) (t a b : Term) (ps : List Pair) (st : List ℕ)
            → Facing self tokens.now.kinds.now tokens.now.vals.now table.old s v q t
            → Waiting tokens.now.kinds.now tokens.now.vals.now st count ps
            → After self tokens.now.kinds.now tokens.now.vals.now table.old table.new st st s a b count (solving.bind s.solver v t ps) result }
        ensures clear { Zero work.new }
    {
        match q {
            ChainEnd::At(p) => self.unify_term(tokens, table, work, v, p, count),
            ChainEnd::Default(d) => self.unify_default(tokens, table, work, v, d, count),
        }
    }

    // The nodes at a and b: recovery, then projections, then the shapes.
    fn decompose_nodes(
        self,
        tokens: &Tokens,
        pending: &mut [u32],
        a: usize,
        b: usize,
        access: Access,
        count: usize,
    ) -> Checked
        requires nodes { (t u : Term) × Nodes self tokens.now.kinds.now tokens.now.vals.now a b count t u }
        requires room { (self.nodes ≤ length pending.old) × (length tokens.now.kinds.now ≤ 65536) }
        ensures after { (s : Session) (t u : Term) (ps : List Pair) (ts : List ℕ)
            → Represents self tokens.now.kinds.now tokens.now.vals.now ts s
            → Nodes self tokens.now.kinds.now tokens.now.vals.now a b count t u
            → Waiting tokens.now.kinds.now tokens.now.vals.now pending.old count ps
            → After self tokens.now.kinds.now tokens.now.vals.now ts ts pending.old pending.new s t u count
            (decompose s.solver t u ps (recovery t || recovery u) (projects t) (same_shape (notion (strict_of access)) t u)) result }
    {
        if either_recovers(tokens.kinds[a], tokens.kinds[b]) {
            return self.checked(true, count);
        }
        if tokens.kinds[a] == 20 || !same_shape(tokens, a, b, access) {
            return self.checked(false, count);
        }
        let top = push_children(tokens, a, b, pending, count);
        self.checked(true, top)
    }

    // The nodes that are the ends a and b: a default has no parts, and is no projection.
    pub fn decompose(
        self,
        tokens: &Tokens,
        pending: &mut [u32],
        a: ChainEnd,
        b: ChainEnd,
        access: Access,
        count: usize,
    ) -> Checked
        requires met { (t u : Term) × Met self tokens.now.kinds.now tokens.now.vals.now a b count t u }
        requires room { (self.nodes ≤ length pending.old) × (length tokens.now.kinds.now ≤ 65536) }
        ensures after { (s : Session) (t u : Term) (ps : List Pair) (ts : List ℕ)
            → Represents self tokens.now.kinds.now tokens.now.vals.now ts s
            → Met self tokens.now.kinds.now tokens.now.vals.now a b count t u
            → Waiting tokens.now.kinds.now tokens.now.vals.now pending.old count ps
            → After self tokens.now.kinds.now tokens.now.vals.now ts ts pending.old pending.new s t u count
            (decompose s.solver t u ps (recovery t || recovery u) (projects t) (same_shape (notion (strict_of access)) t u)) result }
    {
        match (a, b) {
            (ChainEnd::At(i), ChainEnd::At(j)) => self.decompose_nodes(
                tokens, pending, i, j, access, count,
            ),
            (ChainEnd::At(i), ChainEnd::Default(c)) => self.checked(
                meets_default(tokens, i, c),
                count,
            ),
            (ChainEnd::Default(c), ChainEnd::At(j)) => self.checked(
                meets_default(tokens, j, c),
                count,
            ),
            (ChainEnd::Default(c), ChainEnd::Default(d)) => self.checked(c.code == d.code, count),
        }
    }

    // One check: a pair, with `count` pairs pending below it.
    pub fn check_pair(
        self,
        tokens: &Tokens,
        table: &mut [u32],
        pending: &mut [u32],
        work: &mut [u32],
        pair: PairAt,
        access: Access,
        count: usize,
    ) -> Checked
        requires due { (s : Session) × (t u : Term) × Due self tokens.now.kinds.now tokens.now.vals.now table.old s pair.left pair.right count t u }
        requires room { CheckRoom self tokens.now.kinds.now pending.old work.old }
        ensures after { (s : Session) (t u : Term) (ps : List Pair)
            → Due self tokens.now.kinds.now tokens.now.vals.now table.old s pair.left pair.right count t u
            → Waiting tokens.now.kinds.now tokens.now.vals.now pending.old count ps
            → After self tokens.now.kinds.now tokens.now.vals.now table.old table.new pending.old pending.new s (solving.top s.solver t)
            (solving.top s.solver u) count (solving.check_pair (notion (strict_of access)) s.solver t u ps) result }
        ensures clear { Zero work.new }
    {
        let chains = self.chains(*tokens, table);
        if same_terms(&chains, pair.left, pair.right, work) {
            return self.checked(true, count);
        }
        let a = shallow_resolve(tokens, chains.bound, pair.left);
        let b = shallow_resolve(tokens, chains.bound, pair.right);
        if let Some(v) = variable_of(tokens, a) {
            return self.unify_end(tokens, table, work, v, b, count);
        }
        if let Some(v) = variable_of(tokens, b) {
            return self.unify_end(tokens, table, work, v, a, count);
        }
        self.decompose(tokens, pending, a, b, access, count)
    }

    // The loop: the terms at p and q are constrained to be equal, with k checks.
    pub fn solve_pair(
        mut self,
        tokens: &Tokens,
        tables: &mut [u32],
        work: &mut [u32],
        p: usize,
        q: usize,
        k: u32,
        access: Access,
    ) -> Solved
        requires held { (s : Session) × (t u : Term) × InOrder (issued s) s.solver × Represents self tokens.now.kinds.now tokens.now.vals.now tables.old s
            × Known tokens.now.kinds.now tokens.now.vals.now s p t × Known tokens.now.kinds.now tokens.now.vals.now s q u }
        requires room { Scratch self tokens.now.kinds.now tables.old work.old × Zero (drop (pending_from self) tables.old) }
        ensures solved { (s : Session) (t u : Term)
            → InOrder (issued s) s.solver
            → Represents self tokens.now.kinds.now tokens.now.vals.now tables.old s
            → Known tokens.now.kinds.now tokens.now.vals.now s p t
            → Known tokens.now.kinds.now tokens.now.vals.now s q u
            → Constrained self tokens.now.kinds.now tokens.now.vals.now tables.old tables.new s
            (solving.constrain (notion (strict_of access)) k s.solver t u) result }
        ensures clear { Zero work.new }
    {
        let (table, pending) = tables.split_at_mut(lasting_words(self.variables));
        let mut count = put_pair(pending, 0, p, q);
        let mut left = k;
        let mut verdict = Verdict::Compatible;
        // It goes on until nothing is pending, and a step may add to that.
        while 0 < count {
            if left == 0 {
                clear_words(pending, count);
                return Solved {
                    solver: self,
                    verdict: Verdict::Cancelled,
                };
            }
            left -= 1;
            count -= 1;
            let pair = take_pair(pending, count);
            let r = self.check_pair(tokens, table, pending, work, pair, access, count);
            self = r.solver;
            count = r.count;
            if !r.good {
                verdict = Verdict::Incompatible;
            }
        }
        Solved {
            solver: self,
            verdict,
        }
    }

    // Orders 4 and 22: the two terms after the session's tokens, the second at q, are constrained to be equal, with k checks; `nodes` counts the kept
    // nodes and theirs. Where a variable was bound their tokens are the session's from now on; else they are given back, and no node is kept.
    pub fn constrain(
        mut self,
        tokens: &Tokens,
        tables: &mut [u32],
        work: &mut [u32],
        q: usize,
        k: u32,
        nodes: usize,
        access: Access,
    ) -> Solved
        requires held { (s : Session) × (t u : Term) × PosesPair self tokens.now.kinds.now tokens.now.vals.now tables.old s q t u
            × (nodes ≡ s.kept + (size t + size u)) }
        requires room { Scratch self tokens.now.kinds.now tables.old work.old × Zero (drop (pending_from self) tables.old) }
        ensures solved { (s : Session) (t u : Term)
            → PosesPair self tokens.now.kinds.now tokens.now.vals.now tables.old s q t u
            → nodes ≡ s.kept + (size t + size u)
            → Posed self tokens.now.kinds.now tokens.now.vals.now tables.old tables.new s (size t + size u)
            (solving.constrain (notion (strict_of access)) k s.solver t u) result }
        ensures clear { Zero work.new }
    {
        let p = self.top;
        let kept = self.kept;
        let revision = self.revision;
        self.kept = nodes;
        let kinds = tokens.kinds;
        self.top = kinds.len();
        let r = self.solve_pair(tokens, tables, work, p, q, k, access);
        let verdict = r.verdict;
        self = r.solver;
        if self.revision == revision {
            self.kept = kept;
            self.top = p;
        }
        Solved {
            solver: self,
            verdict,
        }
    }
}
