// The record of chains: of each issued variable the word of the end of its chain, and a tail, which names the variable at the end and has the family there
// (`ChainRecord` of the specs). A binding moves the ends that were at the variable, and no other.
// Kinds are numbers: the line in kinds.rt of terms says why.
ghost use Rattle.std.specs.Prelude.{◌≡◌, true, List, ℕ, ◌+◌, ◌*◌, ◌^◌, ◌≤◌, ◌<◌, length, get_or, eqb, suc};
ghost use Rattle.std.proofs.Math.Option.{none};
ghost use Rattle.terms.specs.Term.{Term};
ghost use Rattle.solver.specs.Session.{Session, issued, with_solver, request};
ghost use Rattle.solver.specs.Words.ChainEnds.{HeldEnd, Inside};
ghost use Rattle.solver.specs.Words.ConstrainContract.{Within};
ghost use Rattle.solver.specs.Words.SessionRepresentation.{RequestWord, request_in, Represents};
ghost use Rattle.solver.specs.Words.MethodContract.{Shaped, Beside, bound_to};
ghost use Rattle.solver.specs.Words.TableLayout.{lasting_words, tails_from};
ghost use Rattle.solver.specs.Words.ChainRecord.{named, shared, Coming, Last};
ghost use Rattle.solver.specs.Words.ChainWords.{Near, names, ChainsMoved, TailsSet};

use super::families::family_mask;
use super::layout::{ENDS, TAILS};
use super::top::variable_of;
use super::{ChainEnd, Solver};
use terms::Tokens;

// A tail names the variable at the end with 1 added, in its low half; it has a mask of ten types; and this bit where another chain ends at its own variable.
pub const SHARED: u32 = 1 << 26;

// Whether a tail names v.
fn tail_names(tail: u32, v: u32) -> bool
    requires { v < 65535 }
    ensures { result ≡ eqb (named tail) (suc v) }
{
    tail % 65536 == v + 1
}

// The chains of the first n variables that end at v end at this from now on. It is rare, and stays out of what each binding takes.
#[inline(never)]
fn move_chains(tables: &mut [u32], m: usize, n: usize, v: u32, end: u32, tail: u32)
    requires { (n ≤ m) × (m < 65536) × (v < m) × (lasting_words m ≤ length tables.old) }
    ensures { ChainsMoved m n v end tail tables.old tables.new }
{
    for u in 0..n {
        if tail_names(tables[TAILS * m + u], v) {
            tables[ENDS * m + u] = end;
            tables[TAILS * m + u] = tail;
        }
    }
}

// The tails of the first n variables that name v are this from now on. It is rare, too.
#[inline(never)]
fn set_tails(tables: &mut [u32], m: usize, n: usize, v: u32, tail: u32)
    requires { (n ≤ m) × (m < 65536) × (v < m) × (lasting_words m ≤ length tables.old) }
    ensures { TailsSet m n v tail tables.old tables.new }
{
    for u in 0..n {
        if tail_names(tables[TAILS * m + u], v) {
            tables[TAILS * m + u] = tail;
        }
    }
}

// The same where no other chain may end at v: without that, one variable is enough. It is taken into each binding, as `put_binding` is.
#[inline(always)]
pub fn move_ends(tables: &mut [u32], m: usize, n: usize, v: u32, end: u32, tail: u32)
    requires { (n ≤ m) × (m < 65536) × (v < n) × (lasting_words m ≤ length tables.old) }
    ensures moved { (eqb (named (get_or tables.old (tails_from m + v) 0)) (suc v) ≡ true)
        → (shared (get_or tables.old (tails_from m + v) 0) ≡ 0 → (u : ℕ) → names m n v tables.old u ≡ true → u ≡ v)
        → ChainsMoved m n v end tail tables.old tables.new }
    ensures near { Near m tables.old tables.new }
{
    let at = v as usize;
    if SHARED <= tables[TAILS * m + at] {
        move_chains(tables, m, n, v, end, tail);
    } else {
        tables[ENDS * m + at] = end;
        tables[TAILS * m + at] = tail;
    }
}

impl Solver {
    // The request of the issued variable v is this from now on; where chains end at v, so is their family.
    pub fn put_request(self, tables: &mut [u32], v: u32, word: u32)
        requires { Shaped self (length tables.old) × (v < self.issued) }
        ensures held { (ks vs : List ℕ) (s : Session)
            → RequestWord word
            → Coming (issued s) s.solver
            → Represents self ks vs tables.old s
            → Represents self ks vs tables.new (request s v (request_in word)) }
        ensures beside { Beside self self tables.old tables.new }
    {
        let m = self.variables;
        let at = v as usize;
        tables[m + at] = word;
        let own = tables[TAILS * m + at];
        if !tail_names(own, v) {
            return;
        }
        let tail = v + 1 + 65536 * (family_mask(word) % 1024);
        if own % SHARED == tail {
            return;
        }
        if SHARED <= own {
            set_tails(tables, m, self.issued, v, tail);
        }
        tables[TAILS * m + at] = tail + SHARED * (own / SHARED);
    }

    // The free variable v is bound to the end q: its chains end there from now on. The requests stay. It is taken into those who bind: apart, the solver and
    // the end went through memory, and terms of variables against builtins took 3.5% more instructions, typical scripts 1.7% more.
    #[inline(always)]
    pub fn put_binding(mut self, tokens: &Tokens, tables: &mut [u32], v: u32, q: ChainEnd) -> Solver
        requires shape { Shaped self (length tables.old) × (v < self.issued) }
        requires areas { Inside (length tokens.now.kinds.now) q × Inside 4294967295 q × (self.revision < 2 ^ 33) }
        ensures held { (s : Session) (t : Term)
            → Represents self tokens.now.kinds.now tokens.now.vals.now tables.old s
            → Coming (issued s) s.solver
            → s.solver.bindings v ≡ none
            → HeldEnd tokens.now.kinds.now tokens.now.vals.now t q
            → Last s.solver.bindings v t
            → Within (issued s) t
            → Represents result tokens.now.kinds.now tokens.now.vals.now tables.new (with_solver s (bound_to s.solver v t s.solver.requests)) }
        ensures counts { (result.revision ≡ self.revision + 1) × (result.issued ≡ self.issued) × (result.kept ≡ self.kept) }
        ensures beside { Beside self result tables.old tables.new }
    {
        let m = self.variables;
        let n = self.issued;
        let word = q.word();
        match variable_of(tokens, q) {
            Some(w) if (w as usize) < n => {
                let at = TAILS * m + w as usize;
                let tail = tables[at] % SHARED;
                move_ends(tables, m, n, v, word, tail);
                tables[at] = tail + SHARED;
            }
            _ => move_ends(tables, m, n, v, word, 0),
        }
        tables[v as usize] = word;
        self.revision += 1;
        self
    }
}
