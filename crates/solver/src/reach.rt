// Whether a term has, bound variables replaced, a variable, or an Unknown or Error: one worklist over variables, so that the run of each
// bound variable is scanned once. The scratch is cut in two: a mark for each variable of the table, and the queue of the marked ones. Marks, queue
// and the queue's length are lent side by side: a struct with `Work` for its invariant was tried, and the check asks for the invariant between
// the two writes of `push`, where the queue has no entry yet. That the scratch is all 0 is a clause, here and where it is lent on: the line at `Table` in lib.rt.
// Kinds are numbers: the line in kinds.rt of terms says why.
ghost use Rattle.std.specs.Prelude.{◌≡◌, true, ℕ, suc, ◌+◌, ◌^◌, ◌≤◌, ◌<◌, length};
ghost use Rattle.std.proofs.Math.Option.{Option, none};
ghost use Rattle.terms.specs.Words.Tokens.{toks};
ghost use Rattle.terms.specs.Term.{Term, Held};
ghost use Rattle.solver.specs.Constrain.{resolve};
ghost use Rattle.solver.specs.Constrain as solving;
ghost use Rattle.solver.specs.Words.Bindings.{HeldBindings};
ghost use Rattle.solver.specs.Words.ChainEnds.{HeldEnd};
ghost use Rattle.solver.specs.Words.Worklist.{Zero, Work, Grown};
ghost use Rattle.solver.specs.Words.ReachContract.{question_of, counts, has, run_of, Told, asked, Steady, Free};
ghost use Rattle.solver.specs.Words.CongruenceClasses.{Clearing};

use super::resolving::{named_run, run_at};
use super::{ChainEnd, Run};
use terms::Tokens;

// What is asked for: an Unknown or Error, or a variable.
#[derive(Clone, Copy, Debug, PartialEq, Eq)]
pub enum Wanted {
    Recovery,
    Variable(u32),
}

impl Wanted {
    // Whether a token is what is asked for. Here and in `push` it comes as the two words that stand in the areas: a `Token` of them
    // would be made at each call and taken apart at once.
    #[tactic(auto, unfolding(crate::specs::Words::ReachContract::counts))]
    pub fn is_met(self, kind: u32, val: u32) -> bool
        ensures { result ≡ counts (question_of self) kind val }
    {
        match self {
            Wanted::Recovery => matches!(kind, 4 | 5),
            Wanted::Variable(v) => kind == 1 && v == val,
        }
    }
}

// Marks the variable of a token and puts it into the queue, if the token is one, the table has it, and it was not marked.
pub fn push(marks: &mut [u32], queue: &mut [u32], top: &mut usize, kind: u32, val: u32)
    requires { Work marks.old queue.old top.old × (length marks.old ≤ length queue.old) }
    ensures { Grown (λ (u : ℕ). counts (suc u) kind val ≡ true) marks.old queue.old top.old marks.new queue.new top.new }
{
    let at = val as usize;
    if kind == 1 && at < marks.len() && marks[at] == 0 {
        marks[at] = 1;
        queue[*top] = val;
        *top += 1;
    }
}

// Looks at the tokens of a run for what is asked for, and marks its variables.
pub fn scan(
    tokens: &Tokens,
    run: Run,
    want: Wanted,
    marks: &mut [u32],
    queue: &mut [u32],
    top: &mut usize,
) -> bool
    requires areas { run.at + run.len ≤ length tokens.now.kinds.now }
    requires work { Work marks.old queue.old top.old × (length marks.old ≤ length queue.old) }
    ensures hit { result ≡ has (question_of want) (toks tokens.now.kinds.now tokens.now.vals.now run.at run.len) }
    ensures grown { Grown (λ (u : ℕ). has (suc u) (toks tokens.now.kinds.now tokens.now.vals.now run.at run.len) ≡ true)
        marks.old queue.old top.old marks.new queue.new top.new }
{
    let mut hit = false;
    for i in 0..run.len {
        let k = tokens.kinds[run.at + i];
        let v = tokens.vals[run.at + i];
        hit |= want.is_met(k, v);
        push(marks, queue, top, k, v);
    }
    hit
}

// Sets the words of the places that stand in the queue, and the queue, back to 0.
pub fn clear_queue(marks: &mut [u32], queue: &mut [u32], top: usize)
    requires { Clearing marks.old queue.old top }
    ensures { Zero marks.new × Zero queue.new }
{
    for k in (0..top).rev() {
        let x = queue[k] as usize;
        marks[x] = 0;
        queue[k] = 0;
    }
}

// Whether the term at p has what is asked for, bound variables replaced: it and what its variables are bound to are looked at, each once, until what is
// asked for is met. The scratch is all 0 before and after. Tokens and bindings are lent apart, since a `Bindings` says that the
// tokens are fewer than 2 ^ 32, which is not asked here.
pub fn reaches(tokens: &Tokens, bound: &[u32], p: usize, want: Wanted, work: &mut [u32]) -> bool
    requires scratch { (length bound.now + length bound.now ≤ length work.old) × Zero work.old }
    ensures told { Told tokens.now.kinds.now tokens.now.vals.now bound.now (run_of tokens.now.kinds.now tokens.now.vals.now (p + 1)) (question_of want) result }
    ensures term { (t : Term) (b : ℕ → Option Term) (n : ℕ)
        → Held tokens.now.kinds.now tokens.now.vals.now p t
        → HeldBindings tokens.now.kinds.now tokens.now.vals.now bound.now b
        → Steady n b
        → Free (question_of want) b
        → result ≡ asked (question_of want) (resolve n b t) }
    ensures clear { Zero work.new }
{
    let (marks, queue) = work.split_at_mut(bound.len());
    let mut top = 0;
    let run = run_at(tokens, p).unwrap_or_default();
    let mut hit = scan(tokens, run, want, marks, queue, &mut top);
    let mut done = 0;
    // It goes on until nothing is pending, and a step may add to that.
    while !hit && done < top {
        let w = queue[done] as usize;
        let next = named_run(tokens, bound[w] as usize).unwrap_or_default();
        hit = scan(tokens, next, want, marks, queue, &mut top);
        done += 1;
    }
    clear_queue(marks, queue, top);
    hit
}

// Whether the unbound variable v is in the end q, bound variables replaced.
pub fn occurs(tokens: &Tokens, bound: &[u32], q: ChainEnd, v: u32, work: &mut [u32]) -> bool
    requires scratch { (length bound.now + length bound.now ≤ length work.old) × Zero work.old }
    ensures term { (t : Term) (b : ℕ → Option Term) (n : ℕ)
        → HeldEnd tokens.now.kinds.now tokens.now.vals.now t q
        → HeldBindings tokens.now.kinds.now tokens.now.vals.now bound.now b
        → Steady n b
        → b v ≡ none
        → result ≡ solving.occurs v (resolve n b t) }
    ensures clear { Zero work.new }
{
    match q {
        ChainEnd::At(p) => reaches(tokens, bound, p, Wanted::Variable(v), work),
        ChainEnd::Default(_) => false,
    }
}

// Whether an Unknown or Error is in the end q, bound variables replaced.
pub fn recovers(tokens: &Tokens, bound: &[u32], q: ChainEnd, work: &mut [u32]) -> bool
    requires scratch { (length bound.now + length bound.now ≤ length work.old) × Zero work.old }
    ensures term { (t : Term) (b : ℕ → Option Term) (n : ℕ)
        → HeldEnd tokens.now.kinds.now tokens.now.vals.now t q
        → HeldBindings tokens.now.kinds.now tokens.now.vals.now bound.now b
        → Steady n b
        → result ≡ solving.recovers (resolve n b t) }
    ensures clear { Zero work.new }
{
    match q {
        ChainEnd::At(p) => reaches(tokens, bound, p, Wanted::Recovery, work),
        ChainEnd::Default(_) => false,
    }
}
