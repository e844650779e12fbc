// A term is written with its binders replaced. The replaced terms are written as they stand, straight from the areas: nothing is built, and an
// inserted term is not looked into. Each Generic and each SelfType costs a search through the rows and the parameters; all else is linear in the
// tokens read and the bytes written.
// Kinds and tags are matched by number; the line in kinds.rt says why.
ghost use Rattle.std.specs.Prelude.{◌≡◌, ◌+◌, ◌≤◌, ◌<◌, length};
ghost use Rattle.std.proofs.lemmas.List.Edits.{sets};
ghost use Rattle.terms.specs.Result.{pick};
ghost use Rattle.terms.specs.Words.FindContract.{argument_for};
ghost use Rattle.terms.specs.Words.Lent.{PartOf, spelt_in};
ghost use Rattle.terms.specs.Words.RewriteContract.{by, index, entry_for, generic, in_context_of, generic_for, self_for, chosen, piece, pace, Space, Inside};
ghost use Rattle.terms.specs.Words.RewriteContract.{rewritten, written, Writes, Rewrites};
ghost use Rattle.terms.specs.Words.ShowingContract.{writes};

use super::find::{find_entry, find_receiver, nth_term};
use super::runs::{skip, term_part, word};
use super::write::{run_len, write_run};
use super::{Choice, Parameter, Parameters, Part, Pass, Purpose, Rewriter, Tokens};

// What was found, or the term itself.
fn taken(found: Option<usize>) -> Choice
    ensures { result ≡ by found Choice.Keep }
{
    found.map_or(Choice::Keep, Choice::By)
}

// Writes a run of tokens, or only counts its bytes. A trait with a sink that writes and one that counts is no plainer: its laws say of each what
// `pick (writes pass)` says of both, and each function up to the orders would take a type for `pass`.
#[inline(always)]
fn emit_run(tokens: &Tokens, run: Part, out: &mut [u8], i: usize, pass: Pass) -> usize
    requires run { PartOf tokens.now.kinds.now run }
    requires space { Space (writes pass) i (length (spelt_in tokens.now.kinds.now tokens.now.vals.now run)) (length out.old) }
    ensures next { result ≡ i + length (spelt_in tokens.now.kinds.now tokens.now.vals.now run) }
    ensures wrote { out.new ≡ pick (writes pass) (sets out.old i (spelt_in tokens.now.kinds.now tokens.now.vals.now run)) out.old }
{
    match pass {
        Pass::Count => i + run_len(tokens.kinds, tokens.vals, run),
        Pass::Write => write_run(tokens.kinds, tokens.vals, run, out, i),
    }
}

// Writes what takes the place of the term at p, or only counts its bytes.
#[inline(always)]
fn emit(tokens: &Tokens, c: Choice, p: usize, out: &mut [u8], i: usize, pass: Pass) -> usize
    requires areas { (p < length tokens.now.kinds.now) × Inside tokens.now.kinds.now c }
    requires space { Space (writes pass) i (length (piece tokens.now.kinds.now tokens.now.vals.now p c)) (length out.old) }
    ensures next { result ≡ i + length (piece tokens.now.kinds.now tokens.now.vals.now p c) }
    ensures wrote { out.new ≡ pick (writes pass) (sets out.old i (piece tokens.now.kinds.now tokens.now.vals.now p c)) out.old }
{
    match c {
        Choice::Keep => {
            let own = Part {
                from: p,
                end: p + 1,
            };
            emit_run(tokens, own, out, i, pass)
        }
        Choice::By(q) => emit_run(tokens, term_part(tokens, q), out, i, pass),
        Choice::Unknown => {
            match pass {
                Pass::Count => {}
                Pass::Write => out[i] = 2,
            }
            i + 1
        }
    }
}

// How many tokens from p on it stands for.
#[inline(always)]
fn pace(tokens: &Tokens, c: Choice, p: usize, end: usize) -> usize
    requires { (p < end) × (end ≤ length tokens.now.kinds.now) }
    ensures { result ≡ pace tokens.now.kinds.now tokens.now.vals.now p end c }
{
    match c {
        Choice::Keep => 1,
        Choice::By(_) | Choice::Unknown => skip(tokens, p, end - p),
    }
}

impl<'a> Rewriter<'a> {
    // Of a family, whose arguments stand from a place on, the one for a parameter, where it is one.
    fn argument_for(
        &self,
        parameters: &Parameters,
        arguments: usize,
        wanted: Parameter,
    ) -> Option<usize>
        ensures { result ≡ argument_for self.now.tokens.kinds.now self.now.tokens.vals.now arguments (index parameters.now wanted) }
    {
        let k = parameters.find(wanted)?;
        nth_term(&self.tokens, arguments, k)
    }

    // The term of an entry.
    fn entry_for(&self, wanted: Parameter) -> Option<usize>
        ensures { result ≡ entry_for self.now.tokens.kinds.now self.now.tokens.vals.now self.now.binders wanted }
    {
        find_entry(&self.tokens, self.binders.entries, wanted)
    }

    // What takes the place of a Generic in a family: the argument for a parameter, or an entry's term.
    fn generic_at(&self, parameters: &Parameters, arguments: usize, wanted: Parameter) -> Choice
        ensures { result ≡ generic self.now.tokens.kinds.now self.now.tokens.vals.now self.now.binders parameters.now arguments wanted }
    {
        let argument = self.argument_for(parameters, arguments, wanted);
        // By `let`: written in the call of a method that takes an `FnOnce`, a closure that holds what has a lifetime in its type hands on no `ensures`.
        let entry = || self.entry_for(wanted);
        taken(argument.or_else(entry))
    }

    // In a context: an entry's term, or Unknown for a parameter.
    fn context_at(&self, parameters: &Parameters, wanted: Parameter) -> Choice
        ensures { result ≡ in_context_of self.now.tokens.kinds.now self.now.tokens.vals.now self.now.binders parameters.now wanted }
    {
        match self.entry_for(wanted) {
            Some(q) => Choice::By(q),
            None if parameters.find(wanted).is_some() => Choice::Unknown,
            None => Choice::Keep,
        }
    }

    // What takes the place of a Generic.
    #[inline(never)]
    fn generic_for(&self, wanted: Parameter) -> Choice
        ensures { result ≡ generic_for self.now.tokens.kinds.now self.now.tokens.vals.now self.now.binders self.now.binders.purpose wanted }
    {
        match &self.binders.purpose {
            Purpose::Instance => taken(self.entry_for(wanted)),
            Purpose::Context(parameters) => self.context_at(parameters, wanted),
            Purpose::Family(parameters, arguments) => {
                self.generic_at(parameters, *arguments, wanted)
            }
        }
    }

    // What takes the place of a SelfType.
    #[inline(never)]
    fn self_at(&self, owner: u64) -> Choice
        ensures { result ≡ self_for self.now.tokens.kinds.now self.now.tokens.vals.now self.now.binders owner }
    {
        match self.binders.purpose {
            Purpose::Context(_) => Choice::Keep,
            Purpose::Instance | Purpose::Family(_, _) => {
                taken(find_receiver(&self.tokens, self.binders.receivers, owner))
            }
        }
    }

    // What takes the place of the term at p. Only the heads of Generic and SelfType are looked up.
    #[inline(always)]
    fn replaced_at(&self, p: usize) -> Choice
        requires { p < length self.now.tokens.kinds.now }
        ensures { result ≡ chosen self.now.tokens.kinds.now self.now.tokens.vals.now self.now.binders p }
    {
        let k = self.tokens.kinds[p];
        if k == 19 {
            let vals = self.tokens.vals;
            let wanted = Parameter::of_words(word(vals, p + 1), word(vals, p + 2));
            return self.generic_for(wanted);
        }
        if k == 21 {
            return self.self_at(u64::from(word(self.tokens.vals, p + 1)));
        }
        Choice::Keep
    }

    // Writes the tokens of a part at a position of `out`, with the binders replaced, and returns the position after them; or only counts.
    pub fn rewrite_run(&self, part: Part, out: &mut [u8], at: usize, pass: Pass) -> usize
        requires part { PartOf self.now.tokens.kinds.now part }
        requires space { Space (writes pass) at
            (length (rewritten self.now.tokens.kinds.now self.now.tokens.vals.now self.now.binders part)) (length out.old) }
        ensures next { result ≡ at + length (rewritten self.now.tokens.kinds.now self.now.tokens.vals.now self.now.binders part) }
        ensures wrote { out.new
            ≡ pick (writes pass) (sets out.old at (rewritten self.now.tokens.kinds.now self.now.tokens.vals.now self.now.binders part))
            out.old }
    {
        let tokens = &self.tokens;
        let mut i = at;
        let end = part.end;
        let mut p = part.from;
        // A step is one token, or a term where that is replaced: what is gone through is a run of tokens, no row of one term, and no range is counted.
        while p < end {
            let c = self.replaced_at(p);
            i = emit(tokens, c, p, out, i, pass);
            p += pace(tokens, c, p, end);
        }
        i
    }

    // Writes the term at a place at a position of `out`, with the binders replaced, and returns the position after it; or only counts.
    pub fn write_term(&self, from: usize, out: &mut [u8], at: usize, pass: Pass) -> usize
        requires place { from < length self.now.tokens.kinds.now }
        requires space { Space (writes pass) at
            (length (written self.now.tokens.kinds.now self.now.tokens.vals.now self.now.binders from)) (length out.old) }
        ensures words { Writes (writes pass) out.old at result out.new
            (written self.now.tokens.kinds.now self.now.tokens.vals.now self.now.binders from) }
        ensures trees { Rewrites self.now.tokens.kinds.now self.now.tokens.vals.now self.now.binders from
            (Writes (writes pass) out.old at result out.new) }
    {
        self.rewrite_run(term_part(&self.tokens, from), out, at, pass)
    }
}
