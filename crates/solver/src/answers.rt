// Orders 1, 2, 5 and 8: what a term or a variable resolves to, and the revision.
ghost use Rattle.std.specs.Prelude.{Some, unwrap_or, ◌≡◌, List, ℕ, min, ◌+◌, ◌^◌, ◌≤◌, ◌<◌, length};
ghost use Rattle.std.proofs.lemmas.List.Edits.{sets};
ghost use Rattle.terms.specs.Result.{number_of};
ghost use Rattle.terms.specs.Term.{Term, var, bytes};
ghost use Rattle.solver.specs.Session.{Session};
ghost use Rattle.solver.specs.Orders as orders;
ghost use Rattle.solver.specs.Words.Worklist.{Zero};
ghost use Rattle.solver.specs.Words.TableLayout.{lasting_words};
ghost use Rattle.solver.specs.Words.SessionRepresentation.{limits_of, binding_words, end_words, Represents};
ghost use Rattle.solver.specs.Words.OrderTerms.{Asked, Starts, Frames, resolved_to};

use super::layout::ENDS;
use super::resolving::{clear_words, default_of, resolved_len, write_builtin, write_resolved};
use super::{Bindings, Solver, Start, Subject};
use terms::{Refusal, Token, Tokens, token_len, write_token};

// How many bytes a variable has.
pub fn variable_len(v: u32) -> usize
    ensures { (result ≡ length (bytes (var v))) × (result ≤ 6) }
{
    token_len(Token { kind: 1, value: v })
}

// Writes a variable at a position of out, and returns the position after it.
pub fn write_variable(out: &mut [u8], to: usize, v: u32) -> usize
    requires { to + length (bytes (var v)) ≤ length out.old }
    ensures next { result ≡ to + length (bytes (var v)) }
    ensures wrote { out.new ≡ sets out.old to (bytes (var v)) }
{
    write_token(out, to, Token { kind: 1, value: v })
}

impl Solver {
    // Order 8: how many bindings were made.
    pub fn revision(self) -> usize
        ensures count { result ≡ self.revision }
        ensures held { (ks vs ts : List ℕ) (s : Session)
            → Represents self ks vs ts s
            → (orders.order (limits_of self) s orders.revision).reply ≡ orders.count result }
    {
        self.revision
    }

    // The bindings as they are, of which a walk may go through `most`.
    pub fn bindings<'a>(self, tokens: Tokens<'a>, table: &'a [u32], most: usize) -> Bindings<'a>
        requires { (self.variables ≤ length table.now) × (length tokens.kinds.now < 2 ^ 32) }
        ensures { (result.tokens ≡ tokens.entry) × (result.bound.now ≡ binding_words self.variables table.now) × (result.most ≡ most) }
    {
        Bindings {
            tokens,
            bound: &table[..self.variables],
            most,
        }
    }

    // The ends of chains in the place of the bindings: what `same_terms` asks for.
    pub fn chains<'a>(self, tokens: Tokens<'a>, table: &'a [u32]) -> Bindings<'a>
        requires { (lasting_words self.variables ≤ length table.now) × (length tokens.kinds.now < 2 ^ 32) }
        ensures { (result.tokens ≡ tokens.entry) × (result.bound.now ≡ end_words self.variables table.now) × (result.most ≡ self.revision) }
    {
        let at = ENDS * self.variables;
        Bindings {
            tokens,
            bound: &table[at..at + self.variables],
            most: self.revision,
        }
    }

    // Where resolving begins.
    pub fn start(self, tables: &[u32], what: Subject) -> Start
        requires { (ks vs : List ℕ) × (s : Session) × (t : Term) × Asked self ks vs tables.now what s t }
        ensures { (ks vs : List ℕ) (s : Session) (t : Term) → Asked self ks vs tables.now what s t → Starts self ks vs s t result }
    {
        match what {
            Subject::Follows => Start::Begins(self.top, self.revision),
            Subject::Id(v) => {
                let Some(most) = self.revision.checked_sub(1) else {
                    return Start::Free(v);
                };
                let word = tables[v as usize];
                if let Some(b) = default_of(word) {
                    return Start::Default(b);
                }
                let Some(p) = (word as usize).checked_sub(1) else {
                    return Start::Free(v);
                };
                Start::Begins(p, most)
            }
        }
    }

    // How many bytes the term that is asked for resolves to; none where those are more than limit.
    pub fn resolved_len(
        self,
        tokens: &Tokens,
        tables: &[u32],
        work: &mut [u32],
        what: Subject,
        limit: u32,
    ) -> Option<usize>
        requires held { (s : Session) × (t : Term) × Asked self tokens.now.kinds.now tokens.now.vals.now tables.now what s t }
        requires room { Frames self work.old }
        ensures len { (s : Session) (t : Term)
            → Asked self tokens.now.kinds.now tokens.now.vals.now tables.now what s t
            → unwrap_or result (limit + 1) ≡ min (limit + 1) (length (resolved_to s t)) }
        ensures fits { (n : ℕ) → result ≡ Some n → n ≤ limit }
        ensures clear { Zero work.new }
    {
        let begun = self.start(tables, what);
        match begun {
            Start::Begins(p, most) => {
                let bindings = self.bindings(*tokens, tables, most);
                let size = resolved_len(&bindings, work, p, limit);
                if size.is_none() {
                    clear_words(work, most + most);
                }
                size
            }
            Start::Default(_) => Some(2).filter(|n| *n <= limit as usize),
            Start::Free(v) => Some(variable_len(v)).filter(|n| *n <= limit as usize),
        }
    }

    // Writes these bytes at a position of out, and returns the position after them.
    pub fn resolve(
        self,
        tokens: &Tokens,
        tables: &[u32],
        work: &mut [u32],
        what: Subject,
        out: &mut [u8],
        to: usize,
    ) -> usize
        requires held { (s : Session) × (t : Term) × Asked self tokens.now.kinds.now tokens.now.vals.now tables.now what s t
            × (to + length (resolved_to s t) ≤ length out.old) }
        requires room { Frames self work.old }
        ensures wrote { (s : Session) (t : Term)
            → Asked self tokens.now.kinds.now tokens.now.vals.now tables.now what s t
            → (result ≡ to + length (resolved_to s t)) × (out.new ≡ sets out.old to (resolved_to s t)) }
        ensures clear { Zero work.new }
    {
        let begun = self.start(tables, what);
        match begun {
            Start::Begins(p, most) => {
                let bindings = self.bindings(*tokens, tables, most);
                write_resolved(&bindings, work, p, out, to)
            }
            Start::Default(b) => write_builtin(out, to, b),
            Start::Free(v) => write_variable(out, to, v),
        }
    }
}

// Document 01's number of a refusal. The sheet names this crate alone, where the type is handed on, and its `From`, which stands in terms, is not.
pub fn refusal_number(refusal: Refusal) -> u8
    ensures { result ≡ number_of refusal }
{
    u8::from(refusal)
}
