// Orders 3, 6 and 7: deferrals and defaults.
ghost use Rattle.std.specs.Prelude.{Some, ◌≡◌, List, ℕ, ◌+◌, ◌^◌, ◌≤◌, ◌<◌, length, take};
ghost use Rattle.std.proofs.Math.Option.{Option};
ghost use Rattle.std.specs.Int.NonZero.{non_zero_u32_get};
ghost use Rattle.terms.specs.Term.{Term, var};
ghost use Rattle.solver.specs.Families.{Family, admits, Request, preference, first_of, taken};
ghost use Rattle.solver.specs.Constrain.{resolved, top};
ghost use Rattle.solver.specs.Invariant.{InOrder};
ghost use Rattle.solver.specs.Session.{Session, issued, with_solver, deferring};
ghost use Rattle.solver.specs.Orders as orders;
ghost use Rattle.solver.specs.Words.ChainEnds.{variable_in};
ghost use Rattle.solver.specs.Words.ChainRecord.{Coming};
ghost use Rattle.solver.specs.Words.SessionRepresentation.{limits_of, bit, RequestWord, request_in, HeldRequest, Represents};
ghost use Rattle.solver.specs.Words.OrderTerms.{Poses};
ghost use Rattle.solver.specs.Words.MethodContract.{Shaped, Beside, word_of, default_word, end_word, default_at, defaults_by};

use super::families::{family_mask, has};
use super::layout::{DEFERRALS, TAILS};
use super::top::{shallow_resolve, variable_of};
use super::{Builtin, ChainEnd, Defaulted, Solver, Table};
use std::num::NonZeroU32;
use terms::Tokens;

impl Table<'_> {
    // The word that the default of the variable v goes by: its request's, or that of Never, its code and 1, if v is deferred.
    fn default_word(&self, v: usize, which: Defaulted) -> Option<NonZeroU32>
        requires { v < self.now.variables }
        ensures { word_of result ≡ default_word which self.now.variables self.now.words.now v }
    {
        match which {
            Defaulted::Requested => NonZeroU32::new(self.words[self.variables + v]),
            Defaulted::Deferred => {
                if self.words[DEFERRALS * self.variables + v] == 0 {
                    return None;
                }
                NonZeroU32::new(11)
            }
        }
    }

    // The word at the end w of its chain: for Never it does not count.
    fn end_word(&self, w: usize, which: Defaulted) -> Option<NonZeroU32>
        requires { w < self.now.variables }
        ensures { word_of result ≡ end_word which self.now.variables self.now.words.now w }
    {
        match which {
            Defaulted::Requested => NonZeroU32::new(self.words[self.variables + w]),
            Defaulted::Deferred => None,
        }
    }
}

// The first type of a mask in the order of preference, or the fallback.
fn first_of(mask: u32, fallback: Builtin) -> Builtin
    ensures { (f : Family) → ((c : ℕ) → admits f c ≡ bit mask c) → result.code ≡ first_of fallback.code f preference }
{
    let code = [2, 3, 6, 7, 0, 4, 1, 5]
        .iter()
        .copied()
        .find(|&c| has(mask, c))
        .unwrap_or(fallback.code);
    Builtin { code }
}

// The builtin that a numeric default takes, by the word of the variable whose turn it is and by that of the end of its chain, or by the own one alone where
// the end has none. With a range a word is above 64.
fn default_builtin(own: NonZeroU32, last: Option<NonZeroU32>) -> Builtin
    ensures { (o : Option Request) → RequestWord (non_zero_u32_get own) → HeldRequest o (word_of last)
        → result.code ≡ taken (request_in (non_zero_u32_get own)) o }
{
    let fallback = Builtin {
        code: (own.get() - 1) % 32,
    };
    let end = last.unwrap_or(own);
    if (own.get() | end.get()) < 64 {
        return fallback;
    }
    let mask = family_mask(end.get());
    if has(mask, fallback.code) {
        return fallback;
    }
    first_of(mask, fallback)
}

impl Solver {
    // The variable at the end of the chain of the issued variable v, by its tail; none where the chain ends at a node.
    fn root_of(self, tables: &[u32], v: usize) -> Option<u32>
        requires { Shaped self (length tables.now) × (v < self.issued) }
        ensures told { (ks vs : List ℕ) (s : Session)
            → Coming (issued s) s.solver
            → Represents self ks vs tables.now s
            → result ≡ variable_in (top s.solver (var v)) }
        ensures low { (w : ℕ) → result ≡ Some w → w < self.issued }
    {
        let named = tables[TAILS * self.variables + v] % 65536;
        let w = named.checked_sub(1)?;
        if self.issued <= w as usize {
            return None;
        }
        Some(w)
    }

    // Order 3: the variable that the term after the session's tokens stands for, if it stands for one, is deferred.
    pub fn defer_never(self, tokens: &Tokens, tables: &mut [u32]) -> Solver
        requires { (s : Session) × (t : Term) × Poses self tokens.now.kinds.now tokens.now.vals.now tables.old s t }
        ensures held { (s : Session) (t : Term)
            → Poses self tokens.now.kinds.now tokens.now.vals.now tables.old s t
            → Represents result (take self.top tokens.now.kinds.now) (take self.top tokens.now.vals.now) tables.new
            (deferring s (resolved s.solver t)) }
        ensures beside { Beside self result tables.old tables.new }
    {
        let m = self.variables;
        let chains = self.chains(*tokens, tables);
        let end = shallow_resolve(tokens, chains.bound, self.top);
        if let Some(w) = variable_of(tokens, end) {
            let v = w as usize;
            if v < m {
                tables[DEFERRALS * m + v] = 1;
            }
        }
        self
    }

    // The default of the variable v: the variable that it leads to, if it leads to one, is bound to a builtin.
    pub fn bind_default(
        self,
        tokens: &Tokens,
        tables: &mut [u32],
        v: usize,
        which: Defaulted,
    ) -> Solver
        requires shape { Shaped self (length tables.old) × (v < self.issued) }
        requires areas { self.revision < 2 ^ 33 }
        ensures held { (s : Session)
            → Represents self tokens.now.kinds.now tokens.now.vals.now tables.old s
            → Coming (issued s) s.solver
            → Represents result tokens.now.kinds.now tokens.now.vals.now tables.new (with_solver s (default_at which s v)) }
        ensures steps { (result.revision ≤ self.revision + 1) × (result.issued ≡ self.issued) }
        ensures beside { Beside self result tables.old tables.new }
    {
        let table = Table {
            words: &tables[..],
            variables: self.variables,
        };
        let Some(word) = table.default_word(v, which) else {
            return self;
        };
        let Some(w) = self.root_of(table.words, v) else {
            return self;
        };
        let taken = default_builtin(word, table.end_word(w as usize, which));
        self.put_binding(tokens, tables, w, ChainEnd::Default(taken))
    }

    // Orders 6 and 7: each issued variable, by rising id, takes its default: by its request, or by its deferral, which is Never.
    pub fn apply_defaults(mut self, tokens: &Tokens, tables: &mut [u32], which: Defaulted) -> Solver
        requires shape { Shaped self (length tables.old) }
        requires areas { self.revision < 2 ^ 32 }
        ensures held { (s : Session)
            → Represents self tokens.now.kinds.now tokens.now.vals.now tables.old s
            → InOrder (issued s) s.solver
            → Represents result tokens.now.kinds.now tokens.now.vals.now tables.new (orders.order (limits_of self) s (defaults_by which)).session }
        ensures beside { Beside self result tables.old tables.new }
    {
        let n = self.issued;
        for v in 0..n {
            self = self.bind_default(tokens, tables, v, which);
        }
        self
    }
}
