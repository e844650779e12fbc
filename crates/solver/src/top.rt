// The top of a term: the term that it stands for, bound variables followed. Kinds are numbers: the line in kinds.rt of terms says why.
ghost use Rattle.std.proofs.Math.Option.{Option};
ghost use Rattle.std.specs.Prelude.{◌≡◌, ℕ, ◌<◌, length};
ghost use Rattle.terms.specs.Term.{Term, Held};
ghost use Rattle.solver.specs.Constrain.{follow};
ghost use Rattle.solver.specs.Words.Bindings.{HeldBindings};
ghost use Rattle.solver.specs.Words.ChainRecord.{chain_ends};
ghost use Rattle.solver.specs.Words.ChainEnds.{HeldEnd, Inside, variable_in, code_in, chain_word};

use super::resolving::default_of;
use super::{Builtin, ChainEnd};
use terms::Tokens;

// The words of the table from this one on are defaults, for the builtins by their codes; a word below it is a place and 1.
pub const DEFAULTS: u32 = 1 << 31;

// What the term at p stands for: where it is a bound variable, the end of its chain, by one look-up in the column of ends.
pub fn shallow_resolve(tokens: &Tokens, ends: &[u32], p: usize) -> ChainEnd
    requires { p < length tokens.now.kinds.now }
    ensures inside { Inside (length tokens.now.kinds.now) result }
    ensures term { (t : Term) (b : ℕ → Option Term) (n : ℕ)
        → Held tokens.now.kinds.now tokens.now.vals.now p t
        → HeldBindings tokens.now.kinds.now tokens.now.vals.now ends.now (chain_ends n b)
        → HeldEnd tokens.now.kinds.now tokens.now.vals.now (follow n b t) result }
{
    if tokens.kinds[p] != 1 {
        return ChainEnd::At(p);
    }
    let v = tokens.vals[p] as usize;
    if ends.len() <= v {
        return ChainEnd::At(p);
    }
    let word = ends[v];
    if let Some(b) = default_of(word) {
        return ChainEnd::Default(b);
    }
    let next = word as usize;
    if next == 0 || tokens.kinds.len() < next {
        return ChainEnd::At(p);
    }
    ChainEnd::At(next - 1)
}

// The variable that an end is.
pub fn variable_of(tokens: &Tokens, q: ChainEnd) -> Option<u32>
    requires { Inside (length tokens.now.kinds.now) q }
    ensures { (t : Term) → HeldEnd tokens.now.kinds.now tokens.now.vals.now t q → result ≡ variable_in t }
{
    match q {
        ChainEnd::At(p) if tokens.kinds[p] == 1 => Some(tokens.vals[p]),
        _ => None,
    }
}

// The code of the builtin at q.
pub fn code_at(tokens: &Tokens, q: usize) -> Option<u32>
    requires { q < length tokens.now.kinds.now }
    ensures { (t : Term) → Held tokens.now.kinds.now tokens.now.vals.now q t → result ≡ code_in t }
{
    if tokens.kinds[q] != 6
        || tokens.vals[q] != 2
        || tokens.kinds.len() - q < 2
        || tokens.kinds[q + 1] != 0
    {
        return None;
    }
    Some(tokens.vals[q + 1])
}

impl ChainEnd {
    // The word of a binding to it.
    pub fn word(self) -> u32
        requires { Inside 4294967295 self }
        ensures { result ≡ chain_word self }
    {
        match self {
            ChainEnd::At(p) => (p + 1) as u32,
            ChainEnd::Default(b) => DEFAULTS + b.code,
        }
    }
}
