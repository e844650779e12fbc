// What a number variable may be bound to, and a binding made. Kinds are numbers: the line in kinds.rt of terms says why. So are builtins, by their codes, which
// words of requests and bits of masks are made of: an enum of all 32 would be made of a code and unmade again at each test.
ghost use Rattle.std.specs.Prelude.{◌≡◌, false, ℕ, ◌+◌, ◌*◌, ◌^◌, ◌≤◌, ◌<◌, length, get_or};
ghost use Rattle.std.specs.Int.NonZero.{non_zero_u32_get};
ghost use Rattle.std.proofs.Math.Option.{none, some};
ghost use Rattle.terms.specs.Term.{Term, Held};
ghost use Rattle.solver.specs.Families.{belongs};
ghost use Rattle.solver.specs.Constrain.{Requests, admit};
ghost use Rattle.solver.specs.Session.{Session, issued, with_solver};
ghost use Rattle.solver.specs.Words.ChainEnds.{HeldEnd, Inside};
ghost use Rattle.solver.specs.Words.SessionRepresentation.{request_words, bit, RequestWord, request_in, HeldRequest, Represents};
ghost use Rattle.solver.specs.Words.MethodContract.{Shaped, Beside, is_some, bound_to, requesting, word_of, mask_in, joined_word};
ghost use Rattle.solver.specs.Words.ChainRecord.{Coming, Last};
ghost use Rattle.solver.specs.Words.ConstrainContract.{Within};

use super::top::variable_of;
use super::{ChainEnd, Solver, Table};
use std::num::NonZeroU32;
use terms::Tokens;

impl Table<'_> {
    // The word of a variable's request. The column has 0 for none.
    // It is no `NumberRequest`: only a session's table is known to hold requests, and what defaults and bindings require is of any table.
    // Nor is it an enum of plain requests and ranges: what is told here (`mask_in`, `joined_word`) is told of other words, too.
    pub fn request(&self, v: u32) -> Option<NonZeroU32>
        ensures { word_of result ≡ get_or (request_words self.now.variables self.now.words.now) v 0 }
    {
        let at = v as usize;
        if self.variables <= at {
            return None;
        }
        NonZeroU32::new(self.words[self.variables + at])
    }
}

// The types that a request's word admits, as a mask.
pub fn family_mask(word: u32) -> u32
    ensures { result ≡ mask_in word }
{
    if 32 < word {
        return (word - 33) / 32 % 256;
    }
    if word == 10 {
        return 768;
    }
    255
}

// Whether a mask has the type with this code.
pub fn has(mask: u32, c: u32) -> bool
    requires { c < 32 }
    ensures { result ≡ bit mask c }
{
    (mask >> c) % 2 == 1
}

// Whether the term at q is a builtin that a request's word admits.
pub fn in_family(tokens: &Tokens, q: usize, word: u32) -> bool
    requires { q < length tokens.now.kinds.now }
    ensures { (t : Term) → RequestWord word → Held tokens.now.kinds.now tokens.now.vals.now q t → result ≡ belongs (request_in word).family t }
{
    tokens.kinds[q] == 6
        && tokens.vals[q] == 2
        && 2 <= tokens.kinds.len() - q
        && tokens.kinds[q + 1] == 0
        && tokens.vals[q + 1] < 32
        && has(family_mask(word), tokens.vals[q + 1])
}

// Whether the unbound variable v may be bound to the end q, which is an unbound variable or a node. Its two callers know the kind of end,
// so it is taken into them: apart, short scripts took 0.2% more instructions.
#[inline(always)]
pub fn admissible(tokens: &Tokens, table: &Table, v: u32, q: ChainEnd) -> bool
    requires { Inside (length tokens.now.kinds.now) q }
    ensures { (t : Term) (rs : Requests)
        → ((u : ℕ) → HeldRequest (rs u) (get_or (request_words table.now.variables table.now.words.now) u 0))
        → HeldEnd tokens.now.kinds.now tokens.now.vals.now t q
        → result ≡ is_some (admit rs (rs v) t) }
{
    let Some(word) = table.request(v) else {
        return true;
    };
    let q = match q {
        ChainEnd::At(p) => p,
        ChainEnd::Default(b) => return has(family_mask(word.get()), b.code),
    };
    if tokens.kinds[q] != 1 {
        return in_family(tokens, q, word.get());
    }
    let Some(other) = table.request(tokens.vals[q]) else {
        return true;
    };
    family_mask(word.get()) & family_mask(other.get()) != 0
}

// The word of the variable left free where two are joined: `word` is that of the one bound, `other` its own, if it has one: without, it is 0, whose mask is
// 255. With a range a word is above 64.
fn joined_word(word: NonZeroU32, other: Option<NonZeroU32>) -> u32
    ensures { result ≡ joined_word (non_zero_u32_get word) (word_of other) }
{
    let word = word.get();
    let last = other.map_or(0, NonZeroU32::get);
    if (word | last) < 64 {
        return word;
    }
    33 + (word - 1) % 32 + 32 * (family_mask(word) & family_mask(last))
}

impl Solver {
    // The request of v is joined to that of the variable that the end q is, if v has one and q is an issued variable. It is taken into `bind`, and that into
    // those who bind: the comment at `put_binding` says why.
    #[inline(always)]
    fn hand_request(self, tokens: &Tokens, tables: &mut [u32], v: u32, q: ChainEnd)
        requires { Shaped self (length tables.old) × (v < self.issued) × Inside (length tokens.now.kinds.now) q }
        ensures held { (s : Session) (t : Term) (rs : Requests)
            → Represents self tokens.now.kinds.now tokens.now.vals.now tables.old s
            → Coming (issued s) s.solver
            → HeldEnd tokens.now.kinds.now tokens.now.vals.now t q
            → Within (issued s) t
            → admit s.solver.requests (s.solver.requests v) t ≡ some rs
            → Represents self tokens.now.kinds.now tokens.now.vals.now tables.new (with_solver s (requesting s.solver rs)) }
        ensures beside { Beside self self tables.old tables.new }
    {
        let m = self.variables;
        let Some(word) = NonZeroU32::new(tables[m + v as usize]) else {
            return;
        };
        let Some(w) = variable_of(tokens, q) else {
            return;
        };
        let at = w as usize;
        if self.issued <= at {
            return;
        }
        let joined = joined_word(word, NonZeroU32::new(tables[m + at]));
        self.put_request(tables, w, joined);
    }

    // Binds the free variable v to the end q, which is admissible: its request is joined to that of the variable that it is bound to.
    #[inline(always)]
    pub fn bind(self, tokens: &Tokens, tables: &mut [u32], v: u32, q: ChainEnd) -> Solver
        requires shape { Shaped self (length tables.old) × (v < self.issued) }
        requires areas { Inside (length tokens.now.kinds.now) q × (length tokens.now.kinds.now < 2 ^ 32) × (self.revision < 2 ^ 33) }
        ensures held { (s : Session) (t : Term) (rs : Requests)
            → Represents self tokens.now.kinds.now tokens.now.vals.now tables.old s
            → Coming (issued s) s.solver
            → s.solver.bindings v ≡ none
            → HeldEnd tokens.now.kinds.now tokens.now.vals.now t q
            → Last s.solver.bindings v t
            → Within (issued s) t
            → admit s.solver.requests (s.solver.requests v) t ≡ some rs
            → Represents result tokens.now.kinds.now tokens.now.vals.now tables.new (with_solver s (bound_to s.solver v t rs)) }
        ensures counts { (result.revision ≡ self.revision + 1) × (result.issued ≡ self.issued) × (result.kept ≡ self.kept) }
        ensures beside { Beside self result tables.old tables.new }
    {
        self.hand_request(tokens, tables, v, q);
        self.put_binding(tokens, tables, v, q)
    }
}
