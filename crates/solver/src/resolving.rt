// A term with its bound variables replaced: sized and written without being built. A variable's word in `bound` is 0 where it is unbound, p + 1 where it is
// bound to the term at p, and a default where it is bound to a builtin. Kinds are numbers: the line in kinds.rt of terms says why.
// Bindings and frames are lent side by side, since frames are written: docs/DECISIONS.md, "How are the tokens lent?".
ghost use Rattle.std.specs.Prelude.{Some, unwrap_or, ◌≡◌, ℕ, min, ◌+◌, ◌^◌, ◌≤◌, ◌<◌, length, get_or};
ghost use Rattle.std.proofs.Math.Option.{Option};
ghost use Rattle.std.proofs.lemmas.List.Edits.{sets};
ghost use Rattle.terms.specs.Term.{Term, bytes};
ghost use Rattle.solver.specs.Constrain.{resolve};
ghost use Rattle.solver.specs.Words.Bindings.{builtin};
ghost use Rattle.solver.specs.Words.ResolveWalk.{run_in, Filled, Named, Entered, code_of, default_of, default_in};
ghost use Rattle.solver.specs.Words.ResolveFrames.{stand, Sound, Apart, Cleared};
ghost use Rattle.solver.specs.Words.Lent.{HeldBy, Binds, walked_bytes, resolved_bytes_at, WalkSettled, Passed, standing_bytes};
ghost use Rattle.solver.specs.Words.Worklist.{Zero};

use super::top::DEFAULTS;
use super::{Bindings, Builtin, Run, Stand};
use terms::{Token, Tokens, token_len, write_token};

// The run of the term at a place, if one is there and lies within the tokens.
pub fn run_at(tokens: &Tokens, at: usize) -> Option<Run>
    ensures named { Named tokens.now.kinds.now tokens.now.vals.now (at + 1) (run_in result).at (run_in result).len }
    ensures filled { Filled result }
{
    if tokens.kinds.len() <= at {
        return None;
    }
    let head = Token {
        kind: tokens.kinds[at],
        value: tokens.vals[at],
    };
    let len = head.span();
    if len == 0 || tokens.kinds.len() - at < len {
        return None;
    }
    Some(Run { at, len })
}

// The run that a word of the table names, if it names one.
pub fn named_run(tokens: &Tokens, word: usize) -> Option<Run>
    ensures named { Named tokens.now.kinds.now tokens.now.vals.now word (run_in result).at (run_in result).len }
    ensures filled { Filled result }
{
    run_at(tokens, word.checked_sub(1)?)
}

// The run that takes the place of the token at p; none where that is no variable bound to the term at a place, or nothing is left to enter.
pub fn enter(tokens: &Tokens, bound: &[u32], p: usize, left: usize) -> Option<Run>
    requires { p < length tokens.now.kinds.now }
    ensures entered { Entered tokens.now.kinds.now tokens.now.vals.now bound.now p left (run_in result).at (run_in result).len }
    ensures filled { Filled result }
{
    if tokens.kinds[p] != 1 || left == 0 {
        return None;
    }
    let word = bound.get(tokens.vals[p] as usize)?;
    named_run(tokens, *word as usize)
}

// The builtin of a word that is a default.
pub fn default_of(word: u32) -> Option<Builtin>
    ensures { code_of result ≡ default_of word }
{
    if word < DEFAULTS {
        return None;
    }
    Some(Builtin { code: word % 32 })
}

// The default that takes the place of the token at p; none where it is not one of the bound variables, or nothing is left to enter. Here and in `enter` the kind
// is tested first, which settles it for most tokens.
#[inline(always)]
pub fn default_at(tokens: &Tokens, bound: &[u32], p: usize, left: usize) -> Option<Builtin>
    requires { p < length tokens.now.kinds.now }
    ensures { code_of result ≡ default_in bound.now left (get_or tokens.now.kinds.now p 0) (get_or tokens.now.vals.now p 0) }
{
    if tokens.kinds[p] != 1 || left == 0 {
        return None;
    }
    default_of(*bound.get(tokens.vals[p] as usize)?)
}

// Goes from a place to the next token that is not entered, into bound variables and out of runs that are over; at == end says that
// the walk is over. A frame that it comes out of is 0 again, so that the frames of a walk that is over all are.
pub fn settle(bindings: &Bindings, frames: &mut [u32], from: Stand) -> Stand
    requires { Sound bindings.now.tokens.kinds.now bindings.now.most frames.old from }
    ensures { WalkSettled bindings.now frames.old from frames.new result }
{
    let mut c = from;
    // It goes into bound variables and out of runs until a token is not entered.
    loop {
        if c.at == c.end {
            if c.depth == 0 {
                return c;
            }
            c.depth -= 1;
            let i = c.depth + c.depth;
            c.at = frames[i] as usize;
            c.end = frames[i + 1] as usize;
            frames[i] = 0;
            frames[i + 1] = 0;
        } else {
            let left = bindings.most - c.depth;
            let Some(r) = enter(&bindings.tokens, bindings.bound, c.at, left) else {
                return c;
            };
            let i = c.depth + c.depth;
            frames[i] = (c.at + 1) as u32;
            frames[i + 1] = c.end as u32;
            c.depth += 1;
            c.at = r.at;
            c.end = r.at + r.len;
        }
    }
}

// The first place of a walk over a run.
pub fn begin(bindings: &Bindings, frames: &mut [u32], run: Run) -> Stand
    requires { (run.at + run.len ≤ length bindings.now.tokens.kinds.now) × (bindings.now.most + bindings.now.most ≤ length frames.old) }
    ensures { WalkSettled bindings.now frames.old (stand run.at (run.at + run.len) 0) frames.new result }
{
    let c = Stand {
        at: run.at,
        end: run.at + run.len,
        depth: 0,
    };
    settle(bindings, frames, c)
}

// The place after a token that is not entered.
pub fn next(bindings: &Bindings, frames: &mut [u32], from: Stand) -> Stand
    requires { (from.at < from.end) × Sound bindings.now.tokens.kinds.now bindings.now.most frames.old from }
    ensures { WalkSettled bindings.now frames.old (stand (from.at + 1) from.end from.depth) frames.new result }
{
    let c = Stand {
        at: from.at + 1,
        end: from.end,
        depth: from.depth,
    };
    settle(bindings, frames, c)
}

// Writes a builtin at a position of out, and returns the position after it.
pub fn write_builtin(out: &mut [u8], to: usize, b: Builtin) -> usize
    requires { to + 2 ≤ length out.old }
    ensures next { result ≡ to + 2 }
    ensures wrote { out.new ≡ sets out.old to (bytes (builtin b.code)) }
{
    out[to] = 4;
    out[to + 1] = b.code as u8;
    to + 2
}

// How many bytes a token has that is not entered: those of the default that takes its place, or its own. Here and in `write_standing` the kind is tested first,
// as `token_len` and `write_token` do, so that most tokens are asked nothing more: with `default_at` first a resolve of long terms took 8% more instructions.
#[inline(always)]
fn standing_len(bindings: &Bindings, c: Stand) -> usize
    requires { Passed bindings.now c }
    ensures { result ≡ length (standing_bytes bindings.now c) }
{
    let here = Token {
        kind: bindings.tokens.kinds[c.at],
        value: bindings.tokens.vals[c.at],
    };
    if here.kind != 1 {
        return token_len(here);
    }
    let left = bindings.most - c.depth;
    if default_at(&bindings.tokens, bindings.bound, c.at, left).is_some() {
        return 2;
    }
    token_len(here)
}

// Writes it at a position of out, and returns the position after it.
#[inline(always)]
fn write_standing(bindings: &Bindings, c: Stand, out: &mut [u8], to: usize) -> usize
    requires passed { Passed bindings.now c }
    requires room { to + length (standing_bytes bindings.now c) ≤ length out.old }
    ensures next { result ≡ to + length (standing_bytes bindings.now c) }
    ensures wrote { out.new ≡ sets out.old to (standing_bytes bindings.now c) }
{
    let here = Token {
        kind: bindings.tokens.kinds[c.at],
        value: bindings.tokens.vals[c.at],
    };
    if here.kind != 1 {
        return write_token(out, to, here);
    }
    let left = bindings.most - c.depth;
    if let Some(b) = default_at(&bindings.tokens, bindings.bound, c.at, left) {
        return write_builtin(out, to, b);
    }
    write_token(out, to, here)
}

// How many bytes a run has with bound variables replaced; none where those are more than limit. Counting leaves off at a limit, and writing has an output and
// no limit: one function for both would take what one of them has no use for.
pub fn walked_len(bindings: &Bindings, frames: &mut [u32], run: Run, limit: u32) -> Option<usize>
    requires { (run.at + run.len ≤ length bindings.now.tokens.kinds.now) × (bindings.now.most + bindings.now.most ≤ length frames.old) }
    ensures len { unwrap_or result (limit + 1) ≡ min (limit + 1) (length (walked_bytes bindings.now run)) }
    ensures fits { (n : ℕ) → result ≡ Some n → n ≤ limit }
    ensures apart { Apart bindings.now.most frames.old frames.new }
    ensures bare { (n : ℕ) → result ≡ Some n → Zero frames.old → Zero frames.new }
{
    let mut c = begin(bindings, frames, run);
    let mut n = 0;
    // `next` goes on by one token, into bound variables and out of them through `frames`. An iterator would hold these by `&mut` (`store.rt` of terms says why not).
    while c.at < c.end {
        n += standing_len(bindings, c);
        if (limit as usize) < n {
            return None;
        }
        c = next(bindings, frames, c);
    }
    Some(n)
}

// Writes a run at a position of out, bound variables replaced, and returns the position after it.
pub fn write_walked(
    bindings: &Bindings,
    frames: &mut [u32],
    run: Run,
    out: &mut [u8],
    to: usize,
) -> usize
    requires areas { (run.at + run.len ≤ length bindings.now.tokens.kinds.now) × (bindings.now.most + bindings.now.most ≤ length frames.old) }
    requires room { to + length (walked_bytes bindings.now run) ≤ length out.old }
    ensures next { result ≡ to + length (walked_bytes bindings.now run) }
    ensures wrote { out.new ≡ sets out.old to (walked_bytes bindings.now run) }
    ensures apart { Apart bindings.now.most frames.old frames.new }
    ensures bare { Zero frames.old → Zero frames.new }
{
    let mut c = begin(bindings, frames, run);
    let mut i = to;
    // `next` goes on by one token, into bound variables and out of them through `frames`. An iterator would hold these by `&mut` (`store.rt` of terms says why not).
    while c.at < c.end {
        i = write_standing(bindings, c, out, i);
        c = next(bindings, frames, c);
    }
    i
}

// How many bytes the term at p has with bound variables replaced; none where those are more than limit.
pub fn resolved_len(bindings: &Bindings, frames: &mut [u32], p: usize, limit: u32) -> Option<usize>
    requires { bindings.now.most + bindings.now.most ≤ length frames.old }
    ensures len { unwrap_or result (limit + 1) ≡ min (limit + 1) (length (resolved_bytes_at bindings.now p)) }
    ensures term { (t : Term) (b : ℕ → Option Term)
        → HeldBy bindings.now p t
        → Binds bindings.now b
        → unwrap_or result (limit + 1) ≡ min (limit + 1) (length (bytes (resolve bindings.now.most b t))) }
    ensures fits { (n : ℕ) → result ≡ Some n → n ≤ limit }
    ensures apart { Apart bindings.now.most frames.old frames.new }
    ensures bare { (n : ℕ) → result ≡ Some n → Zero frames.old → Zero frames.new }
{
    let run = run_at(&bindings.tokens, p).unwrap_or_default();
    walked_len(bindings, frames, run, limit)
}

// Writes the term at p at a position of out, bound variables replaced, and returns the position after it.
pub fn write_resolved(
    bindings: &Bindings,
    frames: &mut [u32],
    p: usize,
    out: &mut [u8],
    to: usize,
) -> usize
    requires areas { bindings.now.most + bindings.now.most ≤ length frames.old }
    requires room { to + length (resolved_bytes_at bindings.now p) ≤ length out.old }
    ensures next { result ≡ to + length (resolved_bytes_at bindings.now p) }
    ensures wrote { out.new ≡ sets out.old to (resolved_bytes_at bindings.now p) }
    ensures term { (t : Term) (b : ℕ → Option Term)
        → HeldBy bindings.now p t
        → Binds bindings.now b
        → (result ≡ to + length (bytes (resolve bindings.now.most b t))) × (out.new ≡ sets out.old to (bytes (resolve bindings.now.most b t))) }
    ensures apart { Apart bindings.now.most frames.old frames.new }
    ensures bare { Zero frames.old → Zero frames.new }
{
    let run = run_at(&bindings.tokens, p).unwrap_or_default();
    write_walked(bindings, frames, run, out, to)
}

// Sets the words before count to 0.
pub fn clear_words(words: &mut [u32], count: usize)
    requires { count ≤ length words.old }
    ensures { Cleared count words.old words.new }
{
    words[..count].fill(0);
}
