// Tokens and contents are sized, or written too. What is returned is the position after them; None where they do not fit.
// Kinds and tags are matched by number; the line in kinds.rt says why.
// The output and the position in it stand apart: docs/DECISIONS.md, "How are the tokens lent?".
ghost use Rattle.terms.specs.Words.Lent.{shown, StandsFor, PartOf, spelt_in};
ghost use Rattle.std.specs.Prelude.{Bool, ℕ, ◌≤◌, ◌<◌, length};
ghost use Rattle.terms.specs.Words.TokenBytes.{plain};
ghost use Rattle.terms.specs.Term.{Term, Parts, depth, depths, bytes, part_bytes};
ghost use Rattle.terms.specs.Words.Arena.{From};
ghost use Rattle.terms.specs.Words.ShowingContract.{writes, Shows, Kept};

use super::rows::child_here;
use super::write::{run_len, token_len, write_run, write_token};
use super::{Content, Cursor, Origin, Part, Pass, Records, RowWalk, Seen, Token, Tokens};

// One token. The pass is a value and no type, as in `emit_run`: what is sized and what is written are the same but for the last step.
fn show_token(out: &mut [u8], at: usize, x: Token, pass: Pass) -> Option<usize>
    requires { at ≤ length out.old }
    ensures kept { Kept (writes pass) out.old out.new at result }
    ensures shows { Shows (writes pass) out.old out.new at (plain x.kind x.value) result }
{
    let n = token_len(x);
    if out.len() - at < n {
        return None;
    }
    match pass {
        Pass::Count => Some(at + n),
        Pass::Write => Some(write_token(out, at, x)),
    }
}

// The lent tokens of a part; a token has at most 6 bytes.
fn show_flat(tokens: &Tokens, run: Part, out: &mut [u8], at: usize, pass: Pass) -> Option<usize>
    requires run { PartOf tokens.now.kinds.now run }
    requires room { at ≤ length out.old }
    ensures kept { Kept (writes pass) out.old out.new at result }
    ensures shows { Shows (writes pass) out.old out.new at (spelt_in tokens.now.kinds.now tokens.now.vals.now run) result }
{
    if pass == Pass::Write && 6 * (run.end - run.from) <= out.len() - at {
        return Some(write_run(tokens.kinds, tokens.vals, run, out, at));
    }
    let n = run_len(tokens.kinds, tokens.vals, run);
    if out.len() - at < n {
        return None;
    }
    match pass {
        Pass::Count => Some(at + n),
        Pass::Write => Some(write_run(tokens.kinds, tokens.vals, run, out, at)),
    }
}

impl<'a> Seen<'a> {
    // The tokens of a part, by `show_flat` where all are lent.
    fn show_run(&self, run: Part, out: &mut [u8], at: usize, pass: Pass) -> Option<usize>
        requires run { run.from ≤ run.end }
        requires room { at ≤ length out.old }
        ensures kept { Kept (writes pass) out.old out.new at result }
        ensures shows { Shows (writes pass) out.old out.new at (spelt_in (shown self.now).kinds (shown self.now).vals run) result }
    {
        if run.end <= self.tokens.kinds.len() {
            return show_flat(&self.tokens, run, out, at, pass);
        }
        let mut i = at;
        for q in run.from..run.end {
            i = show_token(out, i, self.token(q), pass)?;
        }
        Some(i)
    }
}

impl<'a> Records<'a> {
    // The parts of a row from a place on; its children have at most `fuel` levels.
    #[cycle(showing_trees)]
    fn show_row(
        &self,
        c: Cursor,
        fuel: usize,
        out: &mut [u8],
        at: usize,
        pass: Pass,
    ) -> Option<usize>
        requires room { at ≤ length out.old }
        ensures kept { Kept (writes pass) out.old out.new at result }
        ensures shows { (S : ℕ → Bool) (ps : Parts)
            → From (shown self.now.seen.now) self.now.heads.now self.now.kids.now S c ps
            → depths ps ≤ fuel
            → Shows (writes pass) out.old out.new at (part_bytes ps) result }
    {
        let row = RowWalk {
            seen: *self.seen,
            at: c.at,
            end: c.end,
        };
        let mut i = at;
        let mut n = c.child;
        // n counts the children, which stand among the numbers.
        for (q, y) in row {
            if y.kind == 0 {
                i = show_token(out, i, y, pass)?;
            } else {
                let z = child_here(self.heads, self.kids, c.kids, q, n);
                i = self.show_tree(z, fuel, out, i, pass)?;
                n += 1;
            }
        }
        Some(i)
    }

    // The tree that a content stands for; where it is built it has at most `fuel` levels.
    #[cycle(showing_trees)]
    pub fn show_tree(
        &self,
        x: Content,
        fuel: usize,
        out: &mut [u8],
        at: usize,
        pass: Pass,
    ) -> Option<usize>
        requires room { at ≤ length out.old }
        ensures kept { Kept (writes pass) out.old out.new at result }
        ensures shows { (S : ℕ → Bool) (t : Term)
            → StandsFor self.now S x t
            → (0 < x.kids → depth t ≤ fuel)
            → Shows (writes pass) out.old out.new at (bytes t) result }
    {
        let h = self.seen.token(x.head as usize);
        if x.kids == 0 {
            let from = x.head as usize;
            let run = Part {
                from,
                end: from + h.step(),
            };
            return self.seen.show_run(run, out, at, pass);
        }
        if fuel == 0 {
            return None;
        }
        let c = self.seen.cursor(x);
        let i = show_token(out, at, h, pass)?;
        self.show_row(c, fuel - 1, out, i, pass)
    }
}
