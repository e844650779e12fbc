// The answers of orders 9 to 20, from an order whose fields are held. For `out` and `to` see `framing.rt`.
// Heads and kids are lent as two slices; the line in rows.rt of terms says why.
ghost use Rattle.std.specs.Prelude.{◌≡◌, List, ◌∷◌, ℕ, ◌≤◌, ◌<◌, length};
ghost use Rattle.solver.specs.Terms.Term.{Term, Held};
ghost use Rattle.solver.specs.Terms.Tokens.{area};
ghost use Rattle.solver.specs.Terms.Formed.{Formed};
ghost use Rattle.solver.specs.TermTypes.{Rule};
ghost use Rattle.solver.specs.Terms.Questions.{answered, number_of_question};
ghost use Rattle.solver.specs.Terms.RewriteContract.{Rewrites};
ghost use Rattle.solver.specs.Terms.Normal.{Out, levels, most};
ghost use Rattle.solver.specs.Terms.NormalContract.{Answers, Leaves, Lends};
ghost use Rattle.sheet.specs.OrderTable.{outcome};
ghost use Rattle.sheet.specs.Operations as rows;
ghost use Rattle.sheet.specs.Operations.{settled};
ghost use Rattle.sheet.specs.Words.OrderKinds.{operation_row};
ghost use Rattle.sheet.specs.Words.FramingContract.{OutputRoom, Framed};
ghost use Rattle.sheet.specs.Words.OperationsContract.{IsPosed, RepliesTo, parameters_at, row_at};

use super::framing::{begin_answer, write_byte_answer, write_bytes_answer, write_order_refusal};
use super::{FieldSpot, Operation, OrderRefusal, Posed};
use solver::{
    Parameters, Part, Pass, Question, Refusal, Rewriter, Rule, Tokens, Unfinished, ask,
    can_weaken_to, clear_tokens, conflicts_with, context, family, instantiation, normalise,
    recovered_len, satisfies, satisfies_for, self_only, with_associated_types, write_normalised,
    write_recovered,
};

// Order 9.
fn conflicts(posed: &Posed, out: &mut [u8], to: usize) -> Option<usize>
    requires asks { (ws : List Rule) × IsPosed posed.now ws rows.conflicts }
    requires room { OutputRoom out.old to }
    ensures { (ws : List Rule) → RepliesTo posed.now ws rows.conflicts (λ x. Framed x out.old to out.new result) }
{
    let o = posed.fields;
    let r = conflicts_with(&posed.tokens, o.first.place, o.second.place);
    write_byte_answer(out, to, u8::from(r))
}

// Order 10.
fn weakens(posed: &Posed, out: &mut [u8], to: usize) -> Option<usize>
    requires asks { (ws : List Rule) × IsPosed posed.now ws rows.weakens }
    requires room { OutputRoom out.old to }
    ensures { (ws : List Rule) → RepliesTo posed.now ws rows.weakens (λ x. Framed x out.old to out.new result) }
{
    let o = posed.fields;
    let r = can_weaken_to(&posed.tokens, o.first.place, o.second.place);
    write_byte_answer(out, to, u8::from(r))
}

// Order 11.
fn recovered(posed: &Posed, out: &mut [u8], to: usize) -> Option<usize>
    requires asks { (ws : List Rule) × IsPosed posed.now ws rows.recover }
    requires room { OutputRoom out.old to }
    ensures { (ws : List Rule) → RepliesTo posed.now ws rows.recover (λ x. Framed x out.old to out.new result) }
{
    let a = posed.fields.first.place;
    let b = posed.fields.second.place;
    let size = recovered_len(&posed.tokens, a, b);
    let at = begin_answer(out, to, size)?;
    Some(write_recovered(&posed.tokens, a, b, out, at))
}

// The parameters that a field has, which stand in the bytes.
fn parameters_at<'a>(posed: &Posed<'a>, spot: FieldSpot) -> Parameters<'a>
    ensures { result ≡ parameters_at posed.now spot }
{
    Parameters {
        bytes: posed.bytes,
        at: spot.place,
        count: spot.value,
    }
}

// The row that a field has.
fn row_at(spot: FieldSpot) -> Part
    ensures { result ≡ row_at spot }
{
    Part {
        from: spot.place,
        end: spot.end,
    }
}

// Orders 12, 13 and 14: the term with its binders replaced.
fn rewritten(rewriter: &Rewriter, from: usize, out: &mut [u8], to: usize) -> Option<usize>
    requires few { length rewriter.now.tokens.kinds.now ≤ 32768 }
    requires place { from < length rewriter.now.tokens.kinds.now }
    requires room { OutputRoom out.old to }
    ensures { Rewrites rewriter.now.tokens.kinds.now rewriter.now.tokens.vals.now rewriter.now.binders from
        (λ x. Framed (outcome x) out.old to out.new result) }
{
    let size = rewriter.write_term(from, out, 0, Pass::Count);
    let at = begin_answer(out, to, size)?;
    Some(rewriter.write_term(from, out, at, Pass::Write))
}

// Order 12.
fn instantiated(posed: &Posed, out: &mut [u8], to: usize) -> Option<usize>
    requires asks { (ws : List Rule) × IsPosed posed.now ws rows.instantiate }
    requires room { OutputRoom out.old to }
    ensures { (ws : List Rule) → RepliesTo posed.now ws rows.instantiate (λ x. Framed x out.old to out.new result) }
{
    let o = posed.fields;
    let rewriter = Rewriter {
        tokens: posed.tokens,
        binders: instantiation(row_at(o.first), row_at(o.second)),
    };
    rewritten(&rewriter, o.third.place, out, to)
}

// Order 13.
fn in_context(posed: &Posed, out: &mut [u8], to: usize) -> Option<usize>
    requires asks { (ws : List Rule) × IsPosed posed.now ws rows.argument_context }
    requires room { OutputRoom out.old to }
    ensures { (ws : List Rule) → RepliesTo posed.now ws rows.argument_context (λ x. Framed x out.old to out.new result) }
{
    let o = posed.fields;
    let parameters = parameters_at(posed, o.third);
    let rewriter = Rewriter {
        tokens: posed.tokens,
        binders: context(row_at(o.first), &parameters),
    };
    rewritten(&rewriter, o.fourth.place, out, to)
}

// Order 14.
fn by_receiver(posed: &Posed, out: &mut [u8], to: usize) -> Option<usize>
    requires asks { (ws : List Rule) × IsPosed posed.now ws rows.with_self }
    requires room { OutputRoom out.old to }
    ensures { (ws : List Rule) → RepliesTo posed.now ws rows.with_self (λ x. Framed x out.old to out.new result) }
{
    let o = posed.fields;
    let rewriter = Rewriter {
        tokens: posed.tokens,
        binders: self_only(row_at(o.first)),
    };
    rewritten(&rewriter, o.second.place, out, to)
}

// One of the seven questions; a term is concrete where the question finds nothing.
fn question(posed: &Posed, q: Question) -> bool
    requires { (ws : List Rule) × IsPosed posed.now ws rows.questions }
    ensures { (t : Term) → Held posed.now.tokens.kinds.now posed.now.tokens.vals.now posed.now.fields.first.place t → Formed t
        → result ≡ answered (number_of_question q) t }
{
    let p = posed.fields.first.place;
    let r = ask(&posed.tokens, p, q, &Parameters::none());
    match q {
        Question::IsConcrete => !r,
        _ => r,
    }
}

// Order 15: the seven questions.
fn asked(posed: &Posed, out: &mut [u8], to: usize) -> Option<usize>
    requires asks { (ws : List Rule) × IsPosed posed.now ws rows.questions }
    requires room { OutputRoom out.old to }
    ensures { (ws : List Rule) → RepliesTo posed.now ws rows.questions (λ x. Framed x out.old to out.new result) }
{
    let v = [
        Question::IsNever,
        Question::IsInteger,
        Question::IsConcrete,
        Question::IsUnresolved,
        Question::ContainsUnknown,
        Question::ContainsSelfType,
        Question::ContainsProjection,
    ]
    .map(|q| u8::from(question(posed, q)));
    write_bytes_answer(out, to, &v)
}

// Order 16.
fn resolved_in(posed: &Posed, out: &mut [u8], to: usize) -> Option<usize>
    requires asks { (ws : List Rule) × IsPosed posed.now ws rows.resolved_in }
    requires room { OutputRoom out.old to }
    ensures { (ws : List Rule) → RepliesTo posed.now ws rows.resolved_in (λ x. Framed x out.old to out.new result) }
{
    let parameters = parameters_at(posed, posed.fields.first);
    let p = posed.fields.second.place;
    let r = ask(&posed.tokens, p, Question::IsResolvedIn, &parameters);
    write_byte_answer(out, to, u8::from(!r))
}

// Order 17.
fn satisfied(posed: &Posed, out: &mut [u8], to: usize) -> Option<usize>
    requires asks { (ws : List Rule) × IsPosed posed.now ws rows.satisfied }
    requires room { OutputRoom out.old to }
    ensures { (ws : List Rule) → RepliesTo posed.now ws rows.satisfied (λ x. Framed x out.old to out.new result) }
{
    let a = posed.fields.first.place;
    let b = posed.fields.second.place;
    let x = satisfies(&posed.tokens, a, b);
    let y = satisfies_for(&posed.tokens, a, b, posed.fields.third.place);
    let v = [u8::from(x), u8::from(y)];
    write_bytes_answer(out, to, &v)
}

// The same after a 1. One function of both would take the bytes before the term as a slice, which is empty in three of four orders.
fn applied(rewriter: &Rewriter, from: usize, out: &mut [u8], to: usize) -> Option<usize>
    requires few { length rewriter.now.tokens.kinds.now ≤ 32768 }
    requires place { from < length rewriter.now.tokens.kinds.now }
    requires room { OutputRoom out.old to }
    ensures { Rewrites rewriter.now.tokens.kinds.now rewriter.now.tokens.vals.now rewriter.now.binders from
        (λ x. Framed (outcome (1 ∷ x)) out.old to out.new result) }
{
    let size = rewriter.write_term(from, out, 0, Pass::Count);
    let at = begin_answer(out, to, size + 1)?;
    out[at] = 1;
    Some(rewriter.write_term(from, out, at + 1, Pass::Write))
}

// Order 18: a family's value, for a substitution and arguments; or a 0, where the arguments are not as many as the parameters.
fn apply_family(posed: &Posed, out: &mut [u8], to: usize) -> Option<usize>
    requires asks { (ws : List Rule) × IsPosed posed.now ws rows.family }
    requires room { OutputRoom out.old to }
    ensures { (ws : List Rule) → RepliesTo posed.now ws rows.family (λ x. Framed x out.old to out.new result) }
{
    let o = posed.fields;
    if o.first.value != o.fifth.value {
        return write_byte_answer(out, to, 0);
    }
    let parameters = parameters_at(posed, o.first);
    let rewriter = Rewriter {
        tokens: posed.tokens,
        binders: family(
            row_at(o.third),
            row_at(o.fourth),
            &parameters,
            o.fifth.place,
        ),
    };
    applied(&rewriter, o.second.place, out, to)
}

// A normalised term, or refusal 9; what normalising has left in the areas is cleared.
fn settled(
    tokens: &Tokens,
    heads: &mut [u32],
    kids: &mut [u32],
    r: Result<solver::Ready, Unfinished>,
    out: &mut [u8],
    to: usize,
) -> Option<usize>
    requires room { OutputRoom out.old to }
    requires leaves { (hs : List ℕ) × (cs : List ℕ) × Leaves tokens.now.kinds.now tokens.now.vals.now hs cs heads.old kids.old most r }
    requires answers { (o : Out) × Answers tokens.now.kinds.now tokens.now.vals.now heads.old kids.old out.old to levels most o r }
    ensures clear { (hs cs : List ℕ)
        → Leaves tokens.now.kinds.now tokens.now.vals.now hs cs heads.old kids.old most r
        → area heads.new kids.new ≡ area hs cs }
    ensures says { (o : Out) → Answers tokens.now.kinds.now tokens.now.vals.now heads.old kids.old
        out.old to levels most o r → Framed (settled o) out.old to out.new result }
{
    match r {
        Err(Unfinished::TooMany) => write_order_refusal(
            out,
            to,
            OrderRefusal::Common(Refusal::Children),
        ),
        Err(Unfinished::TooLong) => None,
        Ok(w) => {
            let size = w.size;
            let Some(at) = begin_answer(out, to, size) else {
                clear_tokens(heads, kids, 0, w.next);
                return None;
            };
            Some(write_normalised(tokens, heads, kids, w, out, at))
        }
    }
}

// Order 19.
fn associated(
    posed: &Posed,
    heads: &mut [u32],
    kids: &mut [u32],
    out: &mut [u8],
    to: usize,
) -> Option<usize>
    requires lends { Lends posed.now.tokens.kinds.now posed.now.tokens.vals.now heads.old kids.old most }
    requires asks { (ws : List Rule) × IsPosed posed.now ws rows.with_associated_types }
    requires room { OutputRoom out.old to }
    ensures clear { area heads.new kids.new ≡ area heads.old kids.old }
    ensures says { (ws : List Rule) → RepliesTo posed.now ws rows.with_associated_types (λ x. Framed x out.old to out.new result) }
{
    let tokens = &posed.tokens;
    let p = posed.fields.first.place as u32;
    let i = posed.fields.second.place as u32;
    let o = posed.fields.third.place as u32;
    let r = with_associated_types(tokens, heads, kids, p, i, o, out, to);
    settled(tokens, heads, kids, r, out, to)
}

// Order 20.
fn normalised(
    posed: &Posed,
    heads: &mut [u32],
    kids: &mut [u32],
    rules: &[Rule],
    out: &mut [u8],
    to: usize,
) -> Option<usize>
    requires lends { Lends posed.now.tokens.kinds.now posed.now.tokens.vals.now heads.old kids.old most }
    requires asks { IsPosed posed.now rules.now rows.normalise }
    requires room { OutputRoom out.old to }
    ensures clear { area heads.new kids.new ≡ area heads.old kids.old }
    ensures says { RepliesTo posed.now rules.now rows.normalise (λ x. Framed x out.old to out.new result) }
{
    let tokens = &posed.tokens;
    let p = posed.fields.second.place as u32;
    let n = posed.fields.first.value as usize;
    let r = normalise(tokens, &rules[..n], heads, kids, p, out, to);
    settled(tokens, heads, kids, r, out, to)
}

// THE ANSWER of an order that leaves the session, whose fields are held.
pub fn operate(
    posed: &Posed,
    what: Operation,
    heads: &mut [u32],
    kids: &mut [u32],
    rules: &[Rule],
    out: &mut [u8],
    to: usize,
) -> Option<usize>
    requires lends { Lends posed.now.tokens.kinds.now posed.now.tokens.vals.now heads.old kids.old most }
    requires asks { IsPosed posed.now rules.now (operation_row what) }
    requires room { OutputRoom out.old to }
    ensures clear { area heads.new kids.new ≡ area heads.old kids.old }
    ensures says { RepliesTo posed.now rules.now (operation_row what) (λ x. Framed x out.old to out.new result) }
{
    match what {
        Operation::Conflicts => conflicts(posed, out, to),
        Operation::Weakens => weakens(posed, out, to),
        Operation::Recover => recovered(posed, out, to),
        Operation::Instantiate => instantiated(posed, out, to),
        Operation::ArgumentContext => in_context(posed, out, to),
        Operation::WithSelf => by_receiver(posed, out, to),
        Operation::Questions => asked(posed, out, to),
        Operation::ResolvedIn => resolved_in(posed, out, to),
        Operation::Satisfied => satisfied(posed, out, to),
        Operation::Family => apply_family(posed, out, to),
        Operation::WithAssociatedTypes => associated(posed, heads, kids, out, to),
        Operation::Normalise => normalised(posed, heads, kids, rules, out, to),
    }
}
