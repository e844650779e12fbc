// The questions that look for a term of some kind: one walk over the tokens, told by the question. Linear in the tokens looked at; a Generic
// of `IsResolvedIn` is looked for among the parameters.
// Kinds and tags are matched by number; the line in kinds.rt says why.
ghost use Rattle.std.specs.Prelude.{◌≡◌, Bool, List, ℕ, ◌≤◌, ◌<◌, length};
ghost use Rattle.terms.specs.Parser.{got};
ghost use Rattle.terms.specs.Term.{Term};
ghost use Rattle.terms.specs.Words.Held.{Held};
ghost use Rattle.terms.specs.Formed.{Formed};
ghost use Rattle.terms.specs.Questions.{Parameter, counted_by, entered_by, counted, entered, asked, number_of_question};
ghost use Rattle.terms.specs.Parameters.{listed};
ghost use Rattle.terms.specs.Words.TermsAtPlaces.{FormedAt, ParametersAt};
ghost use Rattle.terms.specs.Words.Lent.{PartOf};
ghost use Rattle.terms.specs.Words.QuestionsContract.{tag_of, word, Asking};

use super::runs::{skip, term_part};
use super::{Parameter, Parameters, Part, Question, Tokens, runs};

// The tag of the term whose first token has this kind.
pub fn tag_of(k: u32) -> u32
    ensures { result ≡ tag_of k }
{
    if k < 2 {
        return k;
    }
    k - 2
}

// Whether a term counts for question 7, by its tag and its first two numbers.
fn unresolved(tag: u32, a: u32, b: u32, parameters: &Parameters) -> bool
    ensures { (ps : List Parameter) (n : ℕ) → listed parameters.now ≡ got ps n → result ≡ counted_by ps 7 tag a b }
{
    match tag {
        1 | 2 | 3 | 19 => true,
        18 => parameters.count == 0,
        17 => parameters.find(Parameter::of_words(a, b)).is_none(),
        _ => false,
    }
}

// Whether a term counts for a question, by its tag and its first two numbers.
fn counts(question: Question, tag: u32, a: u32, b: u32, parameters: &Parameters) -> bool
    ensures { (ps : List Parameter) (n : ℕ) → listed parameters.now ≡ got ps n → result ≡ counted_by ps (number_of_question question) tag a b }
{
    match question {
        Question::IsNever => tag == 4 && a == 10,
        Question::IsInteger => tag == 4 && a < 8,
        Question::IsConcrete => matches!(tag, 1 | 2 | 3 | 17 | 18 | 19),
        Question::IsUnresolved => matches!(tag, 1 | 2 | 3),
        Question::ContainsUnknown => matches!(tag, 1 | 2),
        Question::ContainsSelfType => tag == 19,
        Question::ContainsProjection => tag == 18,
        Question::IsResolvedIn => unresolved(tag, a, b, parameters),
    }
}

// Whether a question enters a term with this tag.
fn enters(question: Question, tag: u32) -> bool
    ensures { result ≡ entered_by (number_of_question question) tag }
{
    match question {
        Question::IsNever | Question::IsInteger => false,
        Question::ContainsUnknown => tag != 18,
        _ => true,
    }
}

// The word at i, or 0 at the end.
pub fn word_at(vals: &[u32], i: usize, end: usize) -> u32
    requires { end ≤ length vals.now }
    ensures { result ≡ word vals.now i end }
{
    if i < end {
        return runs::word(vals, i);
    }
    0
}

// Whether a term that counts is among those that the question enters, in a row.
fn ask_row(tokens: &Tokens, row: Part, question: Question, parameters: &Parameters) -> bool
    requires { PartOf tokens.now.kinds.now row }
    ensures { (qs : List Parameter) (n : ℕ)
        → listed parameters.now ≡ got qs n
        → (whole : Bool)
        → Asking tokens.now.kinds.now tokens.now.vals.now row.from row.end (counted qs (number_of_question question)) (entered (number_of_question question))
        whole
        → result ≡ whole }
{
    let mut p = row.from;
    // A step is as wide as what stands there where that is not entered, and 1 where it is.
    while p < row.end {
        let k = tokens.kinds[p];
        if k == 0 {
            p += 1;
        } else {
            let tag = tag_of(k);
            let x = word_at(tokens.vals, p + 1, row.end);
            let y = word_at(tokens.vals, p + 2, row.end);
            if counts(question, tag, x, y, parameters) {
                return true;
            }
            if enters(question, tag) {
                p += 1;
            } else {
                p += skip(tokens, p, row.end - p);
            }
        }
    }
    false
}

// The same of the term at p. Questions 0 to 6 look at no parameters.
// They are no part of `IsResolvedIn`, which alone needs them: `Question::from` makes each question from its number, where no bytes are at hand.
pub fn ask(tokens: &Tokens, p: usize, question: Question, parameters: &Parameters) -> bool
    requires place { p < length tokens.now.kinds.now }
    requires term { FormedAt tokens.now.kinds.now tokens.now.vals.now p }
    requires parameters { ParametersAt parameters.now }
    ensures { (qs : List Parameter) (n : ℕ)
        → listed parameters.now ≡ got qs n
        → (t : Term)
        → Held tokens.now.kinds.now tokens.now.vals.now p t
        → Formed t
        → result ≡ asked qs (number_of_question question) t }
{
    ask_row(tokens, term_part(tokens, p), question, parameters)
}
