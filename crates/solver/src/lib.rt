// The solver: its counters by value, its tables lent. Variables, deferrals, defaults, constrain, resolving, and what a resolved term has.
#![tactic(auto)]

ghost use Rattle.std.specs.Prelude.{◌*◌, ◌^◌, ◌≤◌, ◌<◌, length};
ghost use Rattle.solver.specs.Words.SessionRepresentation.{RequestWord};
ghost use Rattle.solver.specs.Words.TableLayout.{lasting_words};

mod answers;
mod chains;
mod constrain;
mod defaults;
mod equality;
mod families;
mod halves;
mod layout;
mod pending;
mod ranges;
mod reach;
mod resolving;
mod sessions;
mod substitution;
mod top;
mod variables;

pub use answers::{refusal_number, variable_len, write_variable};
pub use ranges::{plain_request, range_request};
pub use substitution::{context, family, instantiation, self_only};

// Functions and types of the terms that are handed on to the sheet, which names this crate alone.
pub use terms::{
    Binders, LEVELS, Listing, ORDINARY, Parameter, Parameters, Part, PartKind, Pass, Place,
    Question, Ready, Refusal, Rewriter, Rule, Tokens, Unfinished, ask, byte_at, can_weaken_to,
    clear_tokens, conflicts_with, keep_list, normalise, number_len, part_at, read_number,
    recovered_len, satisfies, satisfies_for, with_associated_types, write_normalised, write_number,
    write_recovered,
};

// A run of tokens: len of them, from at on. It is no `Part` of terms: what names a run tells its length, 0 where there is none (`Named`, `Entered`), and the
// laws of the walk count by it.
#[derive(Clone, Copy, Default)]
pub struct Run {
    pub at: usize,
    pub len: usize,
}

// A place in a walk: the token at, of a run that ends before end, below which depth runs wait in the frames.
#[derive(Clone, Copy)]
pub struct Stand {
    pub at: usize,
    pub end: usize,
    pub depth: usize,
}

// The bindings as they are: the tokens, the words of the variables in the table, and how many bindings a walk may go through. For equality the words are those
// of the ends of chains (`Solver::chains`), and the number is that of the bindings that the ends were come to by, at most.
#[derive(Clone, Copy)]
pub struct Bindings<'a> {
    pub tokens: Tokens<'a>,
    pub bound: &'a [u32],
    pub most: usize,
    ghost narrow: { length tokens.kinds.now < 2 ^ 32 },
}

// The table as it is read: its words, in columns of a word for each of so many variables. The functions that write it are lent the words as they are: a
// struct with a `&mut` that is lent on may come back with another slice in it ("How are the tokens lent?" in docs/DECISIONS.md).
#[derive(Clone, Copy)]
pub struct Table<'a> {
    pub words: &'a [u32],
    pub variables: usize,
    ghost columns: { lasting_words variables ≤ length words.now },
}

// What a term stands for, bound variables followed: the term at a place, or the builtin that is a default.
#[derive(Clone, Copy)]
pub enum ChainEnd {
    At(usize),
    Default(Builtin),
}

// A pending pair: the places of its two terms.
#[derive(Clone, Copy)]
pub struct PairAt {
    pub left: usize,
    pub right: usize,
}

// How many children of a node have been passed, and how many pairs are pending.
#[derive(Clone, Copy)]
pub struct Counted {
    pub child: usize,
    pub top: usize,
}

// The limits of a session: at most so many variables, and so many kept nodes.
#[derive(Clone, Copy, Debug, PartialEq, Eq)]
pub struct Limits {
    pub variables: usize,
    pub nodes: usize,
}

// The counters of a session, with its limits: at most `variables` variables and `nodes` kept nodes. So far `issued` variables, `revision`
// bindings, `kept` nodes, and `top` tokens in use.
// `Shaped` says of the counters alone that `issued` is at most `variables`, and that this is below 2 ^ 32. As ghost fields both would be asked by `revision`
// and `standing`, too, which take any counters; and no function may ask more than it does.
#[derive(Clone, Copy)]
pub struct Solver {
    pub variables: usize,
    pub nodes: usize,
    pub issued: usize,
    pub revision: usize,
    pub kept: usize,
    pub top: usize,
}

// The counters that an order is read by: the variables issued, the nodes kept, the tokens in use, and the limit of the nodes.
#[derive(Clone, Copy)]
pub struct Standing {
    pub issued: usize,
    pub kept: usize,
    pub top: usize,
    pub nodes: usize,
}

// The place of a variable: a slot of a site, or a hole.
#[derive(Clone, Copy, Debug, PartialEq, Eq)]
pub enum Site {
    Slot(u32, u32),
    Hole(u32),
}

// The words that the table has for the place of a variable: 1, a site and a slot, or 2, the site of a hole and 0. A search promises the
// last variable that has the words whichever they are, so it takes these, and not a `Site`.
#[derive(Clone, Copy, Debug, PartialEq, Eq)]
pub struct PlaceWords {
    pub kind: u32,
    pub site: u32,
    pub slot: u32,
}

impl From<Site> for PlaceWords {
    ghost use Rattle.std.specs.Prelude.{◌≡◌};
    ghost use Rattle.solver.specs.Words.OrderTerms.{words_of};

    ghost from_gives = { λ site words. words ≡ words_of site };

    fn from(site: Site) -> PlaceWords {
        match site {
            Site::Slot(s, i) => PlaceWords {
                kind: 1,
                site: s,
                slot: i,
            },
            Site::Hole(s) => PlaceWords {
                kind: 2,
                site: s,
                slot: 0,
            },
        }
    }
}

// What is resolved: the term that follows the session's tokens, or a variable.
#[derive(Clone, Copy, Debug, PartialEq, Eq)]
pub enum Subject {
    Follows,
    Id(u32),
}

// Where resolving begins: at the term of a place, with so many bindings left to follow; or at a default, or a variable that stands for itself.
#[derive(Clone, Copy)]
pub enum Start {
    Begins(usize, usize),
    Default(Builtin),
    Free(u32),
}

// Whether the access of a Map or a Set is part of a shape: in order 4 it is not, in order 22 it is.
#[derive(Clone, Copy, Debug, PartialEq, Eq)]
pub enum Access {
    Ignored,
    Compared,
}

// Whose defaults are taken: those of the variables that have a request, or those of the variables that are deferred, which take Never.
#[derive(Clone, Copy, Debug, PartialEq, Eq)]
pub enum Defaulted {
    Requested,
    Deferred,
}

// A builtin type, by its code.
#[derive(Clone, Copy)]
pub struct Builtin {
    pub code: u32,
    ghost listed: { code < 32 },
}

// What is requested of a number variable, by the word that the table has for it: `plain_request` and `range_request` make it, and `numeric_variable` stores it,
// so an enum would be made a word at once.
#[derive(Clone, Copy, Debug, PartialEq, Eq)]
pub struct NumberRequest {
    pub word: u32,
    ghost formed: { RequestWord word },
}

// A bound of a range: its size, or with `minus` minus its size.
// Both are always there, so an enum would say no more; and i128 has no minus 0, which the sheet may write and which is a bound of the definition, too.
#[derive(Clone, Copy, Debug, PartialEq, Eq)]
pub struct Bound {
    pub minus: bool,
    pub size: u64,
}

// The bounds of a range.
#[derive(Clone, Copy, Debug, PartialEq, Eq)]
pub struct Range {
    pub low: Bound,
    pub high: Bound,
}

// What `constrain` answers.
#[derive(Clone, Copy, Debug, PartialEq, Eq)]
pub enum Verdict {
    Incompatible = 0,
    Compatible = 1,
    Cancelled = 2,
}

impl From<Verdict> for u8 {
    ghost use Rattle.std.specs.Prelude.{◌≡◌};
    ghost use Rattle.solver.specs.Words.SessionRepresentation.{verdict_number};

    ghost from_gives = { λ verdict number. number ≡ verdict_number verdict };

    fn from(verdict: Verdict) -> u8 {
        verdict as u8
    }
}

// The solver after a pair, and what came of it. The counters go in and come back by value (document 01), so in this and the next two a part stands beside them.
// This, `Issue` and `AfterOrder` of sheet could be one generic struct, which saves six lines: but `verdict`, `answer` and `next` say in the clauses what stands
// there, where each would have `value`.
#[derive(Clone, Copy)]
pub struct Solved {
    pub solver: Solver,
    pub verdict: Verdict,
}

// The solver after a check, whether the pair is compatible so far, and how many pairs are pending.
#[derive(Clone, Copy)]
pub struct Checked {
    pub solver: Solver,
    pub good: bool,
    pub count: usize,
}

// The solver after orders 0 to 2, and the variable of the place; none where no more may be issued, which is refusal 8.
#[derive(Clone, Copy)]
pub struct Issue {
    pub solver: Solver,
    pub answer: Option<u32>,
}
