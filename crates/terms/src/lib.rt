// Terms: numbers; terms read into two lent areas as runs of tokens, and written again; the operations on them.
#![tactic(auto)]

ghost use Rattle.std.specs.Prelude.{◌≡◌, ◌≤◌, ◌<◌, length};
ghost use Rattle.terms.specs.Words.RewriteContract.{RowsWithin};
ghost use Rattle.terms.specs.Words.Tokens.{Narrow};
ghost use Rattle.terms.specs.Words.VirtualTokens.{Sight, given_of};

mod alike;
mod compare;
mod find;
mod interface;
mod keep;
mod kinds;
mod lists;
mod members;
mod normal;
mod numbers;
mod opening;
mod pairs;
mod questions;
mod read;
mod reader;
mod recover;
mod rewrite;
mod rows;
mod rule_list;
mod rules;
mod runs;
mod satisfy;
mod showing;
mod slots;
mod store;
mod values;
mod virtual_tokens;
mod walking;
mod write;

pub use compare::{can_weaken_to, conflicts_with};
pub use lists::keep_list;
pub use normal::{normalise, with_associated_types, write_normalised};
pub use numbers::{byte_at, number_len, read_number, write_number};
pub use pairs::walk_pair;
pub use questions::ask;
pub use reader::part_at;
pub use recover::{recovered_len, write_recovered};
pub use runs::{skip, term_part};
pub use satisfy::{satisfies, satisfies_for};
pub use store::clear_tokens;
pub use values::ORDINARY;
pub use write::{run_len, token_len, write_run, write_token};

// The levels that a term may have, and the nodes of the terms that are stored.
pub const LEVELS: u32 = 200;

pub const NODES: usize = 2048;

// Why an order is refused: it ends early or has bytes left over; a tag, a code or a kind that is not listed; a number too large or not in its shortest
// form; a level too many; members that do not rise; a variable that was not issued; nodes too many; variables too many; children too many.
#[derive(Clone, Copy, Debug, PartialEq, Eq)]
pub enum Refusal {
    Length = 1,
    Code = 2,
    Number = 3,
    Depth = 4,
    Order = 5,
    Variable = 6,
    Nodes = 7,
    Variables = 8,
    Children = 9,
}

impl From<Refusal> for u8 {
    ghost use Rattle.std.specs.Prelude.{◌≡◌};
    ghost use Rattle.terms.specs.Result.{number_of};

    ghost from_gives = { λ refusal number. number ≡ number_of refusal };

    fn from(refusal: Refusal) -> u8 {
        refusal as u8
    }
}

// A generic parameter: its owner, and its position in the owner's list.
#[derive(Clone, Copy, Default, PartialEq, Eq)]
pub struct Parameter {
    pub owner: u64,
    pub position: u64,
}

impl Parameter {
    ghost use Rattle.std.specs.Prelude.{◌≡◌};

    // The parameter of an owner and a position that are words.
    pub fn of_words(owner: u32, position: u32) -> Parameter
        ensures { result ≡ record { owner = owner; position = position } }
    {
        Parameter {
            owner: u64::from(owner),
            position: u64::from(position),
        }
    }
}

// A question of `TypeId` that looks for a term of some kind. The first seven are those of order 15, in its order.
#[derive(Clone, Copy, Debug, PartialEq, Eq)]
pub enum Question {
    IsNever,
    IsInteger,
    IsConcrete,
    IsUnresolved,
    ContainsUnknown,
    ContainsSelfType,
    ContainsProjection,
    IsResolvedIn,
}

// The question with this number, and the last one for any higher number. The orders name their questions, and no code calls this: it keeps what is promised of
// `ask` by any number.
impl From<u32> for Question {
    ghost use Rattle.std.specs.Prelude.{◌≡◌, min};
    ghost use Rattle.terms.specs.Questions.{number_of_question};

    ghost from_gives = { λ number question. number_of_question question ≡ min number 7 };

    fn from(number: u32) -> Question {
        match number {
            0 => Question::IsNever,
            1 => Question::IsInteger,
            2 => Question::IsConcrete,
            3 => Question::IsUnresolved,
            4 => Question::ContainsUnknown,
            5 => Question::ContainsSelfType,
            6 => Question::ContainsProjection,
            _ => Question::IsResolvedIn,
        }
    }
}

// Where reading stands: the position in the bytes, the number of the next token, and how many nodes were read. While these are at most
// `limit`, tokens are stored; past it reading goes on without.
// It does not hold the bytes: what is lent a `TermReader` changed has to say that its bytes are the same, a clause for each `Room` that a ghost field would
// save.
#[derive(Clone, Copy)]
pub struct Place {
    pub at: usize,
    pub top: usize,
    pub nodes: usize,
    pub limit: usize,
}

impl Place {
    ghost use Rattle.std.specs.Prelude.{◌≡◌, ◌<◌, ◌^◌, leb};

    // Whether tokens are stored: the nodes that were read are within the limit.
    fn within_limit(self) -> bool
        ensures { result ≡ leb self.nodes self.limit }
    {
        self.nodes <= self.limit
    }

    // The next token and the nodes. It is called, and not taken in: `moved` says why.
    #[inline(never)]
    fn tokens_and_nodes(&self) -> (usize, usize)
        ensures { result ≡ (self.now.top, self.now.nodes) }
    {
        (self.top, self.nodes)
    }

    // The same place. It is copied by parts of 8 bytes, as these were stored just before. A whole place, or parts side by side, the compiler moves by 16 bytes,
    // and such a load waits until both stores are done: an order with many rules was read 1.5 times as slowly. What comes from a call it does not put together.
    #[inline(always)]
    fn moved(&self) -> Place
        ensures { result ≡ self.now }
    {
        let (top, nodes) = self.tokens_and_nodes();
        Place {
            at: self.at,
            top,
            nodes,
            limit: self.limit,
        }
    }

    // The same place, where its nodes and limit were compared before, and so are at hand. Then it is enough that the top, of which a word is taken, is not put
    // together with what stands beside it, and the call is saved.
    #[inline(always)]
    fn moved_on(&self) -> Place
        requires { self.now.top < 2 ^ 32 }
        ensures { result ≡ self.now }
    {
        Place {
            at: self.at,
            top: self.top as u32 as usize,
            nodes: self.nodes,
            limit: self.limit,
        }
    }
}

// What a term reader is asked for: a term, or a bare nominal.
#[derive(Clone, Copy, Debug, PartialEq, Eq)]
pub enum PartKind {
    Term,
    BareNominal,
}

// A term reader: the bytes of an order, and where it stands in them.
#[derive(Clone, Copy)]
pub struct TermReader<'a> {
    pub bytes: &'a [u8],
    pub place: Place,
}

// A list of an order: arguments are terms, receivers have an owner each, and entries an owner and a position.
#[derive(Clone, Copy, Debug, PartialEq, Eq)]
pub enum Listing {
    Arguments,
    Receivers,
    Entries,
}

impl Listing {
    ghost use Rattle.std.specs.Prelude.{◌≡◌};
    ghost use Rattle.terms.specs.Words.ListsContract.{owned, placed};

    // Whether its records begin with an owner.
    fn has_owner(self) -> bool
        ensures { result ≡ owned self }
    {
        match self {
            Listing::Arguments => false,
            Listing::Receivers | Listing::Entries => true,
        }
    }

    // Whether they have a position after it.
    fn has_position(self) -> bool
        ensures { result ≡ placed self }
    {
        match self {
            Listing::Arguments | Listing::Receivers => false,
            Listing::Entries => true,
        }
    }
}

// What a term reader is asked for: a record of a list, with the levels left for its term and the number that its variables are below.
#[derive(Clone, Copy)]
pub struct RecordRequest {
    pub listing: Listing,
    pub levels: u32,
    pub issued: u64,
}

// What follows the tag of a plain kind: a code below `codes`, where there is one, at most two numbers, a count with as many terms, and `terms` terms.
// The flags say whether a number or a count is there; no value stands beside one.
#[derive(Clone, Copy, Debug, Default, PartialEq, Eq)]
pub struct Fields {
    pub codes: Option<u32>,
    pub first: bool,
    pub second: bool,
    pub counted: bool,
    pub terms: u32,
}

// What follows the tag of a node.
#[derive(Clone, Copy, Debug, PartialEq, Eq)]
pub enum Row {
    Plain(Fields),
    Nominal,
    Projection,
}

// What a tag stands for.
#[derive(Clone, Copy, Debug, PartialEq, Eq)]
pub enum Kind {
    Variable,
    Node(Row),
    Unlisted,
}

// Parameters that stand in the bytes of an order, each an owner and a position: from where on, and how many.
#[derive(Clone, Copy, Debug, PartialEq, Eq)]
pub struct Parameters<'a> {
    pub bytes: &'a [u8],
    pub at: usize,
    pub count: u64,
}

// What binders are replaced for: an instance, without parameters; a context, where a parameter that the substitution does not have becomes Unknown, and
// receivers are not looked at; or a family, where the arguments of the parameters stand at a place of the areas and the places after it.
#[derive(Clone, Copy, Debug, PartialEq, Eq)]
pub enum Purpose<'a> {
    Instance,
    Context(Parameters<'a>),
    Family(Parameters<'a>, usize),
}

// What takes the place of binders. A substitution is two rows in the areas: its entries and its receivers.
#[derive(Clone, Copy)]
pub struct Binders<'a> {
    pub entries: Part,
    pub receivers: Part,
    pub purpose: Purpose<'a>,
}

// What writes terms with their binders replaced: the tokens, and what takes the place of binders.
#[derive(Clone, Copy)]
pub struct Rewriter<'a> {
    pub tokens: Tokens<'a>,
    pub binders: Binders<'a>,
    ghost within: { RowsWithin tokens.kinds.now tokens.vals.now binders },
}

// What is done with bytes: they are only counted, or written too.
#[derive(Clone, Copy, Debug, PartialEq, Eq)]
pub enum Pass {
    Count,
    Write,
}

// What takes the place of a term: the term itself, the one at a place, or Unknown.
#[derive(Clone, Copy, Debug, PartialEq, Eq)]
pub enum Choice {
    Keep,
    By(usize),
    Unknown,
}

// In which order the children of a term are come to, by its tag.
#[derive(Clone, Copy, Debug, PartialEq, Eq)]
pub enum Class {
    Plain,
    Nominal,
    Projection,
}

// The tokens of terms, which are lent: the kinds, and as many values, which are words of 32 bits. What is asked of the terms in them are functions (`ask`,
// `satisfies`, `skip`): their subject is the term at a place, and not the tokens, and as methods they would have `self` for `tokens` and no clause less.
#[derive(Clone, Copy)]
pub struct Tokens<'a> {
    pub kinds: &'a [u32],
    pub vals: &'a [u32],
    ghost pairs: { length vals.now ≡ length kinds.now },
    ghost narrow: { Narrow vals.now },
}

// The tokens that normalising sees: the lent ones, and those that order 19 makes anew from what it is given. Methods stand in the modules of their subjects.
#[derive(Clone, Copy)]
pub struct Seen<'a> {
    pub tokens: Tokens<'a>,
    pub given: Option<Origin>,
    ghost sight: { Sight tokens.kinds.now tokens.vals.now given },
}

// A token: its kind and its value.
#[derive(Clone, Copy)]
pub struct Token {
    pub kind: u32,
    pub value: u32,
}

// Where a token that is seen is from: a lent one, Error, the head of a projection made anew and of so many tokens, or nowhere.
#[derive(Clone, Copy, Debug, PartialEq, Eq)]
pub enum Spot {
    Lent(usize),
    Error,
    Head(usize),
    Nowhere,
}

// What order 19 makes projections from: the place of the owner and its tokens, the place of the interface and the tokens of its row.
#[derive(Clone, Copy, Debug, PartialEq, Eq)]
pub struct Origin {
    pub owner: u32,
    pub span: u32,
    pub interface: u32,
    pub row: u32,
}

impl Origin {
    ghost use Rattle.std.specs.Prelude.{◌≡◌, ◌<◌};
    ghost use Rattle.terms.specs.Words.VirtualTokens.{width};

    // How many tokens a projection has that is made anew: its head, the owner's, those of the interface's row, its member, and the number of its arguments.
    fn width(self) -> usize
        ensures width { result ≡ width self }
        ensures bound { (0 < result) × (result < 17179869184) }
    {
        self.span as usize + self.row as usize + 3
    }
}

// What a projection is looked up in: the rules of order 20, or what order 19 is given.
#[derive(Clone, Copy, Debug, PartialEq, Eq)]
pub enum LookUp<'a> {
    Rules(&'a [Rule]),
    Given(Origin),
}

// What normalises terms: the tokens that are seen, and what projections are looked up in.
#[derive(Clone, Copy)]
pub struct Normaliser<'a> {
    pub seen: Seen<'a>,
    pub lookup: LookUp<'a>,
    ghost agree: { seen.given ≡ given_of lookup },
}

// The tokens from `from` up to `end`. That a part or a place lies in the tokens is a clause of what takes it: a part that held its tokens would say so by its
// type, but two parts would be of two tokens, and each function that takes two would have to ask that these are the same. What takes two parts of
// the same tokens takes no `PairWalk`: each caller has the tokens and two parts in hand, and would make one at each call.
#[derive(Clone, Copy, Debug, PartialEq, Eq)]
pub struct Part {
    pub from: usize,
    pub end: usize,
}

// A walk over two rows at once: the tokens, and what is left of each row.
#[derive(Clone, Copy, Drop)]
pub struct PairWalk<'a> {
    pub tokens: Tokens<'a>,
    pub a: Part,
    pub b: Part,
}

// What two rows go on with: a number each, by their places; a term each, by their tokens; or one row is over and the other is not, or one has a number and
// the other a term. Nothing comes after that.
#[derive(Clone, Copy, Debug, PartialEq, Eq)]
pub enum PairStep {
    Numbers(usize, usize),
    Terms(Part, Part),
    Apart,
}

// A walk over a row: the tokens that are seen, where it stands, and where the row ends. It comes to each number and to the first token of each child.
#[derive(Clone, Copy, Drop)]
pub struct RowWalk<'a> {
    pub seen: Seen<'a>,
    pub at: usize,
    pub end: usize,
}

// A tree in words: the place of its first token, and where its children are: 0 as in the source, else 1 more than the first one's record. No Option: a content
// is the two words of a record as the areas have them, and the definitions (`Tree`, `kids_of`) tell of these words.
#[derive(Clone, Copy)]
pub struct Content {
    pub head: u32,
    pub kids: u32,
}

// What contents are looked at with: the tokens that are seen, and the records, whose heads and kids are two slices.
#[derive(Clone, Copy)]
pub struct Records<'a> {
    pub seen: &'a Seen<'a>,
    pub heads: &'a [u32],
    pub kids: &'a [u32],
}

// A node whose children are in records: how many, its tag, its counts of arguments and members.
#[derive(Clone, Copy)]
pub struct Begun {
    pub n: usize,
    pub tag: u32,
    pub arguments: usize,
    pub members: usize,
}

// A place in the row of a content: the next token, the row's end, how many children were passed, and the content's child word. Places and counts are words.
#[derive(Clone, Copy)]
pub struct Cursor {
    pub at: usize,
    pub end: usize,
    pub child: usize,
    pub kids: u32,
    ghost small: { end < 4294967296 },
    ghost few: { child ≤ at },
}

// A rule of order 20: the places of its interface and its receiver, its member, the place of its arguments and how many they are, and the place of its
// value.
#[derive(Clone, Copy, Debug, Default, PartialEq, Eq)]
pub struct Rule {
    pub interface: u32,
    pub receiver: u32,
    pub member: u32,
    pub arguments: u32,
    pub count: u32,
    pub value: u32,
}

// What a visit gives: a content, how many records are used, the visits left, and how many bytes the content has.
#[derive(Clone, Copy)]
pub struct Walked {
    pub content: Content,
    pub next: usize,
    pub visits: usize,
    pub size: usize,
}

// A normalised term: its content, the records used, its bytes, and what it was looked up by.
#[derive(Clone, Copy)]
pub struct Ready {
    pub content: Content,
    pub next: usize,
    pub size: usize,
    pub given: Option<Origin>,
}

// Why normalising gives no term: its children are too many, refusal 9; or its bytes are more than there is room for.
#[derive(Clone, Copy, Debug, PartialEq, Eq)]
pub enum Unfinished {
    TooMany,
    TooLong,
}
