// The record of chains as it must be: worked out from the tokens and the columns of bindings and requests alone, word by word, and compared with the columns of
// ends and of tails. Nothing of the solver takes part, but the layout of the table.
use crate::Tally;
use frames::all_are;

// The variables of a session, at most: a column has so many words.
pub const VARIABLES: usize = 512;

// The first words of the columns, and of what is not used between orders.
const REQUESTS: usize = VARIABLES;

const ENDS: usize = 6 * VARIABLES;

const TAILS: usize = 7 * VARIABLES;

const UNUSED: usize = 8 * VARIABLES;

// The bit of a tail at whose variable another chain ends.
const SHARED: u32 = 1 << 26;

// Words, and the tokens that they name.
#[derive(Clone, Copy)]
pub struct Seen<'a> {
    pub kinds: &'a [u32],
    pub vals: &'a [u32],
    pub table: &'a [u32],
    pub issued: usize,
}

// Where a chain ends: the word of its last binding, and the variable there.
#[derive(Clone, Copy, Default)]
struct Found {
    word: u32,
    variable: Option<u32>,
}

// A word of the table; where two numbers say it, their sum.
fn word_at(table: &[u32], from: usize, at: usize) -> u32 {
    table.get(from.saturating_add(at)).copied().unwrap_or(0)
}

// The types of the family of a request, as a mask: of a range those that it says, of a plain one floats where the fallback is F64, else integers.
fn mask_of(request: u32) -> u32 {
    match request {
        0 => 0,
        10 => 768,
        1..=32 => 255,
        _ => request.saturating_sub(33) / 32 % 1024,
    }
}

impl Seen<'_> {
    // The variable at the place that a word names; none for a node or a default.
    fn variable_at(&self, word: u32) -> Option<u32> {
        let at = (word as usize).checked_sub(1)?;
        if self.kinds.get(at) != Some(&1) {
            return None;
        }
        self.vals.get(at).copied()
    }

    // Follows the bindings of a variable, one after another.
    fn followed(&self, v: u32) -> Found {
        let mut word = 0;
        let mut at = v;
        for _ in 0..VARIABLES {
            let next = word_at(self.table, 0, at as usize);
            if next == 0 {
                break;
            }
            word = next;
            let Some(w) = self.variable_at(word) else {
                return Found {
                    word,
                    variable: None,
                };
            };
            at = w;
        }
        Found {
            word,
            variable: Some(at),
        }
    }

    // The ends of all chains.
    fn ends(&self) -> [Found; VARIABLES] {
        let mut all = [Found::default(); VARIABLES];
        for v in 0..VARIABLES {
            if v < self.issued {
                all[v] = self.followed(v as u32);
            }
        }
        all
    }

    // The tail of v, by the end of its chain and whether another one ends at v.
    fn tail(&self, v: usize, end: Found, met: bool) -> u32 {
        let Some(w) = end.variable else {
            return 0;
        };
        let mask = mask_of(word_at(self.table, REQUESTS, w as usize));
        let bit = if met && w as usize == v { SHARED } else { 0 };
        mask.saturating_mul(65536)
            .saturating_add(w)
            .saturating_add(1)
            .saturating_add(bit)
    }

    // Whether the record of v is as it must be; where v is not issued, whether all its words are 0.
    fn right(&self, v: usize, end: Found, met: bool) -> bool {
        if self.issued <= v {
            return (0..8).all(|k: usize| word_at(self.table, k.saturating_mul(VARIABLES), v) == 0);
        }
        word_at(self.table, ENDS, v) == end.word
            && word_at(self.table, TAILS, v) == self.tail(v, end, met)
    }

    // Whether all records are, and all words that are not used are 0.
    pub fn look(&self, tally: &mut Tally) -> bool {
        let ends = self.ends();
        let met = met(&ends);
        let mut good = self
            .table
            .get(UNUSED..)
            .is_some_and(|rest| all_are(rest, 0));
        for v in 0..VARIABLES {
            good = good && self.right(v, ends[v], met[v]);
            if v < self.issued {
                tally.chains = tally.chains.saturating_add(1);
                tally.bound = tally.bound.saturating_add(u32::from(ends[v].word != 0));
                tally.shared = tally.shared.saturating_add(u32::from(met[v]));
            }
        }
        good
    }
}

// At which variables the chain of another one ends.
fn met(ends: &[Found; VARIABLES]) -> [bool; VARIABLES] {
    let mut met = [false; VARIABLES];
    for v in 0..VARIABLES {
        let Some(w) = ends[v].variable else {
            continue;
        };
        if ends[v].word != 0 && (w as usize) < VARIABLES {
            met[w as usize] = true;
        }
    }
    met
}
