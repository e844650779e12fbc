// Searches: a parameter in an order's bytes, the entry of a substitution in the areas. The last one counts.
ghost use Rattle.std.specs.Prelude.{◌≡◌, ◌-◌, ◌≤◌, length};
ghost use Rattle.terms.specs.Result.{said};
ghost use Rattle.terms.specs.Parameters.{parameter, listed, passed, past, skipped, index_in};
ghost use Rattle.terms.specs.Words.FindContract.{last_at, entry_at, receiver_at, nth_at};

use super::numbers::read_number;
use super::runs::{skip, width_at};
use super::values::{DEFINITION, ORDINARY};
use super::{Parameter, Parameters, Part, Refusal, Tokens};

// Reads a parameter: an owner and a position.
fn parameter_at(s: &[u8], at: usize) -> Result<(Parameter, usize), Refusal>
    ensures { said result ≡ parameter s.now at }
{
    let (owner, next) = read_number(s, at, DEFINITION)?;
    let (position, end) = read_number(s, next, ORDINARY)?;
    Ok((Parameter { owner, position }, end))
}

impl<'a> Parameters<'a> {
    // No parameters.
    pub fn none() -> Parameters<'a>
        ensures { result.count ≡ 0 }
    {
        Parameters {
            bytes: &[],
            at: 0,
            count: 0,
        }
    }

    // Goes through them and looks for the last one that is wanted: its index, and the position after them. Linear in their bytes.
    pub fn scan(&self, wanted: Parameter) -> Result<(Option<usize>, usize), Refusal>
        ensures { said result ≡ passed 0 None (listed self.now) wanted }
    {
        let mut best = None;
        let mut i = self.at;
        for n in 0..self.count {
            let (read, next) = parameter_at(self.bytes, i)?;
            if read == wanted {
                best = Some(n as usize);
            }
            i = next;
        }
        Ok((best, i))
    }

    // Goes past them, which are read and not kept: the position after them.
    pub fn skip(&self) -> Result<usize, Refusal>
        ensures { skipped self.now.count result ≡ past self.now.count (listed self.now) }
    {
        let (_, next) = self.scan(Parameter::default())?;
        Ok(next)
    }

    // The index of the last one that is the wanted one.
    pub fn find(&self, wanted: Parameter) -> Option<usize>
        ensures { result ≡ index_in (listed self.now) wanted }
    {
        let (best, _) = self.scan(wanted).ok()?;
        best
    }
}

// Looks in a row of records, each of `width` numbers and a term, for the last one whose first number is the owner that is wanted and whose last is the
// position. Linear in the records.
fn find_record(tokens: &Tokens, row: Part, width: usize, wanted: Parameter) -> Option<usize>
    requires areas { row.end ≤ length tokens.now.kinds.now }
    requires width { (1 ≤ width) × (width ≤ 2) }
    ensures { result ≡ last_at tokens.now.kinds.now tokens.now.vals.now width wanted.owner wanted.position (row.end - row.from) row.from row.end None }
{
    let mut best = None;
    let mut i = row.from;
    // A record is so many numbers and a term, which is as wide as it says: no row of one term, and no range is counted.
    while i < row.end {
        if row.end - i <= width {
            return best;
        }
        let t = i + width;
        let here = Parameter::of_words(tokens.vals[i], tokens.vals[t - 1]);
        if here == wanted {
            best = Some(t);
        }
        i = t + skip(tokens, t, row.end - t);
    }
    best
}

// The place of the last entry's term for a parameter, in a row of entries.
pub fn find_entry(tokens: &Tokens, row: Part, wanted: Parameter) -> Option<usize>
    requires { row.end ≤ length tokens.now.kinds.now }
    ensures { result ≡ entry_at tokens.now.kinds.now tokens.now.vals.now row.from row.end wanted.owner wanted.position }
{
    find_record(tokens, row, 2, wanted)
}

// The place of the last receiver's term for an owner, in a row of receivers.
pub fn find_receiver(tokens: &Tokens, row: Part, owner: u64) -> Option<usize>
    requires { row.end ≤ length tokens.now.kinds.now }
    ensures { result ≡ receiver_at tokens.now.kinds.now tokens.now.vals.now row.from row.end owner }
{
    let wanted = Parameter {
        owner,
        position: owner,
    };
    find_record(tokens, row, 1, wanted)
}

// The place of the n-th term from a place on. `behind_terms` of recover.rt goes over terms in the same way, but says where only of a row that is held; here it
// is said of any words, and of any place to begin at.
pub fn nth_term(tokens: &Tokens, from: usize, n: usize) -> Option<usize>
    ensures { result ≡ nth_at tokens.now.kinds.now tokens.now.vals.now n from }
{
    let mut i = from;
    for _ in 0..n {
        if tokens.kinds.len() <= i {
            return None;
        }
        i += width_at(tokens, i);
    }
    (i < tokens.kinds.len()).then_some(i)
}
