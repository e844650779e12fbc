// Where things stand in the table of a session: the columns, a word of each for every variable, then what is not used yet, then the pending pairs.
// Bindings are column 0 and requests column 1. `TableLayout` of the specs has the same numbers.
ghost use Rattle.std.specs.Prelude.{◌≡◌, ◌<◌, ◌^◌};
ghost use Rattle.solver.specs.Words.TableLayout as layout;

pub const PLACES: usize = 2;

pub const SITES: usize = 3;

pub const SLOTS: usize = 4;

pub const DEFERRALS: usize = 5;

pub const ENDS: usize = 6;

pub const TAILS: usize = 7;

// How many columns are in use; the words of the others, and those of steps and labels, are 0.
pub const USED_COLUMNS: usize = 8;

// How many columns there are.
const COLUMNS: usize = 10;

// The words of 64 steps of undo, four each, and of 256 labels, two each.
const STEPS_AND_LABELS: usize = 64 * 4 + 256 * 2;

// The words of a session: all that lasts from order to order.
pub fn lasting_words(variables: usize) -> usize
    requires { variables < 2 ^ 32 }
    ensures { result ≡ layout.lasting_words variables }
{
    COLUMNS * variables + STEPS_AND_LABELS
}
