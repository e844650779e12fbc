// Orders 0 to 2: the variable of a place.
ghost use Rattle.std.specs.Prelude.{Some, unwrap_or, ◌≡◌, true, false, List, ℕ, ◌+◌, ◌*◌, ◌^◌, ◌≤◌, ◌<◌, length, get_or};
ghost use Rattle.solver.specs.Invariant.{InOrder};
ghost use Rattle.solver.specs.Session.{VariablePlace, at, gap, Session, issued, find};
ghost use Rattle.solver.specs.Orders as orders;
ghost use Rattle.solver.specs.Words.SessionRepresentation.{limits_of, place_words, site_words, slot_words, request_in, HeldPlace, HeldPlaces, Represents};
ghost use Rattle.solver.specs.Words.MethodContract.{matches, last_match, Shaped, Beside, placed, named_of, Issued, Replied, reply_of};
ghost use Rattle.solver.specs.Words.MethodContract.{resolved_reply};
ghost use Rattle.solver.specs.Words.OrderTerms.{place_of};

use super::layout::{PLACES, SITES, SLOTS, TAILS};
use super::{Issue, NumberRequest, PlaceWords, Site, Solver, Table};

// Whether a variable's words are those asked for: a hole has no slot. The words are compared, and no `Site` is made of them: the third word of a hole
// does not count, whatever it is, and the words of no variable are no site. The site is compared first and the kind last, here and as the words are read
// below, since few variables have the site asked for and most have the kind: with the kind first, a place issued long ago took 29% more instructions.
#[tactic(auto, unfolding(crate::specs::Words::MethodContract::matches))]
pub fn is_place(asked: PlaceWords, words: PlaceWords) -> bool
    ensures { result ≡ matches asked.kind asked.site asked.slot words.kind words.site words.slot }
{
    words.site == asked.site
        && (asked.kind == 2 || words.slot == asked.slot)
        && words.kind == asked.kind
}

// The last variable whose words are those asked for. Where no variable has the site there is none. It is taken into its callers, which know the kind: apart,
// it asked at each step whether slots count, and a place issued long ago took 45% more instructions.
#[inline(always)]
pub fn find_place(table: &Table, issued: usize, asked: PlaceWords) -> Option<usize>
    requires { issued ≤ table.now.variables }
    ensures word { unwrap_or result issued ≡ last_match asked.kind asked.site asked.slot
        (place_words table.now.variables table.now.words.now) (site_words table.now.variables table.now.words.now)
        (slot_words table.now.variables table.now.words.now) issued issued }
    ensures low { (v : ℕ) → result ≡ Some v → v < issued }
    ensures place { (p : VariablePlace) (ps : List VariablePlace)
        → HeldPlace p asked.kind asked.site asked.slot
        → length ps ≡ issued
        → HeldPlaces (place_words table.now.variables table.now.words.now) (site_words table.now.variables table.now.words.now)
        (slot_words table.now.variables table.now.words.now) ps
        → result ≡ named_of (find p ps) }
{
    let m = table.variables;
    if !table.words[SITES * m..SITES * m + issued].contains(&asked.site) {
        return None;
    }
    (0..issued).rev().find(|&v| {
        let words = PlaceWords {
            site: table.words[SITES * m + v],
            slot: table.words[SLOTS * m + v],
            kind: table.words[PLACES * m + v],
        };
        is_place(asked, words)
    })
}

impl Solver {
    // The variable that a place has or would be given, without issuing it.
    pub fn id_of(self, tables: &[u32], site: Site) -> Option<u32>
        requires { (ks vs : List ℕ) × (s : Session) × Represents self ks vs tables.now s }
        ensures placed { (ks vs : List ℕ) (s : Session) → Represents self ks vs tables.now s
            → result ≡ named_of (placed (limits_of self) s (place_of site)).variable }
        ensures low { (v : ℕ) → result ≡ Some v → v < self.variables }
    {
        let table = Table {
            words: tables,
            variables: self.variables,
        };
        // A search for each kind of place, so that the kind is known here, too.
        let found = match site {
            Site::Slot(_, _) => find_place(&table, self.issued, PlaceWords::from(site)),
            Site::Hole(_) => find_place(&table, self.issued, PlaceWords::from(site)),
        };
        let v = found.unwrap_or(self.issued);
        (v < self.variables).then_some(v as u32)
    }

    // The variable of a place: the one that it has, or a new one.
    pub fn issue(mut self, tables: &mut [u32], asked: PlaceWords) -> Issue
        requires { Shaped self (length tables.old) }
        ensures held { (ks vs : List ℕ) (s : Session) (p : VariablePlace)
            → HeldPlace p asked.kind asked.site asked.slot
            → InOrder (issued s) s.solver
            → Represents self ks vs tables.old s
            → Issued result.solver ks vs tables.new p (placed (limits_of self) s p) result.answer }
        ensures low { (v : ℕ) → result.answer ≡ Some v → v < self.variables }
        ensures beside { Beside self result.solver tables.old tables.new }
    {
        let m = self.variables;
        let issued = self.issued;
        let table = Table {
            words: &tables[..],
            variables: m,
        };
        if let Some(v) = find_place(&table, issued, asked) {
            return Issue {
                solver: self,
                answer: Some(v as u32),
            };
        }
        if m <= issued {
            return Issue {
                solver: self,
                answer: None,
            };
        }
        tables[PLACES * m + issued] = asked.kind;
        tables[SITES * m + issued] = asked.site;
        tables[SLOTS * m + issued] = asked.slot;
        tables[TAILS * m + issued] = (issued + 1) as u32;
        self.issued = issued + 1;
        Issue {
            solver: self,
            answer: Some(issued as u32),
        }
    }

    // Order 0: the variable of a slot of a site.
    pub fn variable(mut self, tables: &mut [u32], site: u32, slot: u32) -> Issue
        requires { Shaped self (length tables.old) × ((ks vs : List ℕ) × (s : Session) × InOrder (issued s) s.solver × Represents self ks vs tables.old s) }
        ensures held { (ks vs : List ℕ) (s : Session)
            → InOrder (issued s) s.solver
            → Represents self ks vs tables.old s
            → Replied result.solver ks vs tables.new (at site slot) (orders.order (limits_of self) s (orders.variable site slot)) reply_of result.answer }
        ensures beside { Beside self result.solver tables.old tables.new }
    {
        self.issue(tables, PlaceWords::from(Site::Slot(site, slot)))
    }

    // Orders 1 and 21: the number variable of a site, with this request from now on.
    pub fn numeric_variable(
        mut self,
        tables: &mut [u32],
        site: u32,
        request: NumberRequest,
    ) -> Issue
        requires { Shaped self (length tables.old) × ((ks vs : List ℕ) × (s : Session) × InOrder (issued s) s.solver × Represents self ks vs tables.old s) }
        ensures held { (ks vs : List ℕ) (s : Session)
            → InOrder (issued s) s.solver
            → Represents self ks vs tables.old s
            → Replied result.solver ks vs tables.new (at site 1) (orders.order (limits_of self) s (orders.number site (request_in request.word)))
            (resolved_reply (orders.order (limits_of self) s (orders.number site (request_in request.word))).session.solver) result.answer }
        ensures beside { Beside self result.solver tables.old tables.new }
    {
        let c = self.issue(tables, PlaceWords::from(Site::Slot(site, 1)));
        if let Some(v) = c.answer {
            c.solver.put_request(tables, v, request.word);
        }
        c
    }

    // Order 2: the variable of a hole.
    pub fn annotation_hole(mut self, tables: &mut [u32], site: u32) -> Issue
        requires { Shaped self (length tables.old) × ((ks vs : List ℕ) × (s : Session) × InOrder (issued s) s.solver × Represents self ks vs tables.old s) }
        ensures held { (ks vs : List ℕ) (s : Session)
            → InOrder (issued s) s.solver
            → Represents self ks vs tables.old s
            → Replied result.solver ks vs tables.new (gap site) (orders.order (limits_of self) s (orders.hole site))
            (resolved_reply (orders.order (limits_of self) s (orders.hole site)).session.solver) result.answer }
        ensures beside { Beside self result.solver tables.old tables.new }
    {
        self.issue(tables, PlaceWords::from(Site::Hole(site)))
    }
}
