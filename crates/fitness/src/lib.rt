// Fitness of a session, as document 01 lists it: any record, any tables.
#![tactic(auto)]

ghost use Rattle.std.specs.Prelude.{◌≡◌, ◌&&◌, ◌||◌, ℕ, suc, ◌+◌, ◌≤◌, ◌^◌, Bool, length, get_or, eqb, ltb, leb};
ghost use Rattle.std.specs.Prelude.{MatchOption};
ghost use Rattle.std.specs.List.{list_all};
ghost use Rattle.rules.specs.Lists.{all_below};
ghost use Rattle.rules.specs.Map.{by_dart, Limits, size};
ghost use Rattle.rules.specs.Stream.{bits_of};
ghost use Rattle.rules.specs.Bodies.{bodies_fit, no_bodies};
ghost use Rattle.rules.specs.Refusals.{fit_refused};
ghost use Rattle.rules.specs.Session.{walk_at, value_fits, only_bits, walk_fits, all_done, fit_as};
ghost use Rattle.rules.specs.Inner.{Shape, Emptied, Lowest};
ghost use Rattle.rules.specs.declared.State.TheVariants.{Running, Complete};
ghost use Rattle.fitness.specs.Parts.{falls_at, is_at, over_at, all_within, known_at, open_at, blank_at};
ghost use Rattle.fitness.specs.Parts.{linked_at, passed_at, entry_at, asks_at};
ghost use Rattle.tables.specs.Maps.{of};

use rules::{Form, Session, Stand, State, WalkNo};
use steps::Case;
use tables::Map;

// The first positions are all x.
pub fn positions_are(k: usize, x: u16, positions: [u16; 7]) -> bool
    requires { k ≤ 7 }
    ensures { result ≡ all_below k (is_at positions x) }
{
    positions[..k].iter().all(|p| *p == x)
}

// The one-body form with no body begun, as at opening and when refused.
#[tactic(auto, unfolding(rules::specs::Bodies::no_bodies, rules::specs::Bodies::several))]
pub fn no_bodies(form: Form, bodies: u16) -> bool
    ensures { result ≡ no_bodies form bodies }
{
    match form {
        Form::One => bodies == 0,
        Form::Several => false,
    }
}

// A walk has begun a body, and no more bodies than it has numbered darts, since each begins with a new one; in the
// one-body form exactly one.
#[tactic(auto, unfolding(rules::specs::Bodies::bodies_fit, rules::specs::Bodies::several))]
pub fn bodies_fit(form: Form, bodies: u16, count: u16) -> bool
    ensures { result ≡ bodies_fit form bodies count }
{
    let as_many = match form {
        Form::One => bodies == 1,
        Form::Several => true,
    };
    1 <= bodies && bodies <= count && as_many
}

// Every number but the bits is 0, and the form is one-body.
#[tactic(auto, unfolding(rules::specs::Session::only_bits, crate::specs::Parts::is_at))]
pub fn only_bits(s: Session) -> bool
    ensures { result ≡ only_bits s }
{
    s.dim == 0
        && s.darts == 0
        && s.count == 0
        && positions_are(Session::RANKS, 0, s.positions)
        && no_bodies(s.form, s.bodies)
}

// Positions fall or stay equal by rank, and none is above count.
pub fn positions_fall(dim: usize, count: u16, positions: [u16; 7]) -> bool
    requires { dim ≤ 6 }
    ensures { result ≡ all_below (suc dim) (falls_at count positions) }
{
    let mut above = count;
    for i in 0..=dim {
        if above < positions[i] {
            return false;
        }
        above = positions[i];
    }
    true
}

// Positions past N are 0.
pub fn positions_past(dim: usize, positions: [u16; 7]) -> bool
    requires { dim ≤ 6 }
    ensures { result ≡ all_below 7 (over_at dim positions) }
{
    for i in dim + 1..Session::RANKS {
        if positions[i] != 0 {
            return false;
        }
    }
    true
}

// Do all entries fit? It counts those that do not and does not stop there, so that the compiler can test many entries
// at once.
pub fn all_fit<F: Fn(u16) -> bool>(entries: &[u16], fits: F) -> bool
    requires few { length entries.now ≤ 28672 }
    requires callable { F.IsAlwaysCallable fits }
    ensures { (test : ℕ → Bool) → ((x : ℕ) (b : Bool) → F.post fits x b → b ≡ test x)
        → result ≡ list_all test entries.now }
{
    let mut bad: u16 = 0;
    for x in entries {
        if !fits(*x) {
            bad += 1;
        }
    }
    bad == 0
}

// The darts from one up to another, which a rank has passed: each has a link of that rank.
pub fn rank_passed(map: &Map, rank: usize, from: u16, to: u16) -> bool
    requires { (rank ≤ map.now.dim) × (from ≤ to) × (to ≤ map.now.darts) }
    ensures { result ≡ all_within from to (of linked_at map.now rank) }
{
    let mut bad: u16 = 0;
    for d in from as usize..to as usize {
        if map.tables[map.place(rank, d)] == Session::NO_LINK {
            bad += 1;
        }
    }
    bad == 0
}

// The darts that each rank has passed and the last one has not.
pub fn ranks_passed(map: &Map, positions: [u16; 7]) -> bool
    requires { ((i : ℕ) → i ≤ map.now.dim → get_or positions i 0 ≤ map.now.darts)
        × ((i : ℕ) → i ≤ map.now.dim → get_or positions map.now.dim 0 ≤ get_or positions i 0) }
    ensures { result ≡ all_below map.now.dim (of passed_at map.now positions) }
{
    let dim = map.dim;
    for rank in 0..dim {
        if !rank_passed(map, rank, positions[dim], positions[rank]) {
            return false;
        }
    }
    true
}

// Every entry. The darts that all ranks have passed come first, then the other numbered ones, then those without a
// number: three runs of entries. In the second run what each rank has passed is looked at once more.
pub fn entries_fit(map: &Map, count: u16, positions: [u16; 7]) -> bool
    requires { (count ≤ map.now.darts) × ((i : ℕ) → i ≤ map.now.dim → get_or positions i 0 ≤ count)
        × ((i : ℕ) → i ≤ map.now.dim → get_or positions map.now.dim 0 ≤ get_or positions i 0) }
    ensures { result ≡ all_below (size map.now.dim map.now.darts) (of entry_at map.now count positions) }
{
    let dim = map.dim;
    let passed = (dim + 1) * positions[dim] as usize;
    let numbered = (dim + 1) * count as usize;
    let all = (dim + 1) * map.darts;
    let known = |x| x < count;
    let open = |x| x < count || x == Session::NO_LINK;
    let blank = |x| x == Session::NO_LINK;
    if !all_fit(&map.tables[..passed], known) {
        return false;
    }
    if !all_fit(&map.tables[passed..numbered], open) {
        return false;
    }
    if !all_fit(&map.tables[numbered..all], blank) {
        return false;
    }
    ranks_passed(map, positions)
}

// What running and complete share.
pub fn walk_fits(s: Session, tables: &[u16]) -> bool
    ensures { result ≡ walk_fits by_dart s tables.now }
{
    let dim = s.dim as usize;
    let darts = s.darts as usize;
    let positions = s.positions;
    let form = s.form;
    if dim < 1 {
        return false;
    }
    if 6 < dim {
        return false;
    }
    if darts < 1 {
        return false;
    }
    if Session::DARTS < darts {
        return false;
    }
    if tables.len() < (dim + 1) * darts {
        return false;
    }
    if s.count < 1 {
        return false;
    }
    if darts < s.count as usize {
        return false;
    }
    if !bodies_fit(form, s.bodies, s.count) {
        return false;
    }
    if !positions_fall(dim, s.count, positions) {
        return false;
    }
    if !positions_past(dim, positions) {
        return false;
    }
    entries_fit(&Map { dim, darts, tables }, s.count, positions)
}

// The rank of the lowest queue that isn't empty, if there is one. The queues below it are empty, so it holds the
// numbers from its position up to the count.
pub fn lowest(dim: usize, count: u16, positions: [u16; 7]) -> Option<usize>
    requires { dim ≤ 6 }
    ensures { MatchOption result (Emptied count positions (dim + 1)) (λ j. Lowest dim count positions j) }
{
    positions[..=dim].iter().position(|p| *p < count)
}

// A queue isn't empty, and the next step needs a symbol.
pub fn asks(map: &Map, stand: Stand) -> bool
    requires { Shape (walk_at by_dart map.now.dim map.now.darts stand map.now.tables.now) }
    ensures { result ≡ asks_at (walk_at by_dart map.now.dim map.now.darts stand map.now.tables.now) }
{
    let count = stand.count;
    let positions = stand.positions;
    let Some(j) = lowest(map.dim, count, positions) else {
        return false;
    };
    match steps::partner(map, j, WalkNo(positions[j])) {
        Case::Known => false,
        Case::Deduced(_) => false,
        Case::Asked => true,
    }
}

// None, or 1, or 11 and up to eleven more: bits that begin a symbol and don't finish it.
pub fn begins(bits: u16, value: u16) -> bool
    ensures { result ≡ (leb bits 13 && ltb value (2 ^ bits) && Rattle.rules.specs.Session.begins
        (bits_of bits value)) }
{
    if Session::WAITING < bits {
        return false;
    }
    if bits == 0 {
        return value == 0;
    }
    if bits == 1 {
        return value == 1;
    }
    value >> (bits - 2) == 3
}

// Count and positions 0..N equal to n, and no bits.
#[tactic(auto, unfolding(rules::specs::Session::all_done, crate::specs::Parts::is_at))]
pub fn all_done(s: Session) -> bool
    requires { s.dim ≤ 6 }
    ensures { result ≡ all_done s }
{
    let ranks = s.dim as usize + 1;
    s.count == s.darts
        && s.waiting == 0
        && s.value == 0
        && positions_are(ranks, s.darts, s.positions)
}

// Is a header session fit?
#[tactic(auto, unfolding(rules::specs::Session::value_fits))]
pub fn header_fits(s: Session) -> bool
    ensures { result ≡ ((eqb s.waiting 0 || eqb s.waiting 8) && value_fits s && only_bits s) }
{
    let bits = match s.waiting {
        0 => s.value == 0,
        8 => s.value <= 255,
        _ => false,
    };
    bits && only_bits(s)
}

// Is a running session fit?
pub fn running_fits(s: Session, tables: &[u16]) -> bool
    ensures { result ≡ fit_as by_dart Running s tables.now }
{
    if !walk_fits(s, tables) {
        return false;
    }
    let map = Map {
        dim: s.dim as usize,
        darts: s.darts as usize,
        tables,
    };
    asks(&map, Stand::from(s)) && begins(s.waiting, s.value)
}

// Is a complete session fit?
#[tactic(auto, unfolding(rules::specs::Session::fit_as))]
pub fn complete_fits(s: Session, tables: &[u16]) -> bool
    ensures { result ≡ fit_as by_dart Complete s tables.now }
{
    walk_fits(s, tables) && all_done(s)
}

// Does a refusal wipe the tables? A lent record may hold any number, so this is asked of the number.
#[tactic(auto, using(crate::proofs::Laws::wipings))]
pub fn wipes(number: u32) -> bool
    ensures { result ≡ Rattle.rules.specs.Refusals.wipes number }
{
    matches!(number, 11..=18 | 21..=23 | 30)
}

// May a refused session hold this number and place? Of the number, as above.
pub fn refusal_fits(number: u32, place: u32) -> bool
    ensures { result ≡ fit_refused number place }
{
    match number {
        1 => place == 0,
        3 => place == 0,
        _ => wipes(number),
    }
}

// Is a refused session fit? Its other numbers are not asked, but it has no body. The number is a lent record's, which
// may be any, so no Reason.
pub fn refused_fits(s: Session, number: u32, place: u32) -> bool
    ensures { result ≡ (fit_refused number place && no_bodies s.form s.bodies) }
{
    no_bodies(s.form, s.bodies) && refusal_fits(number, place)
}

// Is a session fit, with the tables lent? A `match`, since the arms take other arguments, which closures hide.
pub fn fit(s: Session, tables: &[u16]) -> bool
    ensures { result ≡ Rattle.rules.specs.Session.fit by_dart s tables.now }
{
    let state = s.state;
    match state {
        State::Header => header_fits(s),
        State::Running => running_fits(s, tables),
        State::Complete => complete_fits(s, tables),
        State::Closed => true,
        State::Refused(number, place) => refused_fits(s, number, place),
    }
}
