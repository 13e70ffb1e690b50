// The record and the answer that a reading leaves: refused, spoiled, held; the end of a walk, and where a run leaves
// the session.
#![tactic(auto)]

ghost use Rattle.std.specs.Prelude.{◌≡◌, not, ℕ, ◌≤◌, ◌<◌, ◌%◌, ◌/◌, length, take, drop, eqb};
ghost use Rattle.rules.specs.Lists.{sum};
ghost use Rattle.rules.specs.Map.{by_dart, Limits};
ghost use Rattle.rules.specs.Bodies.{end_number};
ghost use Rattle.rules.specs.Refusals.{number_of};
ghost use Rattle.rules.specs.Stream.{bits_of, value};
ghost use Rattle.rules.specs.Reading as reading;
ghost use Rattle.rules.specs.Reading.{plain_answer, run_all};
ghost use Rattle.rules.specs.Session.{leaves, walk_at};
ghost use Rattle.rules.specs.Fetch.{whole_bytes};
ghost use Rattle.symbols.specs.Cursors.{at_hand};
ghost use Rattle.symbols.specs.Bits.{of};
ghost use Rattle.runs.specs.Turns.{Ready};
ghost use Rattle.runs.specs.Runs.{told_run};
ghost use Rattle.records.specs.Lefts.{left_by, idle_by, held_by, good_by, found_by, Ends, Settles};
ghost use Rattle.records.specs.Fetches.{read_by, signal_fetch, Fetches};

use rules::{Form, PageAnswer, ReadAnswer, Reason, Session, Stand, State};
use runs::{Ran, Stop};
use symbols::Bits;
use tables::Map;

// A session and the answer of a call: of a reading, or of a page.
#[derive(Clone, Copy)]
pub struct Answered<A> {
    pub session: Session,
    pub answer: A,
}

// The least number of whole bytes that have so many bits.
pub fn whole_bytes(bits: u32) -> u32
    requires { bits ≤ 16 }
    ensures { result ≡ whole_bytes bits }
{
    (bits + 7) / 8
}

impl Answered<ReadAnswer> {
    // A page's answer, with so many bytes to fetch.
    pub fn asking(self, fetch: u32) -> Answered<PageAnswer>
        ensures { (read_by result ≡ self) × (result.answer.fetch ≡ fetch) }
    {
        Answered {
            session: self.session,
            answer: PageAnswer {
                reading: self.answer,
                fetch,
            },
        }
    }
}

// N and n are 0; on a refusal the step count is the place. By a number, which may be any: a lent record's is repeated.
pub fn plain(number: u32, place: u32) -> ReadAnswer
    ensures { result ≡ plain_answer number place }
{
    ReadAnswer {
        number,
        place,
        steps: place,
        dim: 0,
        darts: 0,
    }
}

// The record stays as given; the number, as in `plain`, may be one that it holds.
pub fn unchanged(s: Session, number: u32, place: u32) -> Answered<ReadAnswer>
    ensures { (result.session ≡ s) × (result.answer ≡ plain_answer number place) }
{
    let answer = plain(number, place);
    Answered { session: s, answer }
}

// A state with waiting bits, every other number 0, the form one-body. The bits and their value are two numbers here and
// below, as document 01 has them in the record. `Session::open` stands in `rules`, which does not know this crate, and
// likewise `stored::unfit` beside `plain`.
pub fn idle(state: State, waiting: u16, value: u16) -> Session
    ensures { result ≡ idle_by state waiting value }
{
    Session {
        state,
        dim: 0,
        darts: 0,
        count: 0,
        positions: [0u16; 7],
        waiting,
        value,
        form: Form::One,
        bodies: 0,
    }
}

// The steps done: the sum of the positions.
pub fn steps_of(positions: [u16; 7]) -> u32
    ensures { result ≡ sum positions }
{
    let mut steps = 0;
    for i in 0..Session::RANKS {
        steps += u32::from(positions[i]);
    }
    steps
}

// Refused: the state keeps number and place, and every other number of the record is 0. The number may be any, as in
// `plain`.
pub fn refused(number: u32, place: u32) -> Answered<ReadAnswer>
    ensures { (result.session ≡ idle_by (State.Refused number place) 0 0)
        × (result.answer ≡ plain_answer number place) }
{
    let session = idle(State::Refused(number, place), 0, 0);
    let answer = plain(number, place);
    Answered { session, answer }
}

// Refused by a number that wipes the tables: the map's entries become the mark. N and n go beside the tables here and
// below, as `steps::join` says.
pub fn spoiled(
    number: u32,
    dim: usize,
    darts: usize,
    stand: Stand,
    tables: &mut [u16],
) -> Answered<ReadAnswer>
    requires { Limits dim darts tables.old }
    ensures { let t = tables.old in left_by result tables.new
        ≡ leaves (reading.spoiled number (walk_at by_dart dim darts stand t)) t }
{
    let place = steps_of(stand.positions);
    tables::blank(tables, (dim + 1) * darts);
    refused(number, place)
}

// Accepted so far: the record of the walk, and its answer.
pub fn held(
    state: State,
    dim: usize,
    darts: usize,
    stand: Stand,
    waiting: u16,
    value: u16,
) -> Answered<ReadAnswer>
    requires { (dim ≤ 6) × (darts ≤ 4096) }
    ensures { (result.session ≡ held_by state dim darts stand waiting value)
        × (result.answer ≡ good_by dim darts stand) }
{
    let positions = stand.positions;
    let steps = steps_of(positions);
    let session = Session {
        state,
        dim: dim as u16,
        darts: darts as u16,
        count: stand.count,
        positions,
        waiting,
        value,
        form: stand.form,
        bodies: stand.bodies,
    };
    let answer = ReadAnswer {
        number: 0,
        place: 0,
        steps,
        dim: dim as u32,
        darts: darts as u32,
    };
    Answered { session, answer }
}

// Is a bit of a byte set, from one after the first on?
pub fn set_from(byte: u8, bit: u32) -> bool
    requires { (1 ≤ bit) × (bit < 8) }
    ensures { not result ≡ eqb (value (drop bit (bits_of 8 byte))) 0 }
{
    let rest = 1u8 << (8 - bit);
    byte % rest != 0
}

// Is a fill bit set in the rest of the byte where the cursor stands?
pub fn fill_set(bits: Bits) -> bool
    requires { bits.cursor.waiting ≡ 0 }
    ensures { let left = of at_hand bits.entry in not result ≡ eqb (value (take (length left % 8) left)) 0 }
{
    let at = bits.cursor.at;
    let bit = bits.cursor.bit;
    let page = bits.page;
    if page.len() <= at {
        return false;
    }
    if bit == 0 {
        return false;
    }
    set_from(page[at], bit)
}

// Is there a byte after the one where the cursor stands?
pub fn byte_after(bits: Bits) -> bool
    requires { bits.cursor.waiting ≡ 0 }
    ensures { not result ≡ eqb (length (of at_hand bits.entry) / 8) 0 }
{
    let at = bits.cursor.at;
    let bit = bits.cursor.bit;
    let page = bits.page;
    if page.len() <= at {
        return false;
    }
    if bit == 0 {
        return true;
    }
    at + 1 < page.len()
}

// Has a walk that ended found the bodies of its form? One body has every dart; of several, two were begun.
pub fn bodies_found(form: Form, bodies: u16, count: u16, darts: usize) -> bool
    ensures { result ≡ found_by form bodies count darts }
{
    match form {
        Form::One => count as usize == darts,
        Form::Several => 2 <= bodies,
    }
}

// What refuses a walk's end without them.
#[tactic(auto, unfolding(rules::specs::Bodies::end_number, rules::specs::Refusals::number_of))]
pub fn end_reason(form: Form) -> Reason
    ensures { number_of result ≡ end_number form }
{
    match form {
        Form::One => Reason::TooFew,
        Form::Several => Reason::OneBody,
    }
}

// The walk's end: what refuses it, in the documents' order, then complete.
pub fn finish(
    dim: usize,
    darts: usize,
    stand: Stand,
    bits: Bits,
    tables: &mut [u16],
) -> Answered<ReadAnswer>
    requires { Ends dim darts stand bits.cursor tables.old }
    ensures { let t = tables.old in left_by result tables.new
        ≡ leaves (reading.finish (walk_at by_dart dim darts stand t) (of at_hand bits.entry)) t }
{
    if !bodies_found(stand.form, stand.bodies, stand.count, darts) {
        return spoiled(end_reason(stand.form).number(), dim, darts, stand, tables);
    }
    let map = Map { dim, darts, tables };
    if map.first_broken().is_some() {
        return spoiled(Reason::Built.number(), dim, darts, stand, tables);
    }
    if fill_set(bits) {
        return spoiled(Reason::Fill.number(), dim, darts, stand, tables);
    }
    if byte_after(bits) {
        return spoiled(Reason::ByteAfter.number(), dim, darts, stand, tables);
    }
    held(State::Complete, dim, darts, stand, 0, 0)
}

// Where a run leaves the session.
pub fn settle(dim: usize, darts: usize, r: Ran, tables: &mut [u16]) -> Answered<ReadAnswer>
    requires { Settles dim darts r tables.old }
    ensures { let t = tables.old in left_by result tables.new
        ≡ leaves (reading.settle (told_run dim darts r.entry t)) t }
{
    match r.signal {
        Err(Stop::Refused(number)) => spoiled(number, dim, darts, r.stand, tables),
        Ok(()) => finish(dim, darts, r.stand, r.bits, tables),
        Err(Stop::Waits(_)) => {
            let w = r.bits.rest();
            held(State::Running, dim, darts, r.stand, w.bits, w.value)
        }
    }
}

// How many bytes to fetch after a run: those of the bits that it waits for.
pub fn to_fetch(signal: Result<(), Stop>) -> u32
    requires { (k : ℕ) → signal ≡ Err (Stop.Waits k) → k ≤ 16 }
    ensures { result ≡ signal_fetch signal }
{
    match signal {
        Ok(()) => 0,
        Err(Stop::Waits(bits)) => whole_bytes(bits),
        Err(Stop::Refused(_)) => 0,
    }
}

// The walk on a page's bits: every step that they allow, and where that leaves the session.
pub fn go_on(
    dim: usize,
    darts: usize,
    stand: Stand,
    bits: Bits,
    tables: &mut [u16],
) -> Answered<PageAnswer>
    requires { Ready dim darts stand bits.cursor tables.old }
    ensures { let t = tables.old in Fetches result tables.new
        (leaves (reading.settle (run_all (walk_at by_dart dim darts stand t) (of at_hand bits.entry))) t) }
{
    let r = runs::run(tables, dim, darts, stand, bits);
    let fetch = to_fetch(r.signal);
    settle(dim, darts, r, tables).asking(fetch)
}
