// The session's calls, by value: the page, closing, and the whole read, with the refusals of a reading.
#![tactic(auto)]

ghost use Rattle.std.specs.Prelude.{◌≡◌, true, ◌⊎◌, ◌++◌, ◌-◌, ◌≤◌, ◌<◌, length, drop};
ghost use Rattle.rules.specs.Bodies.{form_of};
ghost use Rattle.rules.specs.Refusals.{number_of};
ghost use Rattle.rules.specs.Map.{by_dart, Limits};
ghost use Rattle.rules.specs.Stream.{unpack};
ghost use Rattle.rules.specs.Reading as reading;
ghost use Rattle.rules.specs.Reading.{plain_answer, read_answer, read_tables, reading_of};
ghost use Rattle.rules.specs.Session.{leaves, waiting_of, walk_of, go_on, after_end, page_as, close_as, stand_of};
ghost use Rattle.rules.specs.Fetch.{whole_bytes, page_call};
ghost use Rattle.symbols.specs.Cursors.{CursorFits};
ghost use Rattle.runs.specs.Turns.{Ready};
ghost use Rattle.records.specs.Lefts.{left_by, idle_by, held_by, good_by};
ghost use Rattle.records.specs.Fetches.{read_by, fetched_by, Fetches};
ghost use Rattle.reader.specs.Calls.{headed, cursor_of};

use records::Answered;
use rules::{Form, PageAnswer, ReadAnswer, Reason, Session, Stand, State};
use symbols::{Bits, Cursor};

// The form that the first four bits say. No `From`: they mean N and form together.
pub fn form_of(bits: u8) -> Form
    ensures { result ≡ form_of bits }
{
    if bits < 8 {
        return Form::One;
    }
    Form::Several
}

// Both header bytes are in; the page goes on at a byte of it.
pub fn begin(
    first: u8,
    second: u8,
    at: usize,
    page: &[u8],
    tables: &mut [u16],
) -> Answered<PageAnswer>
    requires { at ≤ length page.now }
    ensures { let t = tables.old in Fetches result tables.new
        (leaves (headed first second (unpack (drop at page.now)) t) t) }
{
    let form = form_of(first / 16);
    let dim = (first / 16 % 8) as usize;
    let darts = (first % 16) as usize * 256 + second as usize + 1;
    if dim < 1 || 6 < dim {
        return records::refused(Reason::Dimension.number(), 0).asking(0);
    }
    let size = (dim + 1) * darts;
    if tables.len() < size {
        return records::refused(Reason::ShortTables.number(), 0).asking(0);
    }
    tables::blank(tables, size);
    let stand = Stand {
        count: 1,
        positions: [0u16; 7],
        form,
        bodies: 1,
    };
    let cursor = Cursor {
        waiting: 0,
        value: 0,
        at,
        bit: 0,
    };
    let bits = Bits { cursor, page };
    records::go_on(dim, darts, stand, bits, tables)
}

// Fewer than two bytes of the header wait: the others are to be fetched.
pub fn header_waits(waiting: u16, value: u16) -> Answered<PageAnswer>
    requires { waiting ≤ 16 }
    ensures { (read_by result ≡ record { session = idle_by State.Header waiting value; answer = plain_answer 0 0 })
        × (result.answer.fetch ≡ whole_bytes (16 - waiting)) }
{
    let session = records::idle(State::Header, waiting, value);
    let answer = records::plain(0, 0);
    let fetch = records::whole_bytes(16 - waiting as u32);
    Answered { session, answer }.asking(fetch)
}

// A page on a header session with no bits or eight.
pub fn page_header(s: Session, page: &[u8], tables: &mut [u16]) -> Answered<PageAnswer>
    requires { ((s.waiting ≡ 0) ⊎ (s.waiting ≡ 8)) × (s.value < 256) }
    ensures { let t = tables.old in Fetches result tables.new
        (leaves (reading_of by_dart (waiting_of s ++ unpack page.now) t) t) }
{
    if s.waiting == 0 {
        if page.len() == 0 {
            return header_waits(0, 0);
        }
        if page.len() == 1 {
            return header_waits(8, page[0] as u16);
        }
        return begin(page[0], page[1], 2, page, tables);
    }
    if page.len() == 0 {
        return header_waits(8, s.value);
    }
    begin(s.value as u8, page[0], 1, page, tables)
}

// A page on a running session: what waits comes first.
pub fn page_running(s: Session, page: &[u8], tables: &mut [u16]) -> Answered<PageAnswer>
    requires { CursorFits (cursor_of s) page.now × Ready s.dim s.darts (stand_of s) (cursor_of s) tables.old }
    ensures { let t = tables.old in Fetches result tables.new
        (leaves (go_on by_dart s (unpack page.now) t) t) }
{
    let stand = Stand::from(s);
    let cursor = Cursor {
        waiting: s.waiting,
        value: s.value,
        at: 0,
        bit: 0,
    };
    let bits = Bits { cursor, page };
    records::go_on(s.dim as usize, s.darts as usize, stand, bits, tables)
}

// The walk of a record, held in a state where no bits wait.
pub fn held(s: Session, state: State) -> Answered<ReadAnswer>
    requires { (s.dim ≤ 6) × (s.darts ≤ 4096) }
    ensures { (result.session ≡ held_by state s.dim s.darts (stand_of s) 0 0)
        × (result.answer ≡ good_by s.dim s.darts (stand_of s)) }
{
    records::held(
        state,
        s.dim as usize,
        s.darts as usize,
        Stand::from(s),
        0,
        0,
    )
}

// The walk of a record, refused for a reason that wipes the tables.
pub fn spoiled(s: Session, reason: Reason, tables: &mut [u16]) -> Answered<ReadAnswer>
    requires { Limits s.dim s.darts tables.old }
    ensures { let t = tables.old in left_by result tables.new
        ≡ leaves (reading.spoiled (number_of reason) (walk_of by_dart s t)) t }
{
    records::spoiled(
        reason.number(),
        s.dim as usize,
        s.darts as usize,
        Stand::from(s),
        tables,
    )
}

// A byte on a complete session comes after the end.
pub fn page_complete(s: Session, page: &[u8], tables: &mut [u16]) -> Answered<ReadAnswer>
    requires { Limits s.dim s.darts tables.old }
    ensures { let t = tables.old in left_by result tables.new
        ≡ leaves (after_end (walk_of by_dart s t) (unpack page.now)) t }
{
    if page.len() == 0 {
        return held(s, State::Complete);
    }
    spoiled(s, Reason::ByteAfter, tables)
}

// A page on a fit session, by its state: a `match`, since the arms take other arguments, which closures hide.
pub fn page_fit(s: Session, page: &[u8], tables: &mut [u16]) -> Answered<PageAnswer>
    requires { Rattle.rules.specs.Session.fit by_dart s tables.old ≡ true }
    ensures { Fetches result tables.new (page_as by_dart s.state s (unpack page.now)
        tables.old) }
{
    match s.state {
        State::Header => page_header(s, page, tables),
        State::Running => page_running(s, page, tables),
        State::Complete => page_complete(s, page, tables).asking(0),
        State::Closed => records::unchanged(s, Reason::Closed.number(), 0).asking(0),
        State::Refused(number, place) => records::unchanged(s, number, place).asking(0),
    }
}

// Closing a fit session, by its state: a `match`, as above.
pub fn close_fit(s: Session, tables: &mut [u16]) -> Answered<ReadAnswer>
    requires { Rattle.rules.specs.Session.fit by_dart s tables.old ≡ true }
    ensures { left_by result tables.new ≡ close_as by_dart s.state s tables.old }
{
    match s.state {
        State::Header => records::refused(Reason::Cut.number(), 0),
        State::Running => spoiled(s, Reason::Cut, tables),
        State::Complete => held(s, State::Closed),
        State::Closed => records::unchanged(s, Reason::Closed.number(), 0),
        State::Refused(number, place) => records::unchanged(s, number, place),
    }
}

// The page call.
pub fn page(s: Session, bytes: &[u8], tables: &mut [u16]) -> Answered<PageAnswer>
    ensures { fetched_by result tables.new ≡ page_call by_dart s bytes.now tables.old }
{
    if fitness::fit(s, tables) {
        return page_fit(s, bytes, tables);
    }
    records::unchanged(s, Reason::Unfit.number(), 0).asking(0)
}

// The close call.
pub fn close(s: Session, tables: &mut [u16]) -> Answered<ReadAnswer>
    ensures { left_by result tables.new ≡ Rattle.rules.specs.Session.close by_dart s tables.old }
{
    if fitness::fit(s, tables) {
        return close_fit(s, tables);
    }
    records::unchanged(s, Reason::Unfit.number(), 0)
}

// One whole read: a page of all the bytes on a new session, then closing. Such a session is fit, so that isn't tested.
pub fn read(bytes: &[u8], tables: &mut [u16]) -> ReadAnswer
    ensures { (result ≡ read_answer by_dart bytes.now tables.old)
        × (tables.new ≡ read_tables by_dart bytes.now tables.old) }
{
    let first = page_header(Session::open(), bytes, tables);
    let s = first.session;
    let last = close_fit(s, tables);
    last.answer
}
