// The stored record and the stored answers: a session as seventeen numbers in a caller's own room, and an answer as
// its numbers in order. Which number of a session stands where is known here and nowhere else.
#![tactic(auto)]

ghost use Rattle.std.specs.Prelude.{◌≡◌, true, [], ◌∷◌};
ghost use Rattle.rules.specs.Reading.{plain_answer};
ghost use Rattle.stored.specs.Answers.{check_numbers, write_numbers, read_numbers, page_numbers, report_numbers};
ghost use Rattle.stored.specs.Layout.{state_number, refusal_number, refusal_place, form_number, stored_session};
ghost use Rattle.stored.specs.Layout.{state_by, form_by, session_by, standing};
ghost use Rattle.stored.specs.Layout.{state_in, form_in, narrow_in, session_in};

use rules::{
    CheckAnswer, Form, PageAnswer, ReadAnswer, Reason, ReportAnswer, Session, State, WriteAnswer,
};

// How many numbers a record has.
const NUMBERS: usize = 17;

// A record: state, refusal's number and place; then N, n, count, seven positions, the waiting bits and their value;
// form and bodies last, so that the others stand where they stood without them.
pub type Record = [u32; NUMBERS];

// A reading's answer as stored: number, place, steps, N, n.
pub type ReadRoom = [u32; 5];

// A page's answer as stored: the reading's, and the bytes to fetch.
pub type PageRoom = [u32; 6];

// The check's answer as stored. This and the conversions below are no `From`: an array and a record of `rules` are both
// foreign here.
pub fn check_numbers(a: CheckAnswer) -> [u32; 2]
    ensures { result ≡ check_numbers a }
{
    [a.number, a.place]
}

// The writer's answer as stored.
pub fn write_numbers(a: WriteAnswer) -> [u32; 4]
    ensures { result ≡ write_numbers a }
{
    [a.number, a.place, a.written, a.length]
}

// A reading's answer as stored.
pub fn read_numbers(a: ReadAnswer) -> ReadRoom
    ensures { result ≡ read_numbers a }
{
    [a.number, a.place, a.steps, a.dim, a.darts]
}

// A page's answer as stored.
pub fn page_numbers(a: PageAnswer) -> PageRoom
    ensures { result ≡ page_numbers a }
{
    let r = a.reading;
    [r.number, r.place, r.steps, r.dim, r.darts, a.fetch]
}

// The answer on a record that is no fit session.
#[tactic(auto, unfolding(rules::specs::Reading::plain_answer, rules::specs::Refusals::number_of))]
pub fn unfit() -> ReadAnswer
    ensures { result ≡ plain_answer 19 0 }
{
    ReadAnswer {
        number: Reason::Unfit.number(),
        place: 0,
        steps: 0,
        dim: 0,
        darts: 0,
    }
}

// The same as stored.
pub fn unfit_numbers() -> ReadRoom
    ensures { result ≡ read_numbers (plain_answer 19 0) }
{
    read_numbers(unfit())
}

// The same of a page: there is nothing to fetch.
pub fn unfit_page_numbers() -> PageRoom
    ensures { result ≡ page_numbers (record { reading = plain_answer 19 0; fetch = 0 }) }
{
    let reading = unfit();
    page_numbers(PageAnswer { reading, fetch: 0 })
}

// The report's answer as stored.
pub fn report_numbers(a: ReportAnswer) -> [u32; 11]
    ensures { result ≡ report_numbers a }
{
    let c = a.cells;
    [
        a.number,
        a.place,
        c[0],
        c[1],
        c[2],
        c[3],
        c[4],
        c[5],
        c[6],
        a.free,
        u32::from(a.orientable),
    ]
}

// A state's three numbers: its own, then the number and place of a refusal, else 0.
pub fn state_numbers(state: State) -> [u32; 3]
    ensures { result ≡ state_number state ∷ refusal_number state ∷ refusal_place state ∷ [] }
{
    match state {
        State::Header => [0, 0, 0],
        State::Running => [1, 0, 0],
        State::Complete => [2, 0, 0],
        State::Closed => [3, 0, 0],
        State::Refused(number, place) => [4, number, place],
    }
}

// A form's number.
pub fn form_number(form: Form) -> u32
    ensures { result ≡ form_number form }
{
    match form {
        Form::One => 0,
        Form::Several => 1,
    }
}

// Positions as stored.
pub fn stored_positions(p: [u16; 7]) -> [u32; 7]
    ensures { result ≡ p }
{
    p.map(|x| u32::from(x))
}

// A session as stored.
pub fn stored_session(s: Session) -> Record
    ensures { result ≡ stored_session s }
{
    let [state, number, place] = state_numbers(s.state);
    let p = stored_positions(s.positions);
    [
        state,
        number,
        place,
        u32::from(s.dim),
        u32::from(s.darts),
        u32::from(s.count),
        p[0],
        p[1],
        p[2],
        p[3],
        p[4],
        p[5],
        p[6],
        u32::from(s.waiting),
        u32::from(s.value),
        form_number(s.form),
        u32::from(s.bodies),
    ]
}

// The state of three numbers, any numbers: 4 and more are a refusal's.
pub fn state_of(state: u32, number: u32, place: u32) -> State
    ensures { result ≡ state_by state number place }
{
    match state {
        0 => State::Header,
        1 => State::Running,
        2 => State::Complete,
        3 => State::Closed,
        _ => State::Refused(number, place),
    }
}

// The state of three numbers, if one stands for them. Only a refusal has number and place.
#[tactic(auto, using(crate::proofs::Laws::states))]
pub fn state_in(state: u32, number: u32, place: u32) -> Option<State>
    ensures { result ≡ state_in state number place }
{
    match (state, number, place) {
        (0..=3, 0, 0) | (4, _, _) => Some(state_of(state, number, place)),
        _ => None,
    }
}

// The form of a number, any number: 1 and more are the several form's.
pub fn form_of(form: u32) -> Form
    ensures { result ≡ form_by form }
{
    match form {
        0 => Form::One,
        _ => Form::Several,
    }
}

// The form of a number, if one stands for it.
#[tactic(auto, using(crate::proofs::Laws::forms))]
pub fn form_in(form: u32) -> Option<Form>
    ensures { result ≡ form_in form }
{
    match form {
        0 | 1 => Some(form_of(form)),
        _ => None,
    }
}

// A number, if it has at most 16 bits.
pub fn narrow_in(n: u32) -> Option<u16>
    ensures { result ≡ narrow_in n }
{
    u16::try_from(n).ok()
}

// The session that stands for a record, if there is one.
#[tactic(auto, using(crate::proofs::Laws::no_session))]
pub fn session_in(kept: Record) -> Option<Session>
    ensures { result ≡ session_in kept }
{
    Some(Session {
        state: state_in(kept[0], kept[1], kept[2])?,
        dim: narrow_in(kept[3])?,
        darts: narrow_in(kept[4])?,
        count: narrow_in(kept[5])?,
        positions: [
            narrow_in(kept[6])?,
            narrow_in(kept[7])?,
            narrow_in(kept[8])?,
            narrow_in(kept[9])?,
            narrow_in(kept[10])?,
            narrow_in(kept[11])?,
            narrow_in(kept[12])?,
        ],
        waiting: narrow_in(kept[13])?,
        value: narrow_in(kept[14])?,
        form: form_in(kept[15])?,
        bodies: narrow_in(kept[16])?,
    })
}

// The session of a record that one is known to stand for.
pub fn session_of(kept: Record) -> Session
    requires { standing kept ≡ true }
    ensures { result ≡ session_by kept }
{
    session_in(kept).unwrap_or(Session::open())
}
