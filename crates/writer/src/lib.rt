// The writer: the check, which numbers the darts, then a replay of the walk that puts the symbols' bits and so comes
// to the stream's length.
#![tactic(auto)]

ghost use Rattle.std.specs.Prelude.{◌≡◌, length, get_or, Bool, List, IfSome};
ghost use Prim.Native.Nat.{ℕ, ◌+◌, ◌*◌, ◌/◌, ◌%◌, ◌≤◌};
ghost use Rattle.rules.specs.Bodies.{first_bits};
ghost use Rattle.rules.specs.Inner.{Emptied};
ghost use Rattle.rules.specs.Map.{by_dart};
ghost use Rattle.rules.specs.Walk.{symbols_of};
ghost use Rattle.rules.specs.Stream.{codes, filled};
ghost use Rattle.rules.specs.Writing.{write_answer, write_out, write_work, stream};
ghost use Rattle.tables.specs.Maps.{of};
ghost use Rattle.replay.specs.Replays.{told, NumberedFrom};
ghost use Rattle.pen.specs.Pens.{PenFits, Holds, Put, IndexFits, penned};
ghost use Rattle.writer.specs.Written.{Underway, WentOn, answer_by};

use pen::{Pen, Sheet};
use rules::{Form, Reason, Refusal, Symbol, WriteAnswer};
use tables::{Map, ValidMap};

// What a step of the replay yields, put: a symbol's code, or nothing.
pub fn put_yield(sheet: &mut Sheet, s: Option<Symbol>)
    requires { PenFits 14 sheet.old.pen × IfSome s IndexFits }
    ensures { Put (codes (told s)) sheet.old sheet.new }
{
    if let Some(x) = s {
        sheet.put_symbol(x);
    }
}

// The symbols of a body, from where its first dart has entered L0 until all queues are empty. Positions say how many
// darts have left each queue; at the end all that are numbered have left L0. The queues below Lj are empty, so Lj holds
// the numbers from position j up to the count. The search for the lowest queue is that of `walk::number_body`, which
// says why it is no shared loop.
pub fn put_body(
    valid: &ValidMap,
    work: &[u16],
    positions: &mut [u16; 7],
    from: u16,
    sheet: &mut Sheet,
)
    requires { (2 * valid.now.map.darts ≤ length work.now)
        × of Underway valid.now.map work.now from positions.old sheet.old }
    ensures { let count = get_or positions.new 0 0 in
        of WentOn valid.now.map work.now from positions.old sheet.old count positions.new sheet.new
        × Emptied count positions.new (valid.now.map.dim + 1) }
{
    let mut count = from;
    let mut j = 0;
    while j <= valid.map.dim {
        if count <= positions[j] {
            j += 1;
        } else {
            let s = replay::step(valid, work, positions, j, count);
            put_yield(sheet, s.written);
            let next = s.count;
            // a new dart enters L0, so the lowest queue is looked for from there again
            if next != count {
                j = 0;
            }
            count = next;
        }
    }
}

// The symbols of the whole walk, body by body. The numbering is finished: the dart with which the next body begins has
// the next number already, and enters L0 without a symbol.
pub fn put_symbols(form: Form, valid: &ValidMap, work: &[u16], sheet: &mut Sheet)
    requires { (2 * valid.now.map.darts ≤ length work.now) × PenFits 401422 sheet.old.pen
        × ((root : ℕ) × of (NumberedFrom form) valid.now.map root work.now) }
    ensures { (root : ℕ) → of (NumberedFrom form) valid.now.map root work.now
        → Put (codes (of (symbols_of form by_dart) valid.now.map root)) sheet.old sheet.new }
{
    let dim = valid.map.dim;
    let darts = valid.map.darts;
    let mut positions = [0u16; 7];
    let mut due = true;
    while due {
        let from = positions[0] + 1;
        put_body(valid, work, &mut positions, from, sheet);
        due = rules::body_due(form, dim, darts, dim + 1, positions[0]);
    }
}

// How many bytes a pen's bits come to once the last is filled.
pub fn bytes_of(pen: Pen) -> usize
    requires { PenFits 8 pen }
    ensures { (bs : List Bool) → pen.at ≡ length bs / 8 → pen.bits ≡ length bs % 8
        → result ≡ length (filled bs) }
{
    if 0 < pen.bits {
        return pen.at + 1;
    }
    pen.at
}

// The first four bits of a stream: N, and 8 more in the several form. No `From`: the number means N and form together.
pub fn first_bits(form: Form, dim: usize) -> u16
    requires { dim ≤ 6 }
    ensures { result ≡ first_bits form dim }
{
    match form {
        Form::One => dim as u16,
        Form::Several => 8 + dim as u16,
    }
}

// Header, symbols, fill: the bytes of the page. The answer is the stream's length.
pub fn emit(form: Form, valid: &ValidMap, work: &[u16], start: usize, out: &mut [u8]) -> usize
    requires { (2 * valid.now.map.darts ≤ length work.now)
        × ((root : ℕ) × of (NumberedFrom form) valid.now.map root work.now) }
    ensures { (root : ℕ) → of (NumberedFrom form) valid.now.map root work.now
        → (result ≡ length (of (stream form by_dart) valid.now.map root))
        × (out.new ≡ penned (of (stream form by_dart) valid.now.map root) start out.old) }
{
    let mut sheet = Sheet::new(start, out);
    sheet.put_few(first_bits(form, valid.map.dim), 4);
    sheet.put_number((valid.map.darts - 1) as u16, 12);
    put_symbols(form, valid, work, &mut sheet);
    let length = bytes_of(sheet.pen);
    sheet.fill();
    length
}

// A page of a map's stream, or what refuses it.
pub fn written(
    form: Form,
    dim: usize,
    darts: usize,
    root: usize,
    start: usize,
    tables: &[u16],
    work: &mut [u16],
    out: &mut [u8],
) -> Result<WriteAnswer, Refusal>
    ensures { (answer_by result
        ≡ write_answer form by_dart dim darts root start tables.now work.old out.old)
        × (work.new ≡ write_work form by_dart dim darts root tables.now work.old)
        × (out.new
        ≡ write_out form by_dart dim darts root start tables.now work.old out.old) }
{
    checker::checked(form, dim, darts, root, tables, work)?;
    let map = Map { dim, darts, tables };
    let valid = ValidMap { map };
    // a page that begins past the end has no byte of the stream, so nothing is written then
    let length = emit(form, &valid, work, start, out);
    if length < start {
        return Err(Refusal {
            reason: Reason::PastEnd,
            place: length as u32,
        });
    }
    let written = out.len().min(length - start);
    Ok(WriteAnswer {
        number: 0,
        place: 0,
        written: written as u32,
        length: length as u32,
    })
}

// A page of a map's stream.
pub fn write(
    form: Form,
    dim: usize,
    darts: usize,
    root: usize,
    start: usize,
    tables: &[u16],
    work: &mut [u16],
    out: &mut [u8],
) -> WriteAnswer
    ensures { (result ≡ write_answer form by_dart dim darts root start tables.now work.old out.old)
        × (work.new ≡ write_work form by_dart dim darts root tables.now work.old)
        × (out.new
        ≡ write_out form by_dart dim darts root start tables.now work.old out.old) }
{
    written(form, dim, darts, root, start, tables, work, out).unwrap_or_else(WriteAnswer::from)
}
