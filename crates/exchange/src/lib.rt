// The surface for C: exported functions on plain numbers and slices over the library's calls. Each returns the refusal
// number; the whole answer goes to the answer room. A session is kept as stored numbers in the caller's own record.
// A call in either form has a C name for each form: the names are the C interface.
#![tactic(auto)]

ghost use Rattle.std.specs.Prelude.{◌≡◌, get_or};
ghost use Rattle.rules.specs.declared.Form.TheVariants.{One, Several};
ghost use Rattle.rules.specs.Map.{by_dart};
ghost use Rattle.rules.specs.Check.{check_answer, check_work};
ghost use Rattle.rules.specs.Writing.{write_answer, write_work, write_out};
ghost use Rattle.rules.specs.Reading.{read_answer, read_tables};
ghost use Rattle.rules.specs.Report.{report_answer, report_work};
ghost use Rattle.shapes.specs.Faces.{faces_answer, faces_tables, faces_work};
ghost use Rattle.rules.specs.Session.{opened};
ghost use Rattle.stored.specs.Answers.{check_numbers, write_numbers, read_numbers, report_numbers};
ghost use Rattle.stored.specs.Layout.{stored_session};
ghost use Rattle.exchange.specs.Rooms.{lent, page_lent, close_lent, faces_numbers};

use rules::{Form, Reason, Session};
use stored::{PageRoom, ReadRoom, Record};

// The check of posted tables, in either form.
pub fn check_in(
    form: Form,
    dim: u64,
    darts: u64,
    root: u64,
    tables: &[u16],
    work: &mut [u16],
    answer: &mut [u32; 2],
) -> u32
    ensures { (result ≡ (check_answer form by_dart dim darts root tables.now work.old).number)
        × (answer.new
        ≡ check_numbers (check_answer form by_dart dim darts root tables.now work.old))
        × (work.new ≡ check_work form by_dart dim darts root tables.now work.old) }
{
    let a = checker::check(
        form,
        dim as usize,
        darts as usize,
        root as usize,
        tables,
        work,
    );
    *answer = stored::check_numbers(a);
    a.number
}

// The check of posted tables.
#[unsafe(no_mangle)]
pub extern "C" fn kz_check(
    dim: u64,
    darts: u64,
    root: u64,
    tables: &[u16],
    work: &mut [u16],
    answer: &mut [u32; 2],
) -> u32
    ensures { (result ≡ (check_answer One by_dart dim darts root tables.now work.old).number)
        × (answer.new
        ≡ check_numbers (check_answer One by_dart dim darts root tables.now work.old))
        × (work.new ≡ check_work One by_dart dim darts root tables.now work.old) }
{
    check_in(Form::One, dim, darts, root, tables, work, answer)
}

// The check of posted tables that have several bodies.
#[unsafe(no_mangle)]
pub extern "C" fn kz_check_bodies(
    dim: u64,
    darts: u64,
    root: u64,
    tables: &[u16],
    work: &mut [u16],
    answer: &mut [u32; 2],
) -> u32
    ensures { (result ≡ (check_answer Several by_dart dim darts root tables.now work.old).number)
        × (answer.new
        ≡ check_numbers (check_answer Several by_dart dim darts root tables.now work.old))
        × (work.new ≡ check_work Several by_dart dim darts root tables.now work.old) }
{
    check_in(Form::Several, dim, darts, root, tables, work, answer)
}

// The paged writer, in either form.
pub fn write_in(
    form: Form,
    dim: u64,
    darts: u64,
    root: u64,
    start: u64,
    tables: &[u16],
    work: &mut [u16],
    out: &mut [u8],
    answer: &mut [u32; 4],
) -> u32
    ensures { (result
        ≡ (write_answer form by_dart dim darts root start tables.now work.old out.old
        ).number)
        × (answer.new
        ≡ write_numbers
        (write_answer form by_dart dim darts root start tables.now work.old out.old))
        × (work.new ≡ write_work form by_dart dim darts root tables.now work.old)
        × (out.new
        ≡ write_out form by_dart dim darts root start tables.now work.old
        out.old) }
{
    let a = writer::write(
        form,
        dim as usize,
        darts as usize,
        root as usize,
        start as usize,
        tables,
        work,
        out,
    );
    *answer = stored::write_numbers(a);
    a.number
}

// The paged writer.
#[unsafe(no_mangle)]
pub extern "C" fn kz_write(
    dim: u64,
    darts: u64,
    root: u64,
    start: u64,
    tables: &[u16],
    work: &mut [u16],
    out: &mut [u8],
    answer: &mut [u32; 4],
) -> u32
    ensures { (result
        ≡ (write_answer One by_dart dim darts root start tables.now work.old out.old
        ).number)
        × (answer.new
        ≡ write_numbers
        (write_answer One by_dart dim darts root start tables.now work.old out.old))
        × (work.new ≡ write_work One by_dart dim darts root tables.now work.old)
        × (out.new
        ≡ write_out One by_dart dim darts root start tables.now work.old
        out.old) }
{
    write_in(
        Form::One,
        dim,
        darts,
        root,
        start,
        tables,
        work,
        out,
        answer,
    )
}

// The paged writer of several bodies.
#[unsafe(no_mangle)]
pub extern "C" fn kz_write_bodies(
    dim: u64,
    darts: u64,
    root: u64,
    start: u64,
    tables: &[u16],
    work: &mut [u16],
    out: &mut [u8],
    answer: &mut [u32; 4],
) -> u32
    ensures { (result
        ≡ (write_answer Several by_dart dim darts root start tables.now work.old out.old
        ).number)
        × (answer.new
        ≡ write_numbers
        (write_answer Several by_dart dim darts root start tables.now work.old out.old))
        × (work.new ≡ write_work Several by_dart dim darts root tables.now work.old)
        × (out.new
        ≡ write_out Several by_dart dim darts root start tables.now work.old
        out.old) }
{
    write_in(
        Form::Several,
        dim,
        darts,
        root,
        start,
        tables,
        work,
        out,
        answer,
    )
}

// One whole read.
#[unsafe(no_mangle)]
pub extern "C" fn kz_read(bytes: &[u8], tables: &mut [u16], answer: &mut ReadRoom) -> u32
    ensures { (result ≡ (read_answer by_dart bytes.now tables.old).number)
        × (answer.new ≡ read_numbers (read_answer by_dart bytes.now tables.old))
        × (tables.new ≡ read_tables by_dart bytes.now tables.old) }
{
    let a = reader::read(bytes, tables);
    *answer = stored::read_numbers(a);
    a.number
}

// A new session.
#[unsafe(no_mangle)]
pub extern "C" fn kz_open(kept: &mut Record)
    ensures { kept.new ≡ stored_session opened }
{
    *kept = stored::stored_session(Session::open());
}

// A page given to a session.
#[unsafe(no_mangle)]
pub extern "C" fn kz_page(
    kept: &mut Record,
    bytes: &[u8],
    tables: &mut [u16],
    answer: &mut PageRoom,
) -> u32
    ensures { (lent kept.new answer.new tables.new
        ≡ page_lent kept.old bytes.now tables.old)
        × (result ≡ get_or answer.new 0 0) }
{
    let Some(session) = stored::session_in(*kept) else {
        *answer = stored::unfit_page_numbers();
        return Reason::Unfit.number();
    };
    let p = reader::page(session, bytes, tables);
    *kept = stored::stored_session(p.session);
    *answer = stored::page_numbers(p.answer);
    p.answer.reading.number
}

// A session's end.
#[unsafe(no_mangle)]
pub extern "C" fn kz_close(kept: &mut Record, tables: &mut [u16], answer: &mut ReadRoom) -> u32
    ensures { (lent kept.new answer.new tables.new
        ≡ close_lent kept.old tables.old)
        × (result ≡ get_or answer.new 0 0) }
{
    let Some(session) = stored::session_in(*kept) else {
        *answer = stored::unfit_numbers();
        return Reason::Unfit.number();
    };
    let p = reader::close(session, tables);
    *kept = stored::stored_session(p.session);
    *answer = stored::read_numbers(p.answer);
    p.answer.number
}

// The cell report, in either form.
pub fn report_in(
    form: Form,
    dim: u64,
    darts: u64,
    tables: &[u16],
    work: &mut [u16],
    answer: &mut [u32; 11],
) -> u32
    ensures { (result ≡ (report_answer form by_dart dim darts tables.now work.old).number)
        × (answer.new
        ≡ report_numbers (report_answer form by_dart dim darts tables.now work.old))
        × (work.new ≡ report_work form by_dart dim darts tables.now work.old) }
{
    let a = report::report(form, dim as usize, darts as usize, tables, work);
    *answer = stored::report_numbers(a);
    a.number
}

// The cell report.
#[unsafe(no_mangle)]
pub extern "C" fn kz_report(
    dim: u64,
    darts: u64,
    tables: &[u16],
    work: &mut [u16],
    answer: &mut [u32; 11],
) -> u32
    ensures { (result ≡ (report_answer One by_dart dim darts tables.now work.old).number)
        × (answer.new
        ≡ report_numbers (report_answer One by_dart dim darts tables.now work.old))
        × (work.new ≡ report_work One by_dart dim darts tables.now work.old) }
{
    report_in(Form::One, dim, darts, tables, work, answer)
}

// The cell report of several bodies.
#[unsafe(no_mangle)]
pub extern "C" fn kz_report_bodies(
    dim: u64,
    darts: u64,
    tables: &[u16],
    work: &mut [u16],
    answer: &mut [u32; 11],
) -> u32
    ensures { (result ≡ (report_answer Several by_dart dim darts tables.now work.old).number)
        × (answer.new
        ≡ report_numbers (report_answer Several by_dart dim darts tables.now work.old))
        × (work.new ≡ report_work Several by_dart dim darts tables.now work.old) }
{
    report_in(Form::Several, dim, darts, tables, work, answer)
}

// A face file (OFF text) as a map of dimension 2. The answer's numbers have 64 bits, since a text may be longer than
// 32 bits can say.
#[unsafe(no_mangle)]
pub extern "C" fn kz_faces(
    text: &[u8],
    tables: &mut [u16],
    work: &mut [u16],
    answer: &mut [u64; 3],
) -> u32
    ensures { (result ≡ (faces_answer by_dart text.now tables.old work.old).number)
        × (answer.new
        ≡ faces_numbers (faces_answer by_dart text.now tables.old work.old))
        × (tables.new ≡ faces_tables by_dart text.now tables.old work.old)
        × (work.new ≡ faces_work by_dart text.now tables.old work.old) }
{
    let a = faces::read(text, tables, work);
    *answer = [a.number as u64, a.place, a.darts as u64];
    a.number
}
