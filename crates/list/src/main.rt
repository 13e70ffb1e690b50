// The listing program: reads one stream from standard input by pages through a session and prints the map, or the
// refusal. Nothing is printed before the close answer is known.
#![tactic(auto)]

ghost use Rattle.std.specs.Prelude.{◌≡◌, length};

use rules::{Form, ReadAnswer, Session};
use std::io;
use std::io::{Read, Write};

// A room of N numbers. It is a function, since a proof would count the numbers of a literal one by one.
fn room<T: Copy, const N: usize>(blank: T) -> [T; N]
    ensures { N ≡ length result }
{
    [blank; N]
}

// The session after one page of the input, if there is one. A read that fails counts as the input's end.
fn feed<R: Read>(input: &mut R, s: Session, tables: &mut [u16]) -> Option<Session> {
    let mut page: [u8; 4096] = room(0);
    let n = input.read(&mut page).unwrap_or(0);
    if n == 0 {
        return None;
    }
    let p = reader::page(s, &page[..n], tables);
    Some(p.session)
}

// Every page of the input; no input has 2^64 pages.
fn feed_all<R: Read>(input: &mut R, s: Session, tables: &mut [u16]) -> Session {
    let mut session = s;
    for _ in 0..u64::MAX {
        let Some(next) = feed(input, session, tables) else {
            return session;
        };
        session = next;
    }
    session
}

// The listing, as one text; the report is that of the stream's form.
fn print<W: Write>(output: &mut W, form: Form, a: ReadAnswer, tables: &[u16]) -> io::Result<()> {
    let mut work: [u16; 8192] = room(0);
    let mut out: [u8; 688407] = room(0);
    let r = report::report(form, a.dim as usize, a.darts as usize, tables, &mut work);
    let n = listing::put(&mut out, a, r, tables);
    output.write_all(&out[..n])
}

fn main(rt: HostRuntime) -> io::Result<()> {
    let mut tables: [u16; 28672] = room(0);
    let mut input = rt.stdin();
    let session = feed_all(&mut input, Session::open(), &mut tables);
    let p = reader::close(session, &mut tables);
    let mut output = rt.stdout();
    print(&mut output, p.session.form, p.answer, &tables)
}
