// The session's calls over a record that the caller lends: each takes the record out, makes the call by value and
// writes the new record back. Document 01 asks for both forms.
#![tactic(auto)]

ghost use Rattle.std.specs.Prelude.{◌≡◌};
ghost use Rattle.rules.specs.Map.{by_dart};
ghost use Rattle.rules.specs.Session as calls;
ghost use Rattle.rules.specs.Fetch.{page_call};
ghost use Rattle.lent.specs.Lent.{lent_by, page_lent_by};

use rules::{PageAnswer, ReadAnswer, Session};

// The page call.
pub fn page(s: &mut Session, bytes: &[u8], tables: &mut [u16]) -> PageAnswer
    ensures { page_lent_by s.new result tables.new ≡ page_call by_dart s.old
        bytes.now tables.old }
{
    let p = reader::page(*s, bytes, tables);
    *s = p.session;
    p.answer
}

// The close call.
pub fn close(s: &mut Session, tables: &mut [u16]) -> ReadAnswer
    ensures { lent_by s.new result tables.new ≡ calls.close by_dart s.old
        tables.old }
{
    let p = reader::close(*s, tables);
    *s = p.session;
    p.answer
}
