// The pass over a whole text: 26, or where the faces stand and the first of them that 27 or 28 refuses.
#![tactic(auto)]

ghost use Rattle.std.specs.Prelude.{◌≡◌, ◌+◌, ◌<◌, IfOk};
ghost use Rattle.shapes.specs.Text.{number, several, face};
ghost use Rattle.text.specs.Leaves.{of, told, told_of, alone};
ghost use Rattle.survey.specs.Flaws.{reason_of, flawed, worse_of, read_as, look, sight, judged_of, surveyed};
ghost use Rattle.survey.specs.Flaws.{outlines, planned, plan};

use rules::{Reason, Refusal};
use text::{Known, Malformed, Place, Sizes};

// 27: a vertex number is too large; 28: fewer than three corners, or two equal neighbours.
#[derive(Clone, Copy)]
pub enum Fault {
    Large,
    Poor,
}

impl From<Fault> for Reason {
    ghost from_gives = { λ fault reason. reason ≡ reason_of fault };

    fn from(fault: Fault) -> Reason {
        match fault {
            Fault::Large => Reason::Vertex,
            Fault::Poor => Reason::Face,
        }
    }
}

// The fault of a face with one corner more: 27 comes first, wherever in the face it is.
fn worse(fault: Option<Fault>, vertices: u32, own: u32, far: u32) -> Option<Fault>
    ensures { result ≡ worse_of fault vertices own far }
{
    if vertices <= far {
        return Some(Fault::Large);
    }
    fault.or((own == far).then_some(Fault::Poor))
}

// The corners of a face after its first: the face's fault, and the place after them.
fn others(
    start: Place<'_>,
    count: u32,
    vertices: u32,
    first: u32,
    fault: Option<Fault>,
) -> Result<Known<'_, Option<Fault>>, Malformed>
    ensures reading { told result
        ≡ read_as (look vertices first fault first) (several (number start.entry.text.now) count start.entry.at) }
    ensures text { IfOk result (λ k. k.after.text ≡ start.entry.text) }
{
    let mut worst = fault;
    let mut own = first;
    let mut p = start;
    for _ in 0..count {
        let far = p.number()?;
        worst = worse(worst, vertices, own, far.value);
        own = far.value;
        p = far.after;
    }
    Ok(Known {
        value: worse(worst, vertices, own, first),
        after: p,
    })
}

// A face's fault, and how many corners it has.
#[derive(Clone, Copy)]
pub struct Face {
    pub fault: Option<Fault>,
    pub corners: u32,
}

// One face, and the place after its line.
fn seen(start: Place<'_>, vertices: u32) -> Result<Known<'_, Face>, Malformed>
    ensures reading { told result ≡ read_as (sight vertices) (of face start.entry) }
    ensures text { IfOk result (λ k. k.after.text ≡ start.entry.text) }
{
    let count = start.number()?;
    let corners = count.value;
    if corners == 0 {
        return Ok(Known {
            value: Face {
                fault: Some(Fault::Poor),
                corners,
            },
            after: text::line_end(start.text, count.after.at),
        });
    }
    let first = count.after.number()?;
    let few = (corners < 3).then_some(Fault::Poor);
    let last = others(first.after, corners - 1, vertices, first.value, few)?;
    Ok(Known {
        value: Face {
            fault: last.value,
            corners,
        },
        after: text::line_end(start.text, last.after.at),
    })
}

// A face that 27 or 28 refuses.
#[derive(Clone, Copy)]
pub struct Flaw {
    pub fault: Fault,
    pub face: u32,
}

impl From<Flaw> for Refusal<u64> {
    ghost from_gives = { λ f r. r ≡ flawed f };

    fn from(f: Flaw) -> Refusal<u64> {
        Refusal {
            reason: Reason::from(f.fault),
            place: f.face as u64,
        }
    }
}

// The first flaw so far, and how many corners are before it.
#[derive(Clone, Copy)]
pub struct Survey {
    pub flaw: Option<Flaw>,
    pub corners: usize,
}

// With one face more: what comes after a flaw changes nothing.
fn judged(s: Survey, face: u32, f: Face) -> Survey
    requires { s.corners + f.corners < 18446744073709551616 }
    ensures { result ≡ judged_of s face f }
{
    if s.flaw.is_some() {
        return s;
    }
    match f.fault {
        Some(fault) => Survey {
            flaw: Some(Flaw { fault, face }),
            corners: s.corners,
        },
        None => Survey {
            flaw: None,
            corners: s.corners + f.corners as usize,
        },
    }
}

// All faces, each to its end: 26 in a later one comes before 27 and 28 of this.
fn faces(start: Place<'_>, count: u32, vertices: u32) -> Result<Survey, Malformed>
    ensures { result ≡ told_of (surveyed vertices) (several (face start.entry.text.now) count start.entry.at) }
{
    let mut s = Survey {
        flaw: None,
        corners: 0,
    };
    let mut p = start;
    for k in 0..count {
        let f = match seen(p, vertices) {
            Ok(f) => f,
            Err(e) => return Err(e),
        };
        s = judged(s, k, f.value);
        p = f.after;
    }
    Ok(s)
}

// Where the first face stands, and what 27 and 28 say of the faces.
#[derive(Clone, Copy)]
pub struct Plan<'a> {
    pub start: Place<'a>,
    pub flaw: Option<Flaw>,
    pub corners: usize,
}

// After the counts: the vertices and the faces.
fn body(c: Known<'_, Sizes>) -> Result<Plan<'_>, Malformed>
    ensures plan { outlines result ≡ told_of alone (planned c.entry.after.text.now c.entry.value c.entry.after.at) }
    ensures text { IfOk result (λ p. p.start.text ≡ c.entry.after.text) }
{
    let sizes = c.value;
    let start = c.after.passed(3 * (sizes.vertices as u64))?;
    let s = faces(start, sizes.faces, sizes.vertices)?;
    Ok(Plan {
        start,
        flaw: s.flaw,
        corners: s.corners,
    })
}

// 26 over the whole text; else where the faces stand and what 27 and 28 say of them.
pub fn outlined(text: &[u8]) -> Result<Plan<'_>, Malformed>
    ensures plan { outlines result ≡ told_of alone (plan text.now) }
    ensures text { IfOk result (λ p. p.start.text ≡ text.entry) }
{
    let start = text::keyword(text)?;
    let sizes = start.counts()?;
    body(sizes)
}
