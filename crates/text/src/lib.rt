// Leaves over the text of a face file: lines, words and numbers from a place on.
#![tactic(auto)]

ghost use Rattle.std.specs.Prelude.{◌≡◌, IfOk};
ghost use Rattle.shapes.specs.Text.{is_blank, line_end, word_from, word_end, word, several};
ghost use Rattle.text.specs.Leaves.{of, stop, Inside, malformed, told, ends, told_of, end, got, known_of};

mod place;

pub use place::Place;
use rules::{Reason, Refusal};

// 26 at a place.
#[derive(Clone, Copy)]
pub struct Malformed(pub usize);

impl From<Malformed> for Refusal<u64> {
    ghost from_gives = { λ e r. r ≡ malformed e };

    fn from(e: Malformed) -> Refusal<u64> {
        Refusal {
            reason: Reason::Word,
            place: e.0 as u64,
        }
    }
}

// What was read, and the place after it.
#[derive(Clone, Copy)]
pub struct Known<'a, T> {
    pub value: T,
    pub after: Place<'a>,
}

// What the header says.
#[derive(Clone, Copy)]
pub struct Sizes {
    pub vertices: u32,
    pub faces: u32,
}

// Space, tab, CR or LF.
pub fn is_blank(b: u8) -> bool
    ensures { result ≡ is_blank b }
{
    b == b' ' || b == b'\t' || b == b'\r' || b == b'\n'
}

// Does a byte end a word?
pub fn stops(b: u8) -> bool
    ensures { result ≡ stop b }
{
    b <= 35 && (b == b'#' || is_blank(b))
}

// The first LF from a position on, or the text's length. A comment may go on at the position, so it need be no place.
pub fn line_end(text: &[u8], at: usize) -> Place<'_>
    ensures place { result.at ≡ line_end text.now at }
    ensures text { result.text ≡ text.entry }
{
    for p in at..text.len() {
        if text[p] == b'\n' {
            return Place { text, at: p };
        }
    }
    let end = at.max(text.len());
    Place { text, at: end }
}

// The word OFF: the place after it.
pub fn keyword(text: &[u8]) -> Result<Place<'_>, Malformed>
    ensures place { ends result ≡ told_of end (Rattle.shapes.specs.Text.keyword text.now 0) }
    ensures text { IfOk result (λ p. p.text ≡ text.entry) }
{
    let start = Place { text, at: 0 };
    let w = start.word_from();
    if text.len() <= w.at {
        return Err(Malformed(w.at));
    }
    let e = w.word_end();
    if e.at - w.at == 3 && text[w.at] == b'O' && text[w.at + 1] == b'F' && text[w.at + 2] == b'F' {
        return Ok(e);
    }
    Err(Malformed(w.at))
}

impl<'a> Place<'a> {
    // The first byte of the next word, or the text's length: there 26 is told, so no Option.
    pub fn word_from(self) -> Place<'a>
        ensures place { result.at ≡ of word_from self.entry }
        ensures text { result.text ≡ self.entry.text }
    {
        let text = self.text;
        let mut p = self.at;
        while p < text.len() {
            let b = text[p];
            if b == b'#' {
                p = line_end(text, p + 1).at;
            } else if is_blank(b) {
                p += 1;
            } else {
                return Place { text, at: p };
            }
        }
        Place { text, at: p }
    }

    // Where the word that goes on here ends.
    pub fn word_end(self) -> Place<'a>
        ensures place { result.at ≡ of word_end self.entry }
        ensures text { result.text ≡ self.entry.text }
    {
        let text = self.text;
        for p in self.at..text.len() {
            if stops(text[p]) {
                return Place { text, at: p };
            }
        }
        let end = self.at.max(text.len());
        Place { text, at: end }
    }

    // The number that begins here, where a word begins. Inlined, as `number` is: else each place comes back through
    // memory, and the pass over a text takes a third longer.
    #[inline(always)]
    pub fn numeral(self) -> Result<Known<'a, u32>, Malformed>
        requires { of Inside self }
        ensures reading { told result ≡ of Rattle.text.specs.Leaves.numeral self.entry }
        ensures text { IfOk result (λ k. k.after.text ≡ self.entry.text) }
    {
        let text = self.text;
        let w = self.at;
        let mut v: u32 = 0;
        for p in w..text.len() {
            let b = text[p];
            if b < b'0' {
                if stops(b) {
                    return Ok(Known {
                        value: v,
                        after: Place { text, at: p },
                    });
                }
                return Err(Malformed(w));
            }
            if 9 <= p - w {
                return Err(Malformed(w));
            }
            if b'9' < b {
                return Err(Malformed(w));
            }
            v = v * 10 + (b - b'0') as u32;
        }
        let after = Place {
            text,
            at: text.len(),
        };
        Ok(Known { value: v, after })
    }

    // A number: a word of one to nine digits.
    #[inline(always)]
    pub fn number(self) -> Result<Known<'a, u32>, Malformed>
        ensures reading { told result ≡ of Rattle.shapes.specs.Text.number self.entry }
        ensures text { IfOk result (λ k. k.after.text ≡ self.entry.text) }
    {
        let w = self.word_from();
        if self.text.len() <= w.at {
            return Err(Malformed(w.at));
        }
        w.numeral()
    }

    // A number that is known to stand here.
    pub fn taken(self) -> Known<'a, u32>
        ensures number { got result ≡ known_of (of Rattle.shapes.specs.Text.number self.entry) }
        ensures text { result.after.text ≡ self.entry.text }
    {
        match self.number() {
            Ok(k) => k,
            Err(e) => Known {
                value: 0,
                after: Place {
                    text: self.text,
                    at: e.0,
                },
            },
        }
    }

    // Words passed over: the place after them.
    pub fn passed(self, count: u64) -> Result<Place<'a>, Malformed>
        ensures place { ends result ≡ told_of end (several (word self.entry.text.now) count self.entry.at) }
        ensures text { IfOk result (λ p. p.text ≡ self.entry.text) }
    {
        let mut p = self;
        for _ in 0..count {
            let w = p.word_from();
            if self.text.len() <= w.at {
                return Err(Malformed(w.at));
            }
            p = w.word_end();
        }
        Ok(p)
    }

    // The counts of vertices, faces and edges.
    pub fn counts(self) -> Result<Known<'a, Sizes>, Malformed>
        ensures reading { told result ≡ of Rattle.text.specs.Leaves.counts self.entry }
        ensures text { IfOk result (λ k. k.after.text ≡ self.entry.text) }
    {
        let vertices = self.number()?;
        let faces = vertices.after.number()?;
        let edges = faces.after.number()?;
        Ok(Known {
            value: Sizes {
                vertices: vertices.value,
                faces: faces.value,
            },
            after: edges.after,
        })
    }
}
