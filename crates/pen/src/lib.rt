// Bits out: a pen gathers bits into bytes, most significant first, and stores only the bytes that fall into a page of
// the stream.
#![tactic(auto)]

ghost use Rattle.std.specs.Prelude.{◌≡◌, Bool, List, ℕ, ◌≤◌, ◌<◌, ◌^◌};
ghost use Rattle.rules.specs.Stream.{bits_of, code, filled};
ghost use Rattle.rules.specs.Symbols.{told_symbol};
ghost use Rattle.pen.specs.Pens.{sheet_of, blank_sheet, with_byte, penned, PenFits, Holds, Put, IndexFits};

use rules::Symbol;

// Where writing stands: the number of whole bytes so far, and the bits gathered for the next one.
#[derive(Clone, Copy)]
pub struct Pen {
    pub at: usize,
    pub bits: u16,
    pub value: u16,
}

// A pen, and the page that it writes: from start of the stream on.
#[derive(Drop)]
pub struct Sheet<'a> {
    start: usize,
    out: &'a mut [u8],
    pub pen: Pen,
}

// `PenFits` stays a clause: each call asks for room for other bits.
impl<'a> Sheet<'a> {
    // A page that a pen goes on with from where it stands.
    pub fn of(pen: Pen, start: usize, out: &'a mut [u8]) -> Sheet<'a>
        ensures { result ≡ sheet_of pen start out.entry }
    {
        Sheet { start, out, pen }
    }

    // At the start of a stream, with nothing put.
    pub fn new(start: usize, out: &'a mut [u8]) -> Sheet<'a>
        ensures { result ≡ blank_sheet start out.entry }
    {
        let pen = Pen {
            at: 0,
            bits: 0,
            value: 0,
        };
        Sheet::of(pen, start, out)
    }

    // The next whole byte of the stream: it is stored if the page has a place for it.
    pub fn store(&mut self, byte: u8)
        ensures { self.new ≡ with_byte byte self.old }
    {
        if self.pen.at < self.start {
            return;
        }
        let i = self.pen.at - self.start;
        if i < self.out.len() {
            self.out[i] = byte;
        }
    }

    // A number in k bits, at most a byte of them, so that no more than one byte becomes whole.
    pub fn put_few(&mut self, v: u16, k: u16)
        requires { PenFits k self.old.pen × (k ≤ 8) × (v < 2 ^ k) }
        ensures { Put (bits_of k v) self.old self.new }
    {
        let bits = self.pen.bits + k;
        if bits < 8 {
            self.pen.value = (self.pen.value << k) + v;
            self.pen.bits = bits;
            return;
        }
        let left = bits - 8;
        self.store(((self.pen.value << (8 - self.pen.bits)) + (v >> left)) as u8);
        self.pen.at += 1;
        self.pen.value = v % (1u16 << left);
        self.pen.bits = left;
    }

    // A number in k bits, a byte of them or more: those before its last eight, then those.
    pub fn put_number(&mut self, v: u16, k: u16)
        requires { PenFits k self.old.pen × (8 ≤ k) × (k ≤ 16) × (v < 2 ^ k) }
        ensures { Put (bits_of k v) self.old self.new }
    {
        self.put_few(v >> 8, k - 8);
        self.put_few(v % 256, 8);
    }

    // A symbol's code: N is 0, B is 10, w is 11 and twelve bits.
    pub fn put_symbol(&mut self, s: Symbol)
        requires { PenFits 14 self.old.pen × IndexFits s }
        ensures { Put (code (told_symbol s)) self.old self.new }
    {
        match s {
            Symbol::New => self.put_few(0, 1),
            Symbol::Border => self.put_few(2, 2),
            Symbol::Index(e) => self.put_number(3 * 4096 + e.0, 14),
        }
    }

    // Zero bits fill the last byte.
    pub fn fill(&mut self)
        requires { PenFits 0 self.old.pen }
        ensures same_reference { self.new.out.ghost_name ≡ self.old.out.ghost_name }
        ensures stays { (self.new.start ≡ self.old.start) × (self.new.pen ≡ self.old.pen) }
        ensures filled { (bs : List Bool) (out0 : List ℕ) → Holds bs out0 self.old
            → self.new.out.now ≡ penned (filled bs) self.old.start out0 }
    {
        if 0 < self.pen.bits {
            self.store((self.pen.value << (8 - self.pen.bits)) as u8);
        }
    }
}
