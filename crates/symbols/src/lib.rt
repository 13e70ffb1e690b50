// Bits and symbols: the bits at hand, which are those that wait and a page's from a cursor on, and taking one symbol. A
// look at the page may be slow, so a symbol loads each byte of the page that it lies in once, and no other byte:
// `Hand::loaded` alone looks at the page, at one byte, and is called only where the symbol has more bits than are at
// hand.
#![tactic(auto)]

ghost use Rattle.std.specs.Prelude.{◌≡◌, List, ℕ, ◌+◌, ◌≤◌, ◌<◌, ◌^◌, length};
ghost use Rattle.rules.specs.Stream.{bits_of, value};
ghost use Rattle.symbols.specs.Cursors.{at_hand, CursorFits, Past, SymbolTaken};
ghost use Rattle.symbols.specs.Hands.{size, whole, none, held, HandFits, Loads, Joins, Holds, Ahead, InHand};
ghost use Rattle.symbols.specs.Hands.{Reads, WholeTaken};
ghost use Rattle.symbols.specs.Bits.{of};
ghost use Rattle.symbols.specs.Opened.{AtLeast, Opens};

mod bits;
mod opened;

pub use bits::Bits;
pub use opened::Opened;
use rules::{Symbol, WalkNo};

// Where taking bits stands: bits that wait from before the page, then the page from a byte and a bit of it on.
#[derive(Clone, Copy)]
pub struct Cursor {
    pub waiting: u16,
    pub value: u16,
    pub at: usize,
    pub bit: u32,
}

// The first bits at hand: how many, and the number of 24 bits that they and zeros after them write. Those after them
// are the page's from a byte on.
#[derive(Clone, Copy)]
pub struct Hand {
    pub bits: u32,
    pub head: u32,
    pub at: usize,
}

// Bits ran out: how many more could at least finish the symbol. A byte holds that, and in memory it lies beside what a
// symbol has, not across it: so a symbol that is there costs nothing for it.
#[derive(Clone, Copy)]
pub struct Short(pub u8);

// The next symbol, with the cursor past it.
#[derive(Clone, Copy)]
pub struct Taken {
    pub symbol: Symbol,
    pub cursor: Cursor,
}

// Bits that wait: how many, and the number they write.
#[derive(Clone, Copy)]
pub struct Waiting {
    pub bits: u16,
    pub value: u16,
}

impl Hand {
    // The hand before a byte of the page that holds no bit.
    pub fn none(at: usize) -> Hand
        ensures { result ≡ none at }
    {
        Hand {
            bits: 0,
            head: 0,
            at,
        }
    }

    // How many bits the symbol has, as far as those at hand tell: N has 1, B 2 and w 14.
    pub fn size(self) -> u32
        requires { self.head < 2 ^ 24 }
        ensures { result ≡ size (bits_of 24 self.head) }
    {
        // the first of 24 bits weighs 8388608, the second 4194304
        let head = self.head;
        if head < 8388608 {
            return 1;
        }
        if head < 12582912 {
            return 2;
        }
        14
    }

    // How many more bits could at least finish the symbol.
    pub fn missing(self) -> Short
        requires { (self.head < 2 ^ 24) × (self.bits ≤ size (bits_of 24 self.head)) }
        ensures { result.0 + self.bits ≡ size (bits_of 24 self.head) }
    {
        Short((self.size() - self.bits) as u8)
    }

    // With the page's next byte, from one of its bits on. This is the one look at the page.
    pub fn loaded(self, bit: u32, page: &[u8]) -> Hand
        requires { HandFits self page.now × (self.bits ≤ 13) × (self.at < length page.now) × (bit < 8) }
        ensures { Loads bit self result page.now }
    {
        let at = self.at;
        let part = (page[at] << bit) as u32;
        Hand {
            bits: self.bits + (8 - bit),
            head: self.head + (part << (16 - self.bits)),
            at: at + 1,
        }
    }

    // These bits, then those of another hand.
    pub fn then(self, next: Hand) -> Hand
        requires { (self.bits + next.bits ≤ 24) × (self.head < 2 ^ 24) × (next.head < 2 ^ 24) }
        ensures { (page : List ℕ) → HandFits self page → HandFits next page → Joins self next result page }
    {
        Hand {
            bits: self.bits + next.bits,
            head: self.head + (next.head >> self.bits),
            at: next.at,
        }
    }

    // The cursor past so many of the bits: those left over are the last of the byte that was loaded last.
    pub fn past(self, bits: u32) -> Cursor
        requires { (bits ≤ self.bits) × (self.bits < bits + 8) × (self.bits ≤ 24) × (1 ≤ self.at) }
        ensures { (c : Cursor) (page : List ℕ) → Reads c self page → c.waiting ≤ bits → Past bits c result page }
    {
        let to = 8 + bits - self.bits;
        Cursor {
            waiting: 0,
            value: 0,
            at: self.at - 1 + (to / 8) as usize,
            bit: to % 8,
        }
    }
}

impl Cursor {
    // The bits of the byte that the cursor is in, from its bit on.
    pub fn here(self, page: &[u8]) -> Hand
        requires { (self.at < length page.now) × (self.bit < 8) }
        ensures { Loads self.bit (none self.at) result page.now }
    {
        Hand::none(self.at).loaded(self.bit, page)
    }

    // The bits that wait.
    pub fn waits(self) -> Hand
        requires { self.waiting ≤ 13 }
        ensures { (page : List ℕ) → CursorFits self page → Holds self result page }
    {
        let waiting = self.waiting as u32;
        Hand {
            bits: waiting,
            head: (self.value as u32) << (24 - waiting),
            at: self.at,
        }
    }

    // The cursor past so many of the bits that wait.
    pub fn fewer(self, bits: u16) -> Cursor
        requires { (bits ≤ self.waiting) × (self.waiting ≤ 13) }
        ensures { (page : List ℕ) → CursorFits self page → Past bits self result page }
    {
        let left = self.waiting - bits;
        Cursor {
            waiting: left,
            value: self.value % (1u16 << left),
            at: self.at,
            bit: self.bit,
        }
    }

    // The symbol that the bits that wait hold whole, if they hold one: N or B.
    pub fn whole(self) -> Option<Taken>
        requires { (self.waiting ≤ 13) × (self.value < 2 ^ self.waiting) }
        ensures { WholeTaken result self }
    {
        let waiting = self.waiting;
        let value = self.value;
        if 0 < waiting && (value >> (waiting - 1)) % 2 == 0 {
            return Some(Taken {
                symbol: Symbol::New,
                cursor: self.fewer(1),
            });
        }
        if 1 < waiting && (value >> (waiting - 2)) % 2 == 0 {
            return Some(Taken {
                symbol: Symbol::Border,
                cursor: self.fewer(2),
            });
        }
        None
    }
}

impl<'a> Opened<'a> {
    // With a byte more if fewer than so many bits of the symbol are at hand.
    pub fn at_least(self, bits: u32) -> Result<Opened<'a>, Short>
        requires { bits ≤ size (held self.hand) }
        ensures { AtLeast bits self.entry result }
    {
        let hand = self.hand;
        let page = self.page;
        if bits <= hand.bits {
            return Ok(self);
        }
        if page.len() <= hand.at {
            return Err(hand.missing());
        }
        let hand = hand.loaded(0, page);
        Ok(Opened { hand, page })
    }

    // The w that the bits begin with. Two of them are at hand, so two bytes more are enough.
    pub fn take_index(self) -> Result<Taken, Short>
        requires { size (held self.hand) ≡ 14 }
        ensures { let page = self.entry.page.now in
            (c : Cursor) → Reads c self.entry.hand page → SymbolTaken result c page }
    {
        let hand = self.at_least(14)?.at_least(14)?.hand;
        // before the last ten of 24 bits stand 11, which weigh 12288, and the walk number
        let w = WalkNo((hand.head / 1024 - 12288) as u16);
        Ok(Taken {
            symbol: Symbol::Index(w),
            cursor: hand.past(14),
        })
    }

    // The symbol that the bits begin with. A byte more is loaded only where the symbol has bits past those at hand.
    pub fn take(self) -> Result<Taken, Short>
        ensures { let page = self.entry.page.now in
            (c : Cursor) → Reads c self.entry.hand page → SymbolTaken result c page }
    {
        if self.hand.size() == 1 {
            return Ok(Taken {
                symbol: Symbol::New,
                cursor: self.hand.past(1),
            });
        }
        let opened = self.at_least(2)?;
        if opened.hand.size() == 2 {
            return Ok(Taken {
                symbol: Symbol::Border,
                cursor: opened.hand.past(2),
            });
        }
        opened.take_index()
    }
}

impl<'a> Bits<'a> {
    // The first bits of a symbol that those that wait don't hold whole: they and those of the cursor's byte.
    pub fn opening(self) -> Result<Opened<'a>, Short>
        requires { whole (bits_of self.cursor.waiting self.cursor.value) ≡ 0 }
        ensures { of (Opens result) self.entry }
    {
        let cursor = self.cursor;
        let page = self.page;
        if cursor.waiting == 0 {
            if page.len() <= cursor.at {
                return Err(Short(1));
            }
            let hand = cursor.here(page);
            return Ok(Opened { hand, page });
        }
        let waits = cursor.waits();
        if page.len() <= cursor.at {
            return Err(waits.missing());
        }
        let hand = waits.then(cursor.here(page));
        Ok(Opened { hand, page })
    }

    // The symbol that the bits begin with. The cursor's byte is loaded only where the bits that wait hold no whole
    // symbol; those of a fit session never hold one.
    pub fn take_symbol(self) -> Result<Taken, Short>
        ensures { of (SymbolTaken result) self.entry }
    {
        if let Some(taken) = self.cursor.whole() {
            return Ok(taken);
        }
        self.opening()?.take()
    }

    // The bits of the cursor's byte, if the page has it.
    pub fn byte(self) -> Hand
        ensures { let page = self.entry.page.now in
            HandFits result page × (result.bits ≤ 8) × Ahead self.entry.cursor result page }
    {
        let cursor = self.cursor;
        if cursor.at < self.page.len() {
            return cursor.here(self.page);
        }
        Hand::none(cursor.at)
    }

    // The bits that wait and those of the cursor's byte, if the page has it.
    pub fn hand(self) -> Hand
        ensures { InHand self.entry.cursor result self.entry.page.now }
    {
        let byte = self.byte();
        if self.cursor.waiting != 0 {
            return self.cursor.waits().then(byte);
        }
        byte
    }

    // All that are left, of which there are at most thirteen.
    pub fn rest(self) -> Waiting
        requires { length (of at_hand self) ≤ 13 }
        ensures { let bits = of at_hand self.entry in
            (result.bits ≡ length bits) × (result.value ≡ value bits) }
    {
        let page = self.page;
        let mut hand = self.hand();
        // no `for`: the place goes on with the hand itself
        while hand.at < page.len() {
            hand = hand.loaded(0, page);
        }
        let bits = hand.bits;
        Waiting {
            bits: bits as u16,
            value: (hand.head >> (24 - bits)) as u16,
        }
    }
}
