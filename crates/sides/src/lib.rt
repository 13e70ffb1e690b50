// 29: the first corner whose side is used a third time, by a local table of the sides of one block of corners.
#![tactic(auto)]

ghost use Rattle.std.specs.Prelude.{◌≡◌, ◌%◌, ◌≤◌, ◌<◌, replicate, get_or, set, eqb, not, cond};
ghost use Rattle.rules.specs.Lists.{first};
ghost use Rattle.corners.specs.Steps.{spot, of, begun, position_after};
ghost use Rattle.sides.specs.Sides.{key_of, key_at, third_use, Grown, Path, Enters};
ghost use Rattle.sides.specs.Sides.{Meets, Kept, Swept, Stops, GoesOn};

use corners::Position;
use text::Place;

// The most corners of a map, and of a block.
pub const BLOCK: usize = 2048;
// No corner.
pub const NONE: u16 = 65535;

// A side's two vertices as one number, the same for both directions.
fn key(u: u32, v: u32) -> u64
    ensures { result ≡ key_of u v }
{
    if v < u {
        return u as u64 * 4294967296 + v as u64;
    }
    v as u64 * 4294967296 + u as u64
}

// The corners of a block: each one's key and twin; for the map, its own vertex and how many corners of its face are
// left with it; and a tree to find the first corner that has a key. Arrays, since nothing allocates, and four side by
// side, since what is said of each (`Swept`, `Kept`) is said of it alone. Numbers stand for "none" in tree and twins
// (`again`, `find`): an Option of each entry would take more of the room that a call has.
#[derive(Drop)]
pub struct Block {
    tree: [u16; 12288],
    keys: [u64; 2048],
    pub twins: [u16; 2048],
    pub owns: [u32; 2048],
    pub lefts: [u32; 2048],
}

// How many corners were loaded before a third use, or all; and the position after them.
#[derive(Clone, Copy)]
pub struct Loaded<'a> {
    pub count: usize,
    pub next: Position<'a>,
}

// One use more of the side of corner k, by another corner: is it a third?
fn again(twins: &mut [u16; 2048], k: usize, by: u16) -> bool
    requires { k < 2048 }
    ensures { (result ≡ not (eqb (get_or twins.old k 0) 65535)) × (twins.new
        ≡ cond (eqb (get_or twins.old k 0) 65535) (set twins.old k by) twins.old) }
{
    if twins[k] != NONE {
        return true;
    }
    twins[k] = by;
    false
}

impl Block {
    // With no corner.
    pub fn new() -> Block
        ensures { result.tree ≡ replicate 12288 0 }
    {
        Block {
            tree: [0; 12288],
            keys: [0; 2048],
            twins: [NONE; 2048],
            owns: [0; 2048],
            lefts: [0; 2048],
        }
    }

    // The tree has 4,093 places to begin at, by the key's remainder, and four below each corner, by one bit of either
    // vertex: two keys that take the same way for as many steps as a vertex number has bits are one key, so no choice
    // of vertex numbers makes a search long. A place holds 0 or one more than a corner's number. As in std's
    // binary_search, Ok has the corner of this key, and Err the free place where the search ends.
    fn find(&self, key: u64) -> Result<usize, usize>
        requires { Grown self.now.tree 2048 }
        ensures { Path self.now.tree self.now.keys key key (key % 4093) result }
    {
        let mut rest = key;
        let mut at = (key % 4093) as usize;
        while self.tree[at] != 0 {
            let k = self.tree[at] as usize - 1;
            if self.keys[k] == key {
                return Ok(k);
            }
            at = 4096 + 4 * k + (rest % 2 * 2 + rest / 4294967296 % 2) as usize;
            rest = rest / 2;
        }
        Err(at)
    }

    // Corner i with its side: is this a third use? `Grown` stays a clause: it holds only where corners come in order, so
    // no ghost field of a block can have it.
    fn enter(&mut self, i: usize, key: u64) -> bool
        requires { Grown self.old.tree 2048 × (i < 2048) }
        ensures { Enters self.old.tree self.old.keys self.old.twins self.new.tree
            self.new.keys self.new.twins i key result
            × (self.new.owns ≡ self.old.owns) × (self.new.lefts ≡ self.old.lefts) }
    {
        match self.find(key) {
            Ok(k) => {
                self.keys[i] = key;
                self.twins[i] = k as u16;
                again(&mut self.twins, k, i as u16)
            }
            Err(at) => {
                self.keys[i] = key;
                self.twins[i] = NONE;
                self.tree[at] = i as u16 + 1;
                false
            }
        }
    }

    // The block's corners, up to a third use. What the map needs of them is kept.
    pub fn load<'a>(&mut self, from: Position<'a>, count: usize) -> Loaded<'a>
        requires { (count ≤ 2048) × (self.old.tree ≡ replicate 12288 0) }
        ensures corners { (result.count ≡ first (third_use (of key_at from.entry)) count)
            × (result.count ≡ count → (spot result.next ≡ of (λ t. position_after t count) from.entry)
            × of Kept from.entry self.new.twins self.new.owns self.new.lefts count
            × Swept self.new.tree self.new.keys self.new.twins (of key_at from.entry) count
            count) }
        ensures text { result.next.place.text ≡ from.entry.place.text }
    {
        let mut c = from;
        for i in 0..count {
            let s = corners::turn(c);
            self.owns[i] = s.own;
            self.lefts[i] = s.left;
            if self.enter(i, key(s.own, s.far)) {
                return Loaded { count: i, next: c };
            }
            c = s.next;
        }
        Loaded { count, next: c }
    }

    // A corner past the block with its side: is this a third use of a side of the block?
    fn meet(&mut self, key: u64) -> bool
        requires { Grown self.old.tree 2048 }
        ensures { Meets self.old.tree self.old.keys self.old.twins self.new.twins key result
            × (self.new.tree ≡ self.old.tree) × (self.new.keys ≡ self.old.keys) }
    {
        match self.find(key) {
            Ok(k) => again(&mut self.twins, k, BLOCK as u16),
            Err(_) => false,
        }
    }

    // The corners past the block: the first that uses a side of the block a third time, or their count. Here and below
    // a count and no Option: it is how far the next block is looked through.
    fn go_on(&mut self, from: Position<'_>, count: usize) -> usize
        requires { Grown self.old.tree 2048 }
        ensures { of GoesOn from.entry self.old.tree self.old.keys self.old.twins count
            result }
    {
        let mut c = from;
        for i in 0..count {
            let s = corners::turn(c);
            if self.meet(key(s.own, s.far)) {
                return i;
            }
            c = s.next;
        }
        count
    }
}

// The first of some corners that uses a side of their first block a third time, or their count; and the position after
// the block.
fn of_block(from: Position<'_>, count: usize) -> Loaded<'_>
    ensures corners { Stops (of key_at from.entry) 2048 count result.count
        × (2048 < result.count → spot result.next ≡ of (λ t. position_after t 2048) from.entry) }
    ensures text { result.next.place.text ≡ from.entry.place.text }
{
    let mut block = Block::new();
    let l = block.load(from, count.min(BLOCK));
    if l.count < BLOCK {
        return l;
    }
    Loaded {
        count: BLOCK + block.go_on(l.next, count - BLOCK),
        next: l.next,
    }
}

// The first corner whose side is used a third time, or their count: block by block, each up to the first found so far.
pub fn third_use(start: Place<'_>, corners: usize) -> usize
    ensures { result ≡ first (third_use (key_at start.entry.text.now (begun start.entry.at))) corners }
{
    let mut c = corners::begin(start);
    let mut done: usize = 0;
    let mut limit = corners;
    while done < limit {
        let b = of_block(c, limit - done);
        limit = done + b.count;
        c = b.next;
        if limit - done <= BLOCK {
            return limit;
        }
        done += BLOCK;
    }
    limit
}
