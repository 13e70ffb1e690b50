// The corners of a text's faces one by one: each with its side, and the face that it is of.
#![tactic(auto)]

ghost use Rattle.std.specs.Prelude.{◌≡◌};
ghost use Rattle.rules.specs.Lists.{count_below};
ghost use Rattle.corners.specs.Steps.{spot, of, turned, begun, opened_of, step_of, last_at};

use text::Place;

// A position among the corners: how many corners of the face are left (0: a face begins), its first vertex and this
// corner's. No Option: the definitions of `Steps`, which theorems speak of, have this 0.
#[derive(Clone, Copy)]
pub struct Position<'a> {
    pub place: Place<'a>,
    pub left: u32,
    pub first: u32,
    pub own: u32,
}

// A corner's side, how many corners of its face are left with it, and the next corner.
#[derive(Clone, Copy)]
pub struct Step<'a> {
    pub own: u32,
    pub far: u32,
    pub left: u32,
    pub next: Position<'a>,
}

// Where a face begins.
pub fn begin(start: Place<'_>) -> Position<'_>
    ensures spot { spot result ≡ begun start.entry.at }
    ensures text { result.place.text ≡ start.entry.text }
{
    Position {
        place: start,
        left: 0,
        first: 0,
        own: 0,
    }
}

// With the face begun.
fn opened(c: Position<'_>) -> Position<'_>
    ensures spot { spot result ≡ of opened_of c.entry }
    ensures text { result.place.text ≡ c.entry.place.text }
{
    if c.left != 0 {
        return c;
    }
    let k = c.place.taken();
    let v = k.after.taken();
    Position {
        place: v.after,
        left: k.value,
        first: v.value,
        own: v.value,
    }
}

// A corner's side: the last one's goes to the first. After it the rest of the line is passed over.
pub fn turn(c: Position<'_>) -> Step<'_>
    ensures step { turned result ≡ of step_of c.entry }
    ensures text { result.next.place.text ≡ c.entry.place.text }
{
    let o = opened(c);
    if o.left <= 1 {
        return Step {
            own: o.own,
            far: o.first,
            left: 1,
            next: begin(text::line_end(o.place.text, o.place.at)),
        };
    }
    let v = o.place.taken();
    Step {
        own: o.own,
        far: v.value,
        left: o.left,
        next: Position {
            place: v.after,
            left: o.left - 1,
            first: o.first,
            own: v.value,
        },
    }
}

// How many faces end before a corner: the number of the face that it is of.
pub fn face_of(start: Place<'_>, corner: usize) -> usize
    ensures { result ≡ count_below corner (last_at start.entry.text.now (begun start.entry.at)) }
{
    let mut c = begin(start);
    let mut face: usize = 0;
    for _ in 0..corner {
        let s = turn(c);
        if s.left <= 1 {
            face += 1;
        }
        c = s.next;
    }
    face
}
