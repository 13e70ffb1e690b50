// One reading step over lent tables and positions: what is known of aj(b), and the step by a deduction or by a symbol.
// Where a symbol comes from is no part of it.
#![tactic(auto)]

ghost use Rattle.std.specs.Prelude.{◌≡◌, ◌+◌, ◌≤◌, ◌<◌, set, ltb};
ghost use Rattle.rules.specs.Map.{by_dart, Limits, link};
ghost use Rattle.rules.specs.Walk as walk;
ghost use Rattle.rules.specs.Walk.{Partner};
ghost use Rattle.rules.specs.Symbols.{told_symbol};
ghost use Rattle.tables.specs.Maps.{of};
ghost use Rattle.steps.specs.Partners.{deduced_for, partner_for, told_partner};
ghost use Rattle.steps.specs.Steps.{tables_joined, naming_for, deduced_step, symbol_step, Tied, HeadCase, Steps};

use rules::{Cause, Reason, Session, Symbol, WalkNo};
use tables::Map;

// The case of a step: what is to be done for aj(b).
#[derive(Clone, Copy)]
pub enum Case {
    Known,
    Deduced(WalkNo),
    Asked,
}

// How a walk goes on after a step, beside the tables and positions, which are lent: from a rank below which all queues
// are empty, with the count.
#[derive(Clone, Copy)]
pub struct Next {
    pub rank: usize,
    pub count: u16,
}

// What is known of ai(b), or the mark: what the tables hold, and so no Option.
pub fn known_link(map: &Map, rank: usize, b: WalkNo) -> WalkNo
    requires { rank ≤ map.now.dim }
    ensures { result.0 ≡ of (link by_dart) map.now rank b.0 }
{
    WalkNo(map.link(rank, b.0))
}

// The smallest i <= j-2 with aj(ai(b)) known deduces aj(b) = ai(aj(ai(b))).
pub fn deduce(map: &Map, j: usize, b: WalkNo) -> Case
    requires { j ≤ map.now.dim }
    ensures { told_partner result ≡ of deduced_for map.now j b.0 }
{
    for i in 0..j.saturating_sub(1) {
        let c = known_link(map, i, b);
        let f = known_link(map, j, c);
        if f.0 != Session::NO_LINK {
            return Case::Deduced(known_link(map, i, f));
        }
    }
    Case::Asked
}

// Known, deduced, or a symbol is needed.
pub fn partner(map: &Map, j: usize, b: WalkNo) -> Case
    requires { j ≤ map.now.dim }
    ensures { told_partner result ≡ of partner_for map.now j b.0 }
{
    if known_link(map, j, b).0 != Session::NO_LINK {
        return Case::Known;
    }
    deduce(map, j, b)
}

// aj(b) = e and its reverse become known. Where links are written N and n go beside the tables: each contract of a
// struct with them would have to say that they stay.
pub fn join(tables: &mut [u16], dim: usize, darts: usize, j: usize, b: WalkNo, e: WalkNo)
    requires { Limits dim darts tables.old × (j ≤ dim) × (b.0 < darts) × (e.0 < darts) }
    ensures { tables.new ≡ tables_joined dim darts tables.old j b.0 e.0 }
{
    let p = tables::place(dim, darts, j, b.0 as usize);
    tables[p] = e.0;
    let q = tables::place(dim, darts, j, e.0 as usize);
    tables[q] = b.0;
}

// A w must name a numbered dart other than b with no link at rank j; else the cause is told, the first in this order.
pub fn naming(map: &Map, count: u16, j: usize, b: WalkNo, e: WalkNo) -> Result<(), Cause>
    requires { j ≤ map.now.dim }
    ensures { result ≡ of naming_for map.now count j b.0 e.0 }
{
    if count <= e.0 {
        return Err(Cause::Unnumbered);
    }
    if e.0 == b.0 {
        return Err(Cause::Itself);
    }
    if known_link(map, j, e).0 != Session::NO_LINK {
        return Err(Cause::Linked);
    }
    Ok(())
}

// An N must find a dart that has no number yet.
pub fn dart_left(darts: usize, count: u16) -> bool
    ensures { result ≡ ltb count darts }
{
    (count as usize) < darts
}

// b has left Lj.
pub fn passed(positions: &mut [u16; 7], j: usize, b: WalkNo)
    requires { (j ≤ 6) × (b.0 < 65535) }
    ensures { positions.new ≡ set positions.old j (b.0 + 1) }
{
    positions[j] = b.0 + 1;
}

// The step that makes aj(b) = e known.
pub fn tied(
    tables: &mut [u16],
    positions: &mut [u16; 7],
    dim: usize,
    darts: usize,
    j: usize,
    b: WalkNo,
    e: WalkNo,
)
    requires { Limits dim darts tables.old × (j ≤ dim) × (b.0 < darts) × (e.0 < darts) }
    ensures { Tied dim darts positions.old tables.old j b.0 e.0
        positions.new tables.new }
{
    join(tables, dim, darts, j, b, e);
    passed(positions, j, b);
}

// The step at the head b of Lj by its deduced partner e.
pub fn by_deduction(
    tables: &mut [u16],
    positions: &mut [u16; 7],
    dim: usize,
    darts: usize,
    count: u16,
    j: usize,
    b: WalkNo,
    e: WalkNo,
) -> Result<Next, Reason>
    requires { HeadCase dim darts count positions.old tables.old j b.0 (Partner.deduced e.0) }
    ensures { Steps dim darts count positions.old tables.old
        (deduced_step j b.0 e.0) result positions.new tables.new }
{
    let map = Map { dim, darts, tables };
    if known_link(&map, j, e).0 == Session::NO_LINK {
        tied(tables, positions, dim, darts, j, b, e);
        Ok(Next { rank: j, count })
    } else {
        Err(Reason::Taken)
    }
}

// The step at the head b of Lj by a w that names e: refused by its cause where e may not be named.
pub fn by_index(
    tables: &mut [u16],
    positions: &mut [u16; 7],
    dim: usize,
    darts: usize,
    count: u16,
    j: usize,
    b: WalkNo,
    e: WalkNo,
) -> Result<Next, Reason>
    requires { HeadCase dim darts count positions.old tables.old j b.0 Partner.asked }
    ensures { Steps dim darts count positions.old tables.old
        (symbol_step j b.0 (walk.Symbol.index e.0)) result positions.new tables.new }
{
    let map = Map { dim, darts, tables };
    naming(&map, count, j, b, e)?;
    tied(tables, positions, dim, darts, j, b, e);
    Ok(Next { rank: j, count })
}

// The step at the head b of Lj by the symbol s. A new dart enters L0, so the next search begins there.
pub fn by_symbol(
    tables: &mut [u16],
    positions: &mut [u16; 7],
    dim: usize,
    darts: usize,
    count: u16,
    j: usize,
    b: WalkNo,
    s: Symbol,
) -> Result<Next, Reason>
    requires { HeadCase dim darts count positions.old tables.old j b.0 Partner.asked }
    ensures { Steps dim darts count positions.old tables.old
        (symbol_step j b.0 (told_symbol s)) result positions.new tables.new }
{
    match s {
        Symbol::Border => {
            tied(tables, positions, dim, darts, j, b, b);
            Ok(Next { rank: j, count })
        }
        Symbol::Index(e) => by_index(tables, positions, dim, darts, count, j, b, e),
        Symbol::New => {
            if dart_left(darts, count) {
                tied(tables, positions, dim, darts, j, b, WalkNo(count));
                Ok(Next {
                    rank: 0,
                    count: count + 1,
                })
            } else {
                Err(Reason::TooMany)
            }
        }
    }
}
