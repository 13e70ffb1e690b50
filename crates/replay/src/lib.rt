// The replay of a walk whose numbering is finished: what each step writes, by the numbers and the positions alone.
#![tactic(auto)]

ghost use Rattle.std.specs.Prelude.{◌≡◌, false, ◌+◌, ◌-◌, ◌≤◌, ◌<◌, length, get_or, ltb};
ghost use Rattle.rules.specs.Map.{by_dart};
ghost use Rattle.tables.specs.Maps.{of};
ghost use Rattle.walk.specs.Numbers.{number_in, dart_in, positions_after};
ghost use Rattle.replay.specs.Replays.{known_in, deducing_rank, writes_in, count_after, replayed_in, AtHead};

use rules::{Dart, Symbol, WalkNo};
use tables::ValidMap;

// What a step comes to: the symbol that it writes, none where aj(b) is known or deduced, and how many darts are
// numbered after it.
#[derive(Clone, Copy)]
pub struct Replayed {
    pub written: Option<Symbol>,
    pub count: u16,
}

// Is aj(d) known? Its own number or its partner's is below position j.
pub fn known(valid: &ValidMap, work: &[u16], j: usize, d: Dart, position: u16) -> bool
    requires { (j ≤ valid.now.map.dim) × (valid.now.map.darts ≤ length work.now)
        × (d.0 < valid.now.map.darts) }
    ensures { result ≡ of (known_in by_dart) valid.now.map work.now j position d.0 }
{
    let darts = valid.map.darts;
    if walk::number_of(work, darts, d).0 < position {
        return true;
    }
    walk::number_of(work, darts, walk::partner_of(&valid.map, j, d)).0 < position
}

// Is aj(d), which is not known, deduced? For some i <= j-2 aj(ai(d)) is known.
pub fn deduced(valid: &ValidMap, work: &[u16], j: usize, d: Dart, position: u16) -> bool
    requires { (j ≤ valid.now.map.dim) × (valid.now.map.darts ≤ length work.now)
        × (d.0 < valid.now.map.darts)
        × (of (known_in by_dart) valid.now.map work.now j position d.0 ≡ false) }
    ensures { let rank = of (deducing_rank by_dart) valid.now.map work.now j position d.0
        in result ≡ ltb rank (j - 1) }
{
    for i in 0..j.saturating_sub(1) {
        let c = walk::partner_of(&valid.map, i, d);
        // where ai(d) is d itself aj(ai(d)) is not known either
        if c != d && known(valid, work, j, c, position) {
            return true;
        }
    }
    false
}

// What is written for the head of Lj, the dart numbered by position j. Its own number is that position, so aj(d) is
// known if the partner's is below. A partner is new if its number is not below the count.
pub fn writes(valid: &ValidMap, work: &[u16], count: u16, j: usize, position: u16) -> Option<Symbol>
    requires { let darts = valid.now.map.darts in let d = dart_in darts work.now position in
        (j ≤ valid.now.map.dim) × (darts + position < length work.now) × (d < darts)
        × (position ≤ number_in darts work.now d) }
    ensures { result ≡ of (writes_in by_dart) valid.now.map work.now count j position }
{
    let darts = valid.map.darts;
    let d = walk::dart_of(work, darts, WalkNo(position));
    let x = walk::partner_of(&valid.map, j, d);
    let e = walk::number_of(work, darts, x);
    if e.0 < position {
        return None;
    }
    if deduced(valid, work, j, d, position) {
        return None;
    }
    if x == d {
        return Some(Symbol::Border);
    }
    if count <= e.0 {
        return Some(Symbol::New);
    }
    Some(Symbol::Index(e))
}

// How many darts are numbered after a step that writes this: a new one counts.
pub fn count_after(s: Option<Symbol>, count: u16) -> u16
    requires { count ≤ 4096 }
    ensures { result ≡ count_after s count }
{
    match s {
        Some(Symbol::New) => count + 1,
        _ => count,
    }
}

// One step of the replay at the head of Lj, which leaves Lj. The numbering is finished, so a dart is new exactly when
// its number is not below the count.
pub fn step(
    valid: &ValidMap,
    work: &[u16],
    positions: &mut [u16; 7],
    j: usize,
    count: u16,
) -> Replayed
    requires { (j ≤ valid.now.map.dim)
        × AtHead valid.now.map.darts work.now count (get_or positions.old j 0) }
    ensures { let p = get_or positions.old j 0 in
        (result ≡ of (replayed_in by_dart) valid.now.map work.now count j p)
        × (positions.new ≡ positions_after j positions.old) }
{
    let position = positions[j];
    positions[j] = position + 1;
    let written = writes(valid, work, count, j, position);
    Replayed {
        written,
        count: count_after(written, count),
    }
}
