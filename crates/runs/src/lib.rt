// The run of steps that a page's bits allow, over lent tables and positions: a turn takes a symbol where its step asks
// for one, the next body begins where it is due, and the run ends, waits for bits, or is refused.
#![tactic(auto)]

ghost use Rattle.std.specs.Prelude.{◌≡◌, ◌≤◌};
ghost use Rattle.rules.specs.Inner.{Lowest};
ghost use Rattle.rules.specs.Walk.{Partner};
ghost use Rattle.rules.specs.Refusals.{number_of};
ghost use Rattle.steps.specs.Steps.{stand_in, stand, HeadCase};
ghost use Rattle.runs.specs.Turns.{Ready, Turns};
ghost use Rattle.runs.specs.declared.Stop.TheVariants as Stop;
ghost use Rattle.runs.specs.Runs.{search_at, past_of, ran_at, Runs};

use rules::{Form, Reason, Stand, WalkNo};
use steps::{Case, Next};
use symbols::{Bits, Short};
use tables::Map;

// How a walk goes on after a turn, and with which bits.
#[derive(Clone, Copy)]
pub struct Turned<'a> {
    pub next: Next,
    pub bits: Bits<'a>,
}

// Why a walk goes no further: it waits for so many bits more at least, or it is refused by a number.
#[derive(Clone, Copy)]
pub enum Stop {
    Waits(u32),
    Refused(u32),
}

impl From<Short> for Stop {
    ghost from_gives = { λ short stop. stop ≡ Stop.Waits short.0 };

    fn from(short: Short) -> Stop {
        Stop::Waits(u32::from(short.0))
    }
}

impl From<Reason> for Stop {
    ghost from_gives = { λ reason stop. stop ≡ Stop.Refused (number_of reason) };

    fn from(reason: Reason) -> Stop {
        Stop::Refused(reason.number())
    }
}

// Where the search for the lowest queue that isn't empty stands: at a rank below which all queues are empty, with the
// count and the bodies begun.
#[derive(Clone, Copy)]
pub struct Search {
    pub rank: usize,
    pub count: u16,
    pub bodies: u16,
}

// Where a run leaves the count, the bodies and the bits, beside the positions, which are lent; and how it ended: at the
// walk's end, or stopped before it.
#[derive(Clone, Copy)]
pub struct Halted<B> {
    pub count: u16,
    pub bodies: u16,
    pub bits: B,
    pub signal: Result<(), Stop>,
}

// Where a run leaves the walk and the bits.
#[derive(Clone, Copy)]
pub struct Ran<'a> {
    pub stand: Stand,
    pub bits: Bits<'a>,
    pub signal: Result<(), Stop>,
}

// A search at a rank.
pub fn search_at(rank: usize, count: u16, bodies: u16) -> Search
    ensures { result ≡ search_at rank count bodies }
{
    Search {
        rank,
        count,
        bodies,
    }
}

// The search goes on past a rank whose queue is empty. A body that is then due begins here and not in a turn, since
// beginning it is no step: the next walk number enters L0, and the search begins anew.
pub fn past(form: Form, dim: usize, darts: usize, at: Search) -> Search
    requires { (at.rank ≤ 6) × (darts ≤ 4096) × (at.bodies ≤ at.count) }
    ensures { result ≡ past_of form dim darts at }
{
    let rank = at.rank + 1;
    if rules::body_due(form, dim, darts, rank, at.count) {
        return search_at(0, at.count + 1, at.bodies + 1);
    }
    search_at(rank, at.count, at.bodies)
}

// A run that leaves off here.
pub fn halt<B: Copy>(at: Search, bits: B, signal: Result<(), Stop>) -> Halted<B>
    ensures { result ≡ record { count = at.count; bodies = at.bodies; bits = bits; signal = signal } }
{
    Halted {
        count: at.count,
        bodies: at.bodies,
        bits,
        signal,
    }
}

// The turn at the head b of Lj where a symbol is asked. N and n go beside the tables here and below, as `steps::join`
// says.
pub fn asked<'a>(
    tables: &mut [u16],
    positions: &mut [u16; 7],
    dim: usize,
    darts: usize,
    count: u16,
    j: usize,
    b: WalkNo,
    bits: Bits<'a>,
) -> Result<Turned<'a>, Stop>
    requires { Ready dim darts (stand count positions.old) bits.cursor tables.old
        × HeadCase dim darts count positions.old tables.old j b.0 Partner.asked }
    ensures { Turns dim darts count positions.old bits.entry tables.old result
        positions.new tables.new }
{
    let taken = bits.take_symbol()?;
    let left = Bits {
        cursor: taken.cursor,
        page: bits.page,
    };
    let next = steps::by_symbol(tables, positions, dim, darts, count, j, b, taken.symbol)?;
    Ok(Turned { next, bits: left })
}

// One turn with the bits at hand, at the head of Lj.
pub fn turn<'a>(
    tables: &mut [u16],
    positions: &mut [u16; 7],
    dim: usize,
    darts: usize,
    count: u16,
    j: usize,
    bits: Bits<'a>,
) -> Result<Turned<'a>, Stop>
    requires { Ready dim darts (stand count positions.old) bits.cursor tables.old
        × Lowest dim count positions.old j }
    ensures { Turns dim darts count positions.old bits.entry tables.old result
        positions.new tables.new }
{
    let b = WalkNo(positions[j]);
    let map = Map { dim, darts, tables };
    match steps::partner(&map, j, b) {
        Case::Known => {
            steps::passed(positions, j, b);
            let next = Next { rank: j, count };
            Ok(Turned { next, bits })
        }
        Case::Deduced(e) => {
            let next = steps::by_deduction(tables, positions, dim, darts, count, j, b, e)?;
            Ok(Turned { next, bits })
        }
        Case::Asked => asked(tables, positions, dim, darts, count, j, b, bits),
    }
}

// Every step that needs no bit beyond those at hand; each writes one place of the positions. With the queues below Lj
// empty, Lj holds the walk numbers from its position up to the count; past LN the next body has begun, or the walk has
// ended. The search for the lowest queue is that of `walk::number_body`, which says why it is no shared loop.
pub fn walk_on<'a>(
    tables: &mut [u16],
    positions: &mut [u16; 7],
    form: Form,
    bodies: u16,
    dim: usize,
    darts: usize,
    count: u16,
    start: Bits<'a>,
) -> Halted<Bits<'a>>
    requires { Ready dim darts (stand_in form bodies count positions.old) start.cursor tables.old }
    ensures { Runs dim darts (stand_in form bodies count positions.old) start.entry tables.old
        (ran_at form result positions.new) tables.new }
{
    let mut at = search_at(0, count, bodies);
    let mut bits = start;
    while at.rank <= dim {
        let rank = at.rank;
        if at.count <= positions[rank] {
            at = past(form, dim, darts, at);
        } else {
            match turn(tables, positions, dim, darts, at.count, rank, bits) {
                Ok(t) => {
                    at = search_at(t.next.rank, t.next.count, at.bodies);
                    bits = t.bits;
                }
                Err(stop) => {
                    return halt(at, bits, Err(stop));
                }
            }
        }
    }
    halt(at, bits, Ok(()))
}

// The same from a stand: its positions are lent, so that no step copies them.
pub fn run<'a>(tables: &mut [u16], dim: usize, darts: usize, s: Stand, bits: Bits<'a>) -> Ran<'a>
    requires { Ready dim darts s bits.cursor tables.old }
    ensures { Runs dim darts s bits.entry tables.old result tables.new }
{
    let mut positions = s.positions;
    let t = walk_on(
        tables,
        &mut positions,
        s.form,
        s.bodies,
        dim,
        darts,
        s.count,
        bits,
    );
    let stand = Stand {
        count: t.count,
        positions,
        form: s.form,
        bodies: t.bodies,
    };
    Ran {
        stand,
        bits: t.bits,
        signal: t.signal,
    }
}
