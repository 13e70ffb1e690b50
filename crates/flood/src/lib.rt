// A flood over lent work room: all that links of a set of ranks reach from a dart is marked.
#![tactic(auto)]

ghost use Rattle.std.specs.Prelude.{◌≡◌, ℕ, ◌+◌, ◌*◌, ◌-◌, ◌≤◌, ◌<◌, length, get_or};
ghost use Rattle.rules.specs.Map.{by_dart, link};
ghost use Rattle.tables.specs.Maps.{of};
ghost use Rattle.flood.specs.Flood.{kept, runs, but_one, between, entered_room, entered_tail};
ghost use Rattle.flood.specs.Flood.{IsQueue, queue_prop, LinksInside, OrbitInside, SpreadFrom, Flooded};

use rules::Session;
use tables::Map;

// A set of ranks as two runs: those below `low` and those from `high` on.
#[derive(Clone, Copy)]
pub struct Ranks {
    pub low: usize,
    pub high: usize,
}

impl Ranks {
    // All ranks but one.
    pub fn all_but(rank: usize) -> Ranks
        requires { rank ≤ 6 }
        ensures { result ≡ but_one rank }
    {
        Ranks {
            low: rank,
            high: rank + 1,
        }
    }
}

// The dart at a place of the queue that lies in a room. This function and the two after it take the room and the
// queue's length apart, and any class; the methods of `Queue` of these names have them over its own room.
pub fn queued(work: &[u16], darts: usize, place: usize) -> u16
    requires { (2 * darts ≤ length work.now) × (place < darts) }
    ensures { result ≡ Rattle.flood.specs.Flood.queued darts work.now place }
{
    work[darts + place]
}

// A dart that has no mark gets a class and enters the queue. The answer is the queue's length.
pub fn enter(work: &mut [u16], darts: usize, tail: usize, dart: u16, class: u16) -> usize
    requires { IsQueue darts tail work.old × (dart < darts) }
    ensures { (result ≡ entered_tail work.old tail dart)
        × (work.new ≡ entered_room darts work.old tail dart class) }
{
    let d = dart as usize;
    if work[d] != Session::NO_LINK {
        return tail;
    }
    work[d] = class;
    work[darts + tail] = dart;
    tail + 1
}

// Where the link of one rank leads from a dart gets a class.
pub fn enter_link(
    map: &Map,
    work: &mut [u16],
    rank: usize,
    tail: usize,
    dart: u16,
    class: u16,
) -> usize
    requires { IsQueue map.now.darts tail work.old × (rank ≤ map.now.dim) × (dart < map.now.darts)
        × (of (link by_dart) map.now rank dart < map.now.darts) }
    ensures { let x = of (link by_dart) map.now rank dart in (result ≡ entered_tail work.old tail x)
        × (work.new ≡ entered_room map.now.darts work.old tail x class) }
{
    let x = map.link_at(rank, dart);
    enter(work, map.darts, tail, x, class)
}

// The darts marked so far, in order, over lent work room: its first n entries hold each dart's class, 0 or 1, or the
// mark, the next n the queue, which is `tail` darts long. The room is lent and no Vec: nothing allocates.
#[derive(Drop)]
pub struct Queue<'a> {
    pub darts: usize,
    pub work: &'a mut [u16],
    pub tail: usize,
    ghost queue: { IsQueue darts tail work.now } by { queue_prop darts tail work.now },
}

impl<'a> Queue<'a> {
    ghost use Rattle.rules.specs.Map.{blank};
    ghost use Rattle.flood.specs.Queues.{Same, grown, Flows};

    // The classes are blanked: no dart is marked.
    pub fn new(work: &'a mut [u16], darts: usize) -> Queue<'a>
        requires { 2 * darts ≤ length work.old }
        ensures { (result.darts ≡ darts) × (result.work.ghost_name ≡ work.entry.ghost_name) × (result.tail ≡ 0)
            × (result.work.now ≡ blank darts work.old) }
    {
        tables::blank(work, darts);
        Queue {
            darts,
            work,
            tail: 0,
        }
    }

    // The dart of the queue at a place.
    pub fn queued(&self, place: usize) -> u16
        requires { place < self.now.darts }
        ensures { result ≡ Rattle.flood.specs.Flood.queued self.now.darts self.now.work.now place }
    {
        queued(self.work, self.darts, place)
    }

    // A dart that has no mark gets its class and enters the queue.
    pub fn enter(&mut self, dart: u16, class: u16)
        requires { (dart < self.old.darts) × (class < 2) }
        ensures { Same self.old self.new × (self.new.tail ≡ entered_tail self.old.work.now self.old.tail dart)
            × (self.new.work.now ≡ entered_room self.old.darts self.old.work.now self.old.tail dart class) }
    {
        self.tail = enter(self.work, self.darts, self.tail, dart, class);
    }

    // Where the link of one rank leads from a dart gets a class.
    pub fn enter_link(&mut self, map: &Map, rank: usize, dart: u16, class: u16)
        requires { (self.old.darts ≡ map.now.darts) × (rank ≤ map.now.dim) × (dart < map.now.darts)
            × (of (link by_dart) map.now rank dart < map.now.darts) × (class < 2) }
        ensures { let x = of (link by_dart) map.now rank dart in
            Same self.old self.new × (self.new.tail ≡ entered_tail self.old.work.now self.old.tail x)
            × (self.new.work.now ≡ entered_room map.now.darts self.old.work.now self.old.tail x class) }
    {
        self.tail = enter_link(map, self.work, rank, self.tail, dart, class);
    }

    // The links of the ranks from one up to another are followed from a dart; the class is the other one than its own.
    pub fn spread_part(&mut self, map: &Map, from: usize, to: usize, dart: u16, class: u16)
        requires { (self.old.darts ≡ map.now.darts) × (to ≤ map.now.dim + 1) × (dart < map.now.darts)
            × of (LinksInside (between from to)) map.now dart × (get_or self.old.work.now dart 0 < 2)
            × (class ≡ 1 - get_or self.old.work.now dart 0) }
        ensures { Same self.old self.new
            × grown (of (SpreadFrom (between from to)) map.now dart) self.old self.new }
    {
        for i in from..to {
            self.enter_link(map, i, dart, class);
        }
    }

    // The links of a set of ranks, those below `low` and those from `high` on, are followed from a dart: run by run, so
    // that no turn of a loop asks whether a rank is of the set.
    pub fn spread(&mut self, map: &Map, low: usize, high: usize, dart: u16)
        requires { (self.old.darts ≡ map.now.darts) × (low ≤ map.now.dim + 1) × (dart < map.now.darts)
            × of (LinksInside (kept (runs low high))) map.now dart × (get_or self.old.work.now dart 0 < 2) }
        ensures { Same self.old self.new
            × grown (of (SpreadFrom (kept (runs low high))) map.now dart) self.old self.new }
    {
        let class = 1 - self.work[dart as usize];
        self.spread_part(map, 0, low, dart, class);
        self.spread_part(map, high, map.dim + 1, dart, class);
    }

    // The queue is gone through from a start that has just come up, and what each dart's links lead to comes up in
    // turn: it grows meanwhile, so no `for`.
    // The set's ends go by value, so that a flood of few darts costs no more than they do.
    pub fn flood_on(&mut self, map: &Map, low: usize, high: usize, from: usize)
        requires { let keep = kept (runs low high) in
            (self.old.darts ≡ map.now.darts) × (low ≤ map.now.dim + 1) × (from ≤ self.old.tail)
            × ((start class : ℕ) × of (OrbitInside keep) map.now start
            × Flows keep map.now start class from from self.old self.old) }
        ensures { let keep = kept (runs low high) in
            Same self.old self.new × ((start class : ℕ)
            → Flows keep map.now start class from from self.old self.old
            → Flows keep map.now start class from self.new.tail self.old self.new) }
    {
        let mut head = from;
        while head < self.tail {
            let next = self.queued(head);
            self.spread(map, low, high, next);
            head += 1;
        }
    }

    // All that links of a set of ranks reach from a dart is marked; the dart gets a class, and each link to another
    // dart leads to the other one: a link that stays in place leads to a dart that has its class already.
    pub fn flood(&mut self, map: &Map, ranks: Ranks, dart: u16, class: u16)
        requires { (self.old.darts ≡ map.now.darts) × (ranks.low ≤ map.now.dim + 1)
            × of (OrbitInside (kept ranks)) map.now dart × (class < 2) }
        ensures { Same self.old self.new
            × grown (of (Flooded (kept ranks)) map.now dart class) self.old self.new }
    {
        let from = self.tail;
        self.enter(dart, class);
        self.flood_on(map, ranks.low, ranks.high, from);
    }
}
