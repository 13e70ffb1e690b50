// The cell report: floods over lent work room serve refusals 9 and 30, the cells of each rank and the two classes.
#![tactic(auto)]

ghost use Rattle.std.specs.Prelude.{◌≡◌, ℕ, ◌+◌, ◌*◌, ◌≤◌, ◌<◌, length};
ghost use Rattle.rules.specs.Lists.{first, found};
ghost use Rattle.rules.specs.Map.{by_dart, size, blank};
ghost use Rattle.rules.specs.Check.{bodies_verdict, verdict_of};
ghost use Rattle.rules.specs.Report.{report_answer, report_work};
ghost use Rattle.tables.specs.Maps.{of};
ghost use Rattle.checker.specs.Parts.{numberless};
ghost use Rattle.report.specs.Answer.{counted_of, answer_by, refusal_of};
ghost use Rattle.report.specs.Spans.{Begun, Unmarked, Spun, Spanned, stands, Stays};
ghost use Rattle.report.specs.Tests.{Counted};

use flood::{Queue, Ranks};
use rules::{Form, Reason, Refusal, ReportAnswer, Session};
use tables::{Map, ValidMap};

// Where the marking of bodies stands, beside its queue: how many N-cells are marked, and a dart below which every dart
// has a mark. It does not hold the queue: once a room lent two structs deep is let go, what it holds is not known.
#[derive(Clone, Copy)]
pub struct Spanning {
    pub cells: u32,
    pub next: usize,
}

// How many links stay within a class, and how many of these stay in place: the free pairs.
#[derive(Clone, Copy)]
pub struct Tally {
    pub alike: u32,
    pub free: u32,
}

// The links of one rank are put to the tally of the ranks below. Counts and no way out of the loop let the compiler go
// over them without a branch.
pub fn tally_at(valid: &ValidMap, work: &[u16], rank: usize, below: Tally) -> Tally
    requires { (valid.now.map.darts ≤ length work.now) × (rank ≤ valid.now.map.dim)
        × of Counted valid.now.map work.now (rank * valid.now.map.darts) below }
    ensures { of Counted valid.now.map work.now ((rank + 1) * valid.now.map.darts) result }
{
    let map = &valid.map;
    let mut alike = below.alike;
    let mut free = below.free;
    for d in 0..map.darts {
        let x = map.tables[map.place(rank, d)] as usize;
        if x == d {
            free += 1;
        }
        if work[d] == work[x] {
            alike += 1;
        }
    }
    Tally { alike, free }
}

// Of all links, in one pass.
pub fn tally_all(valid: &ValidMap, work: &[u16]) -> Tally
    requires { valid.now.map.darts ≤ length work.now }
    ensures { of Counted valid.now.map work.now (size valid.now.map.dim valid.now.map.darts) result }
{
    let mut t = Tally { alike: 0, free: 0 };
    for rank in 0..=valid.map.dim {
        t = tally_at(valid, work, rank, t);
    }
    t
}

// The dart of the queue at `head`: where its aN has no mark, an N-cell begins there, and a flood by all other ranks
// marks it.
pub fn span_step(valid: &ValidMap, queue: &mut Queue, head: usize, s: Spanning) -> Spanning
    requires { (queue.old.darts ≡ valid.now.map.darts) × (head < queue.old.tail)
        × stands (of Spun valid.now.map head) queue.old s }
    ensures { Stays valid.now.map.darts queue.old queue.new × (result.next ≡ s.next)
        × stands (of Spun valid.now.map (head + 1)) queue.new result }
{
    let map = &valid.map;
    let d = queue.queued(head);
    let x = map.link_at(map.dim, d);
    if queue.work[x as usize] != Session::NO_LINK {
        return s;
    }
    let class = 1 - queue.work[d as usize];
    let ranks = Ranks::all_but(map.dim);
    queue.flood(map, ranks, x, class);
    Spanning {
        cells: s.cells + 1,
        next: s.next,
    }
}

// The body of dart `next`, which has no mark, is marked, one N-cell after another; a class says by how many links from
// that dart, its root.
pub fn span_body(valid: &ValidMap, queue: &mut Queue, from: Spanning) -> Spanning
    requires { (queue.old.darts ≡ valid.now.map.darts) × stands (of Spanned valid.now.map) queue.old from
        × Unmarked valid.now.map.darts queue.old.work.now from.next }
    ensures { Stays valid.now.map.darts queue.old queue.new × (result.next ≡ from.next + 1)
        × stands (of Spanned valid.now.map) queue.new result }
{
    let root = from.next as u16;
    let ranks = Ranks::all_but(valid.map.dim);
    let mut head = queue.tail;
    queue.flood(&valid.map, ranks, root, 0);
    let mut s = Spanning {
        cells: from.cells + 1,
        next: from.next + 1,
    };
    // the queue grows meanwhile, so no `for`
    while head < queue.tail {
        s = span_step(valid, queue, head, s);
        head += 1;
    }
    s
}

// All that is reached from dart 0 is marked: the first body.
pub fn span(valid: &ValidMap, queue: &mut Queue) -> Spanning
    requires { (queue.old.darts ≡ valid.now.map.darts) × (queue.old.tail ≡ 0) }
    ensures { Stays valid.now.map.darts queue.old queue.new × (result.next ≡ 1)
        × stands (of Spanned valid.now.map) queue.new result }
{
    span_body(valid, queue, Spanning { cells: 0, next: 0 })
}

// The least dart that has no mark; those before `from` have one.
pub fn first_unmarked(queue: &Queue, from: usize) -> Option<usize>
    requires { (from ≤ queue.now.darts) × Begun from queue.now.work.now }
    ensures { let darts = queue.now.darts in
        result ≡ found (first (numberless queue.now.work.now) darts) darts }
{
    checker::first_unnumbered(queue.work, from, queue.darts)
}

// The next body begins at the least dart that has no mark. That there is one the queue's length tells, so what stands
// behind `else` is never come to.
pub fn next_body(valid: &ValidMap, queue: &mut Queue, s: Spanning) -> Spanning
    requires { (queue.old.darts ≡ valid.now.map.darts) × (queue.old.tail < valid.now.map.darts)
        × stands (of Spanned valid.now.map) queue.old s }
    ensures { Stays valid.now.map.darts queue.old queue.new × (s.next < result.next)
        × stands (of Spanned valid.now.map) queue.new result }
{
    let Some(d) = first_unmarked(queue, s.next) else {
        return s;
    };
    span_body(valid, queue, Spanning { next: d, ..s })
}

// Body after body, until every dart has a mark. Over all bodies together the search for the next goes forward once.
pub fn span_rest(valid: &ValidMap, queue: &mut Queue, first: Spanning) -> Spanning
    requires { (queue.old.darts ≡ valid.now.map.darts) × stands (of Spanned valid.now.map) queue.old first }
    ensures { Stays valid.now.map.darts queue.old queue.new × stands (of Spanned valid.now.map) queue.new result
        × (valid.now.map.darts ≤ queue.new.tail) }
{
    let mut s = first;
    while queue.tail < queue.darts {
        s = next_body(valid, queue, s);
    }
    s
}

// A refusal, by its number: all counts are 0.
#[tactic(auto, unfolding(crate::specs::Answer::refusal_of))]
pub fn refusal(number: u32, place: u32) -> ReportAnswer
    ensures { result ≡ refusal_of number place }
{
    ReportAnswer {
        number,
        place,
        cells: [0u32; 7],
        free: 0,
        orientable: false,
    }
}

// The answer for a map whose darts are all marked. If any two classes do, those by the number of links from the root of
// each body do. A link that stays in place stays within a class; so they do exactly if no other link does: if as many
// links stay within a class as pairs are free.
pub fn counted(valid: &ValidMap, work: &mut [u16], s: Spanning) -> ReportAnswer
    requires { (tail : ℕ) × of Spanned valid.now.map tail s.cells s.next work.old
        × (valid.now.map.darts ≤ tail) }
    ensures { (result ≡ of counted_of valid.now.map)
        × (work.new ≡ blank (2 * valid.now.map.darts) work.old) }
{
    let t = tally_all(valid, work);
    let cells = counts::cell_counts(valid, work, s.cells);
    tables::blank(work, 2 * valid.map.darts);
    ReportAnswer {
        number: 0,
        place: 0,
        cells,
        free: t.free,
        orientable: t.alike == t.free,
    }
}

// Refusal 9 or 30 by the form: what is reached from dart 0 is marked, and the queue holds it. `checker::misjoined` says
// why it is not one with it.
pub fn misjoined(form: Form, queue: &Queue, s: Spanning) -> Result<(), Refusal>
    requires { (queue.now.darts ≤ 4096) × (s.next ≤ queue.now.darts) × Begun s.next queue.now.work.now }
    ensures { let darts = queue.now.darts in
        verdict_of result ≡ bodies_verdict form darts (first (numberless queue.now.work.now) darts) }
{
    match form {
        Form::One => {
            if queue.tail < queue.darts {
                if let Some(d) = first_unmarked(queue, s.next) {
                    return Err(Refusal {
                        reason: Reason::NotReached,
                        place: d as u32,
                    });
                }
            }
        }
        Form::Several => {
            if queue.darts <= queue.tail {
                return Err(Refusal::of(Reason::OneBody));
            }
        }
    }
    Ok(())
}

// The cell report of posted tables, by the form, or what refuses them. What is reached from dart 0 serves refusals 9
// and 30; then the other bodies are marked, of which the one-body form has none.
pub fn reported(
    form: Form,
    dim: usize,
    darts: usize,
    tables: &[u16],
    work: &mut [u16],
) -> Result<ReportAnswer, Refusal>
    ensures { (answer_by result ≡ report_answer form by_dart dim darts tables.now work.old)
        × (work.new ≡ report_work form by_dart dim darts tables.now work.old) }
{
    checker::misfit(dim, darts, 0, tables.len(), work.len())?;
    let map = Map { dim, darts, tables };
    checker::misbuilt(&map)?;
    let valid = ValidMap { map };
    let mut queue = Queue::new(work, darts);
    let first = span(&valid, &mut queue);
    if let Err(r) = misjoined(form, &queue, first) {
        tables::blank(work, 2 * darts);
        return Err(r);
    }
    let all = span_rest(&valid, &mut queue, first);
    Ok(counted(&valid, work, all))
}

// The cell report of posted tables, by the form.
pub fn report(
    form: Form,
    dim: usize,
    darts: usize,
    tables: &[u16],
    work: &mut [u16],
) -> ReportAnswer
    ensures { (result ≡ report_answer form by_dart dim darts tables.now work.old)
        × (work.new ≡ report_work form by_dart dim darts tables.now work.old) }
{
    match reported(form, dim, darts, tables, work) {
        Ok(a) => a,
        Err(r) => refusal(r.reason.number(), r.place),
    }
}
