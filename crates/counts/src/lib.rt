// What is counted in a map: the cells of each rank, by floods over lent work room.
#![tactic(auto)]

ghost use Rattle.std.specs.Prelude.{◌≡◌, ◌+◌, ◌*◌, ◌≤◌, ◌<◌, length, drop};
ghost use Rattle.rules.specs.Map.{by_dart};
ghost use Rattle.rules.specs.Report.{cell_counts};
ghost use Rattle.tables.specs.Maps.{of};

use flood::{Queue, Ranks};
use rules::Session;
use tables::ValidMap;

// The number of cells of a rank: a flood from each dart that none before it reached, until the queue holds all darts.
pub fn cells(valid: &ValidMap, work: &mut [u16], skip: usize) -> u32
    requires { (2 * valid.now.map.darts ≤ length work.old) × (skip ≤ valid.now.map.dim) }
    ensures { (result ≡ of (Rattle.rules.specs.Report.cells by_dart) valid.now.map skip)
        × (drop (2 * valid.now.map.darts) work.new ≡ drop (2 * valid.now.map.darts) work.old) }
{
    let darts = valid.map.darts;
    let mut queue = Queue::new(work, darts);
    let ranks = Ranks::all_but(skip);
    let mut found: u32 = 0;
    for d in 0..darts {
        if queue.work[d] == Session::NO_LINK {
            queue.flood(&valid.map, ranks, d as u16, 0);
            found += 1;
            if queue.tail == darts {
                return found;
            }
        }
    }
    found
}

// The number of cells of each rank; past N it is 0. That of rank N is given.
pub fn cell_counts(valid: &ValidMap, work: &mut [u16], top: u32) -> [u32; 7]
    requires { (2 * valid.now.map.darts ≤ length work.old)
        × (top ≡ of (Rattle.rules.specs.Report.cells by_dart) valid.now.map valid.now.map.dim) }
    ensures { (result ≡ of (cell_counts by_dart) valid.now.map)
        × (drop (2 * valid.now.map.darts) work.new ≡ drop (2 * valid.now.map.darts) work.old) }
{
    let dim = valid.map.dim;
    let mut counts = [0u32; 7];
    for i in 0..dim {
        counts[i] = cells(valid, work, i);
    }
    counts[dim] = top;
    counts
}
