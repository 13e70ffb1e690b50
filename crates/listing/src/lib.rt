// The text of a listing, put into a lent room: what the listing program prints. `words` says why it is put by hand.
#![tactic(auto)]

ghost use Rattle.std.specs.Prelude.{◌≡◌, suc, ◌+◌, ◌*◌, ◌≤◌, length, get_or};
ghost use Rattle.io.specs.Counts.{IsPrefixLen};
ghost use Rattle.rules.specs.Map.{Limits};
ghost use Rattle.tables.specs.Maps.{of};
ghost use Rattle.words.specs.Room.{TextPut, begun};
ghost use Rattle.words.specs.Words.{spaced, each};
ghost use Rattle.listing.specs.Listing.{links, dart_line, dart_lines, cells_line};
ghost use Rattle.listing.specs.Listing.{orientable_line, map_text, refusal_line, listing};

use rules::{ReadAnswer, ReportAnswer};
use tables::Map;

// The links of a dart, a0 to aN.
pub fn put_links(out: &mut [u8], at: usize, map: &Map, d: u16) -> usize
    requires { at + 147 ≤ length out.old }
    ensures text_put { TextPut out.old at (of links map.now d) out.new result }
    ensures upper_bound { result ≤ at + 147 }
{
    let mut end = at;
    for i in 0..=map.dim {
        end = words::put_spaced(out, end, u64::from(map.link(i, d)));
    }
    end
}

// A dart's line.
pub fn put_dart(out: &mut [u8], at: usize, map: &Map, d: u16) -> usize
    requires { at + 168 ≤ length out.old }
    ensures text_put { TextPut out.old at (of dart_line map.now d) out.new result }
    ensures upper_bound { result ≤ at + 168 }
{
    let number = words::put_number(out, at, u64::from(d));
    let links = put_links(out, number, map, d);
    words::put(out, links, b"\n")
}

// A line for each dart.
pub fn put_darts(out: &mut [u8], at: usize, map: &Map) -> usize
    requires { at + 168 * map.now.darts ≤ length out.old }
    ensures text_put { TextPut out.old at (of dart_lines map.now) out.new result }
    ensures upper_bound { result ≤ at + 168 * map.now.darts }
{
    let mut end = at;
    for d in 0..map.darts as u16 {
        end = put_dart(out, end, map, d);
    }
    end
}

// The cells of each rank.
pub fn put_counts(out: &mut [u8], at: usize, dim: usize, cells: [u32; 7]) -> usize
    requires { (dim ≤ 6) × (at + 147 ≤ length out.old) }
    ensures text_put { TextPut out.old at
        (each (suc dim) (λ i. spaced (get_or cells i 0))) out.new result }
    ensures upper_bound { result ≤ at + 147 }
{
    let mut end = at;
    for n in &cells[..=dim] {
        end = words::put_spaced(out, end, u64::from(*n));
    }
    end
}

// The cells' line.
pub fn put_cells(out: &mut [u8], at: usize, dim: usize, cells: [u32; 7]) -> usize
    requires { (dim ≤ 6) × (at + 153 ≤ length out.old) }
    ensures text_put { TextPut out.old at (cells_line dim cells) out.new result }
    ensures upper_bound { result ≤ at + 153 }
{
    let word = words::put(out, at, b"cells");
    let counts = put_counts(out, word, dim, cells);
    words::put(out, counts, b"\n")
}

// The last line: is the map orientable?
pub fn put_orientable(out: &mut [u8], at: usize, orientable: bool) -> usize
    requires { at + 15 ≤ length out.old }
    ensures text_put { TextPut out.old at (orientable_line orientable) out.new result }
    ensures upper_bound { result ≤ at + 15 }
{
    if orientable {
        return words::put(out, at, b"orientable yes\n");
    }
    words::put(out, at, b"orientable no\n")
}

// The listing of a map that was read, with its report.
pub fn put_map(out: &mut [u8], a: ReadAnswer, r: ReportAnswer, tables: &[u16]) -> usize
    requires { Limits a.dim a.darts tables.now × (688407 ≤ length out.old) }
    ensures text_put { TextPut out.old 0
        (map_text a.dim a.darts a.steps r.cells r.free r.orientable tables.now) out.new result }
    ensures upper_bound { result ≤ 688407 }
{
    let dim = u64::from(a.dim);
    let darts = u64::from(a.darts);
    let first = words::put_pair(out, 0, b"dimension", dim, b" darts", darts);
    let map = Map {
        dim: a.dim as usize,
        darts: a.darts as usize,
        tables,
    };
    let lines = put_darts(out, first, &map);
    let counts = put_cells(out, lines, map.dim, r.cells);
    let pairs = words::put_line(out, counts, b"free", u64::from(r.free));
    let done = words::put_line(out, pairs, b"steps", u64::from(a.steps));
    put_orientable(out, done, r.orientable)
}

// A refusal's line: by its number, which may be one that a lent record holds, so no Reason.
pub fn put_refusal(out: &mut [u8], number: u32, place: u32) -> usize
    requires { 53 ≤ length out.old }
    ensures text_put { TextPut out.old 0 (refusal_line number place) out.new result }
    ensures upper_bound { result ≤ 53 }
{
    let number = u64::from(number);
    let place = u64::from(place);
    words::put_pair(out, 0, b"refused", number, b" at", place)
}

// The text of a listing: what was read and its report, or the refusal of either, by the numbers of the two answers.
pub fn put(out: &mut [u8], a: ReadAnswer, r: ReportAnswer, tables: &[u16]) -> usize
    requires { (r.number ≡ 0 → Limits a.dim a.darts tables.now) × (688407 ≤ length out.old) }
    ensures listed { let text = listing a r tables.now in
        (result ≡ length text) × (out.new ≡ begun text out.old) }
    ensures prefix_len { IsPrefixLen result out.new }
{
    if a.number != 0 {
        return put_refusal(out, a.number, a.place);
    }
    if r.number != 0 {
        return put_refusal(out, r.number, r.place);
    }
    put_map(out, a, r, tables)
}
