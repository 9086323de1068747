// Rows 2, 6, 18, 7 and 8: the edges.
ghost use Rattle.std.specs.Prelude.{◌≡◌, ◌+◌, ◌*◌, ◌/◌, ◌<◌, ◌≤◌, length, None};
ghost use Rattle.counting.specs.Search.{some};
ghost use Rattle.counting.specs.work.Search.{found};
ghost use Rattle.grid.specs.Grid.{cell_count};
ghost use Rattle.grid.specs.work.Lent.{rebuilt};
ghost use Rattle.grid.specs.Rows.{bad_numbers, bad_start, bad_lists, bad_edge, bad_count, unused};
ghost use Rattle.grid.specs.work.Runs.{Talliable, Tallied};
ghost use Rattle.grid.specs.work.Shared.{edge_key};
ghost use Rattle.grid.specs.work.Work.{Usable, blank_in};

use crate::{Grid, MOST_COUNT};

// Whether the lists do not have two ends and one start to a count.
pub(crate) fn bad_numbers(edges: &[u16], counts: &[u16], starts: &[u32]) -> bool
    ensures { result ≡ bad_numbers edges.now counts.now starts.now }
{
    edges.len() != 2 * counts.len() || starts.len() != counts.len()
}

// Whether some start is not the sum of the counts before its edge. The sum is one more count than a start at most, so it does not overflow.
fn bad_starts(counts: &[u16], starts: &[u32]) -> bool
    requires { length starts.now ≡ length counts.now }
    ensures { result ≡ some (bad_start counts.now starts.now) (length counts.now) }
{
    let mut sum = 0;
    for e in 0..counts.len() {
        if starts[e] as usize != sum {
            return true;
        }
        sum += counts[e] as usize;
    }
    false
}

pub(crate) fn row_2(grid: Grid) -> bool
    ensures { result ≡ bad_lists grid.entry.edges.now grid.entry.counts.now grid.entry.starts.now }
{
    bad_numbers(grid.edges, grid.counts, grid.starts) || bad_starts(grid.counts, grid.starts)
}

// The ends of edge e as one number.
pub(crate) fn edge_key(edges: &[u16], e: usize) -> usize
    requires { 2 * e + 1 < length edges.now }
    ensures { result ≡ edge_key edges.now e }
{
    edges[2 * e] as usize * 65536 + edges[2 * e + 1] as usize
}

fn bad_edge(edges: &[u16], e: usize) -> bool
    requires { 2 * e + 1 < length edges.now }
    ensures { result ≡ bad_edge edges.now e }
{
    edges[2 * e + 1] <= edges[2 * e] || 0 < e && edge_key(edges, e) <= edge_key(edges, e - 1)
}

// The lowest edge whose ends do not rise, or that is not after its predecessor.
pub fn edge_order(edges: &[u16]) -> Option<usize>
    ensures { result ≡ found (bad_edge edges.now) (length edges.now / 2) }
{
    for e in 0..edges.len() / 2 {
        if bad_edge(edges, e) {
            return Some(e);
        }
    }
    None
}

pub(crate) fn row_6(edges: &[u16], counts: &[u16]) -> Option<usize>
    requires { length edges.now ≡ 2 * length counts.now }
    ensures { result ≡ found (bad_edge edges.now) (length counts.now) }
{
    edge_order(edges)
}

// The lowest edge whose count is above 4,095.
pub fn row_18(counts: &[u16]) -> Option<usize>
    ensures { result ≡ found (bad_count counts.now) (length counts.now) }
{
    for e in 0..counts.len() {
        if MOST_COUNT < counts[e] {
            return Some(e);
        }
    }
    None
}

// The lowest listed edge that no cell has. Of more edges than the cells have, one of the first ones is in no cell, and there the search ends.
pub(crate) fn row_8(grid: Grid, sides: &[u16], top: &[u16]) -> Option<usize>
    requires { Usable (rebuilt grid) sides.now top.now }
    ensures value { result ≡ found (unused (rebuilt grid.entry)) (length grid.entry.counts.now) }
    ensures few { result ≡ None → length grid.entry.counts.now ≤ 6 * cell_count grid.entry.cells.now }
{
    let n = grid.counts.len();
    let m = n.min(6 * (grid.cells.len() / 4));
    for e in 0..m {
        if top[e + 1] == 0 {
            return Some(e);
        }
    }
    if m < n { Some(m) } else { None }
}

// The lowest cell with an entry of 0 among its six. Where there is none, top has for each number one more than the last of the places that have it, and
// degree how many have it.
pub(crate) fn row_7(
    cells: &[u16],
    sides: &[u16],
    top: &mut [u16],
    degree: &mut [u16],
) -> Option<usize>
    requires { Talliable sides.now (6 * cell_count cells.now) top.old degree.old }
    ensures value { result ≡ found (blank_in sides.now) (cell_count cells.now) }
    ensures tallied { result ≡ None → Tallied sides.now (length top.old) (6 * cell_count cells.now) top.new degree.new }
{
    for j in 0..6 * (cells.len() / 4) {
        let t = sides[j] as usize;
        if t == 0 {
            return Some(j / 6);
        }
        degree[t] += 1;
        top[t] = (j + 1) as u16;
    }
    None
}
