// The fans of the cells of a grid's tables, counted, and their middles written: level cells with d2 = 0 have none and are passed over.
ghost use Rattle.std.specs.Prelude.{◌≡◌, true, ◌-◌, ◌≤◌};
ghost use Rattle.cell.specs.Level.{by_edge};
ghost use Rattle.cell.specs.work.Table.{most_triangles};
ghost use Rattle.cell.specs.work.Tables.{fans_all, middles_put};
ghost use Rattle.direct.specs.claims.Direct.{Plain};
ghost use Rattle.direct.specs.work.Cells.{PassedOver};

use super::drawing::{block_end, next_block};
use super::plain_of;
use cell::Tables;

// Whether a cell with these counts is a level cell with d2 = 0.
fn is_plain(six: [u16; 6]) -> bool
    ensures { result ≡ true → Plain (by_edge six) }
{
    plain_of(six).is_some()
}

// The first cell from c on, up to `end`, that is to be walked, or `end`.
fn pass_over(tables: Tables, c: usize, end: usize) -> usize
    requires { c ≤ end }
    ensures { PassedOver tables.entry.counts.now tables.entry.sides.now c end result }
{
    for k in c..end {
        if !is_plain(cell::counts_at(tables.counts, tables.sides, k)) {
            return k;
        }
    }
    end
}

// How many fans all cells have: none is walked where all are level cells with d2 = 0. About 178 KB of stack.
pub fn count_fans(tables: Tables) -> usize
    ensures { (result ≡ fans_all tables.entry) × (result ≤ most_triangles) }
{
    let n = cell::drawn(tables.cells);
    if pass_over(tables, 0, n) == n {
        return 0;
    }
    cell::count_fans(tables)
}

// Writes the middles of the fans of the cells from c up to `end`, cell by cell, from point `at` of the area on, and answers the next point, as
// `cell::write_middles` does. About 178 KB of stack.
pub fn write_middles(
    tables: Tables,
    c: usize,
    end: usize,
    nodes: &[f64],
    area: &mut [f64],
    at: usize,
) -> usize
    ensures { (area.new, result) ≡ middles_put tables.entry nodes.now c area.old at (end - c) }
{
    let mut i = at;
    let mut b: usize = 0;
    let mut k = c;
    // Stays: a while, since the next cell is where the block ends.
    while k < end {
        let p = pass_over(tables, k, end);
        if end <= p {
            return i;
        }
        b = next_block(b, p - k);
        let e = block_end(p, b, end);
        i = cell::write_middles(tables, p, e, nodes, area, i);
        k = e;
    }
    i
}
