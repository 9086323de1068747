// A cell of a grid, from the grid's tables.
ghost use Rattle.std.specs.Prelude.{◌≡◌, ℕ, ◌+◌, ◌%◌, ◌≤◌, ◌<◌, min, get_or};
ghost use Rattle.slots.specs.Limits.{most_count, most_cells};
ghost use Rattle.cell.specs.Cell.{crossings};
ghost use Rattle.cell.specs.Of.{edges_of};
ghost use Rattle.cell.specs.work.Limits.{most_in_cell};
ghost use Rattle.cell.specs.claims.Table.{short_limit, table_counts, table_starts, of_four, taken_counts};
ghost use Rattle.cell.specs.work.Tables.{cell_in};

use super::routes::crossings_of;
use super::{Cell, Counted, Tables};
use slots::{MOST_CELLS, MOST_COUNT, MOST_EDGES};

// Entry i of a list, 0 past its end.
fn entry(list: &[u16], i: usize) -> u16
    ensures { result ≡ get_or list.now i 0 }
{
    if i < list.len() { list[i] } else { 0 }
}

fn start_at(starts: &[u32], i: usize) -> u32
    ensures { result ≡ get_or starts.now i 0 % short_limit }
{
    if i < starts.len() {
        starts[i] % 65536
    } else {
        0
    }
}

fn counts_of(counts: &[u16], sides: &[u16], c: usize) -> [u16; 6]
    requires { c < most_cells }
    ensures { result ≡ table_counts counts.now sides.now c }
{
    let mut six = [0u16; 6];
    for k in 0..6 {
        let e = entry(sides, 6 * c + k) as usize;
        six[k] = entry(counts, e);
    }
    six
}

fn starts_of(starts: &[u32], sides: &[u16], c: usize) -> [u32; 6]
    requires { c < most_cells }
    ensures { result ≡ table_starts starts.now sides.now c }
{
    let mut six = [0u32; 6];
    for k in 0..6 {
        let e = entry(sides, 6 * c + k) as usize;
        six[k] = start_at(starts, e);
    }
    six
}

fn four_of(list: &[u16], c: usize) -> [u16; 4]
    requires { c < most_cells }
    ensures { result ≡ of_four list.now c }
{
    let mut four = [0u16; 4];
    for i in 0..4 {
        four[i] = entry(list, 4 * c + i);
    }
    four
}

// The counts of cell c, none above the limit.
pub fn counts_at(counts: &[u16], sides: &[u16; MOST_EDGES], c: usize) -> [u16; 6]
    ensures { result ≡ taken_counts counts.now sides.now c }
{
    let m = c % MOST_CELLS;
    let mut six = [0u16; 6];
    for k in 0..6 {
        let e = sides[6 * m + k] as usize;
        six[k] = entry(counts, e).min(MOST_COUNT);
    }
    six
}

// No count is greater.
pub(crate) fn greatest(counts: &[u16]) -> u16
    ensures { (i : ℕ) → get_or counts.now i 0 ≤ result }
{
    let mut most: u16 = 0;
    for n in counts {
        most = most.max(*n);
    }
    most
}

// Cell c, and how many crossings it has: these are added up before the cell is stored.
pub(crate) fn counted_at(tables: Tables, c: usize) -> Counted
    ensures { (result.cell ≡ cell_in tables.entry c) × (result.crossings ≡ crossings (edges_of result.cell)) × (result.crossings ≤ most_in_cell) }
{
    let m = c % MOST_CELLS;
    let sides = tables.sides;
    let names = tables.names;
    let edge_counts = counts_of(tables.counts, sides, m);
    let edge_starts = starts_of(tables.starts, sides, m);
    let slot_names = four_of(names, m);
    let nodes = four_of(tables.cells, m);
    let cell = Cell {
        counts: edge_counts,
        starts: edge_starts,
        names: slot_names,
        nodes,
        index: m as u32,
    };
    let crossings = crossings_of(cell);
    Counted { cell, crossings }
}

// Cell c.
pub fn cell_at(tables: Tables, c: usize) -> Cell
    ensures { result ≡ cell_in tables.entry c }
{
    let x = counted_at(tables, c);
    x.cell
}
