// The triangles of all cells of a grid's tables: those of the cells that have to be walked for it counted, and all written.
ghost use Rattle.std.specs.Prelude.{◌≡◌, ◌-◌, ◌≤◌};
ghost use Rattle.counting.specs.Lists.{total};
ghost use Rattle.cell.specs.work.Fits.{next_after, area_after};
ghost use Rattle.cell.specs.claims.Table.{drawn_cells};
ghost use Rattle.cell.specs.work.Tables.{cell_in, drawn_in, walked_in};
ghost use Rattle.cell.specs.work.Table.{most_triangles};
ghost use Rattle.cell.specs.work.Walked.{Few, Spacious, Sized};

use super::entries::{counted_at, counts_at, greatest};
use super::level::is_known;
use super::triangles::{count_in, put_in};
use super::{FEW_COUNT, FEW_IN_CELL, MOST_IN_CELL, Tables};
use slots::MOST_CELLS;

// How many cells are drawn.
pub fn drawn(cells: &[u16]) -> usize
    ensures { result ≡ drawn_cells cells.now }
{
    (cells.len() / 4).min(MOST_CELLS)
}

// How many triangles those cells have that are walked to be counted: some count is above 2, and some face has an odd sum or a count above the other two.
// The arrays are the walks', here and below.
fn walked_in_all(tables: Tables, marks: &mut [u16], halves: &mut [u8], points: &mut [u32]) -> usize
    requires { Spacious tables.counts.now tables.sides.now marks.old halves.old points.old }
    ensures value { (result ≡ total (walked_in tables.entry) (drawn_in tables.entry) 0) × (result ≤ most_triangles) }
    ensures sized { Sized marks.old halves.old points.old marks.new halves.new points.new }
{
    let n = drawn(tables.cells);
    let mut t: usize = 0;
    for c in 0..n {
        if is_known(counts_at(tables.counts, tables.sides, c)) {
            continue;
        }
        let x = counted_at(tables, c);
        t += count_in(x.cell, x.crossings, 0, marks, halves, points);
    }
    t
}

// How many triangles those cells have that neither the table of common cells nor the booking knows. The walks' arrays are smaller ones where no count
// needs more. About 178 KB of stack.
pub fn count_walked(tables: Tables) -> usize
    ensures { (result ≡ total (walked_in tables.entry) (drawn_in tables.entry) 0) × (result ≤ most_triangles) }
{
    if greatest(tables.counts) <= FEW_COUNT {
        let mut marks = [0u16; FEW_IN_CELL];
        let mut halves = [0u8; FEW_IN_CELL];
        let mut points = [0u32; FEW_IN_CELL];
        return walked_in_all(tables, &mut marks, &mut halves, &mut points);
    }
    let mut marks = [0u16; MOST_IN_CELL];
    let mut halves = [0u8; MOST_IN_CELL];
    let mut points = [0u32; MOST_IN_CELL];
    walked_in_all(tables, &mut marks, &mut halves, &mut points)
}

// Writes the words of the triangles of the cells from c up to `end` from index `at` of the area on, cell after cell, each cell's where they have room
// from where the last left off, and answers the next index.
fn put_in_all(
    tables: Tables,
    c: usize,
    end: usize,
    marks: &mut [u16],
    halves: &mut [u8],
    points: &mut [u32],
    area: &mut [u32],
    at: usize,
) -> usize
    requires { Spacious tables.counts.now tables.sides.now marks.old halves.old points.old }
    ensures value { (result ≡ next_after (cell_in tables.entry) c area.old at (end - c)) × (area.new ≡ area_after (cell_in tables.entry) c area.old at (end - c)) }
    ensures sized { Sized marks.old halves.old points.old marks.new halves.new points.new }
{
    let mut i = at;
    for k in c..end {
        let x = counted_at(tables, k);
        i = put_in(x.cell, x.crossings, marks, halves, points, area, i);
    }
    i
}

// The same, with arrays of its own, which suffice where no count is above `FEW_COUNT`. About 10 KB of stack.
fn put_few(tables: Tables, c: usize, end: usize, area: &mut [u32], at: usize) -> usize
    requires { Few tables.counts.now }
    ensures { (result ≡ next_after (cell_in tables.entry) c area.old at (end - c)) × (area.new ≡ area_after (cell_in tables.entry) c area.old at (end - c)) }
{
    let mut marks = [0u16; FEW_IN_CELL];
    let mut halves = [0u8; FEW_IN_CELL];
    let mut points = [0u32; FEW_IN_CELL];
    put_in_all(
        tables,
        c,
        end,
        &mut marks,
        &mut halves,
        &mut points,
        area,
        at,
    )
}

// Writes the words of the triangles of the cells from c up to `end` from index `at` of the area on, each cell's where they have room, and answers the next
// index; for any counts. About 178 KB of stack.
pub fn write_cells(tables: Tables, c: usize, end: usize, area: &mut [u32], at: usize) -> usize
    ensures { (result ≡ next_after (cell_in tables.entry) c area.old at (end - c)) × (area.new ≡ area_after (cell_in tables.entry) c area.old at (end - c)) }
{
    if greatest(tables.counts) <= FEW_COUNT {
        return put_few(tables, c, end, area, at);
    }
    let mut marks = [0u16; MOST_IN_CELL];
    let mut halves = [0u8; MOST_IN_CELL];
    let mut points = [0u32; MOST_IN_CELL];
    put_in_all(
        tables,
        c,
        end,
        &mut marks,
        &mut halves,
        &mut points,
        area,
        at,
    )
}
