// The fans of all cells, counted, and their middles written.
ghost use Rattle.std.specs.Prelude.{◌≡◌, ◌-◌, ◌≤◌};
ghost use Rattle.cell.specs.work.Table.{most_triangles};
ghost use Rattle.cell.specs.work.Tables.{fans_all, middles_put};
ghost use Rattle.cell.specs.work.Walked.{Few, Spacious, Sized};

use super::drawing::drawn;
use super::entries::{counted_at, greatest};
use super::middles::{fans_in, middles_in};
use super::{FEW_COUNT, FEW_IN_CELL, MOST_IN_CELL, Tables};

// How many fans the cells of the tables have. The arrays are the walks', here and below.
fn fans_in_all(tables: Tables, marks: &mut [u16], halves: &mut [u8], points: &mut [u32]) -> usize
    requires { Spacious tables.counts.now tables.sides.now marks.old halves.old points.old }
    ensures value { (result ≡ fans_all tables.entry) × (result ≤ most_triangles) }
    ensures sized { Sized marks.old halves.old points.old marks.new halves.new points.new }
{
    let n = drawn(tables.cells);
    let mut t: usize = 0;
    for c in 0..n {
        let x = counted_at(tables, c);
        t += fans_in(x.cell, x.crossings, marks, halves, points);
    }
    t
}

// How many fans all cells have. The walks' arrays are smaller ones where no count needs more. About 178 KB of stack.
pub fn count_fans(tables: Tables) -> usize
    ensures { (result ≡ fans_all tables.entry) × (result ≤ most_triangles) }
{
    if greatest(tables.counts) <= FEW_COUNT {
        let mut marks = [0u16; FEW_IN_CELL];
        let mut halves = [0u8; FEW_IN_CELL];
        let mut points = [0u32; FEW_IN_CELL];
        return fans_in_all(tables, &mut marks, &mut halves, &mut points);
    }
    let mut marks = [0u16; MOST_IN_CELL];
    let mut halves = [0u8; MOST_IN_CELL];
    let mut points = [0u32; MOST_IN_CELL];
    fans_in_all(tables, &mut marks, &mut halves, &mut points)
}

// Writes the middles of the fans of the cells from c up to `end`, cell by cell, from point `at` of the area on, and answers the next point. `nodes` has the
// nodes' places. Of a cell whose middles have no room, or one of whose crossings has no place before the next point, nothing is written.
fn middles_in_all(
    tables: Tables,
    c: usize,
    end: usize,
    marks: &mut [u16],
    halves: &mut [u8],
    points: &mut [u32],
    nodes: &[f64],
    area: &mut [f64],
    at: usize,
) -> usize
    requires { Spacious tables.counts.now tables.sides.now marks.old halves.old points.old }
    ensures result_after { (area.new, result) ≡ middles_put tables.entry nodes.now c area.old at (end - c) }
    ensures sized { Sized marks.old halves.old points.old marks.new halves.new points.new }
{
    let mut i = at;
    for k in c..end {
        let x = counted_at(tables, k);
        i = middles_in(x.cell, x.crossings, marks, halves, points, nodes, area, i);
    }
    i
}

// The same, with arrays of its own, which suffice where no count is above `FEW_COUNT`. About 10 KB of stack.
fn few_middles(
    tables: Tables,
    c: usize,
    end: usize,
    nodes: &[f64],
    area: &mut [f64],
    at: usize,
) -> usize
    requires { Few tables.counts.now }
    ensures { (area.new, result) ≡ middles_put tables.entry nodes.now c area.old at (end - c) }
{
    let mut marks = [0u16; FEW_IN_CELL];
    let mut halves = [0u8; FEW_IN_CELL];
    let mut points = [0u32; FEW_IN_CELL];
    middles_in_all(
        tables,
        c,
        end,
        &mut marks,
        &mut halves,
        &mut points,
        nodes,
        area,
        at,
    )
}

// Writes the middles of the fans of the cells from c up to `end` from point `at` of the area on, each cell's where they have room and all its crossings a
// place, and answers the next point; for any counts. About 178 KB of stack.
pub fn write_middles(
    tables: Tables,
    c: usize,
    end: usize,
    nodes: &[f64],
    area: &mut [f64],
    at: usize,
) -> usize
    ensures { (area.new, result) ≡ middles_put tables.entry nodes.now c area.old at (end - c) }
{
    if greatest(tables.counts) <= FEW_COUNT {
        return few_middles(tables, c, end, nodes, area, at);
    }
    let mut marks = [0u16; MOST_IN_CELL];
    let mut halves = [0u8; MOST_IN_CELL];
    let mut points = [0u32; MOST_IN_CELL];
    middles_in_all(
        tables,
        c,
        end,
        &mut marks,
        &mut halves,
        &mut points,
        nodes,
        area,
        at,
    )
}
