// The points of split cells, for all cells of a grid's tables: how many there are by numbers, and their places.
ghost use Rattle.std.specs.Prelude.{◌≡◌, ◌+◌, ◌-◌, ◌*◌, ◌≤◌, ◌<◌, leb};
ghost use Rattle.place.specs.Place.{coordinates};
ghost use Rattle.cell.specs.claims.Nests.{nest_middle};
ghost use Rattle.cell.specs.work.Tables.{cell_in, drawn_in};
ghost use Rattle.cell.specs.claims.Middles.{middles_at};
ghost use Rattle.split.specs.Standing.{corners_of, inner_places, drawn_middles};
ghost use Rattle.split.specs.work.Working.{Drawable};
ghost use Rattle.split.specs.work.Spots.{AreSpots, points_stored, cells_stored};
ghost use Rattle.split.specs.work.Tables.{ExtraOf, inner_in_cell, middles_in_cell, splits_in_cell};

use super::drawing::split_from;
use super::placing::{centres_in, inner_in};
use super::{Extra, Numbering, PointSums, Spiral, SplitCell};
use cell::{Cell, Tables};
use place::Place;

// The points of a cell that is split, by numbers: a split with d1 and d2 has 2 (d1 + d2) inner crossings and 4 d1 + 10 d2 triangles, and adds d2 fans; at the
// end are as many fans as the number there, 8 triangles each.
fn spots_of(c: Cell, splits: u32) -> PointSums
    requires drawable { Drawable c splits }
    requires splits_nonzero { 0 < splits }
    ensures { AreSpots c result.inner result.more result.loops }
{
    let s = Spiral::of(c);
    let g = booking::figures_of(s.larger as u16, s.smaller as u16);
    let loops = g.end as u64;
    PointSums {
        inner: g.inner,
        more: (g.triangles - 8 * loops - 2 * g.inner) / 6,
        loops,
    }
}

// Those of cell c of the tables, none where it is not split.
fn spots_at(tables: Tables, c: usize) -> PointSums
    ensures { AreSpots (cell_in tables.entry c) result.inner result.more result.loops }
{
    let splits = booking::gain_of(cell::counts_at(tables.counts, tables.sides, c)).splits;
    if splits == 0 {
        return PointSums {
            inner: 0,
            more: 0,
            loops: 0,
        };
    }
    spots_of(cell::cell_at(tables, c), splits)
}

// What the splits of the cells come to.
pub fn extra_of(tables: Tables) -> Extra
    ensures { ExtraOf tables.entry result.inner result.fans }
{
    let n = cell::drawn(tables.cells);
    let mut inner: u64 = 0;
    let mut fans: u64 = 0;
    for c in 0..n {
        let p = spots_at(tables, c);
        inner += p.inner;
        fans += p.more;
    }
    Extra { inner, fans }
}

// Where the nodes of the cell are.
fn corners_of(c: Cell, nodes: &[f64]) -> [Place; 4]
    ensures { result ≡ corners_of nodes.now c }
{
    [
        place::load(nodes, c.nodes[0] as usize),
        place::load(nodes, c.nodes[1] as usize),
        place::load(nodes, c.nodes[2] as usize),
        place::load(nodes, c.nodes[3] as usize),
    ]
}

// Whether n points have room from point i on in an area of `room` numbers.
fn fits(room: usize, i: usize, n: u64) -> bool
    ensures { result ≡ leb (coordinates * i + coordinates * n) room }
{
    let all = room / 3;
    i <= all && n <= (all - i) as u64
}

// Writes the places of the inner crossings of the cell, in which so many splits are made, as points from i on, where they have room there, and answers
// the next point.
fn put_inner(c: Cell, splits: u32, nodes: &[f64], area: &mut [f64], i: usize) -> usize
    requires { Drawable c splits }
    ensures { (area.new, result) ≡ points_stored area.old i (inner_places nodes.now c) }
{
    if splits == 0 {
        return i;
    }
    if fits(area.len(), i, spots_of(c, splits).inner) {
        let at = corners_of(c, nodes);
        return inner_in(c, at, Numbering::of(c), splits, area, i);
    }
    i
}

// The same with the middles of its fans. Those of a cell that is not split are the cell's own.
fn put_middles(c: Cell, splits: u32, nodes: &[f64], area: &mut [f64], i: usize) -> usize
    requires { Drawable c splits }
    ensures { (area.new, result) ≡ points_stored area.old i (drawn_middles nodes.now c nest_middle (middles_at nodes.now c area.old i)) }
{
    if splits == 0 {
        return cell::write_fans(c, nodes, area, i);
    }
    let p = spots_of(c, splits);
    if fits(area.len(), i, p.more + p.loops) {
        let at = corners_of(c, nodes);
        return centres_in(c, at, Numbering::of(c), splits, area, i);
    }
    i
}

// The same for a cell of the tables that is split.
fn middles_at(tables: Tables, s: SplitCell, nodes: &[f64], area: &mut [f64], i: usize) -> usize
    requires { s.splits ≡ splits_in_cell tables s.index }
    ensures { (area.new, result) ≡ points_stored area.old i (middles_in_cell tables.entry nodes.now s.index area.old i) }
{
    let c = cell::cell_at(tables, s.index);
    put_middles(c, s.splits, nodes, area, i)
}

// Writes the places of the inner crossings of all cells, cell by cell, from point `at` of the area on, and answers the next point. Of a cell whose inner
// crossings have no room nothing is written.
pub fn write_inner(tables: Tables, nodes: &[f64], area: &mut [f64], at: usize) -> usize
    ensures { (area.new, result) ≡ cells_stored (inner_in_cell tables.entry nodes.now) area.old at (drawn_in tables.entry) }
{
    let n = cell::drawn(tables.cells);
    let mut i = at;
    for c in 0..n {
        let splits = booking::gain_of(cell::counts_at(tables.counts, tables.sides, c)).splits;
        let v = cell::cell_at(tables, c);
        i = put_inner(v, splits, nodes, area, i);
    }
    i
}

// Writes the middles of all fans that are drawn, by cell, then part, then loop, from point `at` of the area on, and answers the next point. Of a cell whose middles have no room, or that is not split and has
// a middle that goes by a point not before the next, nothing is written. About 178 KB of stack, and some 1,010 bytes for each split that is nested in
// another.
pub fn write_drawn_middles(tables: Tables, nodes: &[f64], area: &mut [f64], at: usize) -> usize
    ensures { (area.new, result) ≡ cells_stored (middles_in_cell tables.entry nodes.now) area.old at (drawn_in tables.entry) }
{
    let n = cell::drawn(tables.cells);
    let mut i = at;
    let mut c: usize = 0;
    while let Some(s) = split_from(tables, c, n) {
        i = direct::write_middles(tables, c, s.index, nodes, area, i);
        i = middles_at(tables, s, nodes, area, i);
        c = s.index + 1;
    }
    direct::write_middles(tables, c, n, nodes, area, i)
}
