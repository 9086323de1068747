// The middles of the fans of one cell by value, written among the points of an area: those of the sub-cells of a split are written so. The loop is that of
// `middles`, whose functions have one caller each, for the compiler to make one of them (SPEED.md).
// Stays: beside these, since with a second caller they were compiled apart, up to a quarter slower (DECISIONS 8.18).
ghost use Rattle.std.specs.Prelude.{◌≡◌, ◌*◌};
ghost use Rattle.counting.specs.work.Stored.{Stored};
ghost use Rattle.place.specs.Place.{coordinates, place_at, all_numbers};
ghost use Rattle.cell.specs.work.Route.{limited};
ghost use Rattle.cell.specs.work.Walked.{Room, Used};
ghost use Rattle.cell.specs.claims.Middles.{cell_middles, points_then, next_point};
ghost use Rattle.cell.specs.work.Centres.{MiddlesRoom};

use super::middles::{fan_of, has_room, middle_in};
use super::nests::nest_in;
use super::parts::SOME_IN_CELL;
use super::routes::{crossings_of, routes_of, within};
use super::walks::{clear, walk};
use super::{Cell, FEW_IN_CELL, MOST_IN_CELL};

// Writes the middles, which have room from point `at` on, and answers the next point.
fn write_each(
    c: Cell,
    n: usize,
    marks: &mut [u16],
    halves: &mut [u8],
    points: &mut [u32],
    nodes: &[f64],
    area: &mut [f64],
    at: usize,
) -> usize
    requires room { Room c n marks.old halves.old points.old }
    requires middles_room { MiddlesRoom c area.old at }
    ensures stored { Stored area.old (coordinates * at) (all_numbers (cell_middles nodes.now (place_at area.old) c)) area.new (coordinates * result) }
    ensures used { Used n marks.old halves.old points.old marks.new halves.new points.new }
{
    let routes = routes_of(c);
    let q = nest_in(c, n);
    clear(marks, n);
    let mut i = at;
    for p in 0..n {
        let w = walk(c, &routes, n, p, marks, halves, points);
        let m = w.length;
        if fan_of(m, w.normal) == 0 {
            continue;
        }
        let v = middle_in(c, q, nodes, &halves[0..m], &points[0..m], area);
        place::store(area, i, v);
        i += 1;
    }
    i
}

// The same where they have room, and the places of crossings that they go by stand before that point; else it writes nothing and answers `at`.
fn put_each(
    c: Cell,
    n: usize,
    marks: &mut [u16],
    halves: &mut [u8],
    points: &mut [u32],
    nodes: &[f64],
    area: &mut [f64],
    at: usize,
) -> usize
    requires { Room c n marks.old halves.old points.old }
    ensures value { (result ≡ next_point nodes.now c area.old at) × (area.new ≡ points_then nodes.now c area.old at) }
    ensures used { Used n marks.old halves.old points.old marks.new halves.new points.new }
{
    if has_room(c, n, marks, halves, points, area.len(), at) {
        return write_each(c, n, marks, halves, points, nodes, area, at);
    }
    at
}

// Writes the middles of a cell's fans from point `at` of the area on where they have room, and the places of crossings that they go by stand before that
// point, and answers the next point; else it writes nothing and answers `at`. The walks' arrays are the smallest of three sizes. About 178 KB of stack.
pub fn write_fans(c: Cell, nodes: &[f64], area: &mut [f64], at: usize) -> usize
    ensures { (result ≡ next_point nodes.now (limited c) area.old at) × (area.new ≡ points_then nodes.now (limited c) area.old at) }
{
    let v = within(c);
    let n = crossings_of(v);
    if n <= SOME_IN_CELL {
        let mut marks = [0u16; SOME_IN_CELL];
        let mut halves = [0u8; SOME_IN_CELL];
        let mut points = [0u32; SOME_IN_CELL];
        return put_each(v, n, &mut marks, &mut halves, &mut points, nodes, area, at);
    }
    if n <= FEW_IN_CELL {
        let mut marks = [0u16; FEW_IN_CELL];
        let mut halves = [0u8; FEW_IN_CELL];
        let mut points = [0u32; FEW_IN_CELL];
        return put_each(v, n, &mut marks, &mut halves, &mut points, nodes, area, at);
    }
    let mut marks = [0u16; MOST_IN_CELL];
    let mut halves = [0u8; MOST_IN_CELL];
    let mut points = [0u32; MOST_IN_CELL];
    put_each(v, n, &mut marks, &mut halves, &mut points, nodes, area, at)
}
