// The fans among a cell's loops: counted, and their middles written among the points of an area.
ghost use Rattle.std.specs.Prelude.{◌≡◌, ◌&&◌, ◌+◌, ◌*◌, ◌/◌, ◌≤◌, leb, length};
ghost use Rattle.counting.specs.Lists.{one};
ghost use Rattle.counting.specs.work.Stored.{Stored};
ghost use Rattle.place.specs.Place.{coordinates, place_at, all_numbers};
ghost use Rattle.manifold.specs.Shape.{has_middle};
ghost use Rattle.cell.specs.work.Limits.{most_in_cell};
ghost use Rattle.cell.specs.Cell.{crossings};
ghost use Rattle.cell.specs.Of.{edges_of};
ghost use Rattle.cell.specs.work.Walked.{Room, Used};
ghost use Rattle.cell.specs.claims.Middles.{fan_count, cell_middles, numbered_below, is_placeable, points_then, next_point};
ghost use Rattle.cell.specs.work.Centres.{IsNest, recorded_place, recorded_middle, MiddlesRoom};

use super::nests::{nest_in, nested_middle};
use super::routes::{end_of, routes_of};
use super::walks::{clear, walk};
use super::{Cell, Nest};
use place::Place;

// 1 where a loop of n, normal or not, is drawn as a fan, else 0.
pub(crate) fn fan_of(n: usize, normal: bool) -> usize
    ensures { result ≡ one (has_middle n normal) }
{
    match n {
        0 | 3 => 0,
        4 if normal => 0,
        _ => 1,
    }
}

// The middle of a recorded loop of the cell, whose nest is q where it has one: in a nest by the nodes' places, else by the area's points.
pub(crate) fn middle_in(
    c: Cell,
    q: Option<Nest>,
    nodes: &[f64],
    halves: &[u8],
    points: &[u32],
    area: &[f64],
) -> Place
    requires { IsNest c q }
    ensures { result ≡ recorded_place c q nodes.now halves.now points.now area.now }
{
    match q {
        Some(nest) => nested_middle(c, nest, nodes, halves, points),
        None => place::middle_of(area, points),
    }
}

// Writes the middle of a recorded loop as point `at` of the area, where the loop is drawn as a fan, and answers the next point.
fn put_middle(
    c: Cell,
    q: Option<Nest>,
    nodes: &[f64],
    halves: &[u8],
    points: &[u32],
    normal: bool,
    area: &mut [f64],
    at: usize,
) -> usize
    requires nest { IsNest c q }
    requires room { coordinates * (at + one (has_middle (length points.now) normal)) ≤ length area.old }
    ensures { Stored area.old (coordinates * at) (all_numbers (recorded_middle c q nodes.now halves.now points.now normal area.old)) area.new (coordinates * result) }
{
    if fan_of(points.len(), normal) == 0 {
        return at;
    }
    let p = middle_in(c, q, nodes, halves, points, area);
    place::store(area, at, p);
    at + 1
}

// How many fans the cell has, which has n crossings.
fn count(c: Cell, n: usize, marks: &mut [u16], halves: &mut [u8], points: &mut [u32]) -> usize
    requires { Room c n marks.old halves.old points.old }
    ensures value { (result ≡ fan_count c) × (result ≤ most_in_cell) }
    ensures used { Used n marks.old halves.old points.old marks.new halves.new points.new }
{
    let routes = routes_of(c);
    clear(marks, n);
    let mut t: usize = 0;
    for p in 0..n {
        let w = walk(c, &routes, n, p, marks, halves, points);
        t += fan_of(w.length, w.normal);
    }
    t
}

// Writes the middles, which have room from point `at` on, and answers the next point.
fn write_all(
    c: Cell,
    n: usize,
    marks: &mut [u16],
    halves: &mut [u8],
    points: &mut [u32],
    nodes: &[f64],
    area: &mut [f64],
    at: usize,
) -> usize
    requires room { Room c n marks.old halves.old points.old }
    requires middles_room { MiddlesRoom c area.old at }
    ensures stored { Stored area.old (coordinates * at) (all_numbers (cell_middles nodes.now (place_at area.old) c)) area.new (coordinates * result) }
    ensures used { Used n marks.old halves.old points.old marks.new halves.new points.new }
{
    let routes = routes_of(c);
    let q = nest_in(c, n);
    clear(marks, n);
    let mut i = at;
    for p in 0..n {
        let w = walk(c, &routes, n, p, marks, halves, points);
        let m = w.length;
        i = put_middle(c, q, nodes, &halves[0..m], &points[0..m], w.normal, area, i);
    }
    i
}

// How many fans the cell has, and at once for a cell without crossings. What the arrays hold before does not matter, here and below.
pub(crate) fn fans_in(
    c: Cell,
    n: usize,
    marks: &mut [u16],
    halves: &mut [u8],
    points: &mut [u32],
) -> usize
    requires { Room c n marks.old halves.old points.old }
    ensures value { (result ≡ fan_count c) × (result ≤ most_in_cell) }
    ensures used { Used n marks.old halves.old points.old marks.new halves.new points.new }
{
    if n == 0 {
        return 0;
    }
    count(c, n, marks, halves, points)
}

// Whether the cell's crossings have numbers below n, by the highest. With a way out at each edge the walks are not compiled in place (SPEED.md).
fn is_below(c: Cell, n: usize) -> bool
    ensures { result ≡ numbered_below c n }
{
    let mut last: usize = 0;
    for e in 0..6 {
        last = last.max(end_of(c, e));
    }
    last <= n
}

// Whether the places of the cell's crossings stand before point `at`, or its fans are those of a nest, whose middles go by the nodes' places.
fn is_placeable(c: Cell, n: usize, at: usize) -> bool
    requires { n ≡ crossings (edges_of c) }
    ensures { result ≡ is_placeable c at }
{
    is_below(c, at) || nest_in(c, n).is_some()
}

// Whether the cell's middles can be written from point `at` on, and have room there in an area of `room` numbers. A cell has no more fans than
// crossings, so that they are counted only where there is not room for so many.
pub(crate) fn has_room(
    c: Cell,
    n: usize,
    marks: &mut [u16],
    halves: &mut [u8],
    points: &mut [u32],
    room: usize,
    at: usize,
) -> bool
    requires { Room c n marks.old halves.old points.old }
    ensures value { result ≡ (is_placeable c at && leb (at + fan_count c) (room / coordinates)) }
    ensures used { Used n marks.old halves.old points.old marks.new halves.new points.new }
{
    let all = room / 3;
    if all < at {
        return false;
    }
    if !is_placeable(c, n, at) {
        return false;
    }
    if n <= all - at {
        return true;
    }
    let t = count(c, n, marks, halves, points);
    t <= all - at
}

// Writes the middles of the cell's fans from point `at` of the area on and answers the next point. Where they have no room there, or the place of a
// crossing of the cell that they go by does not stand before that point, it writes nothing and answers `at`.
pub(crate) fn middles_in(
    c: Cell,
    n: usize,
    marks: &mut [u16],
    halves: &mut [u8],
    points: &mut [u32],
    nodes: &[f64],
    area: &mut [f64],
    at: usize,
) -> usize
    requires { Room c n marks.old halves.old points.old }
    ensures value { (result ≡ next_point nodes.now c area.old at) × (area.new ≡ points_then nodes.now c area.old at) }
    ensures used { Used n marks.old halves.old points.old marks.new halves.new points.new }
{
    if n == 0 {
        return at;
    }
    if has_room(c, n, marks, halves, points, area.len(), at) {
        return write_all(c, n, marks, halves, points, nodes, area, at);
    }
    at
}
