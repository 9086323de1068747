// The nest of a cell, by its counts, and the middles of its loops.
ghost use Rattle.std.specs.Prelude.{◌≡◌, ◌+◌, ◌-◌, ◌/◌, ◌≤◌, ◌<◌, max, eqb, get_or, MatchOption};
ghost use Rattle.counting.specs.Pick.{pick};
ghost use Rattle.counting.specs.Lists.{values};
ghost use Rattle.cell.specs.work.Limits.{most_sum};
ghost use Rattle.cell.specs.Cell.{crossings};
ghost use Rattle.cell.specs.Of.{count_of, edges_of};
ghost use Rattle.cell.specs.Level.{by_edge};
ghost use Rattle.cell.specs.claims.Nests.{exceeds, exceeding, pair_at};
ghost use Rattle.cell.specs.Middles.{half_sum, corner_place};
ghost use Rattle.cell.specs.work.Centres.{highest_on, NestOn, NestOf, IsNest, recorded_nested};

use super::answers::edge_at;
use super::level::is_level;
use super::numbers::sum_of;
use super::routes::{count_of, start_of};
use super::{Cell, Nest};
use place::Place;
use slots::{high_end, low_end};

// The counts of the cell's edges, none above the limit.
pub fn taken_of(c: Cell) -> [u16; 6]
    ensures { result ≡ values (count_of c) 6 }
{
    let mut six = [0u16; 6];
    for k in 0..6 {
        six[k] = count_of(c, k);
    }
    six
}

// The sum of the counts of edge k and of its opposite.
fn pair_of(six: [u16; 6], k: usize) -> usize
    requires { k < 6 }
    ensures { (result ≡ pair_at (by_edge six) k) × (result ≤ most_sum) }
{
    let a = six[k];
    let b = six[5 - k];
    sum_of(a, b) as usize
}

// Whether x is above y and z, which are the same, by more than 2.
fn is_above(x: usize, y: usize, z: usize) -> bool
    requires { y ≤ most_sum }
    ensures { result ≡ exceeds x y z }
{
    y == z && y + 2 < x
}

// Which of the three is so, where one is.
fn above_of(x: usize, y: usize, z: usize) -> Option<usize>
    requires { (x ≤ most_sum) × (y ≤ most_sum) × (z ≤ most_sum) }
    ensures { MatchOption result (exceeding x y z ≡ 3) (λ e. (e ≡ exceeding x y z) × (e < 3)) }
{
    if is_above(x, y, z) {
        return Some(0);
    }
    if is_above(y, z, x) {
        return Some(1);
    }
    if is_above(z, x, y) {
        return Some(2);
    }
    None
}

// How many loops the nest on edge e has: half of what its pair has above another.
fn count_on(six: [u16; 6], e: usize) -> usize
    requires { e < 3 }
    ensures { (result ≡ (pair_at (by_edge six) e - pair_at (by_edge six) (pick (eqb e 0) 1 0)) / 2) × (result ≤ most_sum) }
{
    let most = pair_of(six, e);
    if e == 0 {
        return most.saturating_sub(pair_of(six, 1)) / 2;
    }
    most.saturating_sub(pair_of(six, 0)) / 2
}

// The corner triangles at the lowest node, where the pair of edge e has the largest sum.
fn corner_on(six: [u16; 6], e: usize) -> usize
    requires { e < 3 }
    ensures { (result ≡ (by_edge six 0 + by_edge six 1 + by_edge six 2 - pair_at (by_edge six) e) / 2) × (result ≤ most_sum + most_sum) }
{
    let x = six[0];
    let y = six[1];
    let z = six[2];
    (x as usize + y as usize + z as usize).saturating_sub(pair_of(six, e)) / 2
}

// The nest on edge e, whose pair exceeds the others, of a cell in which only rule 1 is met.
fn nest_on(c: Cell, six: [u16; 6], e: usize) -> Nest
    requires { NestOn c six e }
    ensures { NestOf c result }
{
    let m = count_on(six, e);
    let own = corner_on(six, e);
    let start = start_of(c, e) as usize;
    Nest {
        edge: e,
        count: m as u32,
        low: start + own + m,
    }
}

// The nest of the cell, where it has one. The sums are looked at first: they alone rule out most cells.
fn nest_of(c: Cell) -> Option<Nest>
    ensures { IsNest c result }
{
    let six = taken_of(c);
    let e = above_of(pair_of(six, 0), pair_of(six, 1), pair_of(six, 2))?;
    if is_level(six) {
        return Some(nest_on(c, six, e));
    }
    None
}

// The same of a cell with n crossings. A nest has 16 or more, so that a cell with fewer is not looked at.
pub(crate) fn nest_in(c: Cell, n: usize) -> Option<Nest>
    requires { n ≡ crossings (edges_of c) }
    ensures { IsNest c result }
{
    if n < 16 { None } else { nest_of(c) }
}

// The place of the cell's node at position k.
fn corner_place(c: Cell, nodes: &[f64], k: usize) -> Place
    requires { k < 4 }
    ensures { result ≡ corner_place nodes.now c k }
{
    let v = c.nodes[k];
    place::load(nodes, v as usize)
}

// The point half way along edge k.
fn half_along(c: Cell, nodes: &[f64], k: usize) -> Place
    requires { k < 6 }
    ensures { result ≡ half_sum (corner_place nodes.now c) k }
{
    let p = corner_place(c, nodes, low_end(k));
    let q = corner_place(c, nodes, high_end(k));
    place::over(place::plus(p, q), 2.0)
}

// Point k of a recorded loop, 0 past its end.
fn point_at(points: &[u32], k: usize) -> usize
    ensures { (result ≡ get_or points.now k 0) × (result < 4294967296) }
{
    if k < points.len() {
        points[k] as usize
    } else {
        0
    }
}

// The greater of m and g, where edge k is e; else m.
fn risen(m: usize, k: usize, e: usize, g: usize) -> usize
    ensures { result ≡ max m (pick (eqb k e) g 0) }
{
    if k == e { m.max(g) } else { m }
}

// The greatest number of a recorded loop on edge e.
fn highest_on(halves: &[u8], points: &[u32], e: usize) -> usize
    ensures { (result ≡ highest_on halves.now points.now e) × (result < 4294967296) }
{
    let mut most: usize = 0;
    for k in 0..halves.len() {
        most = risen(most, edge_at(halves, k), e, point_at(points, k));
    }
    most
}

// The middle of a recorded loop of the nest q.
pub(crate) fn nested_middle(c: Cell, q: Nest, nodes: &[f64], halves: &[u8], points: &[u32]) -> Place
    requires { q.edge < 3 }
    ensures { result ≡ recorded_nested c q nodes.now halves.now points.now }
{
    let e = q.edge;
    let i = highest_on(halves, points, e).saturating_sub(q.low);
    let a = half_along(c, nodes, e);
    let b = half_along(c, nodes, 5 - e);
    place::interpolate(a, b, place::part_of(i as u32, q.count))
}
