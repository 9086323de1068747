// The walk along a loop, with marks. A walk passes its start, unless that is marked, and then crossings that no earlier walk has passed, which it
// marks: so for all loops of a cell together there are no more steps than crossings.
ghost use Rattle.std.specs.Prelude.{◌≡◌, not, ◌&&◌, ◌<◌, ◌≤◌, length};
ghost use Rattle.counting.specs.Stored.{filled};
ghost use Rattle.cell.specs.Cell.{crossings, holds};
ghost use Rattle.cell.specs.Of.{edges_of};
ghost use Rattle.cell.specs.work.Scratch.{unmarked};
ghost use Rattle.cell.specs.work.Route.{Routed};
ghost use Rattle.cell.specs.work.Walked.{Located, Starts, is_met, Lent, Walked};

use super::routes::ROUTES;
use super::{Cell, Dart, Trip, half_edges, routes, steps};

// The mark of a crossing that no walk has come to.
// Stays: a number and no Option, since a mark has 16 bits (fixed memory).
const UNMARKED: u16 = 65535;

// Whether crossing p is one of edge e.
fn is_on(c: Cell, routes: &[usize; ROUTES], e: usize, p: usize) -> bool
    requires routed { Routed c routes.now }
    requires e_bound { e < 6 }
    ensures { result ≡ holds (edges_of c) p e }
{
    let h = half_edges::first_of(e);
    let first = routes::route(routes, h, routes::FIRST);
    let n = routes::route(routes, h, routes::COUNT);
    p < first + n && first <= p
}

// The first dart of crossing p, which is one of edge e.
fn first_dart(c: Cell, routes: &[usize; ROUTES], e: usize, p: usize) -> Dart
    requires { Located c routes.now p e }
    ensures { Starts (edges_of c) p result }
{
    let h = half_edges::first_of(e);
    let first = routes::route(routes, h, routes::FIRST);
    Dart {
        half: h,
        index: p - first,
        number: p,
    }
}

// The first dart of crossing p.
fn start_at(c: Cell, routes: &[usize; ROUTES], p: usize) -> Dart
    requires routed { Routed c routes.now }
    requires p_bound { p < crossings (edges_of c) }
    ensures { Starts (edges_of c) p result }
{
    for e in 0..5 {
        if is_on(c, routes, e, p) {
            return first_dart(c, routes, e, p);
        }
    }
    first_dart(c, routes, 5, p)
}

// No loop.
const NO_LOOP: Trip = Trip {
    length: 0,
    normal: true,
};

// Clears the first n marks.
pub(crate) fn clear(marks: &mut [u16], n: usize)
    requires { n ≤ length marks.old }
    ensures { marks.new ≡ filled (λ i. unmarked) n marks.old }
{
    marks[0..n].fill(UNMARKED);
}

// Whether no segment so far goes along its edge, after one more.
fn still(normal: bool, along: bool) -> bool
    ensures { result ≡ (not along && normal) }
{
    !along && normal
}

// Whether a walk from p ends at crossing x without a loop: x is below p, or an earlier walk has been there.
fn met(marks: &[u16], p: usize, x: usize) -> bool
    requires { x < length marks.now }
    ensures { result ≡ is_met marks.now p x }
{
    x < p || (marks[x] as usize) < p
}

// Records the loop whose least crossing is p, and answers its length and whether it is normal; where there is no such loop, length 0. What the
// walk comes to is marked with p; it stops where an earlier walk has been. The cell has n crossings.
pub(crate) fn walk(
    c: Cell,
    routes: &[usize; ROUTES],
    n: usize,
    p: usize,
    marks: &mut [u16],
    halves: &mut [u8],
    points: &mut [u32],
) -> Trip
    requires { Lent c routes.now n p marks.old halves.old points.old }
    ensures { Walked c n p marks.old halves.old points.old result.length result.normal marks.new halves.new points.new }
{
    if met(marks, p, p) {
        return NO_LOOP;
    }
    let mut d = start_at(c, routes, p);
    let mut k: usize = 0;
    let mut normal = true;
    // Stays: a loop, since the next dart comes from the last and not from a range.
    loop {
        let h = d.half;
        halves[k] = h as u8;
        points[k] = (routes[9 * h + routes::START] + d.index) as u32;
        k += 1;
        let Some((e, along)) = steps::next(c, routes, d) else {
            return NO_LOOP;
        };
        normal = still(normal, along);
        let x = e.number;
        if x == p {
            return Trip { length: k, normal };
        }
        if met(marks, p, x) {
            return NO_LOOP;
        }
        marks[x] = p as u16;
        d = e;
    }
}
