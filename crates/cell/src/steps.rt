// The step from dart to dart, by the routes of a cell.
ghost use Rattle.std.specs.Prelude.{true, false};
ghost use Rattle.cell.specs.Of.{edges_of};
ghost use Rattle.cell.specs.work.Route.{Routed};
ghost use Rattle.cell.specs.work.Dart.{IsDartAt, Spot, Ready, AtLow, AtHigh, Turns, Beside, Leads, Onward};

use super::routes::ROUTES;
use super::{Cell, Dart, routes};
use face::{Stand, stand_of};

// The dart at index u that leaves by half-edge g.
fn onto(c: Cell, routes: &[usize; ROUTES], g: usize, u: usize) -> Dart
    requires routed { Routed c routes.now }
    requires spot { Spot (edges_of c) g u }
    ensures { IsDartAt (edges_of c) g u result }
{
    let first = routes::route(routes, g, routes::FIRST);
    Dart {
        half: g,
        index: u,
        number: first + u,
    }
}

// Round an end of the dart's edge, of which the dart is the k-th crossing: to the k-th from there on the edge of half-edge g, which has the
// end as its upper one if `over`.
fn round(c: Cell, routes: &[usize; ROUTES], d: Dart, g: usize, k: usize, over: bool) -> Dart
    requires routed { Routed c routes.now }
    requires turns { Turns (edges_of c) d g k over }
    ensures { Leads (edges_of c) d result false }
{
    if over {
        let n = routes::route(routes, g, routes::COUNT);
        return onto(c, routes, g, n - 1 - k);
    }
    onto(c, routes, g, k)
}

// Along the dart's edge: to index u.
fn beside(c: Cell, routes: &[usize; ROUTES], d: Dart, u: usize) -> Dart
    requires ready { Ready c routes.now d }
    requires beside { Beside (edges_of c) d u }
    ensures { Leads (edges_of c) d result true }
{
    let g = routes::route(routes, d.half, routes::TWIN);
    onto(c, routes, g, u)
}

// Round the lower end of the dart's edge, and round the upper one, of which it is the k-th crossing.
fn below(c: Cell, routes: &[usize; ROUTES], d: Dart) -> Dart
    requires ready { Ready c routes.now d }
    requires at_low { AtLow (edges_of c) d }
    ensures { Leads (edges_of c) d result false }
{
    let g = routes::route(routes, d.half, routes::ROUND_LOW);
    let rank = routes::route(routes, d.half, routes::RANK);
    round(c, routes, d, g, d.index, rank == 2)
}

fn above(c: Cell, routes: &[usize; ROUTES], d: Dart, k: usize) -> Dart
    requires ready { Ready c routes.now d }
    requires at_high { AtHigh (edges_of c) d k }
    ensures { Leads (edges_of c) d result false }
{
    let g = routes::route(routes, d.half, routes::ROUND_HIGH);
    let rank = routes::route(routes, d.half, routes::RANK);
    round(c, routes, d, g, k, 0 < rank)
}

// What follows a dart, as the face call decides it: another, and whether the segment to it goes along the dart's edge; none at the end of its curve.
pub(crate) fn next(c: Cell, routes: &[usize; ROUTES], d: Dart) -> Option<(Dart, bool)>
    requires { Ready c routes.now d }
    ensures { Onward (edges_of c) d result }
{
    let h = d.half;
    let t = d.index;
    let low = routes::route(routes, h, routes::LOW);
    let n = routes::route(routes, h, routes::COUNT);
    let high = routes::route(routes, h, routes::HIGH);
    match stand_of(low, n - high, t) {
        Stand::Low => Some((below(c, routes, d), false)),
        Stand::High => Some((above(c, routes, d, n - 1 - t), false)),
        Stand::Up => Some((beside(c, routes, d, t + 1), true)),
        Stand::Down => Some((beside(c, routes, d, t - 1), true)),
        Stand::Alone => None,
    }
}
