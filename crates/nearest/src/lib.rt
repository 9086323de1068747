// The nearest call: the point of a list that is nearest to a place.
#![tactic(auto)]

ghost use Rattle.std.specs.Prelude.{◌≡◌, position, not};
ghost use Rattle.place.specs.Place.{within};
ghost use Rattle.nearest.specs.Distance.{squared_distance};
ghost use Rattle.nearest.specs.work.Distance.{FindsNearer};
ghost use Rattle.nearest.specs.Answer.{measured_numbers, nearest_number, nearest_answer};

use answer::{Refusal, Row};
use place::Place;

// No point, or the number of the nearest one and its squared distance.
#[derive(Clone, Copy, Debug, PartialEq)]
pub enum Nearest {
    NoPoint,
    At(usize, f64),
}

// The squared distance of p from q.
fn squared_distance(p: Place, q: Place) -> f64
    ensures { result ≡ squared_distance p q }
{
    let dx = p.x - q.x;
    let dy = p.y - q.y;
    let dz = p.z - q.z;
    (dx * dx + dy * dy) + dz * dz
}

// The lowest index of a number that is not within the limit.
fn first_beyond(numbers: &[f64]) -> Option<usize>
    ensures { result ≡ position (λ x. not (within x)) numbers.now }
{
    numbers.iter().position(|x| !place::is_within(*x))
}

// The lowest point from `from` on whose squared distance is below `least`.
fn nearer_from(points: &[f64], query: Place, least: f64, from: usize) -> Option<usize>
    ensures { FindsNearer points.now query least from result }
{
    for k in from..points.len() / 3 {
        let d = squared_distance(place::load(points, k), query);
        if d < least {
            return Some(k);
        }
    }
    None
}

// The number of the nearest point of a list; 0 for a list without a point. Each search keeps the least distance that it compares with as it is: in one
// loop that changes it, each turn would wait for the one before.
fn nearest_of(points: &[f64], query: Place) -> usize
    ensures { result ≡ nearest_number points.now query }
{
    let mut best = 0;
    let mut least = squared_distance(place::load(points, 0), query);
    while let Some(k) = nearer_from(points, query, least, best + 1) {
        best = k;
        least = squared_distance(place::load(points, k), query);
    }
    best
}

// The nearest call: no point for an empty list. The query's numbers have the places after the list's.
pub fn nearest_point(points: &[f64], query: Place) -> Result<Nearest, Refusal>
    ensures { measured_numbers result ≡ nearest_answer points.now query }
{
    let n = points.len();
    if n % 3 != 0 {
        return Err(Row::Points.at(0));
    }
    if let Some(i) = first_beyond(points) {
        return Err(Row::Points.at(i));
    }
    if let Some(t) = first_beyond(&[query.x, query.y, query.z]) {
        return Err(Row::Points.at(n + t));
    }
    if n == 0 {
        return Ok(Nearest::NoPoint);
    }
    let k = nearest_of(points, query);
    let d = squared_distance(place::load(points, k), query);
    Ok(Nearest::At(k, d))
}
