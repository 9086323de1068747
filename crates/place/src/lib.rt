// A point of space: three 64-bit floats, by value and in a list.
#![tactic(auto)]

ghost use Rattle.std.specs.Prelude.{◌≡◌, ◌+◌, ◌*◌, ◌<◌, length, slice_index, slice_index_or};
ghost use Rattle.std.specs.Float.{nan};
ghost use Rattle.counting.specs.Stored.{stored_in};
ghost use Rattle.place.specs.Place.{within, between, added, divided, middle, coordinates, place_at, numbers, part_of};

#[derive(Clone, Copy, Debug, PartialEq)]
pub struct Place {
    pub x: f64,
    pub y: f64,
    pub z: f64,
}

// Whether a number is within a million, the ends allowed.
#[tactic(auto, unfolding(crate::specs::Place::within))]
pub fn is_within(x: f64) -> bool
    ensures { result ≡ within x }
{
    -1000000.0 <= x && x <= 1000000.0
}

// The point with fraction s from u to v.
pub fn interpolate(u: Place, v: Place, s: f64) -> Place
    ensures { result ≡ between u v s }
{
    Place {
        x: u.x + s * (v.x - u.x),
        y: u.y + s * (v.y - u.y),
        z: u.z + s * (v.z - u.z),
    }
}

pub fn plus(p: Place, q: Place) -> Place
    ensures { result ≡ added p q }
{
    Place {
        x: p.x + q.x,
        y: p.y + q.y,
        z: p.z + q.z,
    }
}

pub fn over(p: Place, n: f64) -> Place
    ensures { result ≡ divided p n }
{
    Place {
        x: p.x / n,
        y: p.y / n,
        z: p.z / n,
    }
}

// (i + 1) / (m + 1), rounded once.
pub fn part_of(i: u32, m: u32) -> f64
    ensures { result ≡ part_of i m }
{
    std::num::nearest_u64_to_f64(i as u64 + 1) / std::num::nearest_u64_to_f64(m as u64 + 1)
}

// Number t of point k of a list: a NaN past the list's end.
fn number(list: &[f64], k: usize, t: usize) -> f64
    requires { t < coordinates }
    ensures { result ≡ slice_index_or list.now (coordinates * k + t) nan }
{
    if list.len() / 3 < k {
        return f64::NAN;
    }
    list.get(3 * k + t).copied().unwrap_or(f64::NAN)
}

// Point k of a list. What the list does not reach to is read as NaN.
pub fn load(list: &[f64], k: usize) -> Place
    ensures { result ≡ place_at list.now k }
{
    if list.len() / 3 <= k {
        return Place {
            x: number(list, k, 0),
            y: number(list, k, 1),
            z: number(list, k, 2),
        };
    }
    let at = 3 * k;
    let x = list[at];
    let y = list[at + 1];
    let z = list[at + 2];
    Place { x, y, z }
}

// Writes p as point k of the area, where that has room for it.
pub fn store(area: &mut [f64], k: usize, p: Place)
    ensures { area.new ≡ stored_in area.old (coordinates * k) (numbers p) }
{
    if area.len() / 3 <= k {
        return;
    }
    let at = 3 * k;
    area[at] = p.x;
    area[at + 1] = p.y;
    area[at + 2] = p.z;
}

// The middle of the points of a list whose numbers are given; of none as the definition has it.
pub fn middle_of(list: &[f64], points: &[u32]) -> Place
    ensures { result ≡ middle (λ k. place_at list.now (slice_index points.now k)) (length points.now) }
{
    let n = points.len();
    if n == 0 {
        return over(load(list, 0), 0.0);
    }
    let mut p = load(list, points[0] as usize);
    for i in 1..n {
        p = plus(p, load(list, points[i] as usize));
    }
    over(p, std::num::nearest_u64_to_f64(n as u64))
}
