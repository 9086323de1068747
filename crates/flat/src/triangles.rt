// Rows 1, 3, 4 and 5: the triangles.
ghost use Rattle.std.specs.Prelude.{◌≡◌, ℕ, ◌+◌, ◌*◌, ◌<◌, ◌≤◌, eqb, not, length, get_or, position};
ghost use Rattle.std.proofs.lemmas.List.Edits.{sets};
ghost use Rattle.counting.specs.Lists.{values};
ghost use Rattle.counting.specs.work.Search.{found};
ghost use Rattle.counting.specs.Stored.{filled};
ghost use Rattle.flat.specs.FlatGrid.{most_flat_triangles, triangles_in, node};
ghost use Rattle.flat.specs.Rows.{bad_length, bad_triangle, repeats, crowded};
ghost use Rattle.flat.specs.work.Work.{triangle_key, side_key, RisingTriangles, twice};

use crate::{MOST_FLAT_TRIANGLES, MOST_SIDES};
use grid::HIGHEST_NODE;

#[tactic(auto, unfolding(crate::specs::Rows::bad_length))]
pub(crate) fn row_1(triangles: &[u16]) -> bool
    ensures { result ≡ bad_length triangles.now }
{
    let n = triangles.len();
    n % 3 != 0 || n == 0 || MOST_FLAT_TRIANGLES < n / 3
}

// Node i of triangle f.
pub(crate) fn node_at(triangles: &[u16], f: usize, i: usize) -> usize
    requires f_bound { f < triangles_in triangles.now }
    requires i_bound { i < 3 }
    ensures value { result ≡ node triangles.now f i }
    ensures upper_bound { result < 65536 }
{
    triangles[3 * f + i] as usize
}

#[tactic(auto, unfolding(crate::specs::Rows::bad_triangle, counting::specs::Search::some))]
fn bad_triangle(triangles: &[u16], f: usize) -> bool
    requires { f < triangles_in triangles.now }
    ensures { result ≡ bad_triangle triangles.now f }
{
    let a = node_at(triangles, f, 0);
    let b = node_at(triangles, f, 1);
    let c = node_at(triangles, f, 2);
    b <= a || c <= b || HIGHEST_NODE < c
}

// The lowest triangle with a node over 4,095 or nodes that do not increase.
pub(crate) fn row_3(triangles: &[u16]) -> Option<usize>
    ensures value { result ≡ found (bad_triangle triangles.now) (triangles_in triangles.now) }
    ensures small { (i : ℕ) → get_or triangles.now i 0 < 65536 }
{
    for f in 0..triangles.len() / 3 {
        if bad_triangle(triangles, f) {
            return Some(f);
        }
    }
    None
}

fn triangle_key(triangles: &[u16], f: usize) -> usize
    requires { f < triangles_in triangles.now }
    ensures { result ≡ triangle_key triangles.now f }
{
    let a = node_at(triangles, f, 0);
    let b = node_at(triangles, f, 1);
    let c = node_at(triangles, f, 2);
    (a * 65536 + b) * 65536 + c
}

fn triangle_keys(triangles: &[u16], keys: &mut [usize])
    requires { triangles_in triangles.now ≤ length keys.old }
    ensures { keys.new ≡ filled (triangle_key triangles.now) (triangles_in triangles.now) keys.old }
{
    for f in 0..triangles.len() / 3 {
        keys[f] = triangle_key(triangles, f);
    }
}

// The lowest place with an entry.
fn first_entry(prev: &[u16]) -> Option<usize>
    ensures { result ≡ position (λ p. not (eqb p 0)) prev.now }
{
    prev.iter().position(|p| *p != 0)
}

// The lowest triangle that equals an earlier one. Keeps 20 KB on the stack, and `earlier_places` 64.
pub(crate) fn row_4(triangles: &[u16]) -> Option<usize>
    requires { triangles_in triangles.now ≤ most_flat_triangles }
    ensures { result ≡ found (repeats triangles.now) (triangles_in triangles.now) }
{
    let mut keys = [0usize; MOST_FLAT_TRIANGLES];
    let mut prev = [0u16; MOST_FLAT_TRIANGLES];
    triangle_keys(triangles, &mut keys);
    grid::earlier_places(&keys, &mut prev);
    first_entry(&prev[..triangles.len() / 3])
}

// The keys of triangle f's edges.
fn put_sides(triangles: &[u16], f: usize, keys: &mut [usize])
    requires f_bound { f < triangles_in triangles.now }
    requires triangles_in_bounds { 3 * triangles_in triangles.now ≤ length keys.old }
    ensures { keys.new ≡ sets keys.old (3 * f) (values (λ k. side_key triangles.now (3 * f + k)) 3) }
{
    let a = node_at(triangles, f, 0);
    let b = node_at(triangles, f, 1);
    let c = node_at(triangles, f, 2);
    keys[3 * f] = a * 65536 + b;
    keys[3 * f + 1] = a * 65536 + c;
    keys[3 * f + 2] = b * 65536 + c;
}

pub(crate) fn side_keys(triangles: &[u16], keys: &mut [usize])
    requires { 3 * triangles_in triangles.now ≤ length keys.old }
    ensures { keys.new ≡ filled (side_key triangles.now) (3 * triangles_in triangles.now) keys.old }
{
    for f in 0..triangles.len() / 3 {
        put_sides(triangles, f, keys);
    }
}

// The lowest of the first n places with an earlier one that has one too. Entries are one more than an earlier place.
fn first_third(prev: &[u16], n: usize) -> Option<usize>
    requires n_in_bounds { n ≤ length prev.now }
    requires by_index { (j : ℕ) → j < n → get_or prev.now j 0 ≤ j }
    ensures { result ≡ found (twice prev.now) n }
{
    for j in 0..n {
        let p = prev[j] as usize;
        if p != 0 && prev[p - 1] != 0 {
            return Some(j);
        }
    }
    None
}

// The lowest triangle with an edge of two earlier ones. Keeps 60 KB on the stack, and `earlier_places` 64.
pub(crate) fn row_5(triangles: &[u16]) -> Option<usize>
    requires { RisingTriangles triangles.now }
    ensures { result ≡ found (crowded triangles.now) (triangles_in triangles.now) }
{
    let mut keys = [0usize; MOST_SIDES];
    let mut prev = [0u16; MOST_SIDES];
    side_keys(triangles, &mut keys);
    grid::earlier_places(&keys, &mut prev);
    first_third(&prev, 3 * (triangles.len() / 3)).map(|j| j / 3)
}
