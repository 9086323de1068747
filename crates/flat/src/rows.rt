// The check of a flat grid, row by row.
ghost use Rattle.std.specs.Prelude.{◌≡◌, ℕ, ◌-◌, ◌<◌, ◌≤◌, eqb, length, get_or, replicate, unwrap_or};
ghost use Rattle.counting.specs.work.Search.{found};
ghost use Rattle.counting.specs.Stored.{filled};
ghost use Rattle.grid.specs.Check.{check_numbers};
ghost use Rattle.grid.specs.work.Work.{WhereAccepted};
ghost use Rattle.flat.specs.Lent.{lent};
ghost use Rattle.flat.specs.work.Work.{most_sides, SidesKnown, answer_from, PastRow2, PastRow3};
ghost use Rattle.flat.specs.Rows.{bad_pairs, flat_answer};

use crate::{FlatGrid, MOST_SIDES, triangles};
use answer::{Refusal, Row};

fn row_2(edges: &[u16], counts: &[u16]) -> bool
    ensures value { result ≡ bad_pairs edges.now counts.now }
    ensures small { (i : ℕ) → get_or edges.now i 0 < 65536 }
{
    edges.len() != 2 * counts.len()
}

// The lowest of the first n places with the entry 0. Takes 1 off the entries before it.
fn lower_entries(sides: &mut [usize], n: usize) -> Option<usize>
    requires { n ≤ length sides.old }
    ensures result_value { result ≡ found (λ j. eqb (get_or sides.old j 0) 0) n }
    ensures sides_after { sides.new ≡ filled (λ j. get_or sides.old j 0 - 1) (unwrap_or result n) sides.old }
{
    for j in 0..n {
        let p = sides[j];
        if p == 0 {
            return Some(j);
        }
        sides[j] = p - 1;
    }
    None
}

// Rows 7 and 8, and the one after them. Keeps 48 KB on the stack, and `edge_places` 52.
fn side_rows(grid: FlatGrid, sides: &mut [usize]) -> Result<u32, Refusal>
    requires { PastRow3 (lent grid) sides.old }
    ensures result_value { check_numbers result ≡ answer_from 7 (lent grid.entry) }
    ensures where_accepted { WhereAccepted result (SidesKnown (lent grid.entry) sides.new) }
{
    let n = 3 * (grid.triangles.len() / 3);
    let mut keys = [0usize; MOST_SIDES];
    triangles::side_keys(grid.triangles, &mut keys);
    let stray = grid::edge_places(grid.edges, &keys, n, sides);
    if let Some(j) = lower_entries(sides, n) {
        return Err(Row::EdgeMissing.at(j / 3));
    }
    if let Some(e) = stray {
        return Err(Row::EdgeStray.at(e));
    }
    grid::count_crossings(grid.counts)
}

// Rows 6 and 18, and those after them.
fn edge_rows(grid: FlatGrid, sides: &mut [usize]) -> Result<u32, Refusal>
    requires { PastRow3 (lent grid) sides.old }
    ensures result_value { check_numbers result ≡ answer_from 6 (lent grid.entry) }
    ensures where_accepted { WhereAccepted result (SidesKnown (lent grid.entry) sides.new) }
{
    if let Some(e) = grid::edge_order(grid.edges) {
        return Err(Row::EdgeOrder.at(e));
    }
    if let Some(e) = grid::row_18(grid.counts) {
        return Err(Row::Count.at(e));
    }
    side_rows(grid, sides)
}

// Rows 3, 4 and 5, and those after them.
fn triangle_rows(grid: FlatGrid, sides: &mut [usize]) -> Result<u32, Refusal>
    requires { PastRow2 (lent grid) sides.old }
    ensures result_value { check_numbers result ≡ answer_from 3 (lent grid.entry) }
    ensures where_accepted { WhereAccepted result (SidesKnown (lent grid.entry) sides.new) }
{
    if let Some(f) = triangles::row_3(grid.triangles) {
        return Err(Row::CellNodes.at(f));
    }
    if let Some(f) = triangles::row_4(grid.triangles) {
        return Err(Row::CellRepeated.at(f));
    }
    if let Some(f) = triangles::row_5(grid.triangles) {
        return Err(Row::FaceCrowded.at(f));
    }
    edge_rows(grid, sides)
}

// All rows. Where the flat grid is accepted, sides has the numbers of the triangles' edges.
pub(crate) fn all_rows(grid: FlatGrid, sides: &mut [usize]) -> Result<u32, Refusal>
    requires { sides.old ≡ replicate most_sides 0 }
    ensures result_value { check_numbers result ≡ flat_answer (lent grid.entry) }
    ensures where_accepted { WhereAccepted result (SidesKnown (lent grid.entry) sides.new) }
{
    if triangles::row_1(grid.triangles) {
        return Err(Row::CellList.at(0));
    }
    if row_2(grid.edges, grid.counts) {
        return Err(Row::EdgeList.at(0));
    }
    triangle_rows(grid, sides)
}

// The check of a flat grid. Keeps 172 KB on the stack, with what its functions keep.
pub fn check(grid: FlatGrid) -> Result<u32, Refusal>
    ensures { check_numbers result ≡ flat_answer (lent grid.entry) }
{
    let mut sides = [0usize; MOST_SIDES];
    all_rows(grid, &mut sides)
}
