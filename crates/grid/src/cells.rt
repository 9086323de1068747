// Rows 1, 3, 4 and 5: the cells.
ghost use Rattle.std.specs.Prelude.{ℕ, slice_index, ◌≡◌, ◌+◌, ◌*◌, ◌/◌, ◌%◌, ◌<◌, ◌≤◌, None, unwrap_or};
ghost use Rattle.counting.specs.work.Search.{found};
ghost use Rattle.slots.specs.Limits.{most_cells};
ghost use Rattle.grid.specs.Grid.{cell_count, node};
ghost use Rattle.grid.specs.Rows.{bad_length, bad_cell, repeats, crowded};
ghost use Rattle.grid.specs.work.Work.{RisingCells, Pairable, Mates, third_at, Neighbours, again_at};
ghost use Rattle.grid.specs.work.Walks.{Cells, Fresh, Slots, SameFrom, SameNodes};

use crate::numbering::earlier;
use crate::{HIGHEST_NODE, MOST_CELLS};

pub(crate) fn row_1(cells: &[u16]) -> bool
    ensures { result ≡ bad_length cells.now }
{
    let n = cells.len();
    n % 4 != 0 || n == 0 || MOST_CELLS < n / 4
}

// Node i of cell c.
pub(crate) fn node_at(cells: &[u16], c: usize, i: usize) -> usize
    requires c_bound { c < cell_count cells.now }
    requires i_bound { i < 4 }
    ensures value { result ≡ node cells.now c i }
    ensures upper_bound { result < 65536 }
{
    cells[4 * c + i] as usize
}

fn bad_cell(cells: &[u16], c: usize) -> bool
    requires { c < cell_count cells.now }
    ensures { result ≡ bad_cell cells.now c }
{
    let n0 = node_at(cells, c, 0);
    let n1 = node_at(cells, c, 1);
    let n2 = node_at(cells, c, 2);
    let n3 = node_at(cells, c, 3);
    n1 <= n0 || n2 <= n1 || n3 <= n2 || HIGHEST_NODE < n3
}

// The lowest cell with a node over 4,095 or nodes that do not increase.
pub(crate) fn row_3(cells: &[u16]) -> Option<usize>
    ensures value { result ≡ found (bad_cell cells.now) (cell_count cells.now) }
    ensures small { (i : ℕ) → slice_index cells.now i < 65536 }
{
    for c in 0..cells.len() / 4 {
        if bad_cell(cells, c) {
            return Some(c);
        }
    }
    None
}

// The lowest cell that equals an earlier one. same has the numbers of the cells.
pub(crate) fn first_same(cells: &[u16], same: &[u16], seen: &mut [u16]) -> Option<usize>
    requires cells_bound { cell_count cells.now ≤ most_cells }
    requires cells { Cells (cell_count cells.now) (SameNodes cells.now) same.now }
    requires fresh { Fresh (4 * cell_count cells.now + 1) seen.old }
    ensures { result ≡ found (repeats cells.now) (cell_count cells.now) }
{
    for c in 0..cells.len() / 4 {
        if earlier(same[4 * c] as usize, c, seen).is_some() {
            return Some(c);
        }
    }
    None
}

// Whether cell c equals an earlier one, where no face is in three cells: then that one is across its slot 0, and has the same lowest node.
fn again(cells: &[u16], near: &[u16], c: usize) -> bool
    requires neighbours { Neighbours cells.now near.now }
    requires c_bound { c < cell_count cells.now }
    ensures { result ≡ again_at cells.now near.now c }
{
    let x = near[4 * c] as usize;
    let d = x / 4;
    x % 4 == 1 && d < c && node_at(cells, d, 0) == node_at(cells, c, 0)
}

// The lowest cell that equals an earlier one, where no face is in three cells.
pub(crate) fn row_4(cells: &[u16], near: &[u16]) -> Option<usize>
    requires { Neighbours cells.now near.now }
    ensures { result ≡ found (repeats cells.now) (cell_count cells.now) }
{
    for c in 0..cells.len() / 4 {
        if again(cells, near, c) {
            return Some(c);
        }
    }
    None
}

// Gives each of the first n places the other place with its key, and stops at the first key that comes a third time.
fn pair(keys: &[u16], n: usize, seen: &mut [u16], near: &mut [u16]) -> Option<usize>
    requires { Pairable keys.now n seen.old near.old }
    ensures value { result ≡ found (third_at keys.now) n }
    ensures mates { Mates keys.now (unwrap_or result n) near.new }
{
    for j in 0..n {
        let Some(p) = earlier(keys[j] as usize, j, seen) else {
            continue;
        };
        if near[p] != 0 {
            return Some(j);
        }
        near[j] = (p + 1) as u16;
        near[p] = (j + 1) as u16;
    }
    None
}

// The lowest cell with a face of two earlier ones; where there is none, near has the neighbours. faces has the numbers of the faces.
pub(crate) fn row_5(
    cells: &[u16],
    faces: &[u16],
    seen: &mut [u16],
    near: &mut [u16],
) -> Option<usize>
    requires rising_cells { RisingCells cells.now }
    requires slots { Slots (cell_count cells.now) (SameFrom 0 cells.now) faces.now }
    requires fresh { Fresh (4 * cell_count cells.now + 1) seen.old }
    requires fresh_2 { Fresh (4 * cell_count cells.now) near.old }
    ensures value { result ≡ found (crowded cells.now) (cell_count cells.now) }
    ensures neighbours { result ≡ None → Neighbours cells.now near.new }
{
    let third = pair(faces, 4 * (cells.len() / 4), seen, near)?;
    Some(third / 4)
}
