// Rows 15, 16 and 17: the lists' lengths, the numbers of the nodes' places, and the fractions.
ghost use Rattle.std.specs.Prelude.{◌≡◌, ◌+◌, ◌*◌, ◌/◌, ◌≤◌, ◌<◌, length};
ghost use Rattle.counting.specs.Search.{last};
ghost use Rattle.counting.specs.work.Search.{found};
ghost use Rattle.grid.specs.Grid.{crossings};
ghost use Rattle.place.specs.Place.{coordinates};
ghost use Rattle.places.specs.Rows.{bad_fraction_at, bad_fraction};
ghost use Rattle.places.specs.Answer.{places_numbers, rows_answer};
ghost use Rattle.places.specs.work.Work.{Markable, NodesMarked, is_marked, bad_marked, Reaching, Judgeable, most_points};

use super::is_proper;
use answer::{Refusal, Row};
use grid::HIGHEST_NODE;

// Marks the nodes of the cells.
pub(crate) fn mark(cells: &[u16], used: &mut [u8])
    requires { Markable cells.now used.old }
    ensures { NodesMarked cells.now used.new }
{
    for &v in cells {
        used[v as usize] = 1;
    }
}

// One more than the highest marked node.
// Stays: 0 where none is marked, since it is a length: so many nodes must have places.
pub(crate) fn marked_end(used: &[u8]) -> usize
    ensures { result ≡ last (is_marked used.now) (length used.now) }
{
    for v in (0..used.len()).rev() {
        if used[v] == 1 {
            return v + 1;
        }
    }
    0
}

fn bad_number(used: &[u8], nodes: &[f64], i: usize) -> bool
    requires coordinates_in_bounds { i / coordinates < length used.now }
    requires i_in_bounds { i < length nodes.now }
    ensures { result ≡ bad_marked used.now nodes.now i }
{
    used[i / 3] == 1 && !place::is_within(nodes[i])
}

// The lowest number of a marked node's place, of the first n nodes, that is not within the limit.
pub(crate) fn row_16(used: &[u8], nodes: &[f64], n: usize) -> Option<usize>
    requires { Reaching used.now nodes.now n }
    ensures { result ≡ found (bad_marked used.now nodes.now) (coordinates * n) }
{
    for i in 0..3 * n {
        if bad_number(used, nodes, i) {
            return Some(i);
        }
    }
    None
}

// Whether fraction g, of a crossing with this index, is at fault.
fn bad_fraction(fractions: &[f64], g: usize, index: usize) -> bool
    requires g_in_bounds { g < length fractions.now }
    requires index_le_g { index ≤ g }
    ensures { result ≡ bad_fraction_at fractions.now g index }
{
    !is_proper(fractions[g]) || index != 0 && !(fractions[g - 1] < fractions[g])
}

// The lowest index of a faulty fraction among the n of an edge, which start at g.
fn bad_on_edge(fractions: &[f64], g: usize, n: usize) -> Option<usize>
    requires { g + n ≤ length fractions.now }
    ensures { result ≡ found (λ i. bad_fraction_at fractions.now (g + i) i) n }
{
    for i in 0..n {
        if bad_fraction(fractions, g + i, i) {
            return Some(i);
        }
    }
    None
}

// The lowest crossing with a faulty fraction.
pub(crate) fn row_17(counts: &[u16], fractions: &[f64]) -> Option<usize>
    requires { length fractions.now ≡ crossings counts.now }
    ensures { result ≡ found (bad_fraction counts.now fractions.now) (crossings counts.now) }
{
    let mut g = 0;
    for &n in counts {
        if let Some(i) = bad_on_edge(fractions, g, n as usize) {
            return Some(g + i);
        }
        g += n as usize;
    }
    None
}

// Rows 15, 16 and 17, for n crossings, so many points, and an area of `room` numbers. Keeps 4 KB on the stack.
pub(crate) fn judge(
    cells: &[u16],
    counts: &[u16],
    nodes: &[f64],
    fractions: &[f64],
    n: usize,
    points: usize,
    room: usize,
) -> Result<u64, Refusal>
    requires judgeable { Judgeable cells.now counts.now n }
    requires points_le_most_points { points ≤ most_points }
    ensures { places_numbers result ≡ rows_answer cells.now counts.now nodes.now fractions.now points room }
{
    let mut used = [0u8; HIGHEST_NODE + 1];
    mark(cells, &mut used);
    let end = marked_end(&used);
    if nodes.len() < 3 * end || fractions.len() != n || room < 3 * points {
        return Err(Row::PlaceLists.at(0));
    }
    if let Some(i) = row_16(&used, nodes, end) {
        return Err(Row::NodePlace.at(i));
    }
    if let Some(g) = row_17(counts, fractions) {
        return Err(Row::Fraction.at(g));
    }
    Ok(points as u64)
}
