// Row 9: the cells of each edge, linked through faces that contain it.
ghost use Rattle.std.specs.Prelude.{◌≡◌, ◌≢◌, ◌-◌, ◌*◌, ◌/◌, ◌<◌, length};
ghost use Rattle.counting.specs.Search.{some};
ghost use Rattle.counting.specs.work.Search.{found};
ghost use Rattle.slots.specs.claims.Slots.{rank_in, other_slot};
ghost use Rattle.slots.specs.Slots.{second_slot};
ghost use Rattle.grid.specs.work.Lent.{rebuilt};
ghost use Rattle.grid.specs.Rows.{split};
ghost use Rattle.grid.specs.work.Work.{OnSlot, Spreadable, Spreads, missing, Reached, Splitting, Linkable};

use crate::Grid;
use slots::position;

// The lower of the two slots that contain edge k.
fn lower_slot(k: usize) -> usize
    requires { k < 6 }
    ensures { result ≡ second_slot k }
{
    match k {
        0 => 2,
        1 | 2 => 1,
        _ => 0,
    }
}

// The other slot that contains edge k. The positions of an edge's ends add up to k + 1 from the lowest node, else to k.
fn other_side(k: usize, s: usize) -> usize
    requires { OnSlot k s }
    ensures value { result ≡ other_slot k s }
    ensures upper_bound { result < 4 }
{
    if k < 3 { 5 - k - s } else { 6 - k - s }
}

// The rank in slot s of the node at position i.
fn rank_of(s: usize, i: usize) -> usize
    requires i_bound { i < 4 }
    requires s_bound { s < 4 }
    requires i_nonzero { i ≢ s }
    ensures value { result ≡ rank_in s i }
    ensures upper_bound { result < 3 }
{
    if i < s { i } else { i - 1 }
}

// Marks the cells of an edge that are met across slot `start`, and across the other side of each cell met, until there is none or a marked one. Answers how
// many. The edge is told by the rank in the slot of the node that is no end of it: a face has its nodes in the same order in both its cells.
fn spread(near: &[u16], n: usize, mark: u16, start: usize, rank: usize, marks: &mut [u16]) -> usize
    requires { Spreadable near.now n start rank marks.old }
    ensures { Spreads near.now n mark start rank marks.old result marks.new }
{
    let mut met = 0;
    let mut r = rank;
    // Stays: a while, since the next place comes from the links and not from a range.
    let mut p = near[start] as usize;
    while 0 < p {
        let x = p - 1;
        let c = x / 4;
        let t = x % 4;
        if marks[c] == mark {
            return met;
        }
        marks[c] = mark;
        met += 1;
        let s = position(t, r);
        r = rank_of(s, t);
        p = near[4 * c + s] as usize;
    }
    met
}

// Whether a cell of the edge with this number in sides is not linked to its last, whose place is top - 1; degree cells have it. The number is the mark, and
// no cell has it before.
fn split_at(
    sides: &[u16],
    near: &[u16],
    n: usize,
    key: u16,
    top: usize,
    degree: usize,
    marks: &mut [u16],
) -> bool
    requires { Splitting sides.now near.now n key top degree marks.old }
    ensures reached { Reached sides.now near.now n key key ((top - 1) / 6) marks.old marks.new }
    ensures value { result ≡ some (missing sides.now key marks.new key) (6 * n) }
{
    let x = top - 1;
    let c = x / 6;
    let k = x % 6;
    marks[c] = key;
    let s = lower_slot(k);
    let t = other_side(k, s);
    let a = spread(near, n, key, 4 * c + s, rank_of(s, t), marks);
    if 1 + a == degree {
        return false;
    }
    let b = spread(near, n, key, 4 * c + t, rank_of(t, s), marks);
    1 + a + b != degree
}

// The lowest edge whose cells are not all linked.
pub(crate) fn row_9(
    grid: Grid,
    near: &[u16],
    sides: &[u16],
    top: &[u16],
    degree: &[u16],
    marks: &mut [u16],
) -> Option<usize>
    requires { Linkable (rebuilt grid) near.now sides.now top.now degree.now marks.old }
    ensures { result ≡ found (split (rebuilt grid.entry)) (length grid.entry.counts.now) }
{
    let n = grid.cells.len() / 4;
    for e in 0..grid.counts.len() {
        let key = e + 1;
        let t = top[key] as usize;
        let d = degree[key] as usize;
        if d == 1 {
            continue;
        }
        if split_at(sides, near, n, key as u16, t, d, marks) {
            return Some(e);
        }
    }
    None
}
