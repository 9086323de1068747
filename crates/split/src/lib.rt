// Cells that are split (02, W12): their parts, and the words of all their triangles.
#![tactic(auto)]

ghost use Rattle.std.specs.Prelude.{◌≡◌, ◌+◌, ◌*◌, ◌≤◌, ◌<◌, length};
ghost use Rattle.counting.specs.work.Stored.{Stored};
ghost use Rattle.cell.specs.claims.Table.{short_limit};
ghost use Rattle.cell.specs.Of.{count_of};
ghost use Rattle.cell.specs.Words.{all_words};
ghost use Rattle.cell.specs.Triangles.{triangles_with};
ghost use Rattle.booking.specs.Booking.{larger, smaller};
ghost use Rattle.split.specs.Parts.{drawn_triangles};
ghost use Rattle.split.specs.work.Working.{StartsNear, Spiraling, Working, SplitsLeft, Drawable, first_numbering, parts_words, start_words, end_words};

use cell::Cell;
use slots::{MOST_CELLS, MOST_CROSSINGS, MOST_SLOTS};

mod drawing;
mod numbers;
mod placing;
mod spots;
mod subs;

pub use drawing::{draw, sums_of};
pub use spots::{extra_of, write_drawn_middles, write_inner};

// A cell that is split: d1 and d2; at each position the own corner triangles and the label.
// Stays: labels are numbers, since the new edges and their crossings are numbered in their order.
#[derive(Clone, Copy)]
struct Spiral {
    cell: Cell,
    larger: u32,
    smaller: u32,
    own: [u32; 4],
    label: [u32; 4],
    ghost spiraling: { Spiraling cell larger smaller own label },
}

// By what a cell or sub-cell goes that is split: the number of its cell, its own number there, and where the numbers of the inner crossings of the split and
// the names of its inner faces start.
#[derive(Clone, Copy)]
struct Numbering {
    cell: u32,
    number: u32,
    crossing: u32,
    face: u32,
}

// How many triangles are drawn of the cells of a grid, and how many splits are made in them.
#[derive(Clone, Copy)]
pub struct DrawnSums {
    pub triangles: usize,
    pub splits: u32,
}

// How many crossings the cells of a grid have, how many splits are made in them, and how many triangles they have more by these.
#[derive(Clone, Copy)]
pub struct CellSums {
    pub crossings: usize,
    pub splits: u64,
    pub more: u64,
}

// How many inner crossings the cells of a grid have, and how many fans these have more by their splits.
#[derive(Clone, Copy)]
pub struct Extra {
    pub inner: u64,
    pub fans: u64,
}

// A cell that is split, by its number, and how many splits are made in it.
#[derive(Clone, Copy)]
struct SplitCell {
    index: usize,
    splits: u32,
}

// Of a cell that is split: how many inner crossings it has, how many fans the splits add, and how many it has without.
#[derive(Clone, Copy)]
struct PointSums {
    inner: u64,
    more: u64,
    loops: u64,
}

// Where the numbers of inner crossings and the names of inner faces of a cell start.
pub const FIRST_CROSSING: u32 = MOST_CROSSINGS + 1;

pub const FIRST_FACE: u32 = MOST_SLOTS as u32;

// The length of the loops of the own corner triangles.
const CORNER: usize = 3;

// Writes the words of the triangles of the loops of length `only`, or of all where that is 0, which have room from index `at` on, and answers the next index.
// Stays: 0 for all lengths, as the clauses of `cell::write_loops` and `direct::write_part` have it (`triangles_with`).
fn put(c: Cell, only: usize, area: &mut [u32], at: usize) -> usize
    requires starts_near { StartsNear c }
    requires only_in_bounds { at + length (all_words (triangles_with c only)) ≤ length area.old }
    ensures { Stored area.old at (all_words (triangles_with c only)) area.new result }
{
    direct::write_part(
        c.counts, c.starts, c.names, c.nodes, c.index, only, area, at,
    )
}

// The parts of a split before the nested one: the own corner triangles, and the sub-cell that omits l.
fn put_start(s: Spiral, by: Numbering, area: &mut [u32], at: usize) -> usize
    requires working { Working s.cell by.cell by.number by.crossing by.face }
    requires s_in_bounds { at + length (start_words s.cell by.cell by.number by.crossing by.face) ≤ length area.old }
    ensures { Stored area.old at (start_words s.cell by.cell by.number by.crossing by.face) area.new result }
{
    let i = put(s.cell, CORNER, area, at);
    put(s.sub_cell(by, 1, 3), 0, area, i)
}

// Those after it: the sub-cells that omit j and i, of which the first has the number of `by`.
fn put_end(s: Spiral, by: Numbering, area: &mut [u32], at: usize) -> usize
    requires working { Working s.cell by.cell by.number by.crossing by.face }
    requires s_in_bounds { at + length (end_words s.cell by.cell by.number by.crossing by.face) ≤ length area.old }
    ensures { Stored area.old at (end_words s.cell by.cell by.number by.crossing by.face) area.new result }
{
    let i = put(s.sub_cell(by, 0, 1), 0, area, at);
    put(s.sub_cell(by, 1, 0), 0, area, i)
}

// The parts of c, a cell or a sub-cell, in order of working; so many splits are left to make in it. The sum of d1 and d2 falls from split to split (01).
fn split_in(c: Cell, by: Numbering, left: u32, area: &mut [u32], at: usize) -> usize
    requires splits_left { SplitsLeft c by.cell by.number by.crossing by.face left }
    requires c_in_bounds { at + length (parts_words (larger (count_of c) + smaller (count_of c)) by.cell by.number by.crossing by.face c) ≤ length area.old }
    ensures { Stored area.old at (parts_words (larger (count_of c) + smaller (count_of c)) by.cell by.number by.crossing by.face c) area.new result }
{
    if left == 0 {
        return put(c, 0, area, at);
    }
    let s = Spiral::of(c);
    let inner = s.sub_cell(by, 2, 2);
    let nested = s.nested(by);
    let last = Numbering {
        number: by.number + 4 * left - 1,
        ..by
    };
    let i = put_start(s, by, area, at);
    let k = split_in(inner, nested, left - 1, area, i);
    put_end(s, last, area, k)
}

impl Numbering {
    // Of a cell of a grid.
    fn of(c: Cell) -> Numbering
        ensures { result ≡ first_numbering c }
    {
        Numbering {
            cell: c.index,
            number: 0,
            crossing: FIRST_CROSSING,
            face: FIRST_FACE,
        }
    }
}

// Writes the words of what is drawn of the cell, in which so many splits are made: they have room from index `at` on. Answers the next index. The
// recursion is as deep as there are splits, at most 2,045.
pub(crate) fn put_cell(c: Cell, splits: u32, area: &mut [u32], at: usize) -> usize
    requires drawable { Drawable c splits }
    requires c_in_bounds { at + length (all_words (drawn_triangles c)) ≤ length area.old }
    ensures { Stored area.old at (all_words (drawn_triangles c)) area.new result }
{
    if splits == 0 {
        return put(c, 0, area, at);
    }
    split_in(c, Numbering::of(c), splits, area, at)
}
