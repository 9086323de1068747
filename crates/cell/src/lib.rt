// The loops of a cell and their triangles, from the counts and first crossing numbers of its six edges.
#![tactic(auto)]

ghost use Rattle.std.specs.Prelude.{◌≡◌};
ghost use Rattle.cell.specs.Of.{edges_of};
ghost use Rattle.cell.specs.work.Route.{limited};
ghost use Rattle.cell.specs.Loop.{loop_answer};
ghost use Rattle.cell.specs.Answer.{loop_numbers};
ghost use Rattle.cell.specs.work.Walked.{Room, Used};

use slots::{MOST_COUNT, MOST_EDGES, MOST_SLOTS};

mod answers;
mod drawing;
mod entries;
mod fanning;
mod half_edges;
mod level;
mod make;
mod middles;
mod nests;
mod numbers;
mod part_middles;
mod parts;
mod routes;
mod steps;
mod triangles;
mod walks;
mod words;
mod write;

pub use drawing::{count_walked, drawn, write_cells};
pub use entries::{cell_at, counts_at};
pub use fanning::{count_fans, write_middles};
pub use level::{DIGIT_LIMIT, is_common, is_level};
pub use nests::taken_of;
pub use numbers::sum_of;
pub use part_middles::write_fans;
pub use parts::write_loops;
pub use routes::crossings_of;
pub use triangles::{triangle_at, triangle_count};
pub use words::{NO_NAME, WORD_COUNT};

// The most crossings of a cell. The arrays of the walks have a place for each; and fewer, where no count is above the second limit: clearing the larger
// ones costs a small grid more than all else in a cell. Nothing that is answered depends on the second limit.
// Stays: the arrays go as three slices, made where they are lent, in place of one struct with its size as a const parameter. Such a struct makes each function
// of the walks once for each size, which the compiler puts into one another no more: to write cells took 1.4 of the time.
pub const MOST_IN_CELL: usize = 6 * MOST_COUNT as usize;

const FEW_COUNT: u16 = 255;

const FEW_IN_CELL: usize = 6 * FEW_COUNT as usize;

// A cell, or a sub-cell of one: the counts of its edges 01, 02, 03, 12, 13, 23 and the crossing number at index 0 of each, the names of the faces in its
// slots, its nodes' numbers, and word 0 of its triangles: its own number, if it is a cell.
#[derive(Clone, Copy)]
pub struct Cell {
    pub counts: [u16; 6],
    pub starts: [u32; 6],
    pub names: [u16; 4],
    pub nodes: [u16; 4],
    pub index: u32,
}

// The tables of a grid that its cells are read from: the cells' nodes, the edges' counts, the names of the faces in the slots, the edges in the cells, and the
// first crossing numbers of the edges.
#[derive(Clone, Copy)]
pub struct Tables<'a> {
    pub cells: &'a [u16],
    pub counts: &'a [u16],
    pub names: &'a [u16; MOST_SLOTS],
    pub sides: &'a [u16; MOST_EDGES],
    pub starts: &'a [u32],
}

// A cell, and how many crossings it has.
#[derive(Clone, Copy)]
struct Counted {
    cell: Cell,
    crossings: usize,
}

// The type of a loop: a case for each of document 01's numbers 0 to 3. With it the number of a node: the corner's, where it is not the cell's
// lowest node; that of the node paired with the lowest; the lowest node's.
#[derive(Clone, Copy)]
pub enum LoopType {
    Contractible,
    Corner(u16),
    Diagonal(u16),
    LowestCorner(u16),
}

// A loop of a cell: its least crossing in the grid, its length, normal or not, and its type.
#[derive(Clone, Copy)]
pub struct Loop {
    pub p0: u32,
    pub len: u32,
    pub normal: bool,
    pub kind: LoopType,
}

// A corner of a triangle: a crossing by its number, or the middle point of the triangle's loop.
#[derive(Clone, Copy)]
pub enum Corner {
    Crossing(u32),
    Middle,
}

// A side of a triangle: a segment by its face's name and its lower crossing, or an inner side of the triangle's loop by its number.
#[derive(Clone, Copy)]
pub enum Side {
    Segment(u32, u32),
    Inner(u32),
}

// A triangle of the loop of cell `cell` whose least crossing is p0. Side t runs from corner t to the next.
#[derive(Clone, Copy)]
pub struct Triangle {
    pub cell: u32,
    pub p0: u32,
    pub corner0: Corner,
    pub corner1: Corner,
    pub corner2: Corner,
    pub side0: Side,
    pub side1: Side,
    pub side2: Side,
}

// The crossings of an edge: how many they are, and the number of the first in the cell and in the grid.
#[derive(Clone, Copy)]
struct Run {
    count: u16,
    first: usize,
    start: usize,
}

// A dart: the crossing with an index on the edge of a half-edge, by its number in the cell, left by that half-edge.
#[derive(Clone, Copy)]
struct Dart {
    half: usize,
    index: usize,
    number: usize,
}

// The nest of a cell: its edge E; how many loops it has, m, and the crossing number of the crossing m of E, of those that are left.
#[derive(Clone, Copy)]
struct Nest {
    edge: usize,
    count: u32,
    low: usize,
}

// What a walk found: the length of the loop, 0 where there is none, and whether it is normal.
// Stays: 0 for no loop, as `loop_size` has it: a loop of 0 gives no triangle and no middle, so that only `loop_at` and what writes fans test for it.
#[derive(Clone, Copy)]
struct Trip {
    length: usize,
    normal: bool,
}

// Loop k of the cell, which has n crossings, or none where there are k or fewer. The arrays are the walks'.
fn loop_in(
    c: Cell,
    n: usize,
    k: usize,
    marks: &mut [u16],
    halves: &mut [u8],
    points: &mut [u32],
) -> Option<Loop>
    requires { Room c n marks.old halves.old points.old }
    ensures result_value { loop_numbers result ≡ loop_answer (edges_of c) c.nodes k }
    ensures used { Used n marks.old halves.old points.old marks.new halves.new points.new }
{
    let routes = routes::routes_of(c);
    walks::clear(marks, n);
    let mut left = k;
    for p in 0..n {
        let t = walks::walk(c, &routes, n, p, marks, halves, points);
        let m = t.length;
        if m == 0 {
            continue;
        }
        if left == 0 {
            return Some(answers::answer_of(c, &halves[0..m], &points[0..m], t.normal));
        }
        left -= 1;
    }
    None
}

// Loop k of the cell, or none where there are k or fewer. The walks' arrays stand on the stack.
pub fn loop_at(c: Cell, k: usize) -> Option<Loop>
    ensures { loop_numbers result ≡ loop_answer (edges_of (limited c)) c.nodes k }
{
    let v = routes::within(c);
    let n = crossings_of(v);
    if n <= FEW_IN_CELL {
        let mut marks = [0u16; FEW_IN_CELL];
        let mut halves = [0u8; FEW_IN_CELL];
        let mut points = [0u32; FEW_IN_CELL];
        return loop_in(v, n, k, &mut marks, &mut halves, &mut points);
    }
    let mut marks = [0u16; MOST_IN_CELL];
    let mut halves = [0u8; MOST_IN_CELL];
    let mut points = [0u32; MOST_IN_CELL];
    loop_in(v, n, k, &mut marks, &mut halves, &mut points)
}
