// The triangles of the loops of one cell by value, or of those of one length, as words in a lent area: the sub-cells of a split are written so. The loop is that
// of `triangles`, whose functions have one caller each, for the compiler to make one of them (SPEED.md).
// Stays: beside these, since with a second caller they were compiled apart, up to a third slower (DECISIONS 8.18).
ghost use Rattle.std.specs.Prelude.{◌≡◌, true, ◌+◌, ◌*◌, ◌≤◌, length};
ghost use Rattle.std.proofs.lemmas.List.Edits.{sets};
ghost use Rattle.counting.specs.Lists.{values};
ghost use Rattle.counting.specs.Stored.{stored_in};
ghost use Rattle.counting.specs.claims.Lists.{next_in};
ghost use Rattle.manifold.specs.Shape.{fan, shape_of, many_of};
ghost use Rattle.cell.specs.work.Route.{limited};
ghost use Rattle.cell.specs.work.Walked.{Room, Used};
ghost use Rattle.cell.specs.Words.{word_count, all_words};
ghost use Rattle.cell.specs.Triangles.{triangles_with};
ghost use Rattle.cell.specs.work.Traced.{RecordedLoop, traced_triangle, traced_triangles};

use super::make::{half0_of, half1_of, in_two, spoke_of, whole_of};
use super::routes::{crossings_of, routes_of, within};
use super::triangles::{has_room, leaves_out};
use super::walks::{clear, walk};
use super::words::{WORD_COUNT, put};
use super::{Cell, FEW_IN_CELL, MOST_IN_CELL};

// Writes the triangles of a recorded fan of n from index `at` on, and answers the next index.
fn write_fan(c: Cell, halves: &[u8], points: &[u32], n: usize, area: &mut [u32], at: usize) -> usize
    requires recorded_loop { RecordedLoop halves.now points.now n }
    requires n_in_bounds { at + word_count * n ≤ length area.old }
    ensures { (result ≡ at + word_count * n) × (area.new ≡ sets area.old at (all_words (values (traced_triangle c halves.now points.now n fan) n))) }
{
    let mut i = at;
    for k in 0..n {
        let t = spoke_of(c, halves, points, n, k);
        put(area, i, t);
        i += WORD_COUNT;
    }
    i
}

// The same of any recorded loop, as `write_loop`.
fn write_shape(
    c: Cell,
    halves: &[u8],
    points: &[u32],
    n: usize,
    two: bool,
    area: &mut [u32],
    at: usize,
) -> usize
    requires recorded_loop { RecordedLoop halves.now points.now n }
    requires n_value { two ≡ true → n ≡ 4 }
    requires n_in_bounds { at + word_count * many_of (shape_of n two) n ≤ length area.old }
    ensures { (result ≡ at + word_count * many_of (shape_of n two) n) × (area.new ≡ sets area.old at (all_words (traced_triangles c halves.now points.now n two))) }
{
    if n == 3 {
        let t = whole_of(c, halves, points);
        put(area, at, t);
        return at + WORD_COUNT;
    }
    if two {
        let t = half0_of(c, halves, points);
        put(area, at, t);
        let u = half1_of(c, halves, points);
        put(area, at + WORD_COUNT, u);
        return at + 2 * WORD_COUNT;
    }
    write_fan(c, halves, points, n, area, at)
}

// Writes the words of the triangles of the loops asked for, which have room from index `at` on, and answers the next index.
fn write_part(
    c: Cell,
    n: usize,
    only: usize,
    marks: &mut [u16],
    halves: &mut [u8],
    points: &mut [u32],
    area: &mut [u32],
    at: usize,
) -> usize
    requires room { Room c n marks.old halves.old points.old }
    requires only_in_bounds { at + word_count * length (triangles_with c only) ≤ length area.old }
    ensures value { (result ≡ at + word_count * length (triangles_with c only)) × (area.new ≡ sets area.old at (all_words (triangles_with c only))) }
    ensures used { Used n marks.old halves.old points.old marks.new halves.new points.new }
{
    let routes = routes_of(c);
    clear(marks, n);
    let mut i = at;
    for p in 0..n {
        let w = walk(c, &routes, n, p, marks, halves, points);
        let m = w.length;
        if leaves_out(only, m) {
            continue;
        }
        let two = in_two(m, w.normal);
        i = write_shape(c, &halves[0..m], &points[0..m], m, two, area, i);
    }
    i
}

// The same where they have room; else it writes nothing and answers `at`.
fn put_part(
    c: Cell,
    n: usize,
    only: usize,
    marks: &mut [u16],
    halves: &mut [u8],
    points: &mut [u32],
    area: &mut [u32],
    at: usize,
) -> usize
    requires { Room c n marks.old halves.old points.old }
    ensures value { (result ≡ next_in area.old at (all_words (triangles_with c only))) × (area.new ≡ stored_in area.old at (all_words (triangles_with c only))) }
    ensures used { Used n marks.old halves.old points.old marks.new halves.new points.new }
{
    if has_room(c, n, only, marks, halves, points, area.len(), at) {
        return write_part(c, n, only, marks, halves, points, area, at);
    }
    at
}

// Sizes of arrays for the walks of a cell, so that not much more is cleared than it has crossings.
pub(crate) const SOME_IN_CELL: usize = 192;

const MANY_IN_CELL: usize = 6144;

// Writes the words of the triangles of the cell's loops of length `only`, or of all where that is 0, from index `at` on and answers the next index. Where
// they have no room there, it writes nothing and answers `at`. About 178 KB of stack.
pub fn write_loops(c: Cell, only: usize, area: &mut [u32], at: usize) -> usize
    ensures { (result ≡ next_in area.old at (all_words (triangles_with (limited c) only))) × (area.new ≡ stored_in area.old at (all_words (triangles_with (limited c) only))) }
{
    let v = within(c);
    let n = crossings_of(v);
    if n <= SOME_IN_CELL {
        let mut marks = [0u16; SOME_IN_CELL];
        let mut halves = [0u8; SOME_IN_CELL];
        let mut points = [0u32; SOME_IN_CELL];
        return put_part(v, n, only, &mut marks, &mut halves, &mut points, area, at);
    }
    if n <= FEW_IN_CELL {
        let mut marks = [0u16; FEW_IN_CELL];
        let mut halves = [0u8; FEW_IN_CELL];
        let mut points = [0u32; FEW_IN_CELL];
        return put_part(v, n, only, &mut marks, &mut halves, &mut points, area, at);
    }
    if n <= MANY_IN_CELL {
        let mut marks = [0u16; MANY_IN_CELL];
        let mut halves = [0u8; MANY_IN_CELL];
        let mut points = [0u32; MANY_IN_CELL];
        return put_part(v, n, only, &mut marks, &mut halves, &mut points, area, at);
    }
    let mut marks = [0u16; MOST_IN_CELL];
    let mut halves = [0u8; MOST_IN_CELL];
    let mut points = [0u32; MOST_IN_CELL];
    put_part(v, n, only, &mut marks, &mut halves, &mut points, area, at)
}
