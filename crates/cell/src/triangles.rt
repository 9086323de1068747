// The triangles of a cell's loops: by value, one by one, and as words in a lent area. The loops are walked one after the other, and the triangles of
// each are made from its record before the next is walked.
ghost use Rattle.std.specs.Prelude.{◌≡◌, ◌+◌, ◌*◌, ◌≤◌, not, ◌||◌, eqb, leb, length};
ghost use Rattle.std.proofs.lemmas.List.Edits.{sets};
ghost use Rattle.cell.specs.work.Route.{limited};
ghost use Rattle.cell.specs.work.Limits.{most_in_cell};
ghost use Rattle.cell.specs.work.Walked.{Room, Used};
ghost use Rattle.cell.specs.Words.{word_count, all_words};
ghost use Rattle.cell.specs.Triangles.{cell_triangles, triangles_with};
ghost use Rattle.cell.specs.work.Nth.{nth_of, nth_numbers, nth_answer};
ghost use Rattle.counting.specs.Stored.{stored_in};
ghost use Rattle.counting.specs.claims.Lists.{next_in};

use super::make::{in_two, many, triangle_of};
use super::routes::{crossings_of, routes_of, within};
use super::walks::{clear, walk};
use super::words::WORD_COUNT;
use super::write::write_loop;
use super::{Cell, MOST_IN_CELL, Triangle};

// Whether a loop of n segments is left out where those of length `only` are asked for, or all where that is 0.
pub(crate) fn leaves_out(only: usize, n: usize) -> bool
    ensures { result ≡ not (eqb only 0 || eqb n only) }
{
    only != 0 && n != only
}

// How many triangles the loops of the cell have that are asked for. It has n crossings, here and below.
fn count(
    c: Cell,
    n: usize,
    only: usize,
    marks: &mut [u16],
    halves: &mut [u8],
    points: &mut [u32],
) -> usize
    requires { Room c n marks.old halves.old points.old }
    ensures value { (result ≡ length (triangles_with c only)) × (result ≤ most_in_cell) }
    ensures used { Used n marks.old halves.old points.old marks.new halves.new points.new }
{
    let routes = routes_of(c);
    clear(marks, n);
    let mut t: usize = 0;
    for p in 0..n {
        let w = walk(c, &routes, n, p, marks, halves, points);
        if leaves_out(only, w.length) {
            continue;
        }
        t += many(w.length, in_two(w.length, w.normal));
    }
    t
}

// Writes the words of the triangles, which have room from index `at` on, and answers the next index.
fn write(
    c: Cell,
    n: usize,
    marks: &mut [u16],
    halves: &mut [u8],
    points: &mut [u32],
    area: &mut [u32],
    at: usize,
) -> usize
    requires room { Room c n marks.old halves.old points.old }
    requires c_in_bounds { at + word_count * length (triangles_with c 0) ≤ length area.old }
    ensures value { (result ≡ at + word_count * length (triangles_with c 0)) × (area.new ≡ sets area.old at (all_words (triangles_with c 0))) }
    ensures used { Used n marks.old halves.old points.old marks.new halves.new points.new }
{
    let routes = routes_of(c);
    clear(marks, n);
    let mut i = at;
    for p in 0..n {
        let w = walk(c, &routes, n, p, marks, halves, points);
        let m = w.length;
        let two = in_two(m, w.normal);
        i = write_loop(c, &halves[0..m], &points[0..m], m, two, area, i);
    }
    i
}

// `count` and `write`, and at once for a cell without crossings. What the arrays hold before does not matter.
pub(crate) fn count_in(
    c: Cell,
    n: usize,
    only: usize,
    marks: &mut [u16],
    halves: &mut [u8],
    points: &mut [u32],
) -> usize
    requires { Room c n marks.old halves.old points.old }
    ensures value { (result ≡ length (triangles_with c only)) × (result ≤ most_in_cell) }
    ensures used { Used n marks.old halves.old points.old marks.new halves.new points.new }
{
    if n == 0 {
        return 0;
    }
    count(c, n, only, marks, halves, points)
}

fn write_in(
    c: Cell,
    n: usize,
    marks: &mut [u16],
    halves: &mut [u8],
    points: &mut [u32],
    area: &mut [u32],
    at: usize,
) -> usize
    requires room { Room c n marks.old halves.old points.old }
    requires c_in_bounds { at + word_count * length (triangles_with c 0) ≤ length area.old }
    ensures value { (result ≡ at + word_count * length (triangles_with c 0)) × (area.new ≡ sets area.old at (all_words (triangles_with c 0))) }
    ensures used { Used n marks.old halves.old points.old marks.new halves.new points.new }
{
    if n == 0 {
        return at;
    }
    write(c, n, marks, halves, points, area, at)
}

// How many triangles the cell has. About 168 KB of stack.
pub fn triangle_count(c: Cell) -> usize
    ensures { (result ≡ length (cell_triangles (limited c))) × (result ≤ most_in_cell) }
{
    let mut marks = [0u16; MOST_IN_CELL];
    let mut halves = [0u8; MOST_IN_CELL];
    let mut points = [0u32; MOST_IN_CELL];
    let v = within(c);
    let n = crossings_of(v);
    count_in(v, n, 0, &mut marks, &mut halves, &mut points)
}

// Triangle t of the cell, or none where it has t or fewer. About 168 KB of stack.
pub fn triangle_at(c: Cell, t: usize) -> Option<Triangle>
    ensures { (result ≡ nth_of (cell_triangles (limited c)) t) × (nth_numbers result ≡ nth_answer (cell_triangles (limited c)) t) }
{
    let mut marks = [0u16; MOST_IN_CELL];
    let mut halves = [0u8; MOST_IN_CELL];
    let mut points = [0u32; MOST_IN_CELL];
    let v = within(c);
    let n = crossings_of(v);
    let routes = routes_of(v);
    clear(&mut marks, n);
    let mut left = t;
    for p in 0..n {
        let w = walk(v, &routes, n, p, &mut marks, &mut halves, &mut points);
        let m = w.length;
        let two = in_two(m, w.normal);
        let k = many(m, two);
        if left < k {
            return Some(triangle_of(v, &halves[0..m], &points[0..m], m, two, left));
        }
        left -= k;
    }
    None
}

// Whether the words of the triangles have room from index `at` on in an area of `room` words. A cell has no more triangles than crossings, so that
// they are counted only where there is not room for so many.
pub(crate) fn has_room(
    c: Cell,
    n: usize,
    only: usize,
    marks: &mut [u16],
    halves: &mut [u8],
    points: &mut [u32],
    room: usize,
    at: usize,
) -> bool
    requires { Room c n marks.old halves.old points.old }
    ensures value { result ≡ leb (at + word_count * length (triangles_with c only)) room }
    ensures used { Used n marks.old halves.old points.old marks.new halves.new points.new }
{
    if room < at {
        return false;
    }
    if WORD_COUNT * n <= room - at {
        return true;
    }
    WORD_COUNT * count_in(c, n, only, marks, halves, points) <= room - at
}

// Writes the words of the triangles of all loops from index `at` on and answers the next index. Where they have no room there, it writes nothing and answers
// `at`.
pub(crate) fn put_in(
    c: Cell,
    n: usize,
    marks: &mut [u16],
    halves: &mut [u8],
    points: &mut [u32],
    area: &mut [u32],
    at: usize,
) -> usize
    requires { Room c n marks.old halves.old points.old }
    ensures value { (result ≡ next_in area.old at (all_words (triangles_with c 0))) × (area.new ≡ stored_in area.old at (all_words (triangles_with c 0))) }
    ensures used { Used n marks.old halves.old points.old marks.new halves.new points.new }
{
    if has_room(c, n, 0, marks, halves, points, area.len(), at) {
        return write_in(c, n, marks, halves, points, area, at);
    }
    at
}
