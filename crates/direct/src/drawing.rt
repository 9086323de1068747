// The triangles of the cells of a grid's tables, written: those of level cells with d2 = 0 without a walk.
ghost use Rattle.std.specs.Prelude.{◌≡◌, ◌+◌, ◌-◌, ◌*◌, ◌≤◌, ◌<◌, leb, length};
ghost use Rattle.cell.specs.Of.{count_of, edges_of};
ghost use Rattle.cell.specs.claims.Claims.{Rising};
ghost use Rattle.cell.specs.work.Fits.{next_at, area_then, next_after, area_after};
ghost use Rattle.cell.specs.work.Limits.{most_in_cell};
ghost use Rattle.cell.specs.work.Tables.{cell_in};
ghost use Rattle.cell.specs.Triangles.{cell_triangles};
ghost use Rattle.cell.specs.Words.{word_count};
ghost use Rattle.booking.specs.Booking.{smaller};
ghost use Rattle.direct.specs.work.Cells.{Came, longest_block};

use super::level::LevelCell;
use super::{Reached, is_rising, plain_of};
use cell::{Tables, WORD_COUNT};

// Whether n triangles have room from index `at` on in an area of `room` words.
pub(crate) fn fits(room: usize, at: usize, n: usize) -> bool
    requires { n ≤ most_in_cell }
    ensures { result ≡ leb (at + word_count * n) room }
{
    at <= room && WORD_COUNT * n <= room - at
}

impl LevelCell {
    // Writes the words of the n triangles of a level cell with d2 = 0 from index `at` on, where they have room there, and answers the next index.
    fn put_fitting(&self, n: usize, area: &mut [u32], at: usize) -> usize
        requires { (smaller (count_of self.now.cell) ≡ 0) × Rising (edges_of self.now.cell) × (n ≡ length (cell_triangles self.now.cell)) }
        ensures { (result ≡ next_at self.now.cell area.old at) × (area.new ≡ area_then self.now.cell area.old at) }
    {
        if fits(area.len(), at, n) {
            return self.put_all(area, at);
        }
        at
    }
}

// Writes the words of the triangles of the cells from c on, up to `end` or to a cell that is to be walked, from index `at` on, each cell's where they have
// room from where the last left off.
fn put_plain(tables: Tables, c: usize, end: usize, area: &mut [u32], at: usize) -> Reached
    ensures { Came (cell_in tables.entry) c end area.old at result.cell area.new result.at }
{
    let mut i = at;
    for k in c..end {
        let six = cell::counts_at(tables.counts, tables.sides, k);
        if booking::crossings_in(six) == 0 {
            continue;
        }
        let Some(d) = plain_of(six) else {
            return Reached { cell: k, at: i };
        };
        let v = cell::cell_at(tables, k);
        let first = v.starts;
        if !is_rising(first) {
            return Reached { cell: k, at: i };
        }
        let own = d.own;
        let level = LevelCell { cell: v, six, own };
        i = level.put_fitting(d.triangles, area, i);
    }
    Reached {
        cell: c.max(end),
        at: i,
    }
}

// The same of the cells from c up to `end`, each walked, with arrays for each alone.
fn put_singly(tables: Tables, c: usize, end: usize, area: &mut [u32], at: usize) -> usize
    ensures { (result ≡ next_after (cell_in tables.entry) c area.old at (end - c)) × (area.new ≡ area_after (cell_in tables.entry) c area.old at (end - c)) }
{
    let mut i = at;
    for k in c..end {
        let v = cell::cell_at(tables, k);
        i = cell::write_loops(v, 0, area, i);
    }
    i
}

// Blocks of fewer cells are walked cell by cell: to walk several with the same arrays, arrays are made for any cell of the tables.
const SHORTEST_BLOCK: usize = 8;

// The same of a block of cells.
fn put_block(tables: Tables, c: usize, end: usize, area: &mut [u32], at: usize) -> usize
    requires { c ≤ end }
    ensures { (result ≡ next_after (cell_in tables.entry) c area.old at (end - c)) × (area.new ≡ area_after (cell_in tables.entry) c area.old at (end - c)) }
{
    if end - c < SHORTEST_BLOCK {
        return put_singly(tables, c, end, area, at);
    }
    cell::write_cells(tables, c, end, area, at)
}

const LONGEST_BLOCK: usize = 4096;

const FIRST_BLOCK: usize = 16;

// How many cells are walked next, whether they are to be walked or not, where b were before the last n that were not: one after many that were not; else
// twice as many as before, so that cells are not told one from the other where those to be walked stand close together.
pub(crate) fn next_block(b: usize, n: usize) -> usize
    requires { b ≤ longest_block }
    ensures { (0 < result) × (result ≤ longest_block) }
{
    if SHORTEST_BLOCK <= n {
        return 1;
    }
    if b == 0 {
        return FIRST_BLOCK;
    }
    if b < LONGEST_BLOCK / 2 {
        2 * b
    } else {
        LONGEST_BLOCK
    }
}

// The end of a block of b cells from c on, of those up to `end`.
pub(crate) fn block_end(c: usize, b: usize, end: usize) -> usize
    requires { (0 < b) × (c < end) }
    ensures { (c < result) × (result ≤ end) }
{
    if b < end - c { c + b } else { end }
}

// Writes the words of the triangles of the cells from c up to `end` from index `at` of the area on, cell after cell, each cell's where they have room from
// where the last left off, and answers the next index. About 178 KB of stack.
pub fn write_cells(tables: Tables, c: usize, end: usize, area: &mut [u32], at: usize) -> usize
    ensures { (result ≡ next_after (cell_in tables.entry) c area.old at (end - c)) × (area.new ≡ area_after (cell_in tables.entry) c area.old at (end - c)) }
{
    let mut i = at;
    let mut b: usize = 0;
    let mut k = c;
    // Stays: a while, since the next cell is where the block ends.
    while k < end {
        let p = put_plain(tables, k, end, area, i);
        if end <= p.cell {
            return p.at;
        }
        b = next_block(b, p.cell - k);
        let e = block_end(p.cell, b, end);
        i = put_block(tables, p.cell, e, area, p.at);
        k = e;
    }
    i
}
