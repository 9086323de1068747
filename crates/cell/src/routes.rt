// The routes of a cell: nine numbers for each half-edge, worked out once and lent to every step.
ghost use Rattle.std.specs.Prelude.{◌≡◌, [], ◌∷◌, ◌+◌, ◌*◌, ◌-◌, ◌<◌, ◌≤◌, min, get_or};
ghost use Rattle.std.proofs.lemmas.List.Edits.{sets};
ghost use Rattle.slots.specs.Limits.{most_count};
ghost use Rattle.cell.specs.Cell.{ahead, base, crossings};
ghost use Rattle.cell.specs.Of.{count_of, start_of, edges_of};
ghost use Rattle.cell.specs.work.Route.{limited, Near, columns, fronts, Firsts, IsRun, SlotRuns, Routed};
ghost use Rattle.cell.specs.work.Half.{half_edges};
ghost use Rattle.cell.specs.work.Limits.{most_in_cell, start_limit};

use super::{Cell, Run};
use slots::MOST_COUNT;

// The columns of the routes.
pub(crate) const LOW: usize = 0;

pub(crate) const HIGH: usize = 1;

pub(crate) const COUNT: usize = 2;

pub(crate) const FIRST: usize = 3;

pub(crate) const START: usize = 4;

pub(crate) const ROUND_LOW: usize = 5;

pub(crate) const ROUND_HIGH: usize = 6;

pub(crate) const TWIN: usize = 7;

pub(crate) const RANK: usize = 8;

const COLUMNS: usize = 9;

// Twelve half-edges.
pub(crate) const ROUTES: usize = 12 * COLUMNS;

// Nine numbers to a half-edge, of which the last four are the same in each cell: those that follow round the lower end, round the upper
// end and after a folded segment, and the place in the slot.
const LINKS: [usize; ROUTES] = [
    0, 0, 0, 0, 0, 8, 5, 11, 0, 0, 0, 0, 0, 0, 11, 5, 8, 1, 0, 0, 0, 0, 0, 11, 8, 5, 2, 0, 0, 0, 0,
    0, 7, 2, 10, 0, 0, 0, 0, 0, 0, 10, 2, 7, 1, 0, 0, 0, 0, 0, 10, 7, 2, 2, 0, 0, 0, 0, 0, 4, 1, 9,
    0, 0, 0, 0, 0, 0, 9, 1, 4, 1, 0, 0, 0, 0, 0, 9, 4, 1, 2, 0, 0, 0, 0, 0, 3, 0, 6, 0, 0, 0, 0, 0,
    0, 6, 0, 3, 1, 0, 0, 0, 0, 0, 6, 3, 0, 2,
];

// The count of edge e, as the limit where it is above.
pub(crate) fn count_of(c: Cell, e: usize) -> u16
    requires { e < 6 }
    ensures { result ≡ count_of c e }
{
    c.counts[e].min(MOST_COUNT)
}

pub(crate) fn start_of(c: Cell, e: usize) -> u32
    requires { e < 6 }
    ensures { result ≡ start_of c e }
{
    c.starts[e]
}

fn count_at(c: Cell, e: usize) -> usize
    requires { e < 6 }
    ensures { (result ≡ count_of c e) × (result ≤ most_count) }
{
    count_of(c, e) as usize
}

// The crossing number after those of edge e.
pub(crate) fn end_of(c: Cell, e: usize) -> usize
    requires { e < 6 }
    ensures { result ≡ start_of c e + count_of c e }
{
    start_of(c, e) as usize + count_at(c, e)
}

// How many crossings the cell has.
pub fn crossings_of(c: Cell) -> usize
    ensures { (result ≡ crossings (edges_of c)) × (result ≤ most_in_cell) }
{
    let mut n: usize = 0;
    for k in 0..6 {
        n += count_at(c, k);
    }
    n
}

// Whether edge j is laid before edge k.
fn is_ahead(c: Cell, k: usize, j: usize) -> bool
    requires k_bound { k < 6 }
    requires j_bound { j < 6 }
    ensures { result ≡ ahead (edges_of c) k j }
{
    let a = start_of(c, j);
    let b = start_of(c, k);
    if a == b { j < k } else { a < b }
}

// How many crossings are laid before edge k.
fn laid_before(c: Cell, k: usize) -> usize
    requires { k < 6 }
    ensures { result ≡ base (edges_of c) k }
{
    let mut n: usize = 0;
    for j in 0..6 {
        if is_ahead(c, k, j) {
            n += count_at(c, j);
        }
    }
    n
}

// How many crossings are laid before each edge.
fn laid_of(c: Cell) -> [usize; 6]
    ensures { Firsts c result }
{
    let mut f = [0usize; 6];
    for k in 0..6 {
        f[k] = laid_before(c, k);
    }
    f
}

// The same. Where the first numbers rise from edge to edge, the edges are laid as they stand.
fn firsts_of(c: Cell) -> [usize; 6]
    ensures { Firsts c result }
{
    let mut f = [0usize; 6];
    let mut n = count_at(c, 0);
    for k in 1..6 {
        if start_of(c, k) < start_of(c, k - 1) {
            return laid_of(c);
        }
        f[k] = n;
        n += count_at(c, k);
    }
    f
}

// Column i of half-edge h.
pub(crate) fn route(routes: &[usize; ROUTES], h: usize, i: usize) -> usize
    requires h_lt_half_edges { h < half_edges }
    requires i_lt_columns { i < columns }
    ensures { result ≡ get_or routes.now (columns * h + i) 0 }
{
    routes[COLUMNS * h + i]
}

// The crossings of edge e.
fn run_of(c: Cell, firsts: &[usize; 6], e: usize) -> Run
    requires e_bound { e < 6 }
    requires near { Near c }
    requires firsts { Firsts c firsts.now }
    ensures { IsRun c e result }
{
    let first = firsts[e];
    Run {
        count: count_of(c, e),
        first,
        start: start_of(c, e) as usize,
    }
}

// The five numbers of half-edge h that differ from cell to cell.
fn put_front(t: &mut [usize; ROUTES], h: usize, low: usize, high: usize, x: Run)
    requires { h < half_edges }
    ensures { t.new ≡ sets t.old (columns * h) (low ∷ high ∷ x.count ∷ x.first ∷ x.start ∷ []) }
{
    t[COLUMNS * h + LOW] = low;
    t[COLUMNS * h + HIGH] = high;
    t[COLUMNS * h + COUNT] = x.count as usize;
    t[COLUMNS * h + FIRST] = x.first;
    t[COLUMNS * h + START] = x.start;
}

// Those of the three half-edges of slot s, whose edges have the runs ab, ac, bc.
fn put_slot(c: Cell, t: &mut [usize; ROUTES], s: usize, ab: Run, ac: Run, bc: Run)
    requires s_bound { s < 4 }
    requires slot_runs { SlotRuns c s ab ac bc }
    ensures { t.new ≡ fronts (edges_of c) s t.old }
{
    let corners = face::corners_of(ab.count, ac.count, bc.count);
    let a = corners.a as usize;
    let b = corners.b as usize;
    let d = corners.c as usize;
    put_front(t, 3 * s, a, b, ab);
    put_front(t, 3 * s + 1, a, d, ac);
    put_front(t, 3 * s + 2, b, d, bc);
}

// The routes of the cell. Slot by slot at constant places, so that the compiler works the tables out: a loop over the slots is slower (SPEED.md).
pub(crate) fn routes_of(c: Cell) -> [usize; ROUTES]
    requires { Near c }
    ensures { Routed c result }
{
    let firsts = firsts_of(c);
    let e01 = run_of(c, &firsts, 0);
    let e02 = run_of(c, &firsts, 1);
    let e03 = run_of(c, &firsts, 2);
    let e12 = run_of(c, &firsts, 3);
    let e13 = run_of(c, &firsts, 4);
    let e23 = run_of(c, &firsts, 5);
    let mut t = LINKS;
    put_slot(c, &mut t, 0, e12, e13, e23);
    put_slot(c, &mut t, 1, e02, e03, e23);
    put_slot(c, &mut t, 2, e01, e03, e13);
    put_slot(c, &mut t, 3, e01, e02, e12);
    t
}

// One more than the greatest number that a start can have.
const START_LIMIT: u32 = 67108864;

// The cell with its starts within their limit.
pub(crate) fn within(c: Cell) -> Cell
    ensures { result ≡ limited c }
{
    let counts = c.counts;
    let names = c.names;
    let nodes = c.nodes;
    let mut starts = [0u32; 6];
    for k in 0..6 {
        starts[k] = start_of(c, k).min(START_LIMIT - 1);
    }
    Cell {
        counts,
        starts,
        names,
        nodes,
        index: c.index,
    }
}
