// The triangles of a level cell whose edges are laid in any order, as in the parts of a split cell, written without a walk: all of them where d2 = 0, or those of
// its corners alone.
ghost use Rattle.std.specs.Prelude.{◌≡◌, true, false, IfSome, [], ◌∷◌, ◌+◌, ◌*◌, ◌≤◌, ◌<◌, eqb, length};
ghost use Rattle.counting.specs.work.Stored.{Stored};
ghost use Rattle.counting.specs.Stored.{stored_in};
ghost use Rattle.counting.specs.claims.Lists.{next_in};
ghost use Rattle.slots.specs.claims.Slots.{third_position};
ghost use Rattle.slots.specs.Slots.{first_slot};
ghost use Rattle.slots.specs.Limits.{most_count};
ghost use Rattle.cell.specs.Cell.{ahead, base, crossings, edge};
ghost use Rattle.cell.specs.Of.{count_of, edges_of};
ghost use Rattle.cell.specs.work.Route.{limited, Near, Firsts};
ghost use Rattle.cell.specs.Nodes.{joining};
ghost use Rattle.cell.specs.Level.{by_edge};
ghost use Rattle.cell.specs.Triangles.{triangles_with};
ghost use Rattle.cell.specs.Words.{all_words};
ghost use Rattle.booking.specs.Booking.{left_between, smaller};
ghost use Rattle.direct.specs.claims.Direct.{passed};
ghost use Rattle.direct.specs.work.Laid.{laid_on, length_asked, Laying, AtStart, SixEach, cell_of};
ghost use Rattle.direct.specs.work.Loops.{ring_loops, started_loops, middle_loops};

use super::drawing::fits;
use super::level::{LevelCell, Nodes};
use super::{joining_of, left_of, own_of, plain_of};
use cell::Cell;
use slots::{high_end, low_end};

// Whether edge j is laid before edge k.
fn is_before(c: Cell, k: usize, j: usize) -> bool
    requires { (k < 6) × (j < 6) }
    ensures { result ≡ ahead (edges_of c) k j }
{
    let a = c.starts[j];
    let b = c.starts[k];
    a < b || (a == b && j < k)
}

// Whether one of two edges is, or of three.
fn passes(c: Cell, k: usize, i: usize, j: usize) -> bool
    requires { (k < 6) × (i < 6) × (j < 6) }
    ensures { result ≡ passed (ahead (edges_of c)) k (i ∷ j ∷ []) }
{
    is_before(c, k, i) || is_before(c, k, j)
}

fn passes_three(c: Cell, k: usize, h: usize, i: usize, j: usize) -> bool
    requires { (k < 6) × (h < 6) × (i < 6) × (j < 6) }
    ensures { result ≡ passed (ahead (edges_of c)) k (h ∷ i ∷ j ∷ []) }
{
    is_before(c, k, h) || passes(c, k, i, j)
}

impl LevelCell {
    // Writes the triangles of the loops round a that start on its edge k to b, where they start there: they have room from index `at` on. Answers the next
    // index.
    fn put_ring(&self, k: usize, up: bool, nodes: Nodes, area: &mut [u32], at: usize) -> usize
        requires k_lt { k < 6 }
        requires nodes_in_bounds { at + length (all_words (ring_loops self.now.cell k up nodes)) ≤ length area.old }
        ensures { Stored area.old at (all_words (ring_loops self.now.cell k up nodes)) area.new result }
    {
        let h = joining_of(nodes.a, nodes.c);
        let i = joining_of(nodes.a, nodes.d);
        if self.own[nodes.a as usize] == 0 || passes(self.cell, k, h, i) {
            return at;
        }
        self.put_round(up, nodes, area, at)
    }

    // The same of the n quads that part a and b from c and d, and start on the edge k = ac; they lead on to bc or to ad.
    fn put_started(
        &self,
        n: u32,
        k: usize,
        over: bool,
        nodes: Nodes,
        area: &mut [u32],
        at: usize,
    ) -> usize
        requires parting { (left_between (count_of self.now.cell) nodes.a nodes.b ≡ 0) × (n ≡ left_between (count_of self.now.cell) nodes.a nodes.c) × (k < 6) }
        requires nodes_in_bounds { at + length (all_words (started_loops self.now.cell k over nodes)) ≤ length area.old }
        ensures { Stored area.old at (all_words (started_loops self.now.cell k over nodes)) area.new result }
    {
        let h = joining_of(nodes.b, nodes.c);
        let i = joining_of(nodes.b, nodes.d);
        let j = joining_of(nodes.a, nodes.d);
        if passes_three(self.cell, k, h, i, j) {
            return at;
        }
        if over {
            return self.put_across(n, nodes, area, at);
        }
        self.put_rounds(n, nodes, area, at)
    }

    // All quads on the edge k = ab, where they are asked for.
    fn put_middle(&self, quads: bool, k: usize, nodes: Nodes, area: &mut [u32], at: usize) -> usize
        requires plain { quads ≡ true → smaller (count_of self.now.cell) ≡ 0 }
        requires k_is { (k ≡ joining nodes.a nodes.b) × (k < 6) }
        requires nodes_in_bounds { at + length (all_words (middle_loops self.now.cell quads k nodes)) ≤ length area.old }
        ensures { Stored area.old at (all_words (middle_loops self.now.cell quads k nodes)) area.new result }
    {
        if !quads {
            return at;
        }
        let Nodes { a, b, c, d } = nodes;
        let s = self.own[a as usize];
        let n = left_of(self.six[k], s, self.own[b as usize]);
        if n == 0 {
            return at;
        }
        if left_of(self.six[joining_of(a, c)], s, self.own[c as usize]) == 0 {
            let beside = Nodes { a, b: c, c: b, d };
            return self.put_started(n, k, true, beside, area, at);
        }
        let opposite = Nodes {
            a,
            b: d,
            c: b,
            d: c,
        };
        self.put_started(n, k, false, opposite, area, at)
    }
}

// The third position of the first face with edge k.
fn third_of(k: usize) -> u32
    requires { k < 6 }
    ensures { result ≡ third_position k (first_slot k) }
{
    match k {
        0 => 2,
        1..=2 => 1,
        _ => 0,
    }
}

impl LevelCell {
    // What stands on edge k.
    fn put_edge(&self, quads: bool, k: usize, area: &mut [u32], at: usize) -> usize
        requires plain { quads ≡ true → smaller (count_of self.now.cell) ≡ 0 }
        requires k_lt { k < 6 }
        requires k_in_bounds { at + length (all_words (laid_on self.now.cell quads k)) ≤ length area.old }
        ensures { Stored area.old at (all_words (laid_on self.now.cell quads k)) area.new result }
    {
        let a = low_end(k) as u32;
        let b = high_end(k) as u32;
        let c = third_of(k);
        let d = 6 - a - b - c;
        let low = Nodes { a, b, c, d };
        let i = self.put_ring(k, true, low, area, at);
        let j = self.put_middle(quads, k, low, area, i);
        let high = Nodes { a: b, b: a, c, d };
        self.put_ring(k, false, high, area, j)
    }

    // How many crossings are laid before edge k, and before each edge.
    fn laid_before(&self, k: usize) -> usize
        requires { k < 6 }
        ensures { result ≡ base (edges_of self.now.cell) k }
    {
        let mut n: usize = 0;
        for j in 0..6 {
            if is_before(self.cell, k, j) {
                n += self.six[j] as usize;
            }
        }
        n
    }

    fn firsts_of(&self) -> [usize; 6]
        ensures { Firsts self.now.cell result }
    {
        let mut f = [0usize; 6];
        for k in 0..6 {
            f[k] = self.laid_before(k);
        }
        f
    }

    // The edge whose first crossing is p.
    fn edge_at(&self, firsts: [usize; 6], p: usize) -> usize
        requires { Firsts self.now.cell firsts × AtStart self.now.cell p }
        ensures { (result ≡ edge (edges_of self.now.cell) p) × (result < 6) }
    {
        for k in 0..5 {
            if self.six[k] != 0 && firsts[k] == p {
                return k;
            }
        }
        5
    }

    // Writes the words of the triangles that are asked for, all or those of the corners: they have room from index `at` on. Answers the next index.
    fn put_laid(&self, quads: bool, area: &mut [u32], at: usize) -> usize
        requires plain { quads ≡ true → smaller (count_of self.now.cell) ≡ 0 }
        requires quads_in_bounds { at + length (all_words (triangles_with self.now.cell (length_asked quads))) ≤ length area.old }
        ensures { Stored area.old at (all_words (triangles_with self.now.cell (length_asked quads))) area.new result }
    {
        let n = booking::crossings_in(self.six);
        let firsts = self.firsts_of();
        let mut i = at;
        let mut p: usize = 0;
        // Stays: a while, since the next place comes from the counts.
        while p < n {
            let k = self.edge_at(firsts, p);
            i = self.put_edge(quads, k, area, i);
            p += self.six[k] as usize;
        }
        i
    }
}

// The corner triangles of a cell with these counts that is laid: one of which the corner triangles alone are asked for, and one of which all are or those of
// loops of one length.
fn corners_own(six: [u16; 6]) -> Option<[u32; 4]>
    ensures { IfSome result (λ own. Laying (by_edge six) own false) }
{
    if cell::is_level(six) {
        return Some(own_of(six));
    }
    None
}

// The length of the loops of the corner triangles.
const CORNER: usize = 3;

fn asked_own(six: [u16; 6], only: usize) -> Option<[u32; 4]>
    ensures { IfSome result (λ own. Laying (by_edge six) own (eqb only 0) × (only ≡ length_asked (eqb only 0))) }
{
    match only {
        0 => Some(plain_of(six)?.own),
        CORNER => corners_own(six),
        _ => None,
    }
}

// One more than the greatest number that a start can have.
const START_LIMIT: u32 = 67108864;

// Whether the starts are within their limit.
fn is_near(c: Cell) -> bool
    ensures { result ≡ true → Near c }
{
    for k in 0..6 {
        if START_LIMIT <= c.starts[k] {
            return false;
        }
    }
    true
}

// Writes the words of the triangles of the cell's loops of length `only`, or of all where that is 0, from index `at` on and answers the next index, as
// `cell::write_loops` does.
fn put_asked(c: Cell, only: usize, area: &mut [u32], at: usize) -> usize
    requires { SixEach c }
    ensures { (result ≡ next_in area.old at (all_words (triangles_with (limited c) only))) × (area.new ≡ stored_in area.old at (all_words (triangles_with (limited c) only))) }
{
    let six = cell::taken_of(c);
    if let Some(own) = asked_own(six, only) {
        if is_near(c) && fits(area.len(), at, booking::crossings_in(six)) {
            let level = LevelCell { cell: c, six, own };
            return level.put_laid(only == 0, area, at);
        }
    }
    cell::write_loops(c, only, area, at)
}

// The same of a cell by its parts. About 183 KB of stack.
// Stays: a length of 0 for all loops, as the definitions have it (`triangles_with`) and as `cell::write_loops` takes it, to which it goes on.
pub fn write_part(
    counts: [u16; 6],
    starts: [u32; 6],
    names: [u16; 4],
    nodes: [u16; 4],
    index: u32,
    only: usize,
    area: &mut [u32],
    at: usize,
) -> usize
    ensures { (result ≡ next_in area.old at (all_words (triangles_with (limited (cell_of counts starts names nodes index)) only))) × (area.new ≡ stored_in area.old at (all_words (triangles_with (limited (cell_of counts starts names nodes index)) only))) }
{
    put_asked(
        Cell {
            counts,
            starts,
            names,
            nodes,
            index,
        },
        only,
        area,
        at,
    )
}
