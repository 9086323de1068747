// The triangles of a level cell with d2 = 0, written without a walk.
#![tactic(auto)]

ghost use Rattle.std.specs.Prelude.{◌≡◌, ◌≢◌, true, not, IfSome, ◌+◌, ◌-◌, ◌*◌, ◌/◌, ◌<◌, ◌≤◌, length, ltb};
ghost use Rattle.std.proofs.lemmas.List.Edits.{sets};
ghost use Rattle.counting.specs.Pick.{pick};
ghost use Rattle.counting.specs.Lists.{over, total};
ghost use Rattle.counting.specs.work.Stored.{Stored};
ghost use Rattle.cell.specs.Of.{count_of, edges_of};
ghost use Rattle.cell.specs.claims.Claims.{Rising};
ghost use Rattle.cell.specs.Nodes.{joining};
ghost use Rattle.cell.specs.Level.{by_edge, is_level_cell};
ghost use Rattle.cell.specs.Triangles.{cell_triangles};
ghost use Rattle.cell.specs.Words.{word_count, all_words};
ghost use Rattle.booking.specs.Booking.{median, left_between, smaller};
ghost use Rattle.direct.specs.claims.Direct.{number_at, side, whole, half0, half1, quads_on_first, on_first, on_second};
ghost use Rattle.direct.specs.work.Rows.{in_row, Has, Long, Crosses, RowOf, AreOwn, PlainNumbers, is_rising};
ghost use Rattle.direct.specs.work.Loops.{threes_in, fours_in, round_loops, across_loops, rounds_loops};

use cell::{Cell, Corner, Side, Triangle, WORD_COUNT, sum_of};
use level::{Fours, LevelCell, Nodes, Threes};
use words::put;

mod drawing;
mod laid;
mod level;
mod placing;
mod words;

pub use drawing::write_cells;
pub use laid::write_part;
pub use placing::{count_fans, write_middles};

// Of a level cell with d2 = 0 the corner triangles at each node, and how many triangles there are.
#[derive(Clone, Copy)]
struct PlainCell {
    own: [u32; 4],
    triangles: usize,
}

// Where cells were written up to a cell: that cell, and the next index.
#[derive(Clone, Copy)]
struct Reached {
    cell: usize,
    at: usize,
}

// Crossing numbers one after the other: the first, and whether they fall.
#[derive(Clone, Copy)]
struct Row {
    first: u32,
    falls: bool,
}

// The edge that joins two positions.
pub(crate) fn joining_of(a: u32, b: u32) -> usize
    requires { (a < 4) × (b < 4) × (a ≢ b) }
    ensures { (result ≡ joining a b) × (result < 6) }
{
    let x = a.min(b);
    let y = a.max(b) as usize;
    match x {
        0 => y - 1,
        1 => y + 1,
        _ => 5,
    }
}

impl LevelCell {
    // The number of the k-th crossing from a on the edge ab.
    fn number_at(&self, a: u32, b: u32, k: u32) -> u32
        requires { Crosses self.now.cell a b k }
        ensures { result ≡ number_at self.now.cell a b k }
    {
        let e = joining_of(a, b);
        if a < b {
            return self.cell.starts[e] + k;
        }
        self.cell.starts[e] + (self.six[e] as u32 - 1 - k)
    }

    // The row of the crossings from the k-th on, which is the next ones or those before.
    fn row_of(&self, a: u32, b: u32, k: u32, up: bool) -> Row
        requires { Crosses self.now.cell a b k }
        ensures { RowOf self.now.cell a b k up result }
    {
        let first = self.number_at(a, b, k);
        Row {
            first,
            falls: if a < b { !up } else { up },
        }
    }
}

// Number i of a row.
#[inline(always)]
fn number_in(r: Row, i: u32) -> u32
    requires { Has r i }
    ensures { result ≡ in_row r i }
{
    if r.falls {
        return r.first - i;
    }
    r.first + i
}

// The segment on slot s between two crossings, by the names of the faces.
fn side_of(names: [u16; 4], s: usize, g: u32, h: u32) -> Side
    requires { s < 4 }
    ensures { result ≡ side names s g h }
{
    Side::Segment(names[s] as u32, g.min(h))
}

// The triangle of a loop of three.
#[inline(always)]
fn whole_of(c: Cell, g0: u32, g1: u32, g2: u32, s0: usize, s1: usize, s2: usize) -> Triangle
    requires { (s0 < 4) × (s1 < 4) × (s2 < 4) }
    ensures { result ≡ whole c g0 g1 g2 s0 s1 s2 }
{
    let names = c.names;
    let r = side_of(names, s0, g0, g1);
    let s = side_of(names, s1, g1, g2);
    let t = side_of(names, s2, g2, g0);
    Triangle {
        cell: c.index,
        p0: g0,
        corner0: Corner::Crossing(g0),
        corner1: Corner::Crossing(g1),
        corner2: Corner::Crossing(g2),
        side0: r,
        side1: s,
        side2: t,
    }
}

// The two of a loop of four.
#[inline(always)]
fn half0_of(c: Cell, g0: u32, g1: u32, g2: u32, s0: usize, s1: usize) -> Triangle
    requires { (s0 < 4) × (s1 < 4) }
    ensures { result ≡ half0 c g0 g1 g2 s0 s1 }
{
    let names = c.names;
    let r = side_of(names, s0, g0, g1);
    let s = side_of(names, s1, g1, g2);
    Triangle {
        cell: c.index,
        p0: g0,
        corner0: Corner::Crossing(g0),
        corner1: Corner::Crossing(g1),
        corner2: Corner::Crossing(g2),
        side0: r,
        side1: s,
        side2: Side::Inner(0),
    }
}

#[inline(always)]
fn half1_of(c: Cell, g0: u32, g2: u32, g3: u32, s2: usize, s3: usize) -> Triangle
    requires { (s2 < 4) × (s3 < 4) }
    ensures { result ≡ half1 c g0 g2 g3 s2 s3 }
{
    let names = c.names;
    let s = side_of(names, s2, g2, g3);
    let t = side_of(names, s3, g3, g0);
    Triangle {
        cell: c.index,
        p0: g0,
        corner0: Corner::Crossing(g0),
        corner1: Corner::Crossing(g2),
        corner2: Corner::Crossing(g3),
        side0: Side::Inner(0),
        side1: s,
        side2: t,
    }
}

impl LevelCell {
    // Writes the triangles of n loops of three: they have room from index `at` on. Answers the next index. Inlined, here and below, so that the compiler knows
    // the slots of whole cells and reads no row again for each loop (SPEED.md).
    #[inline(always)]
    fn put_threes(&self, n: u32, loops: Threes, area: &mut [u32], at: usize) -> usize
        requires long { Long loops.x n × Long loops.y n × Long loops.z n }
        requires n_in_bounds { at + word_count * n ≤ length area.old }
        ensures { Stored area.old at (all_words (over (threes_in self.now.cell loops) n 0)) area.new result }
    {
        let cell = self.cell;
        let mut j = at;
        for i in 0..n {
            let g0 = number_in(loops.x, i);
            let g1 = number_in(loops.y, i);
            let g2 = number_in(loops.z, i);
            let t = whole_of(cell, g0, g1, g2, loops.s0, loops.s1, loops.s2);
            put(area, j, t);
            j += WORD_COUNT;
        }
        j
    }

    // The same of n loops of four.
    #[inline(always)]
    fn put_fours(&self, n: u32, loops: Fours, area: &mut [u32], at: usize) -> usize
        requires long { Long loops.x n × Long loops.y n × Long loops.z n × Long loops.u n }
        requires n_in_bounds { at + word_count * (2 * n) ≤ length area.old }
        ensures { Stored area.old at (all_words (over (fours_in self.now.cell loops) n 0)) area.new result }
    {
        let cell = self.cell;
        let mut j = at;
        for i in 0..n {
            let g0 = number_in(loops.x, i);
            let g1 = number_in(loops.y, i);
            let g2 = number_in(loops.z, i);
            let g3 = number_in(loops.u, i);
            let t = half0_of(cell, g0, g1, g2, loops.s0, loops.s1);
            put(area, j, t);
            let u = half1_of(cell, g0, g2, g3, loops.s2, loops.s3);
            put(area, j + WORD_COUNT, u);
            j += 2 * WORD_COUNT;
        }
        j
    }
}

// The place from a of the first of n loops, outwards from a or inwards.
fn start_of(n: u32, up: bool) -> u32
    requires { 0 < n }
    ensures { (result ≡ pick up 0 (n - 1)) × (result < n) }
{
    if up { 0 } else { n - 1 }
}

impl LevelCell {
    // Writes the triangles of the loops round the node a that start on its edge to b and go on to c and d, outwards from a or inwards.
    #[inline(always)]
    pub(crate) fn put_round(&self, up: bool, nodes: Nodes, area: &mut [u32], at: usize) -> usize
        requires { at + length (all_words (round_loops self.now.cell up nodes)) ≤ length area.old }
        ensures { Stored area.old at (all_words (round_loops self.now.cell up nodes)) area.new result }
    {
        let a = nodes.a;
        let n = self.own[a as usize];
        if n == 0 {
            return at;
        }
        let k = start_of(n, up);
        let loops = Threes {
            x: self.row_of(a, nodes.b, k, up),
            y: self.row_of(a, nodes.c, k, up),
            z: self.row_of(a, nodes.d, k, up),
            s0: nodes.d as usize,
            s1: nodes.b as usize,
            s2: nodes.c as usize,
        };
        self.put_threes(n, loops, area, at)
    }

    // Writes the triangles of the n loops that part the nodes a and b from c and d, and lead from ac to bc.
    #[inline(always)]
    pub(crate) fn put_across(&self, n: u32, nodes: Nodes, area: &mut [u32], at: usize) -> usize
        requires parting { (left_between (count_of self.now.cell) nodes.a nodes.b ≡ 0) × (n ≡ left_between (count_of self.now.cell) nodes.a nodes.c) }
        requires nodes_in_bounds { at + length (all_words (across_loops self.now.cell nodes)) ≤ length area.old }
        ensures { Stored area.old at (all_words (across_loops self.now.cell nodes)) area.new result }
    {
        if n == 0 {
            return at;
        }
        let Nodes { a, b, c, d } = nodes;
        let s = self.own[a as usize];
        let t = self.own[b as usize];
        let loops = Fours {
            x: self.row_of(a, c, s, true),
            y: self.row_of(b, c, t, true),
            z: self.row_of(b, d, t, true),
            u: self.row_of(a, d, s, true),
            s0: d as usize,
            s1: a as usize,
            s2: c as usize,
            s3: b as usize,
        };
        self.put_fours(n, loops, area, at)
    }

    // The same of those that lead from ac to ad.
    #[inline(always)]
    pub(crate) fn put_rounds(&self, n: u32, nodes: Nodes, area: &mut [u32], at: usize) -> usize
        requires parting { (left_between (count_of self.now.cell) nodes.a nodes.b ≡ 0) × (n ≡ left_between (count_of self.now.cell) nodes.a nodes.c) }
        requires nodes_in_bounds { at + length (all_words (rounds_loops self.now.cell nodes)) ≤ length area.old }
        ensures { Stored area.old at (all_words (rounds_loops self.now.cell nodes)) area.new result }
    {
        if n == 0 {
            return at;
        }
        let Nodes { a, b, c, d } = nodes;
        let s = self.own[a as usize];
        let t = self.own[b as usize];
        let loops = Fours {
            x: self.row_of(a, c, s, true),
            y: self.row_of(a, d, s, true),
            z: self.row_of(b, d, t, true),
            u: self.row_of(b, c, t, true),
            s0: b as usize,
            s1: c as usize,
            s2: a as usize,
            s3: d as usize,
        };
        self.put_fours(n, loops, area, at)
    }
}

// Half of what three counts have above the largest sum of a pair.
fn own_at(most: u32, x: u16, y: u16, z: u16) -> u32
    ensures { result ≡ (x + y + z - most) / 2 }
{
    (x as u32 + y as u32 + z as u32).saturating_sub(most) / 2
}

// The corner triangles at each node of a cell with these counts, in which only rule 1 is met.
pub(crate) fn own_of(six: [u16; 6]) -> [u32; 4]
    requires { is_level_cell (by_edge six) ≡ true }
    ensures { AreOwn (by_edge six) result }
{
    let x = sum_of(six[0], six[5]);
    let y = sum_of(six[1], six[4]);
    let z = sum_of(six[2], six[3]);
    let most = x.max(y).max(z);
    [
        own_at(most, six[0], six[1], six[2]),
        own_at(most, six[0], six[3], six[4]),
        own_at(most, six[1], six[3], six[5]),
        own_at(most, six[2], six[4], six[5]),
    ]
}

// What the corner triangles at both ends leave of a count.
pub(crate) fn left_of(n: u16, a: u32, b: u32) -> u32
    ensures { result ≡ n - a - b }
{
    (n as u32).saturating_sub(a).saturating_sub(b)
}

impl LevelCell {
    // The quads on 01: they part 0 from 1, with 2 on the side of 0 or with 3.
    fn put_quads(&self, area: &mut [u32], at: usize) -> usize
        requires plain { smaller (count_of self.now.cell) ≡ 0 }
        requires self_in_bounds { at + length (all_words (quads_on_first self.now.cell)) ≤ length area.old }
        ensures { Stored area.old at (all_words (quads_on_first self.now.cell)) area.new result }
    {
        let own = self.own;
        let n = left_of(self.six[0], own[0], own[1]);
        if n == 0 {
            return at;
        }
        if left_of(self.six[1], own[0], own[2]) == 0 {
            let beside = Nodes {
                a: 0,
                b: 2,
                c: 1,
                d: 3,
            };
            return self.put_across(n, beside, area, at);
        }
        let opposite = Nodes {
            a: 0,
            b: 3,
            c: 1,
            d: 2,
        };
        self.put_rounds(n, opposite, area, at)
    }

    // The loops on 01.
    fn put_first(&self, area: &mut [u32], at: usize) -> usize
        requires plain { smaller (count_of self.now.cell) ≡ 0 }
        requires self_in_bounds { at + length (all_words (on_first self.now.cell)) ≤ length area.old }
        ensures { Stored area.old at (all_words (on_first self.now.cell)) area.new result }
    {
        let zero = Nodes {
            a: 0,
            b: 1,
            c: 2,
            d: 3,
        };
        let i = self.put_round(true, zero, area, at);
        let j = self.put_quads(area, i);
        let one = Nodes {
            a: 1,
            b: 0,
            c: 2,
            d: 3,
        };
        self.put_round(false, one, area, j)
    }

    // The loops on 02: quads only where 0 is left with 1.
    fn put_second(&self, area: &mut [u32], at: usize) -> usize
        requires plain { smaller (count_of self.now.cell) ≡ 0 }
        requires self_in_bounds { at + length (all_words (on_second self.now.cell)) ≤ length area.old }
        ensures { Stored area.old at (all_words (on_second self.now.cell)) area.new result }
    {
        let own = self.own;
        let two = Nodes {
            a: 2,
            b: 0,
            c: 1,
            d: 3,
        };
        if left_of(self.six[0], own[0], own[1]) == 0 {
            let n = left_of(self.six[1], own[0], own[2]);
            let beside = Nodes {
                a: 0,
                b: 1,
                c: 2,
                d: 3,
            };
            let i = self.put_across(n, beside, area, at);
            return self.put_round(false, two, area, i);
        }
        self.put_round(false, two, area, at)
    }

    // Writes the words of the triangles of a level cell with d2 = 0 whose first numbers rise: they have room from index `at` on. Answers the next index.
    pub(crate) fn put_all(&self, area: &mut [u32], at: usize) -> usize
        requires plain { (smaller (count_of self.now.cell) ≡ 0) × Rising (edges_of self.now.cell) }
        requires self_in_bounds { at + length (all_words (cell_triangles self.now.cell)) ≤ length area.old }
        ensures { Stored area.old at (all_words (cell_triangles self.now.cell)) area.new result }
    {
        let i = self.put_first(area, at);
        let j = self.put_second(area, i);
        let three = Nodes {
            a: 3,
            b: 0,
            c: 1,
            d: 2,
        };
        self.put_round(false, three, area, j)
    }
}

// Whether the first numbers rise.
pub(crate) fn is_rising(starts: [u32; 6]) -> bool
    ensures { result ≡ is_rising (by_edge starts) }
{
    for k in 0..5 {
        if starts[k + 1] < starts[k] {
            return false;
        }
    }
    true
}

// Of three numbers the one between.
fn median_of(x: u32, y: u32, z: u32) -> u32
    ensures { result ≡ median x y z }
{
    x.min(y).max(x.max(y).min(z))
}

// How many triangles there are, by the corner triangles at the nodes and d1 of a cell with d2 = 0.
fn all_of(own: [u32; 4], d1: u32) -> usize
    ensures { result ≡ total (by_edge own) 4 0 + 2 * d1 }
{
    own[0] as usize + own[1] as usize + own[2] as usize + own[3] as usize + 2 * d1 as usize
}

// The numbers of a level cell with these counts, where its d2 is 0.
fn level_plain(six: [u16; 6]) -> Option<PlainCell>
    requires { is_level_cell (by_edge six) ≡ true }
    ensures { IfSome result (λ p. PlainNumbers (by_edge six) p.own p.triangles) }
{
    let own = own_of(six);
    let x = left_of(six[0], own[0], own[1]);
    let y = left_of(six[1], own[0], own[2]);
    let z = left_of(six[2], own[0], own[3]);
    if x.min(y).min(z) != 0 {
        return None;
    }
    let triangles = all_of(own, median_of(x, y, z));
    Some(PlainCell { own, triangles })
}

// The numbers of a cell with these counts, where it is a level cell with d2 = 0.
pub(crate) fn plain_of(six: [u16; 6]) -> Option<PlainCell>
    ensures { IfSome result (λ p. PlainNumbers (by_edge six) p.own p.triangles) }
{
    if cell::is_level(six) {
        return level_plain(six);
    }
    None
}
