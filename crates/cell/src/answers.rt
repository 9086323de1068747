// What is answered of a loop, from what its walk recorded.
ghost use Rattle.std.specs.Prelude.{◌≡◌, ◌%◌, ◌<◌, ◌≤◌, eqb, get_or, length, Some};
ghost use Rattle.counting.specs.Lists.{one};
ghost use Rattle.cell.specs.Loop.{node_with, type_by};
ghost use Rattle.cell.specs.work.Limits.{start_limit};
ghost use Rattle.cell.specs.claims.Half.{edge_of};
ghost use Rattle.cell.specs.work.Round.{crosses_in, round_answer};
ghost use Rattle.cell.specs.Answer.{type_numbers, loop_numbers};

use super::{Cell, Loop, LoopType, half_edges};

fn same(a: usize, b: usize) -> usize
    ensures { (result ≡ one (eqb a b)) × (result ≤ 1) }
{
    if a == b { 1 } else { 0 }
}

// The edge of the half-edge recorded at place k; of any other byte as the definition has it.
pub(crate) fn edge_at(halves: &[u8], k: usize) -> usize
    requires { k < length halves.now }
    ensures { result ≡ edge_of (get_or halves.now k 0) }
{
    let h = halves[k] as usize;
    if h < 12 {
        return half_edges::edge_of(h);
    }
    half_edges::edge_of(9 + h % 3)
}

// The crossings of a recorded loop on edge e.
fn crosses_of(halves: &[u8], e: usize) -> usize
    ensures { result ≡ crosses_in halves.now e }
{
    let mut x: usize = 0;
    for k in 0..halves.len() {
        x += same(edge_at(halves, k), e);
    }
    x
}

fn node_with(c: Cell, x: usize, y: usize, z: usize, q: usize) -> u16
    ensures { result ≡ node_with c.nodes x y z q }
{
    if x == q {
        return c.nodes[1];
    }
    if y == q {
        return c.nodes[2];
    }
    c.nodes[3]
}

// The type of a loop with x, y and z crossings on the edges from the cell's lowest node.
fn type_of(c: Cell, x: usize, y: usize, z: usize) -> LoopType
    ensures { type_numbers result ≡ type_by c.nodes (x % 2) (y % 2) (z % 2) }
{
    let a = x % 2;
    let b = y % 2;
    let d = z % 2;
    let sum = a + b + d;
    if sum == 0 {
        return LoopType::Contractible;
    }
    if sum == 2 {
        return LoopType::Diagonal(node_with(c, a, b, d, 0));
    }
    if sum == 3 {
        return LoopType::LowestCorner(c.nodes[0]);
    }
    LoopType::Corner(node_with(c, a, b, d, 1))
}

// What is answered of a recorded loop, of which its walk told whether it is normal.
pub(crate) fn answer_of(c: Cell, halves: &[u8], points: &[u32], normal: bool) -> Loop
    requires { (0 < length points.now) × (length halves.now < start_limit) }
    ensures { loop_numbers (Some result) ≡ round_answer c.nodes halves.now points.now normal }
{
    let x = crosses_of(halves, 0);
    let y = crosses_of(halves, 1);
    let z = crosses_of(halves, 2);
    let t = type_of(c, x, y, z);
    Loop {
        p0: points[0],
        len: halves.len() as u32,
        normal,
        kind: t,
    }
}
