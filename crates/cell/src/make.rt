// Triangles by value, from a loop's record: the half-edges of its darts and the crossing numbers of its points.
ghost use Rattle.std.specs.Prelude.{◌≡◌, true, ◌&&◌, eqb, ◌<◌};
ghost use Rattle.counting.specs.Lists.{after};
ghost use Rattle.manifold.specs.Shape.{single, double, fan, shape_of, many_of};
ghost use Rattle.cell.specs.work.Traced.{RecordedLoop, segment_at, traced_triangle};

use super::{Cell, Corner, Side, Triangle};

// The place after k in a round of n.
fn after_of(n: usize, k: usize) -> usize
    requires { k < n }
    ensures { (result ≡ after n k) × (result < n) }
{
    if k + 1 == n { 0 } else { k + 1 }
}

// Segment k of a recorded loop of n points, by the names of the faces in the cell's slots.
fn segment_at(names: [u16; 4], halves: &[u8], points: &[u32], n: usize, k: usize) -> Side
    requires recorded_loop { RecordedLoop halves.now points.now n }
    requires k_lt_n { k < n }
    ensures { result ≡ segment_at names halves.now points.now n k }
{
    let s = halves[k] as usize / 3;
    let j = after_of(n, k);
    Side::Segment(names[s] as u32, points[k].min(points[j]))
}

// The triangle of a loop of three.
pub(crate) fn whole_of(c: Cell, halves: &[u8], points: &[u32]) -> Triangle
    requires { RecordedLoop halves.now points.now 3 }
    ensures { result ≡ traced_triangle c halves.now points.now 3 single 0 }
{
    let names = c.names;
    let r = segment_at(names, halves, points, 3, 0);
    let s = segment_at(names, halves, points, 3, 1);
    let t = segment_at(names, halves, points, 3, 2);
    Triangle {
        cell: c.index,
        p0: points[0],
        corner0: Corner::Crossing(points[0]),
        corner1: Corner::Crossing(points[1]),
        corner2: Corner::Crossing(points[2]),
        side0: r,
        side1: s,
        side2: t,
    }
}

// The two triangles of a normal loop of four.
pub(crate) fn half0_of(c: Cell, halves: &[u8], points: &[u32]) -> Triangle
    requires { RecordedLoop halves.now points.now 4 }
    ensures { result ≡ traced_triangle c halves.now points.now 4 double 0 }
{
    let names = c.names;
    let r = segment_at(names, halves, points, 4, 0);
    let s = segment_at(names, halves, points, 4, 1);
    Triangle {
        cell: c.index,
        p0: points[0],
        corner0: Corner::Crossing(points[0]),
        corner1: Corner::Crossing(points[1]),
        corner2: Corner::Crossing(points[2]),
        side0: r,
        side1: s,
        side2: Side::Inner(0),
    }
}

pub(crate) fn half1_of(c: Cell, halves: &[u8], points: &[u32]) -> Triangle
    requires { RecordedLoop halves.now points.now 4 }
    ensures { result ≡ traced_triangle c halves.now points.now 4 double 1 }
{
    let names = c.names;
    let s = segment_at(names, halves, points, 4, 2);
    let t = segment_at(names, halves, points, 4, 3);
    Triangle {
        cell: c.index,
        p0: points[0],
        corner0: Corner::Crossing(points[0]),
        corner1: Corner::Crossing(points[2]),
        corner2: Corner::Crossing(points[3]),
        side0: Side::Inner(0),
        side1: s,
        side2: t,
    }
}

// Triangle k of a fan of n.
pub(crate) fn spoke_of(c: Cell, halves: &[u8], points: &[u32], n: usize, k: usize) -> Triangle
    requires recorded_loop { RecordedLoop halves.now points.now n }
    requires k_lt_n { k < n }
    ensures { result ≡ traced_triangle c halves.now points.now n fan k }
{
    let names = c.names;
    let s = segment_at(names, halves, points, n, k);
    let j = after_of(n, k);
    Triangle {
        cell: c.index,
        p0: points[0],
        corner0: Corner::Crossing(points[k]),
        corner1: Corner::Crossing(points[j]),
        corner2: Corner::Middle,
        side0: s,
        side1: Side::Inner(j as u32),
        side2: Side::Inner(k as u32),
    }
}

// Whether a loop of n is in two triangles: n is 4, and it is normal.
pub(crate) fn in_two(n: usize, normal: bool) -> bool
    ensures { result ≡ (eqb n 4 && normal) }
{
    n == 4 && normal
}

// How many triangles a loop of n gives; `two` says that n is 4 and the loop normal.
// Stays: a length and a flag, since with an enum of the three shapes in their place a mesh of cells with many crossings took up to 1.2 of the time.
pub(crate) fn many(n: usize, two: bool) -> usize
    requires { two ≡ true → n ≡ 4 }
    ensures { result ≡ many_of (shape_of n two) n }
{
    if n == 3 {
        return 1;
    }
    if two { 2 } else { n }
}

// Triangle k of a recorded loop of n.
pub(crate) fn triangle_of(
    c: Cell,
    halves: &[u8],
    points: &[u32],
    n: usize,
    two: bool,
    k: usize,
) -> Triangle
    requires recorded_loop { RecordedLoop halves.now points.now n }
    requires n_value { two ≡ true → n ≡ 4 }
    requires k_bound { k < many_of (shape_of n two) n }
    ensures { result ≡ traced_triangle c halves.now points.now n (shape_of n two) k }
{
    if n == 3 {
        return whole_of(c, halves, points);
    }
    if two {
        if k == 0 {
            return half0_of(c, halves, points);
        }
        return half1_of(c, halves, points);
    }
    spoke_of(c, halves, points, n, k)
}
