// The parts of a grid and the sides of their nodes, as a forest of links: a node's link is 2 * parent + side, where the parent is no higher than the
// node, and the side is 0 where the node is on its parent's side. A root is its own parent. A node that no cell has has no link.
ghost use Rattle.std.specs.Prelude.{◌<◌};
ghost use Rattle.shading.specs.work.Work.{Halvable, HalvedAt, Rooted, Found, Unitable, United, AllUnitable, UnitedAll, Rootable, Roots};

// What a node that no cell has holds instead of a link.
// Stays: a number and no Option, since the table of links is to be no larger than 8 KB (fixed memory).
pub(crate) const NO_LINK: u16 = 65535;

// Makes each node of the cells a root.
pub(crate) fn make_roots(cells: &[u16], links: &mut [u16])
    requires { Rootable cells.now links.old }
    ensures { Roots cells.now links.new }
{
    for x in cells {
        links[*x as usize] = 2 * *x;
    }
}

// Links y, which is no root, to its parent's parent. The answer is its new link.
// Stays: a link and the answer of `find` are 2 * node + side, since that is how the table holds them (fixed memory).
fn halve(links: &mut [u16], y: usize) -> usize
    requires { Halvable links.old y }
    ensures { HalvedAt links.old y links.new result }
{
    let l = links[y] as usize;
    let p = l / 2;
    let m = links[p] as usize;
    let z = 2 * (m / 2) + (m + l) % 2;
    links[y] = z as u16;
    z
}

// The root of x, and whether x is on the other side than it: 2 * root + side. The way there is halved.
fn find(links: &mut [u16], x: usize) -> usize
    requires { Rooted links.old x }
    ensures { Found links.old x links.new result }
{
    let mut y = x;
    let mut side = 0;
    let mut p = links[x] as usize / 2;
    // Stays: a while, since the next node comes from the links and not from a range.
    while p != y {
        let z = halve(links, y);
        side = (side + z) % 2;
        y = z / 2;
        p = links[y] as usize / 2;
    }
    2 * y + side
}

// Unites the parts of u and v by an edge with this count: the higher root is linked to the lower. False where u and v are in one part and their sides
// do not agree with the count.
fn unite(links: &mut [u16], u: usize, v: usize, count: usize) -> bool
    requires unitable { Unitable links.old u v }
    requires count_bound { count < 65536 }
    ensures { United links.old u v count links.new result }
{
    let a = find(links, u);
    let b = find(links, v);
    let p = a / 2;
    let q = b / 2;
    let side = (a + b + count) % 2;
    if p == q {
        side == 0
    } else if p < q {
        links[q] = (2 * p + side) as u16;
        true
    } else {
        links[p] = (2 * q + side) as u16;
        true
    }
}

// Unites the parts of the ends of each edge. False at the first edge with which the sides do not agree; the links are of no use then.
pub(crate) fn unite_all(edges: &[u16], counts: &[u16], links: &mut [u16]) -> bool
    requires { AllUnitable edges.now counts.now links.old }
    ensures { UnitedAll edges.now counts.now links.old links.new result }
{
    for e in 0..counts.len() {
        let u = edges[2 * e] as usize;
        let v = edges[2 * e + 1] as usize;
        if !unite(links, u, v, counts[e] as usize) {
            return false;
        }
    }
    true
}
