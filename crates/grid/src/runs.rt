// The edges of the cells get their places in the sorted list: by runs of edges with one lower end, and chains of the cells with that node.
ghost use Rattle.std.specs.Prelude.{◌≡◌, ◌+◌, ◌*◌, ◌<◌, ◌≤◌, get_or, set};
ghost use Rattle.grid.specs.Grid.{cell_count};
ghost use Rattle.grid.specs.work.Held.{PlaceableBy, TurnableBy};
ghost use Rattle.grid.specs.work.Runs.{Fillable, RunFilled, Clearable, Blanked, Lays, InCell, FromNode, SidesPuttable, SidesWalkable, SidesWalked, SidesPlaced};

use crate::HIGHEST_NODE;
use crate::cells::node_at;
use crate::scratch::{Chain, NodeTables};
use slots::high_end;

// Puts x at place v, where there is one.
fn put_at(v: usize, x: usize, tab: &mut [u16])
    requires { x < 65536 }
    ensures { tab.new ≡ set tab.old v x }
{
    if v < tab.len() {
        tab[v] = x as u16;
    }
}

// Puts the run of edges with the lower end of edge a: at each higher end one more than the edge's place, but no more than cap + 1. Answers where the run
// ends.
fn fill_run(edges: &[u16], m: usize, cap: usize, a: usize, tab: &mut [u16]) -> usize
    requires { Fillable edges.now m cap a tab.old }
    ensures { RunFilled edges.now m cap a result tab.old tab.new }
{
    let u = edges[2 * a];
    for e in a..m {
        if edges[2 * e] != u {
            return e;
        }
        put_at(edges[2 * e + 1] as usize, e.min(cap) + 1, tab);
    }
    m
}

// Puts 0 at the higher ends of the edges from a up to f.
fn clear_run(edges: &[u16], a: usize, f: usize, tab: &mut [u16])
    requires { Clearable edges.now a f tab.old }
    ensures { Blanked tab.new }
{
    for e in a..f {
        put_at(edges[2 * e + 1] as usize, 0, tab);
    }
}

// Puts what tab has for the higher ends of the edges of cell c from `from` up to `to`.
fn put_sides(cells: &[u16], c: usize, from: usize, to: usize, tab: &[u16], sides: &mut [u16])
    requires { SidesPuttable cells.now c from to tab.now sides.old }
    ensures { Lays (InCell c from to) cells.now tab.now sides.old sides.new }
{
    for k in from..to {
        let v = node_at(cells, c, high_end(k));
        sides[6 * c + k] = tab[v];
    }
}

// The same for the cells with the label r, along their chain.
fn walk_sides<const LABELS: usize, const CELLS: usize>(
    cells: &[u16],
    chain: &Chain<LABELS, CELLS>,
    r: usize,
    from: usize,
    to: usize,
    tab: &[u16],
    sides: &mut [u16],
)
    requires { SidesWalkable cells.now chain.now.head chain.now.next r from to tab.now sides.old }
    ensures { SidesWalked cells.now chain.now.head chain.now.next r from to tab.now sides.old sides.new }
{
    // Stays: a while, since the next place comes from the links and not from a range.
    let mut j = chain.head[r] as usize;
    while 0 < j {
        let c = j - 1;
        put_sides(cells, c, from, to, tab, sides);
        j = chain.next[c] as usize;
    }
}

// The same for all edges of the cells with the lower end u, whose label is r.
fn turn_sides<const LABELS: usize, const CELLS: usize>(
    cells: &[u16],
    by_node: &NodeTables<LABELS, CELLS>,
    u: usize,
    tab: &[u16],
    sides: &mut [u16],
)
    requires { TurnableBy cells.now by_node.now u tab.now sides.old }
    ensures { Lays (FromNode cells.now u) cells.now tab.now sides.old sides.new }
{
    let r = by_node.ranks[u] as usize;
    walk_sides(cells, &by_node.chains.first, r, 0, 3, tab, sides);
    walk_sides(cells, &by_node.chains.second, r, 3, 5, tab, sides);
    walk_sides(cells, &by_node.chains.third, r, 5, 6, tab, sides);
}

// Gives each edge of each cell one more than its place among the first m edges, but no more than 6 to a cell and one; 0 where it is not listed. Edges above
// the highest node are at the end of the list, and no cell has one.
pub(crate) fn place_sides<const LABELS: usize, const CELLS: usize>(
    cells: &[u16],
    edges: &[u16],
    m: usize,
    by_node: &NodeTables<LABELS, CELLS>,
    tab: &mut [u16],
    sides: &mut [u16],
)
    requires { PlaceableBy cells.now edges.now m by_node.now tab.old sides.old }
    ensures { SidesPlaced cells.now edges.now m sides.new }
{
    let cap = 6 * (cells.len() / 4);
    // Stays: a while, since a turn takes a whole run of edges.
    let mut e = 0;
    while e < m {
        let u = edges[2 * e] as usize;
        if HIGHEST_NODE < u {
            return;
        }
        let f = fill_run(edges, m, cap, e, tab);
        turn_sides(cells, by_node, u, tab, sides);
        clear_run(edges, e, f, tab);
        e = f;
    }
}
