// The shading call: which side of the surface each node of a grid is on.
#![tactic(auto)]

ghost use Rattle.std.specs.Prelude.{◌≡◌, ◌<◌};
ghost use Rattle.grid.specs.Grid.{built};
ghost use Rattle.grid.specs.Lent.{lent};
ghost use Rattle.grid.specs.claims.Accepted.{Sound};
ghost use Rattle.shading.specs.Marks.{most_nodes};
ghost use Rattle.shading.specs.Answer.{shading_numbers};
ghost use Rattle.shading.specs.Done.{Done};
ghost use Rattle.shading.specs.work.Work.{Writable, byte_by, Sided, ShadedIn};

use answer::{Refusal, Row};
use grid::{Grid, HIGHEST_NODE};
use links::NO_LINK;

mod links;

// So many nodes there may be, and so many bytes the area has.
const MOST_NODES: usize = HIGHEST_NODE + 1;

// What the area has for a node that no cell has.
const UNUSED_BYTE: u8 = 255;

// The byte of node x, by its link and its parent's byte.
fn byte_of(links: &[u16], area: &[u8], x: usize) -> u8
    requires writable { Writable links.now area.now }
    requires x_lt_most_nodes { x < most_nodes }
    ensures { result ≡ byte_by links.now area.now x }
{
    if links[x] == NO_LINK {
        return UNUSED_BYTE;
    }
    let l = links[x] as usize;
    let p = l / 2;
    if p == x {
        0
    } else {
        ((area[p] as usize + l) % 2) as u8
    }
}

// Writes the bytes of all nodes. A parent stands before its children.
fn write_sides(links: &[u16], area: &mut [u8])
    requires { Writable links.now area.old }
    ensures { Sided links.now area.old area.new }
{
    for x in 0..MOST_NODES {
        area[x] = byte_of(links, area, x);
    }
}

// Rows 19 and 20 for a grid that is accepted, and where they refuse nothing, the sides. Keeps 8 KB on the stack.
fn shade_accepted(grid: Grid, area: &mut [u8]) -> Result<(), Refusal>
    requires { Sound (built grid.cells.now grid.edges.now grid.counts.now) }
    ensures { ShadedIn (built grid.entry.cells.now grid.entry.edges.now grid.entry.counts.now) area.old area.new (shading_numbers result) }
{
    if area.len() != MOST_NODES {
        return Err(Row::ShadingArea.at(0));
    }
    let mut links = [NO_LINK; MOST_NODES];
    links::make_roots(grid.cells, &mut links);
    if !links::unite_all(grid.edges, grid.counts, &mut links) {
        return Err(Row::NoShading.at(0));
    }
    write_sides(&links, area);
    Ok(())
}

// The shading call. Keeps as much on the stack as `grid::check` while it runs, and 8 KB afterwards.
pub fn shade(grid: Grid, area: &mut [u8]) -> Result<(), Refusal>
    ensures { Done (lent grid.entry) area.old area.new (shading_numbers result) }
{
    grid::check(grid)?;
    shade_accepted(grid, area)
}
